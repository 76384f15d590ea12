//! Words over finite maps that std lacks, and their laws. There is no code in it but the laws.
#![tactic(auto)]

#[cfg(test)]
mod worked;

ghost use Rattle.finite_maps.specs.MapLaws.{TotalOfInsert, TotalOfReplace, TotalOfRemove, FirstIsLeast, NoneIsFirst, FoundChanged, TotalOfChanged, FoundModified};

/// How a sum over the entries of a map changes with one entry.
pub fn totals_follow_changes<K, X>()
    ensures inserted { TotalOfInsert K X }
    ensures replaced { TotalOfReplace K X }
    ensures removed { TotalOfRemove K X }
{}

/// The first key that passes a test is the least one that does, and there is none exactly where no entry passes.
pub fn first_key_is_least<K, X>()
    ensures least { FirstIsLeast K X }
    ensures none { NoneIsFirst K X }
{}

/// Where each value is changed, each is found changed, and a sum is that of the changed values.
pub fn changed_values_are_found<K, X, Y>()
    ensures found { FoundChanged K X Y }
    ensures sum { TotalOfChanged K X Y }
{}

/// Where the value at one key is changed, it is found changed, and what the other keys have stays.
pub fn one_value_is_changed<K, X>()
    ensures { FoundModified K X }
{}
