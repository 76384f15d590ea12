// How the counts follow the changes of a table, each as the contract of a function that does nothing.
ghost use Rattle.load_table.specs.LoadLaws.{OrderIsTotal, OnlyEqualNamesTie, CountsOneMore, CountsOneLess, NoneWaits, OthersWait, HoldersJoin, OwnersKeep};

/// Loads are told apart by owner and number, so that all laws of finite maps hold of them.
pub fn names_are_ordered()
    ensures total { OrderIsTotal }
    ensures apart { OnlyEqualNamesTie }
{}

/// A load that is added, or removed, counts one more, or one less, where it is counted at all.
pub fn counts_follow_one_load<C>()
    ensures added { CountsOneMore C }
    ensures removed { CountsOneLess C }
{}

/// Where a job ends, no load waits on it any more and those of other jobs wait on. The loads that waited on it are ready on
/// the resource that it ended with, if any, besides those that were. No owner has more or fewer loads.
pub fn counts_follow_an_end<C>()
    ensures none_waits { NoneWaits C }
    ensures others_wait { OthersWait C }
    ensures holders { HoldersJoin C }
    ensures owners { OwnersKeep C }
{}
