// A law that the engine above needs.
ghost use Rattle.active_resources.specs.Changes.{FitsWhereSame, FitsAfterInsert, FitsAfterRemove};

/// A table that fits the keys still fits them where they change at numbers that are not active: in general, where one is
/// put, and where one is taken.
pub fn fits_while_others_change()
    ensures same { FitsWhereSame }
    ensures inserted { FitsAfterInsert }
    ensures removed { FitsAfterRemove }
{}
