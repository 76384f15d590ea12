// Keys by numbers.
ghost use Rattle.std.specs.Prelude.{◌≡◌, Some, IsSome};
ghost use Rattle.std.specs.FinMap.{get};
ghost use Rattle.cache_key.specs.KeyOf.{KeyMap};

use crate::keys::EngineKey;

/// A table that has the keys of numbers, as the engine's resources are one.
pub trait KeyOf {
    ghost keys: { Self → KeyMap };

    /// The key of a number that has one.
    fn key(&self, number: u64) -> &EngineKey
        requires known { IsSome (get (keys self.now) number) }
        ensures key { get (keys self.now) number ≡ Some result.now };
}
