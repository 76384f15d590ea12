// Room for what a load asks for, taken before it is wanted.
ghost use Rattle.std.specs.Prelude.{◌≡◌, IfOk};
ghost use Rattle.cache_key.specs.Room.{empty_spec};

use crate::keys::EngineKey;
use crate::load_spec::{LoadSpec, Priority, Strategy};
use crate::text::Text;
use bitmap_kind::{Config, Rule, Transform};
use faults::NoMemory;
use std::alloc::Global;
use std::marker::Model;

/// Room for what a load asks for, which a worker owns and hands in when it takes a job. Contracts see what it
/// shows.
#[derive(Drop)]
pub struct KeyRoom {
    spec: LoadSpec,
}

impl Model for KeyRoom {
    ghost use Rattle.cache_key.specs.declared.load_spec.LoadSpec.{LoadSpec};

    ghost Value = { LoadSpec };

    ghost view = { λ s. s.spec };
}

impl KeyRoom {
    /// Room for the longest key. At first it shows empty texts.
    pub fn new(alloc: Global) -> Result<KeyRoom, NoMemory>
        ensures { IfOk result (λ room. room ≡ empty_spec) }
    {
        let key = EngineKey {
            url: Text::new(alloc, b"")?,
            sig: Text::new(alloc, b"")?,
            width: 1,
            height: 1,
            transform: Transform::Nothing,
            config: Config::Argb8888,
            rule: Rule::AtLeast,
        };
        Ok(KeyRoom {
            spec: LoadSpec {
                key,
                strategy: Strategy::Automatic,
                priority: Priority::Normal,
                skip: false,
                cached: false,
            },
        })
    }

    /// Copies what a load asks for into the room. It takes no memory.
    pub fn fill(&mut self, spec: &LoadSpec)
        ensures { self.new ≡ spec.now }
    {
        self.spec.key.copy_from(&spec.key);
        self.spec.strategy = spec.strategy;
        self.spec.priority = spec.priority;
        self.spec.skip = spec.skip;
        self.spec.cached = spec.cached;
    }

    /// What was copied last.
    pub fn spec(&self) -> &LoadSpec
        ensures { result.now ≡ self.now }
    {
        &self.spec
    }
}
