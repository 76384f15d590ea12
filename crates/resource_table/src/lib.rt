//! The engine's resources by their numbers, which tells the table of active resources their keys.
#![tactic(auto)]

mod resource_map;

pub use resource_map::ResourceTable;
