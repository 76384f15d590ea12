// What a load asks for, and the key by which loads are the same or differ.
#![tactic(auto)]

mod bytes;
mod file_key;
mod key_of;
mod key_room;
mod keys;
mod laws;
mod load_spec;
mod text;

pub use bytes::{Which, key_bytes};
pub use file_key::safe_key;
pub use key_of::KeyOf;
pub use key_room::KeyRoom;
pub use keys::{EngineKey, same_key_is_equality};
pub use laws::{file_keys_are_keys, key_bytes_tell_apart};
pub use load_spec::{LoadSpec, Priority, Strategy};
pub use text::Text;

#[cfg(test)]
mod tests;
