// The outside: what is read, written and fetched, as objects that are handed in.
#![tactic(auto)]

mod calls;
mod changes;
mod files;
mod folder_path;
mod folder_source;
mod inputs;
mod memory_files;
mod memory_input;
mod memory_sink;
mod memory_source;
mod names;
mod sinks;
mod sources;
mod stored;
mod streams;
mod told;

pub use faults::{Failed, NoMemory};
pub use files::{FileFault, Files};
pub use folder_path::is_part_name;
pub use folder_source::{FolderSource, LONGEST_FILE};
pub use inputs::Input;
pub use memory_files::MemoryFiles;
pub use memory_input::MemoryInput;
pub use memory_sink::MemorySink;
pub use memory_source::{Content, MemorySource};
pub use names::{LONGEST_NAME, Name};
pub use sinks::{Sink, WriteFault};
pub use sources::{FetchFault, Source};
pub use streams::{RealInput, RealSink};
pub use told::Told;

#[cfg(test)]
mod files_tests;
#[cfg(test)]
mod tests;
