// The files of a folder of the system, by the trait `Files` of the outside.
#![tactic(auto)]

mod files;

pub use files::FolderFiles;

#[cfg(test)]
mod tests;
