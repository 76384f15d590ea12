// A folder of files.
ghost use Rattle.std.specs.Prelude.{◌≡◌, ℕ, ◌<◌, length, Some, Err, IsSome, is_some};
ghost use Rattle.std.specs.declared.option.Option.{Option};
ghost use Rattle.std.specs.Option.{option_map};
ghost use Rattle.std.specs.FinMap.{get};
ghost use Rattle.outside.specs.Causes.{HasCause};
ghost use Rattle.outside.specs.Files.{FolderHistory, Changes, WhereKnown, IsListing, ReadsFile, made, appended, renamed, deleted};

use crate::names::Name;
use std::alloc::{AllocError, Global};

/// Why a call on files was refused.
#[derive(Clone, Copy, Debug, PartialEq, Eq)]
pub enum FileFault {
    /// The call failed, and was counted. The folder holds one of the contents that the call could pass
    /// through, or what it held before.
    Failed,
    /// Want of memory. Nothing has changed, and no count of faults rises.
    Memory,
}

impl From<AllocError> for FileFault {
    ghost use Rattle.outside.specs.declared.files.FileFault.TheVariants.{Memory};

    ghost from_gives = { λ _ fault. fault ≡ Memory };

    fn from(_error: AllocError) -> FileFault {
        FileFault::Memory
    }
}

/// A folder of files, each with a name and its bytes.
///
/// What it holds is known or not: that of files in memory is, that of a folder of the system isn't. Where it
/// is not known, the clauses on contents say nothing, and those on the cause still hold.
pub trait Files {
    /// What is held, and what was held after each change since the object was made, where it is known. A
    /// stop of the process at any moment leaves what was held at the beginning, or one of the images.
    ghost history: { Self → Option FolderHistory };

    /// How many calls answered `Failed`. It never falls, and stays at 2^64 - 1 once it is there.
    ghost faults: { Self → ℕ };

    /// All names, each once, in any order.
    fn names(&mut self, alloc: Global) -> Result<Vec<Name>, FileFault>
        ensures names { WhereKnown (history self.old) result
            (λ folder names. IsListing names.items folder) }
        ensures same { history self.new ≡ history self.old }
        ensures cause { HasCause (faults self.old) (faults self.new) (result ≡ Err FileFault.Failed) };

    /// The length of the file in bytes, or none exactly where the name is not held.
    fn length(&mut self, alloc: Global, name: &Name) -> Result<Option<u64>, FileFault>
        ensures length { WhereKnown (history self.old) result
            (λ folder found. found ≡ option_map length (get folder name.now)) }
        ensures same { history self.new ≡ history self.old }
        ensures cause { HasCause (faults self.old) (faults self.new) (result ≡ Err FileFault.Failed) };

    /// Moves bytes of the file from the place `at` on to the beginning of the slice, and answers how many:
    /// 0 comes only at or past the file's end. None comes exactly where the name is not held.
    fn read_at(
        &mut self,
        alloc: Global,
        name: &Name,
        at: u64,
        into: &mut [u8],
    ) -> Result<Option<usize>, FileFault>
        requires { 0 < length into.old }
        ensures bytes { WhereKnown (history self.old) result
            (λ folder count. ReadsFile (get folder name.now) at count into.old into.new) }
        ensures same { history self.new ≡ history self.old }
        ensures cause { HasCause (faults self.old) (faults self.new) (result ≡ Err FileFault.Failed) };

    /// Leaves an empty file of the name.
    fn make(&mut self, alloc: Global, name: &Name) -> Result<(), FileFault>
        ensures files { Changes (made name.now) (history self.old) (history self.new) result }
        ensures cause { HasCause (faults self.old) (faults self.new) (result ≡ Err FileFault.Failed) };

    /// Adds the bytes to the end of the file of the name, which is held. Each prefix of the bytes is a
    /// content that the call passes through.
    fn append(&mut self, alloc: Global, name: &Name, bytes: &[u8]) -> Result<(), FileFault>
        requires { (before : FolderHistory) → history self.old ≡ Some before
            → IsSome (get before.held name.now) }
        ensures files { Changes (appended name.now bytes.now) (history self.old) (history self.new) result }
        ensures cause { HasCause (faults self.old) (faults self.new) (result ≡ Err FileFault.Failed) };

    /// Gives the file of the first name the second one, in the place of a file that has it. False comes
    /// exactly where the first name is not held, and then nothing changes.
    fn rename(&mut self, alloc: Global, from: &Name, to: &Name) -> Result<bool, FileFault>
        ensures found { WhereKnown (history self.old) result
            (λ folder found. found ≡ is_some (get folder from.now)) }
        ensures files { Changes (renamed from.now to.now) (history self.old) (history self.new) result }
        ensures cause { HasCause (faults self.old) (faults self.new) (result ≡ Err FileFault.Failed) };

    /// Takes the file of the name away. False comes exactly where the name is not held.
    fn delete(&mut self, alloc: Global, name: &Name) -> Result<bool, FileFault>
        ensures found { WhereKnown (history self.old) result
            (λ folder found. found ≡ is_some (get folder name.now)) }
        ensures files { Changes (deleted name.now) (history self.old) (history self.new) result }
        ensures cause { HasCause (faults self.old) (faults self.new) (result ≡ Err FileFault.Failed) };
}
