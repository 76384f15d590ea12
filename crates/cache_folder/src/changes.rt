// Changes of files whose answer is not needed.
ghost use Rattle.std.specs.Prelude.{◌≡◌, Err};
ghost use Rattle.outside.specs.Causes.{HasCause};
ghost use Rattle.outside.specs.Files.{Changes, deleted, renamed};

use outside::{FileFault, Files, Name};
use std::alloc::Global;

// Takes a file away, if it is there.
pub fn delete<F: Files>(alloc: Global, files: &mut F, name: &Name) -> Result<(), FileFault>
    ensures files { Changes (deleted name.now) (F.history files.old) (F.history files.new) result }
    ensures cause { HasCause (F.faults files.old) (F.faults files.new) (result ≡ Err FileFault.Failed) }
{
    files.delete(alloc, name)?;
    Ok(())
}

// Gives a file another name, if it is there.
pub fn rename<F: Files>(
    alloc: Global,
    files: &mut F,
    from: &Name,
    to: &Name,
) -> Result<(), FileFault>
    ensures files { Changes (renamed from.now to.now) (F.history files.old) (F.history files.new) result }
    ensures cause { HasCause (F.faults files.old) (F.faults files.new) (result ≡ Err FileFault.Failed) }
{
    files.rename(alloc, from, to)?;
    Ok(())
}
