// Why a call of the cache is refused.
use outside::{FileFault, Files};

/// Why a call of the cache failed.
#[derive(Clone, Copy, Debug, PartialEq, Eq)]
pub enum DiskFault {
    /// A call on the files failed, and was counted there.
    Failed,
    /// Want of memory.
    Memory,
}

impl From<FileFault> for DiskFault {
    ghost use Rattle.std.specs.Prelude.{◌≡◌};
    ghost use Rattle.disk_lru.specs.Faults.{disk_fault};

    ghost from_gives = { λ fault made. made ≡ disk_fault fault };

    fn from(fault: FileFault) -> DiskFault {
        match fault {
            FileFault::Failed => DiskFault::Failed,
            FileFault::Memory => DiskFault::Memory,
        }
    }
}

/// Why an edit is not begun.
#[derive(Clone, Copy, Debug, PartialEq, Eq)]
pub enum BeginRefused {
    /// The key is under edit, by this number.
    Busy(u64),
    /// 16 edits are open, or there are 16,400 keys and this one is new.
    TooMany,
    /// A call on the files failed, and was counted there.
    Failed,
    /// Want of memory.
    Memory,
}

impl From<FileFault> for BeginRefused {
    ghost use Rattle.std.specs.Prelude.{◌≡◌};
    ghost use Rattle.disk_lru.specs.Faults.{begin_fault};

    ghost from_gives = { λ fault made. made ≡ begin_fault fault };

    fn from(fault: FileFault) -> BeginRefused {
        match fault {
            FileFault::Failed => BeginRefused::Failed,
            FileFault::Memory => BeginRefused::Memory,
        }
    }
}

/// Why an entry is not removed.
#[derive(Clone, Copy, Debug, PartialEq, Eq)]
pub enum RemoveRefused {
    /// The key is under edit, by this number.
    Busy(u64),
    /// A call on the files failed, and was counted there.
    Failed,
    /// Want of memory.
    Memory,
}

impl From<FileFault> for RemoveRefused {
    ghost use Rattle.std.specs.Prelude.{◌≡◌};
    ghost use Rattle.disk_lru.specs.Faults.{remove_fault};

    ghost from_gives = { λ fault made. made ≡ remove_fault fault };

    fn from(fault: FileFault) -> RemoveRefused {
        match fault {
            FileFault::Failed => RemoveRefused::Failed,
            FileFault::Memory => RemoveRefused::Memory,
        }
    }
}

/// A cache that was not started, with its files as the steps up to the fault left them.
#[derive(Drop)]
pub struct StartRefused<F: Files> {
    pub files: F,
    pub fault: DiskFault,
}
