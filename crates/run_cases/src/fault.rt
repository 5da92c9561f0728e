//! Why a line has no answer.

use col_disk::{DiskFault, StoreFault};
use std::alloc::{AllocError, AllocFailed};

/// Want of memory, a fault of the disk, a file that isn't what it has to be, a statement without an answer, or bytes that are no text.
#[derive(Clone, Copy, Debug)]
pub enum Fault {
    Memory,
    Disk,
    Damaged,
    NoAnswer,
    NoText,
}

impl From<AllocError> for Fault {
    fn from(_fault: AllocError) -> Fault {
        Fault::Memory
    }
}

impl<T: Drop> From<AllocFailed<T>> for Fault {
    fn from(_fault: AllocFailed<T>) -> Fault {
        Fault::Memory
    }
}

impl From<DiskFault> for Fault {
    fn from(fault: DiskFault) -> Fault {
        match fault {
            DiskFault::Memory => Fault::Memory,
            DiskFault::Failed => Fault::Disk,
        }
    }
}

impl From<StoreFault> for Fault {
    fn from(fault: StoreFault) -> Fault {
        match fault {
            StoreFault::Memory => Fault::Memory,
            StoreFault::Disk => Fault::Disk,
            StoreFault::Damaged(_) => Fault::Damaged,
        }
    }
}

impl Fault {
    /// What is printed of it.
    pub fn told(self) -> &'static str {
        match self {
            Fault::Memory => "want of memory",
            Fault::Disk => "the disk failed",
            Fault::Damaged => "a file is damaged",
            Fault::NoAnswer => "no answer",
            Fault::NoText => "no text",
        }
    }
}
