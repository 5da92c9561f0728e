ghost use Rattle.std.specs.Prelude.{◌≡◌, ◌≤◌, ℕ, Bool, Option, IfOk, OnOk};
ghost use Rattle.col_disk.specs.Crashes.{Image, Laws, Settles};
ghost use Rattle.common_laws.specs.Causes.{HasCause};
ghost use Rattle.common_laws.specs.Maps.{Contents};
ghost use Rattle.col_disk.specs.declared.disk.DiskFault.TheVariants.{Memory};
ghost use Rattle.col_disk.specs.declared.disk.StoreFault.TheVariants.{Memory as no_memory};
ghost use Rattle.col_disk.specs.Faults.{store_fault};
ghost use Rattle.col_disk.specs.Calls.{AnswersSize, AnswersPart, AnswersNames, Keeps, Writes, Removes};

use std::alloc::{AllocError, AllocFailed, Global};
use thiserror::Error;

/// Why a call of a disk gives no answer: the disk failed, or memory is short.
#[derive(Clone, Copy, Debug, PartialEq, Eq, Error)]
pub enum DiskFault {
    #[error("the disk failed")]
    Failed,
    #[error("memory is short")]
    Memory,
}

impl From<AllocError> for DiskFault {
    ghost from_gives = { λ _ e. e ≡ Memory };

    fn from(_: AllocError) -> DiskFault {
        DiskFault::Memory
    }
}

impl<T: Drop> From<AllocFailed<T>> for DiskFault {
    ghost from_gives = { λ _ e. e ≡ Memory };

    fn from(_: AllocFailed<T>) -> DiskFault {
        DiskFault::Memory
    }
}

/// Why a store's call over a disk gives no answer: the disk failed; the file of this name isn't what it has to be;
/// memory is short.
#[derive(Clone, Copy, Debug, PartialEq, Eq, Error)]
pub enum StoreFault {
    #[error("the disk failed")]
    Disk,
    #[error("file {0} isn't what it has to be")]
    Damaged(u64),
    #[error("memory is short")]
    Memory,
}

impl From<AllocError> for StoreFault {
    ghost from_gives = { λ _ e. e ≡ no_memory };

    fn from(_: AllocError) -> StoreFault {
        StoreFault::Memory
    }
}

impl<T: Drop> From<AllocFailed<T>> for StoreFault {
    ghost from_gives = { λ _ e. e ≡ no_memory };

    fn from(_: AllocFailed<T>) -> StoreFault {
        StoreFault::Memory
    }
}

impl From<DiskFault> for StoreFault {
    ghost from_gives = { λ fault e. e ≡ store_fault fault };

    fn from(fault: DiskFault) -> StoreFault {
        match fault {
            DiskFault::Failed => StoreFault::Disk,
            DiskFault::Memory => StoreFault::Memory,
        }
    }
}

/// Names, each with its bytes.
///
/// `Failed` comes only where the count of faults rose in that call, and Ok only where it didn't. `Memory` changes
/// nothing. No call changes whether the disk tells its contents.
pub trait Disk {
    /// The bytes of each name that is there, if the disk tells them.
    ghost holds: { Self → Option Contents };

    /// How often the disk has failed. The count stays at 2^64 - 1 once it is there.
    ghost faults: { Self → ℕ };

    /// The moment, as a number that doesn't fall.
    ghost clock: { Self → ℕ };

    /// What a crash at some moment from that one on may have left. Since the moment that is now: what a crash now may leave.
    ghost since: { Self → ℕ → Contents → Type 0 };

    /// Whether something was ever written or removed.
    ghost changed: { Self → Bool };

    /// What is told is an image, and what may be left since a moment may be left since an earlier one.
    ghost laws: { Laws holds since clock };

    /// The number of bytes that the name holds, or None where it is absent.
    fn size(&mut self, name: u64) -> Result<Option<u64>, DiskFault>
        ensures answer { IfOk result (AnswersSize name (holds self.old)) }
        ensures keeps { Keeps holds faults since clock changed self.old self.new }
        ensures cause { HasCause DiskFault.Failed (faults self.old) (faults self.new) result }
        ensures unfailed { OnOk result (faults self.new ≡ faults self.old) };

    /// At most `len` bytes of the name, from byte `at` on: fewer only at the end. None where the name is absent.
    fn read(
        &mut self,
        alloc: Global,
        name: u64,
        at: u64,
        len: usize,
    ) -> Result<Option<Vec<u8>>, DiskFault>
        ensures answer { IfOk result (AnswersPart name at len (holds self.old)) }
        ensures keeps { Keeps holds faults since clock changed self.old self.new }
        ensures cause { HasCause DiskFault.Failed (faults self.old) (faults self.new) result }
        ensures unfailed { OnOk result (faults self.new ≡ faults self.old) };

    /// Makes the name hold exactly these bytes. After `Failed` it is absent or holds anything.
    fn write(&mut self, name: u64, bytes: &[u8]) -> Result<(), DiskFault>
        ensures writes { Writes holds faults since clock changed name bytes.now self.old self.new result }
        ensures cause { HasCause DiskFault.Failed (faults self.old) (faults self.new) result }
        ensures unfailed { OnOk result (faults self.new ≡ faults self.old) };

    /// Makes the name absent. After `Failed` it is absent or as it was.
    fn remove(&mut self, name: u64) -> Result<(), DiskFault>
        ensures removes { Removes holds faults since clock changed name self.old self.new result }
        ensures cause { HasCause DiskFault.Failed (faults self.old) (faults self.new) result }
        ensures unfailed { OnOk result (faults self.new ≡ faults self.old) };

    /// The names that are there, in ascending order.
    fn names(&mut self, alloc: Global) -> Result<Vec<u64>, DiskFault>
        ensures answer { IfOk result (λ v. AnswersNames (holds self.old) v.items) }
        ensures keeps { Keeps holds faults since clock changed self.old self.new }
        ensures cause { HasCause DiskFault.Failed (faults self.old) (faults self.new) result }
        ensures unfailed { OnOk result (faults self.new ≡ faults self.old) };

    /// After Ok, what was written and removed until now outlasts a crash. `Memory` comes only where nothing ever was.
    fn sync(&mut self) -> Result<(), DiskFault>
        ensures settles { Settles (holds self.old) (Image since clock self.new) (changed self.old) result }
        ensures keeps { Keeps holds faults since clock changed self.old self.new }
        ensures cause { HasCause DiskFault.Failed (faults self.old) (faults self.new) result }
        ensures unfailed { OnOk result (faults self.new ≡ faults self.old) };
}
