//! The status that a shell ends with.

ghost use Rattle.std.specs.Prelude.{◌≡◌};
ghost use Rattle.vert_cli.specs.Statuses.{status_of};
ghost use Rattle.vert_cli.specs.Statements.{fault_of};

use col_disk::StoreFault;
use col_io::SinkFault;
use std::alloc::AllocError;
use vert_cli::{RunFault, Status};

/// The status of a run that stops for this reason, as `vert` has it.
pub fn status_of(fault: RunFault) -> Status
    ensures { result ≡ status_of fault }
{
    match fault {
        RunFault::Sink => Status::SinkFault,
        RunFault::Disk => Status::DiskFault,
        RunFault::Damaged(name) => Status::Damaged(name),
        RunFault::Memory => Status::Memory,
        RunFault::Read => Status::ReadFault,
        RunFault::Halted => Status::DiskFault,
    }
}

/// A fault of the store, as one of the run.
pub fn fault_of(fault: StoreFault) -> RunFault
    ensures { result ≡ fault_of fault }
{
    match fault {
        StoreFault::Disk => RunFault::Disk,
        StoreFault::Damaged(name) => RunFault::Damaged(name),
        StoreFault::Memory => RunFault::Memory,
    }
}

/// Want of memory, as a fault of the run.
pub fn in_memory<T>(done: Result<T, AllocError>) -> Result<T, RunFault> {
    match done {
        Ok(value) => Ok(value),
        Err(AllocError) => Err(RunFault::Memory),
    }
}

/// What a write came to, as a fault of the run.
pub fn in_sink(done: Result<(), SinkFault>) -> Result<(), RunFault> {
    match done {
        Ok(()) => Ok(()),
        Err(SinkFault::Failed) => Err(RunFault::Sink),
        Err(SinkFault::Memory) => Err(RunFault::Memory),
    }
}

/// Why a shell ends before its input does.
pub fn fault_text(fault: RunFault) -> &'static str {
    match fault {
        RunFault::Sink => "the output could not be written",
        RunFault::Disk | RunFault::Halted => "the folder could not be read or written",
        RunFault::Damaged(_) => "a file of the folder isn't what it has to be",
        RunFault::Memory => "memory is short",
        RunFault::Read => "the input, the script or a load file could not be read",
    }
}
