//! How a run and a statement end.
#![tactic(auto)]

ghost use Rattle.std.specs.Prelude.{◌≡◌, ◌||◌, is_some};
ghost use Rattle.vert_cli.specs.Sessions.{is_of_disk};
ghost use Rattle.vert_cli.specs.Statements.{refusal_in, outcome_of, fault_of, fault_of_step};
ghost use Rattle.vert_cli.specs.Statuses.{code_of, status_of, status_of_end, status_of_run};

use col_disk::StoreFault;
use sql_tree::Refusal;
use store_step::StepFault;
use thiserror::Error;

/// How the program ends.
#[derive(Debug, Clone, Copy, PartialEq, Eq)]
pub enum Status {
    /// Every statement was answered, and none was refused.
    Done,
    /// Every statement was answered, and some was refused.
    Refused,
    /// The words are not of the program's form.
    Usage,
    /// No file has the script's name.
    NoScript,
    /// The sink took no more.
    SinkFault,
    /// The disk failed.
    DiskFault,
    /// The file of this number is not what it has to be.
    Damaged(u64),
    /// There was no memory to go on.
    Memory,
    /// A file could not be read.
    ReadFault,
    /// The script has over 67,108,864 bytes or over 4,096 statements.
    TooLarge,
    /// The folder that was audited doesn't reopen.
    AuditNo,
}

impl Status {
    /// The code that the program ends with: 0 to 10, in the order of the variants.
    pub fn code(&self) -> u8
        ensures { result ≡ code_of self.now }
    {
        match self {
            Status::Done => 0,
            Status::Refused => 1,
            Status::Usage => 2,
            Status::NoScript => 3,
            Status::SinkFault => 4,
            Status::DiskFault => 5,
            Status::Damaged(_) => 6,
            Status::Memory => 7,
            Status::ReadFault => 8,
            Status::TooLarge => 9,
            Status::AuditNo => 10,
        }
    }
}

/// What came of a statement.
#[derive(Debug, Drop)]
pub enum Outcome {
    /// It did what it says.
    Done,
    /// It changed nothing, for this reason.
    Refused(Refusal),
}

impl Outcome {
    // The outcome of a statement that is refused for this reason, if there is one.
    pub(crate) fn of(refusal: Option<Refusal>) -> Outcome
        ensures { result ≡ outcome_of refusal }
    {
        match refusal {
            None => Outcome::Done,
            Some(why) => Outcome::Refused(why),
        }
    }

    // Whether it was refused.
    pub(crate) fn is_refused(&self) -> bool
        ensures { result ≡ is_some (refusal_in self.now) }
    {
        match self {
            Outcome::Done => false,
            Outcome::Refused(_) => true,
        }
    }
}

/// Why a run stopped at a statement.
#[derive(Debug, Clone, Copy, PartialEq, Eq, Error)]
pub enum RunFault {
    /// The sink took no more; the statement has taken effect.
    #[error("the output could not be written")]
    Sink,
    /// The disk failed.
    #[error("the disk failed")]
    Disk,
    /// The file of this number is not what it has to be.
    #[error("file {0} isn't what it has to be")]
    Damaged(u64),
    /// There was no memory to go on.
    #[error("memory is short")]
    Memory,
    /// A file could not be read.
    #[error("a file could not be read")]
    Read,
    /// The disk failed at an earlier statement.
    #[error("the disk failed at an earlier statement")]
    Halted,
}

impl RunFault {
    // The status of a run that stops for this reason.
    pub(crate) fn status(self) -> Status
        ensures { result ≡ status_of self }
    {
        match self {
            RunFault::Sink => Status::SinkFault,
            RunFault::Disk => Status::DiskFault,
            RunFault::Damaged(name) => Status::Damaged(name),
            RunFault::Memory => Status::Memory,
            RunFault::Read => Status::ReadFault,
            RunFault::Halted => Status::DiskFault,
        }
    }

    // Whether the disk failed.
    pub(crate) fn is_of_disk(self) -> bool
        ensures { result ≡ is_of_disk self }
    {
        match self {
            RunFault::Sink => false,
            RunFault::Disk => true,
            RunFault::Damaged(_) => false,
            RunFault::Memory => false,
            RunFault::Read => false,
            RunFault::Halted => false,
        }
    }
}

// A fault of the store, as one of the run.
pub(crate) fn fault_of(fault: StoreFault) -> RunFault
    ensures { result ≡ fault_of fault }
{
    match fault {
        StoreFault::Disk => RunFault::Disk,
        StoreFault::Damaged(name) => RunFault::Damaged(name),
        StoreFault::Memory => RunFault::Memory,
    }
}

// A fault of a statement text, as one of the run.
pub(crate) fn fault_of_step(fault: StepFault) -> RunFault
    ensures { result ≡ fault_of_step fault }
{
    match fault {
        StepFault::Read => RunFault::Read,
        StepFault::Disk => RunFault::Disk,
        StepFault::Damaged(name) => RunFault::Damaged(name),
        StepFault::Memory => RunFault::Memory,
    }
}

// The status of a run that came to its end.
pub(crate) fn status_of_run(refused: bool) -> Status
    ensures { result ≡ status_of_run refused }
{
    if refused {
        Status::Refused
    } else {
        Status::Done
    }
}

// The status of a run that came to its end, or stopped.
pub(crate) fn status_of_end(ended: Result<bool, RunFault>) -> Status
    ensures { result ≡ status_of_end ended }
{
    match ended {
        Ok(refused) => status_of_run(refused),
        Err(fault) => fault.status(),
    }
}

// One or the other.
pub(crate) fn either(one: bool, other: bool) -> bool
    ensures { result ≡ (one || other) }
{
    one || other
}
