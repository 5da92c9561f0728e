//! What a statement text comes to.

ghost use Rattle.std.specs.Prelude.{◌≡◌};
ghost use Rattle.store_step.specs.Faults.{of_store};

use col_disk::StoreFault;
use sql_tree::Refusal;
use thiserror::Error;

/// What a statement text prints, and why it was refused, if it was.
#[derive(Drop)]
pub struct Answer {
    /// The text that is printed.
    pub text: Vec<u8>,
    /// The refusal whose ERROR line the text is.
    pub refusal: Option<Refusal>,
}

/// Why a statement text was not answered.
#[derive(Debug, Clone, Copy, PartialEq, Eq, Error)]
pub enum StepFault {
    /// A load file could not be read.
    #[error("a load file could not be read")]
    Read,
    /// The disk failed.
    #[error("the disk failed")]
    Disk,
    /// The file of this number is not what it has to be.
    #[error("file {0} isn't what it has to be")]
    Damaged(u64),
    /// There was no memory to go on.
    #[error("memory is short")]
    Memory,
}

impl From<StoreFault> for StepFault {
    fn from(fault: StoreFault) -> StepFault
        ensures { result ≡ of_store fault }
    {
        match fault {
            StoreFault::Disk => StepFault::Disk,
            StoreFault::Damaged(name) => StepFault::Damaged(name),
            StoreFault::Memory => StepFault::Memory,
        }
    }
}
