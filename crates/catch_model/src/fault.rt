//! Why a catch-up ends.

ghost use Rattle.std.specs.Prelude.{◌≡◌};
ghost use Rattle.catch_model.specs.declared.fault.LinkFault.TheVariants.{Memory};

use col_value::{Name, Stamped};
use std::alloc::{AllocError, AllocFailed};
use thiserror::Error;

/// Why the database behind isn't brought up to the one ahead.
#[derive(Debug, Drop, Error)]
pub enum LinkFault {
    /// The least name of a table that only one of them has, or that has other columns in the other.
    #[error("the tables differ")]
    SchemaDiffers(Name),
    /// The newest epoch of the one behind is later than that of the one ahead.
    #[error("epoch {behind} isn't behind {ahead}")]
    NotBehind { behind: u64, ahead: u64 },
    /// The one ahead tells its history from its ancient history mark on, which is later than the epoch to start from.
    #[error("the history at {at} is gone, it begins at {ahm}")]
    HistoryGone { at: u64, ahm: u64 },
    /// The least table, and in it the least row, in which their common history differs.
    #[error("the histories differ")]
    Differs { table: Name, row: Stamped },
    /// The least epoch to come in which nothing was inserted or deleted.
    #[error("epoch {0} has no change")]
    Gap(u64),
    /// The least epoch to come in which more rows were inserted into one table than a session may have pending.
    #[error("epoch {0} has too many rows")]
    TooMany(u64),
    /// The numbers of files are spent.
    #[error("the numbers of files are spent")]
    NumbersSpent,
    /// The disk behind failed.
    #[error("the disk behind failed")]
    BehindDisk,
    /// The disk ahead failed.
    #[error("the disk ahead failed")]
    AheadDisk,
    /// A file that a catalogue lists is absent or not its spelling.
    #[error("file {0} isn't what it has to be")]
    Damaged(u64),
    /// There was no memory to go on.
    #[error("memory is short")]
    Memory,
}

impl From<AllocError> for LinkFault {
    ghost from_gives = { λ _ e. e ≡ Memory };

    fn from(_: AllocError) -> LinkFault {
        LinkFault::Memory
    }
}

impl<T: Drop> From<AllocFailed<T>> for LinkFault {
    ghost from_gives = { λ _ e. e ≡ Memory };

    fn from(_: AllocFailed<T>) -> LinkFault {
        LinkFault::Memory
    }
}
