ghost use Rattle.std.specs.Prelude.{◌≡◌};
ghost use Rattle.sql_phrases.specs.declared.stop.Stop.TheVariants.{Memory};

use std::alloc::{AllocError, AllocFailed};
use thiserror::Error;

/// Why a reader took nothing.
#[derive(Clone, Copy, Debug, Error)]
pub enum Stop {
    /// The first of the tokens that are left is wrong, or there is none where one is wanted.
    #[error("another token is wanted here")]
    Here,
    #[error("memory is short")]
    Memory,
}

impl From<AllocError> for Stop {
    ghost from_gives = { λ _ e. e ≡ Memory };

    fn from(_: AllocError) -> Self {
        Stop::Memory
    }
}

impl<T: Drop> From<AllocFailed<T>> for Stop {
    ghost from_gives = { λ _ e. e ≡ Memory };

    fn from(_: AllocFailed<T>) -> Self {
        Stop::Memory
    }
}
