ghost use Rattle.std.specs.Prelude.{◌≡◌};

use std::alloc::{AllocError, AllocFailed};
use thiserror::Error;

/// Why a window has no values: in some partition the magnitudes of the values of a SUM add to more than a result holds, or there was no
/// memory.
#[derive(Clone, Copy, Debug, PartialEq, Eq, Error)]
pub enum WindowFault {
    #[error("a sum is out of range")]
    SumOutOfRange,
    #[error("memory is short")]
    Memory,
}

impl From<AllocError> for WindowFault {
    ghost use Rattle.exec_window.specs.declared.fault.WindowFault.TheVariants.{Memory};

    ghost from_gives = { λ _ e. e ≡ Memory };

    fn from(_: AllocError) -> WindowFault {
        WindowFault::Memory
    }
}

impl<T: Drop> From<AllocFailed<T>> for WindowFault {
    ghost use Rattle.exec_window.specs.declared.fault.WindowFault.TheVariants.{Memory};

    ghost from_gives = { λ _ e. e ≡ Memory };

    fn from(_: AllocFailed<T>) -> WindowFault {
        WindowFault::Memory
    }
}
