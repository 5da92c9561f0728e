ghost use Rattle.std.specs.Prelude.{◌≡◌};

use std::alloc::{AllocError, AllocFailed};
use thiserror::Error;

/// Why there are no groups: in one of them the magnitudes of the values of one SUM add to more than a result holds, or there was
/// no memory.
#[derive(Clone, Copy, Debug, PartialEq, Eq, Error)]
pub enum GroupFault {
    #[error("a sum is out of range")]
    SumOutOfRange,
    #[error("memory is short")]
    Memory,
}

impl From<AllocError> for GroupFault {
    ghost use Rattle.exec_group.specs.declared.fault.GroupFault.TheVariants.{Memory};

    ghost from_gives = { λ _ e. e ≡ Memory };

    fn from(_: AllocError) -> GroupFault {
        GroupFault::Memory
    }
}

impl<T: Drop> From<AllocFailed<T>> for GroupFault {
    ghost use Rattle.exec_group.specs.declared.fault.GroupFault.TheVariants.{Memory};

    ghost from_gives = { λ _ e. e ≡ Memory };

    fn from(_: AllocFailed<T>) -> GroupFault {
        GroupFault::Memory
    }
}
