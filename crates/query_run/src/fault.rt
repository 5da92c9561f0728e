ghost use Rattle.std.specs.Prelude.{◌≡◌};

use std::alloc::{AllocError, AllocFailed};
use thiserror::Error;

/// Why a query has no printed list: in some group the magnitudes of the values of one SUM add to more than a result holds, or
/// there was no memory.
#[derive(Clone, Copy, Debug, PartialEq, Eq, Error)]
pub enum QueryFault {
    #[error("a sum is out of range")]
    SumOutOfRange,
    #[error("memory is short")]
    Memory,
}

impl From<AllocError> for QueryFault {
    ghost use Rattle.query_run.specs.declared.fault.QueryFault.TheVariants.{Memory};

    ghost from_gives = { λ _ e. e ≡ Memory };

    fn from(_: AllocError) -> QueryFault {
        QueryFault::Memory
    }
}

impl<T: Drop> From<AllocFailed<T>> for QueryFault {
    ghost use Rattle.query_run.specs.declared.fault.QueryFault.TheVariants.{Memory};

    ghost from_gives = { λ _ e. e ≡ Memory };

    fn from(_: AllocFailed<T>) -> QueryFault {
        QueryFault::Memory
    }
}
