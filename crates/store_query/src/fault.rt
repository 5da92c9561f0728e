//! Why a query has no answer.

ghost use Rattle.std.specs.Prelude.{◌≡◌};
ghost use Rattle.store_query.specs.Faults.{of_query, of_store};

use col_disk::StoreFault;
use query_run::QueryFault;
use thiserror::Error;

/// Why a query over a store has no answer: in some group the magnitudes of the values of one SUM add to more than a result holds; the
/// disk failed; the file of this name isn't what it has to be; memory is short.
#[derive(Clone, Copy, Debug, PartialEq, Eq, Error)]
pub enum SelectFault {
    #[error("a sum is out of range")]
    SumOutOfRange,
    #[error("the disk failed")]
    Disk,
    #[error("file {0} isn't what it has to be")]
    Damaged(u64),
    #[error("memory is short")]
    Memory,
}

impl From<StoreFault> for SelectFault {
    ghost from_gives = { λ fault e. e ≡ of_store fault };

    fn from(fault: StoreFault) -> SelectFault {
        match fault {
            StoreFault::Disk => SelectFault::Disk,
            StoreFault::Damaged(name) => SelectFault::Damaged(name),
            StoreFault::Memory => SelectFault::Memory,
        }
    }
}

impl From<QueryFault> for SelectFault {
    ghost from_gives = { λ fault e. e ≡ of_query fault };

    fn from(fault: QueryFault) -> SelectFault {
        match fault {
            QueryFault::SumOutOfRange => SelectFault::SumOutOfRange,
            QueryFault::Memory => SelectFault::Memory,
        }
    }
}
