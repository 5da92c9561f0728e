//! Two lists of rows, sorted and compared.

ghost use Rattle.std.specs.Prelude.{◌≡◌, IfOk, IfSome, IfNone};
ghost use Rattle.common_laws.specs.Bags.{SameBag};
ghost use Rattle.bag_difference.specs.Differences.{IsLeastDifference};

use crate::ordering::ordered;
use crate::walk::{count_of, first_difference};
use col_value::Stamped;
use std::alloc::{AllocError, Global};

/// A row that stands a different number of times in two lists, and both numbers.
#[derive(Debug, Drop)]
pub struct Difference {
    pub row: Stamped,
    pub first: u64,
    pub second: u64,
}

fn copy_of(alloc: Global, row: &Stamped) -> Result<Stamped, AllocError>
    ensures { IfOk result (λ r. r ≡ row.now) }
{
    Ok(Stamped {
        row: row.row.copy(alloc)?,
        ins: row.ins,
        del: row.del,
    })
}

#[tactic(auto, using(crate::proofs::Walks::same_of))]
/// The least row that stands a different number of times in the two lists; None where they are one bag.
pub fn least_difference(
    alloc: Global,
    xs: Vec<Stamped>,
    ys: Vec<Stamped>,
) -> Result<Option<Difference>, AllocError>
    ensures same { IfOk result (λ o. IfNone o (SameBag xs.items ys.items)) }
    ensures differ { IfOk result (λ o. IfSome o (λ d. IsLeastDifference xs.items ys.items d.row d.first d.second)) }
{
    let first = ordered(alloc, xs.as_slice())?;
    let second = ordered(alloc, ys.as_slice())?;
    match first_difference(first.as_slice(), second.as_slice()) {
        None => Ok(None),
        Some(row) => Ok(Some(Difference {
            row: copy_of(alloc, row)?,
            first: count_of(xs.as_slice(), row),
            second: count_of(ys.as_slice(), row),
        })),
    }
}
