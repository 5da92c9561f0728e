//! Stamped rows in their order.
//!
//! That order looks at values which stand in vectors of their own. A first sort by numbers beside each row waits for no memory, and
//! leaves little to do for the one that the order is promised of.

ghost use Rattle.std.specs.Prelude.{◌≡◌, IfOk};
ghost use Rattle.std.specs.List.Sorted.{IsPermutation, IsSorted};
ghost use Rattle.common_laws.specs.Bags.{SameBag};
ghost use Rattle.bag_difference.specs.Differences.{stamped_cmp};
ghost use Rattle.bag_difference.specs.Walks.{rows_of, stamped_of};

use crate::ranks::{Keyed, by_ranks, ranks_of};
use col_value::Stamped;
use std::alloc::{AllocError, Global};
use std::cmp::Ordering;

/// The order of two stamped rows. It takes no memory.
pub fn stamped_order(a: &Stamped, b: &Stamped) -> Ordering
    ensures { result ≡ stamped_cmp a.now b.now }
{
    match a.row.order(&b.row) {
        Ordering::Equal => match a.ins.cmp(&b.ins) {
            Ordering::Equal => a.del.cmp(&b.del),
            order => order,
        },
        order => order,
    }
}

/// The rows with their ranks.
fn with_ranks(alloc: Global, rows: &[Stamped]) -> Result<Vec<Keyed<'_>>, AllocError>
    ensures { IfOk result (λ v. rows_of v.items ≡ rows.now) }
{
    let mut out = Vec::with_capacity(alloc, rows.len())?;
    for stamped in rows {
        let ranks = ranks_of(&stamped.row);
        out.push(Keyed { ranks, stamped })?;
    }
    Ok(out)
}

fn near_order(rows: Vec<Keyed<'_>>) -> Result<Vec<Keyed<'_>>, AllocError>
    ensures { IfOk result (λ v. IsPermutation rows.entry.items v.items) }
{
    let mut rows = rows;
    rows.sort_by(|a, b| by_ranks(&a.ranks, &b.ranks))?;
    Ok(rows)
}

fn in_order(rows: Vec<Keyed<'_>>) -> Result<Vec<Keyed<'_>>, AllocError>
    ensures same { IfOk result (λ v. IsPermutation rows.entry.items v.items) }
    ensures ascending { IfOk result (λ v. IsSorted (λ a b. stamped_cmp (stamped_of a) (stamped_of b)) v.items) }
{
    let mut rows = rows;
    rows.sort_by(|a, b| stamped_order(a.stamped, b.stamped))?;
    Ok(rows)
}

#[tactic(auto, using(crate::proofs::Walks::same_rows, crate::proofs::Walks::sorted_rows))]
/// The same rows in their order.
pub fn ordered(alloc: Global, rows: &[Stamped]) -> Result<Vec<Keyed<'_>>, AllocError>
    ensures same { IfOk result (λ v. SameBag rows.now (rows_of v.items)) }
    ensures ascending { IfOk result (λ v. IsSorted stamped_cmp (rows_of v.items)) }
{
    let near = near_order(with_ranks(alloc, rows)?)?;
    in_order(near)
}
