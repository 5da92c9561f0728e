//! Rows in the order of a container.
//!
//! A first sort goes by the ranks of values (`ranks`), the one that the order is promised of by the values.

ghost use Rattle.std.specs.Prelude.{◌≡◌, length, map, IfOk};
ghost use Rattle.std.specs.List.Sorted.{IsPermutation, IsSorted};
ghost use Rattle.common_laws.specs.Bags.{SameBag};
ghost use Rattle.ros_container.specs.Rows.{AreWide};
ghost use Rattle.container_writer.specs.Ordered.{asked_of, container_cmp, restamp, stamped_of};

use crate::order::{container_order, have_risen};
use crate::packing::{Packed, packed_ranks, packing_of};
use crate::refs::{Keyed, Ranks, StampedRef, StampedValues};
use catalog_types::Projection;
use std::alloc::{AllocError, Global};
use std::cmp::Ordering;

fn by_ranks(a: &Ranks, b: &Ranks) -> Ordering {
    match a.first.cmp(&b.first) {
        Ordering::Equal => a.second.cmp(&b.second),
        order => order,
    }
}

/// Whether the rows stand in the order of a container as they come.
fn are_rising(shape: &Projection, rows: &[StampedRef]) -> bool {
    let mut rest = rows;
    while let [a, later @ ..] = rest {
        if let [b, ..] = later {
            if !have_risen(shape, a.row.as_slice(), b.row.as_slice()) {
                return false;
            }
        }
        rest = later;
    }
    true
}

/// The rows with their ranks by some columns, where each has so many values.
fn with_ranks<'a>(
    alloc: Global,
    rows: Vec<StampedRef<'a>>,
    columns: usize,
    packing: &[Packed],
) -> Result<Vec<Keyed<'a>>, AllocError>
    ensures same { IfOk result (λ v. map restamp v.items ≡ map stamped_of rows.entry.items) }
    ensures wide { IfOk result (λ v. AreWide columns (map asked_of v.items)) }
{
    let mut out = Vec::with_capacity(alloc, rows.len())?;
    for stamped in rows {
        let row = stamped.row.as_slice();
        if row.len() != columns {
            return Err(AllocError);
        }
        let ranks = packed_ranks(row, packing);
        let stamped = StampedValues {
            row,
            ins: stamped.ins,
            del: stamped.del,
        };
        out.push(Keyed { ranks, stamped })?;
    }
    Ok(out)
}

fn near_order(rows: Vec<Keyed<'_>>) -> Result<Vec<Keyed<'_>>, AllocError>
    ensures { IfOk result (λ v. IsPermutation rows.entry.items v.items) }
{
    let mut rows = rows;
    rows.sort_by(|a, b| by_ranks(&a.ranks, &b.ranks))?;
    Ok(rows)
}

fn in_order<'a>(shape: &Projection, rows: Vec<Keyed<'a>>) -> Result<Vec<Keyed<'a>>, AllocError>
    ensures same { IfOk result (λ v. IsPermutation rows.entry.items v.items) }
    ensures ascending { IfOk result (λ v. IsSorted (λ a b. container_cmp shape.now (asked_of a) (asked_of b)) v.items) }
{
    let mut rows = rows;
    rows.sort_by(|a, b| container_order(shape, a, b))?;
    Ok(rows)
}

#[tactic(auto, using(crate::proofs::Orders::same_rows))]
/// The same rows in the order of a container. Where a row doesn't have a value for each column, that is answered as want of memory.
pub fn ordered<'a>(
    alloc: Global,
    shape: &Projection,
    rows: Vec<StampedRef<'a>>,
) -> Result<Vec<Keyed<'a>>, AllocError>
    ensures same { IfOk result (λ v. SameBag (map stamped_of rows.entry.items) (map restamp v.items)) }
    ensures wide { IfOk result (λ v. AreWide (length shape.now.columns) (map asked_of v.items)) }
    ensures ascending { IfOk result (λ v. IsSorted (λ a b. container_cmp shape.now (asked_of a) (asked_of b)) v.items) }
{
    let columns = shape.columns.as_slice().len();
    let packing = if are_rising(shape, rows.as_slice()) {
        Vec::new(alloc)
    } else {
        packing_of(alloc, shape, rows.as_slice())?
    };
    let near = near_order(with_ranks(alloc, rows, columns, packing.as_slice())?)?;
    in_order(shape, near)
}
