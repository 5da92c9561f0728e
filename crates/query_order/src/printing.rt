//! Rows in printed order.

ghost use Rattle.std.specs.Prelude.{◌≡◌, take, IfOk};
ghost use Rattle.std.specs.List.Sorted.{IsPermutation, IsSorted};
ghost use Rattle.sql_bound.specs.Printed.{printed_cmp, limited, IsPrinted};

use crate::compare::compare;
use col_value::WideRow;
use std::alloc::AllocError;

fn ascending(rows: Vec<WideRow>, order: &[(usize, bool)]) -> Result<Vec<WideRow>, AllocError>
    ensures same { IfOk result (λ v. IsPermutation rows.items v.items) }
    ensures sorted { IfOk result (λ v. IsSorted (printed_cmp order.now) v.items) }
{
    let mut rows = rows;
    rows.sort_by(|a, b| compare(a, b, order))?;
    Ok(rows)
}

fn front(rows: Vec<WideRow>, count: u128) -> Vec<WideRow>
    ensures { result.items ≡ take count rows.items }
{
    let mut rows = rows;
    if count < rows.len() as u128 {
        rows.truncate(count as usize);
    }
    rows
}

/// The rows by the keys of ORDER BY (an output column, and whether DESC stands behind it), those that tie by all their
/// values; with a limit the first of them. A value that a row lacks counts as NULL.
pub fn order_rows(
    rows: Vec<WideRow>,
    order: &[(usize, bool)],
    limit: Option<u128>,
) -> Result<Vec<WideRow>, AllocError>
    ensures { IfOk result (λ v. IsPrinted order.now limit rows.items v.items) }
{
    let sorted = ascending(rows, order)?;
    match limit {
        None => Ok(sorted),
        Some(count) => Ok(front(sorted, count)),
    }
}
