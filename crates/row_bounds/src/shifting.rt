//! The bounds that conditions set to the columns of a row from a place on.

ghost use Rattle.std.specs.Prelude.{◌≡◌, ◌<◌, ◌+◌, ℕ, true, Contains, List, Some, drop, IfOk};
ghost use Rattle.std.specs.List.{All};
ghost use Rattle.std.specs.Option.{IfSome};
ghost use Rattle.col_value.specs.declared.value.Value.{Value as Item};
ghost use Rattle.sql_bound.specs.Outputs.{is_kept};
ghost use Rattle.row_bounds.specs.Bounds.{lies_in, within};
ghost use Rattle.row_bounds.specs.Setting.{unmoved, IsSet};
ghost use Rattle.row_bounds.specs.declared.bound.Bound.{Bound as Between};

use crate::bound::Bound;
use crate::finding::bounds_of;
use sql_bound::Expr;
use std::alloc::{AllocError, Global};

/// The bounds that conditions set to so many columns of a row from a place on: the columns of one FROM item among those of all. A bound's
/// column is counted from that place. More columns than a machine's number counts are answered as want of memory.
pub fn bounds_from(
    alloc: Global,
    keep: &[Expr],
    first: usize,
    columns: usize,
) -> Result<Vec<Bound>, AllocError>
    ensures own { IfOk result (λ v. All (λ b. b.column < columns) v.items) }
    ensures kept { IfOk result (λ v. (row : List Item) → is_kept keep.now row ≡ true → within v.items (drop first row) ≡ true) }
    ensures set { IfOk result (λ v. (b : Between) → IsSet keep.now first columns b → Contains v.items b) }
{
    match first.checked_add(columns) {
        Some(end) => shifted(alloc, bounds_of(alloc, keep, end)?, first),
        None => Err(AllocError),
    }
}

/// The bounds of columns from a place on, counted from there.
fn shifted(alloc: Global, bounds: Vec<Bound>, first: usize) -> Result<Vec<Bound>, AllocError>
    ensures own { IfOk result (λ v. (n : ℕ) → All (λ b. b.column < first + n) bounds.items → All (λ b. b.column < n) v.items) }
    ensures kept { IfOk result (λ v. (row : List Item) → within bounds.items row ≡ true → within v.items (drop first row) ≡ true) }
    ensures moved { IfOk result (λ v. (b : Between) → Contains bounds.items (unmoved first b) → Contains v.items b) }
{
    let mut out = Vec::new(alloc);
    for bound in bounds {
        if let Some(bound) = shift(bound, first) {
            out.push(bound)?;
        }
    }
    Ok(out)
}

/// The bound of a column from a place on, counted from there.
fn shift(bound: Bound, first: usize) -> Option<Bound>
    ensures column { IfSome result (λ b. bound.column ≡ first + b.column) }
    ensures same { IfSome result (λ b. (v : Item) → lies_in bound v ≡ true → lies_in b v ≡ true) }
    ensures moved { (b : Between) → bound ≡ unmoved first b → result ≡ Some b }
{
    let Bound {
        column,
        least,
        greatest,
    } = bound;
    match column.checked_sub(first) {
        Some(column) => Some(Bound {
            column,
            least,
            greatest,
        }),
        None => None,
    }
}
