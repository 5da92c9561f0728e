ghost use Rattle.std.specs.Prelude.{◌≡◌, true, [], map, IfOk};
ghost use Rattle.std.specs.List.{All, list_all};
ghost use Rattle.col_value.specs.Order.{IsValue};
ghost use Rattle.sql_bound.specs.Bounds.{bound_of_value, is_narrow};
ghost use Rattle.sql_bound.specs.Outputs.{is_kept};
ghost use Rattle.sql_bound.specs.Values.{of_row, value_of, is_true};

use crate::sight::Sight;
use crate::value::value_of;
use col_value::{List, Value, WideRow};
use sql_bound::Expr;
use std::alloc::{AllocError, Global};

/// Whether a condition is true, and not unknown.
pub fn is_true(e: &Expr, sight: &Sight<'_>) -> bool
    requires narrow { is_narrow (map bound_of_value sight.now.aggs) e.now ≡ true }
    requires rows { All IsValue sight.now.row }
    requires keys { All IsValue sight.now.keys }
    ensures { result ≡ is_true (value_of sight.now e.now) }
{
    value_of(e, sight).is_true()
}

/// Whether all conditions are true on a row.
pub fn are_true(keep: &[Expr], row: &[Value]) -> bool
    requires narrow { All (λ e. is_narrow [] e ≡ true) keep.now }
    requires rows { All IsValue row.now }
    ensures { result ≡ is_kept keep.now row.now }
{
    all_true(keep, &Sight::of_row(row))
}

fn all_true(keep: &[Expr], sight: &Sight<'_>) -> bool
    requires narrow { All (λ e. is_narrow (map bound_of_value sight.now.aggs) e ≡ true) keep.now }
    requires rows { All IsValue sight.now.row }
    requires keys { All IsValue sight.now.keys }
    ensures { result ≡ list_all (λ e. is_true (value_of sight.now e)) keep.now }
{
    for e in keep {
        if !is_true(e, sight) {
            return false;
        }
    }
    true
}

/// The output row of these items over a row.
pub fn items_of(alloc: Global, items: &[Expr], row: &[Value]) -> Result<WideRow, AllocError>
    requires narrow { All (λ e. is_narrow [] e ≡ true) items.now }
    requires rows { All IsValue row.now }
    ensures { IfOk result (λ r. r ≡ map (value_of (of_row row.now)) items.now) }
{
    items_at(alloc, items, &Sight::of_row(row))
}

/// The output row of these items, as they are worth there.
pub fn items_at(alloc: Global, items: &[Expr], sight: &Sight<'_>) -> Result<WideRow, AllocError>
    requires narrow { All (λ e. is_narrow (map bound_of_value sight.now.aggs) e ≡ true) items.now }
    requires rows { All IsValue sight.now.row }
    requires keys { All IsValue sight.now.keys }
    ensures { IfOk result (λ r. r ≡ map (value_of sight.now) items.now) }
{
    let mut out = Vec::with_capacity(alloc, items.len())?;
    for e in items {
        out.push(value_of(e, sight).own(alloc)?)?;
    }
    Ok(List::new(out))
}
