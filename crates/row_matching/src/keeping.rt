//! Pending rows on which a condition is true.

ghost use Rattle.std.specs.Prelude.{◌≡◌, [], true, not, filter, IfOk};
ghost use Rattle.std.specs.List.{All};
ghost use Rattle.col_value.specs.Order.{IsRow};
ghost use Rattle.sql_bound.specs.Bounds.{is_narrow};
ghost use Rattle.sql_bound.specs.Outputs.{is_kept};

use col_value::Row;
use expr_value::are_true;
use sql_bound::Expr;
use std::alloc::{AllocError, Global};

/// The pending rows on which all conditions are true.
pub fn kept_rows(alloc: Global, keep: &[Expr], rows: &[Row]) -> Result<Vec<Row>, AllocError>
    requires narrow { All (λ e. is_narrow [] e ≡ true) keep.now }
    requires rows { All IsRow rows.now }
    ensures kept { IfOk result (λ v. v.items ≡ filter (is_kept keep.now) rows.now) }
    ensures valid { IfOk result (λ v. All IsRow v.items) }
{
    let mut out = Vec::new(alloc);
    for row in rows {
        if are_true(keep, row.as_slice()) {
            out.push(row.copy(alloc)?)?;
        }
    }
    Ok(out)
}

/// The pending rows on which a condition isn't true.
pub fn other_rows(alloc: Global, keep: &[Expr], rows: &[Row]) -> Result<Vec<Row>, AllocError>
    requires narrow { All (λ e. is_narrow [] e ≡ true) keep.now }
    requires rows { All IsRow rows.now }
    ensures others { IfOk result (λ v. v.items ≡ filter (λ row. not (is_kept keep.now row)) rows.now) }
    ensures valid { IfOk result (λ v. All IsRow v.items) }
{
    let mut out = Vec::new(alloc);
    for row in rows {
        if !are_true(keep, row.as_slice()) {
            out.push(row.copy(alloc)?)?;
        }
    }
    Ok(out)
}
