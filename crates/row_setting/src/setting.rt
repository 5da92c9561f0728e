//! What an UPDATE makes of rows.

ghost use Rattle.std.specs.Prelude.{◌≡◌, ◌<◌, [], true, length, map, None, IfErr, IfOk, OnOk};
ghost use Rattle.std.specs.List.{All};
ghost use Rattle.col_value.specs.Order.{IsRow};
ghost use Rattle.name_binder.specs.Refusing.{RefusesBy};
ghost use Rattle.sql_bound.specs.Bounds.{is_narrow};
ghost use Rattle.db_model.specs.Events.{set_row};
ghost use Rattle.db_model.specs.Refusals.{all_pairs, pairs_refusal};

use crate::changing::changed_rows;
use crate::checking::check_values;
use col_value::{Column, Row};
use name_binder::BindFault;
use sql_bound::Expr;
use std::alloc::Global;

/// What an UPDATE makes of rows, or why it is refused for the values that it sets.
pub fn set_rows(
    alloc: Global,
    columns: &[Column],
    sets: &[(usize, Expr)],
    rows: &[Row],
) -> Result<Vec<Row>, BindFault>
    requires narrow { All (λ s. is_narrow [] s.1 ≡ true) sets.now }
    requires places { All (λ s. s.0 < length columns.now) sets.now }
    requires rows { All IsRow rows.now }
    ensures rows { IfOk result (λ v. v.items ≡ map (set_row sets.now) rows.now) }
    ensures valid { IfOk result (λ v. All IsRow v.items) }
    ensures accepted { OnOk result (pairs_refusal (all_pairs sets.now rows.now columns.now) ≡ None) }
    ensures refused { IfErr result (RefusesBy (pairs_refusal (all_pairs sets.now rows.now columns.now))) }
{
    check_values(alloc, columns, sets, rows)?;
    Ok(changed_rows(alloc, sets, rows)?)
}
