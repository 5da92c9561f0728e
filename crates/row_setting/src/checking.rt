//! Values that are refused.

ghost use Rattle.std.specs.Prelude.{◌≡◌, [], true, None, IfErr, OnOk};
ghost use Rattle.std.specs.List.{All};
ghost use Rattle.col_value.specs.Order.{IsRow};
ghost use Rattle.name_binder.specs.Refusing.{RefusesBy};
ghost use Rattle.sql_bound.specs.Bounds.{is_narrow};
ghost use Rattle.db_model.specs.Refusals.{all_pairs, pairs_refusal};
ghost use Rattle.row_setting.specs.Flaws.{flaw_refusal};

use crate::flaw::Flaw;
use crate::flaws::first_flaw;
use col_value::{Column, Row};
use name_binder::BindFault;
use sql_bound::Expr;
use std::alloc::Global;

/// Refuses values that can't be stored.
pub(crate) fn check_values(
    alloc: Global,
    columns: &[Column],
    sets: &[(usize, Expr)],
    rows: &[Row],
) -> Result<(), BindFault>
    requires narrow { All (λ s. is_narrow [] s.1 ≡ true) sets.now }
    requires rows { All IsRow rows.now }
    ensures ok { OnOk result (pairs_refusal (all_pairs sets.now rows.now columns.now) ≡ None) }
    ensures refused { IfErr result (RefusesBy (pairs_refusal (all_pairs sets.now rows.now columns.now))) }
{
    check_flaw(alloc, Flaw::Range, columns, sets, rows)?;
    check_flaw(alloc, Flaw::Length, columns, sets, rows)?;
    check_flaw(alloc, Flaw::Null, columns, sets, rows)
}

/// Refuses a value with this flaw.
fn check_flaw(
    alloc: Global,
    flaw: Flaw,
    columns: &[Column],
    sets: &[(usize, Expr)],
    rows: &[Row],
) -> Result<(), BindFault>
    requires narrow { All (λ s. is_narrow [] s.1 ≡ true) sets.now }
    requires rows { All IsRow rows.now }
    ensures ok { OnOk result (flaw_refusal flaw (all_pairs sets.now rows.now columns.now) ≡ None) }
    ensures refused { IfErr result (RefusesBy (flaw_refusal flaw (all_pairs sets.now rows.now columns.now))) }
{
    match first_flaw(flaw, columns, sets, rows) {
        None => Ok(()),
        Some(name) => Err(flaw.naming().refuse(alloc, name.as_slice())),
    }
}
