//! The first value that can't be stored.

ghost use Rattle.std.specs.Prelude.{◌≡◌, [], true, map, option_map};
ghost use Rattle.std.specs.List.{All, list_any};
ghost use Rattle.col_value.specs.Order.{IsRow};
ghost use Rattle.sql_bound.specs.Bounds.{is_narrow};
ghost use Rattle.sql_bound.specs.Values.{of_row, value_of};
ghost use Rattle.sql_binding.specs.Inserts.{first_such};
ghost use Rattle.db_model.specs.Refusals.{all_pairs, set_pairs};
ghost use Rattle.row_setting.specs.Flaws.{has_flaw};

use crate::flaw::Flaw;
use col_value::{Column, Name, Row};
use expr_value::{Sight, value_of};
use sql_bound::Expr;

/// The name of the first column, in table order, that is set to a value with the flaw.
pub(crate) fn first_flaw<'a>(
    flaw: Flaw,
    columns: &'a [Column],
    sets: &[(usize, Expr)],
    rows: &[Row],
) -> Option<&'a Name>
    requires narrow { All (λ s. is_narrow [] s.1 ≡ true) sets.now }
    requires rows { All IsRow rows.now }
    ensures { option_map (λ n. n.now) result ≡ first_such (has_flaw flaw) (all_pairs sets.now rows.now columns.entry.now) }
{
    for (i, column) in columns.iter().enumerate() {
        if is_flawed(flaw, i, column, sets, rows) {
            return Some(&column.name);
        }
    }
    None
}

/// Whether the column of this place is set to a value with the flaw.
fn is_flawed(
    flaw: Flaw,
    place: usize,
    column: &Column,
    sets: &[(usize, Expr)],
    rows: &[Row],
) -> bool
    requires narrow { All (λ s. is_narrow [] s.1 ≡ true) sets.now }
    requires rows { All IsRow rows.now }
    ensures { result ≡ list_any (has_flaw flaw) (set_pairs sets.now rows.now (place, column.now)) }
{
    for set in sets {
        if set.0 == place && is_flawed_in(flaw, column, &set.1, rows) {
            return true;
        }
    }
    false
}

/// Whether the expression has a value with the flaw in one of the rows.
fn is_flawed_in(flaw: Flaw, column: &Column, value: &Expr, rows: &[Row]) -> bool
    requires narrow { is_narrow [] value.now ≡ true }
    requires rows { All IsRow rows.now }
    ensures { result ≡ list_any (has_flaw flaw) (map (λ row. (column.now, value_of (of_row row) value.now)) rows.now) }
{
    for row in rows {
        if flaw.is_in(column, &value_of(value, &Sight::of_row(row.as_slice()))) {
            return true;
        }
    }
    false
}
