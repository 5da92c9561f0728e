ghost use Rattle.std.specs.Prelude.{◌≡◌, length, option_map, zip};
ghost use Rattle.std.specs.List.{list_all};
ghost use Rattle.change_binder.specs.Flaws.{has_flaw};
ghost use Rattle.sql_binding.specs.Inserts.{pairs, wrong_count, is_of_column, first_such};
ghost use Rattle.sql_binding.specs.Firsts.{first_given};

use crate::flaw::{Flaw, is_of_column};
use col_value::{Column, Name, Wide, WideRow};

/// How many values the first row has that has another number of them than there are columns.
pub(crate) fn wrong_count(columns: &[Column], rows: &[WideRow]) -> Option<usize>
    ensures { option_map (λ n. (n, length columns.now)) result ≡ first_given (wrong_count columns.now) rows.now }
{
    for row in rows {
        let count = row.as_slice().len();
        if count != columns.len() {
            return Some(count);
        }
    }
    None
}

/// Whether each literal is of its column's kind.
pub(crate) fn are_of_columns(columns: &[Column], rows: &[WideRow]) -> bool
    ensures { result ≡ list_all is_of_column (pairs columns.now rows.now) }
{
    for row in rows {
        if !is_of_columns(columns, row.as_slice()) {
            return false;
        }
    }
    true
}

fn is_of_columns(columns: &[Column], row: &[Wide]) -> bool
    ensures { result ≡ list_all is_of_column (zip columns.now row.now) }
{
    for (i, column) in columns.iter().enumerate() {
        let Some(literal) = row.get(i) else {
            return true;
        };
        if !is_of_column(column, literal) {
            return false;
        }
    }
    true
}

/// The name of the column of the first literal that has the flaw.
pub(crate) fn first_flaw<'a>(
    flaw: Flaw,
    columns: &'a [Column],
    rows: &[WideRow],
) -> Option<&'a Name>
    ensures { option_map (λ n. n.now) result ≡ first_such (has_flaw flaw) (pairs columns.entry.now rows.now) }
{
    for row in rows {
        if let Some(name) = flaw_in(flaw, columns, row.as_slice()) {
            return Some(name);
        }
    }
    None
}

fn flaw_in<'a>(flaw: Flaw, columns: &'a [Column], row: &[Wide]) -> Option<&'a Name>
    ensures { option_map (λ n. n.now) result ≡ first_such (has_flaw flaw) (zip columns.entry.now row.now) }
{
    for (i, column) in columns.iter().enumerate() {
        let Some(literal) = row.get(i) else {
            return None;
        };
        if flaw.is_in(column, literal) {
            return Some(&column.name);
        }
    }
    None
}
