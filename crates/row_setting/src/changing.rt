//! Rows with columns set.

ghost use Rattle.std.specs.Prelude.{◌≡◌, [], true, map, slice_set, IfOk};
ghost use Rattle.std.specs.List.{All};
ghost use Rattle.col_value.specs.Order.{IsRow, IsValue};
ghost use Rattle.expr_value.specs.Worths.{wide_of};
ghost use Rattle.sql_bound.specs.Bounds.{is_narrow};
ghost use Rattle.sql_binding.specs.Inserts.{narrowed};
ghost use Rattle.db_model.specs.Events.{set_row};
ghost use Rattle.row_setting.specs.Storing.{AreStorable};

use col_value::{List, Row, Value};
use expr_value::{Sight, Worth, value_of};
use sql_bound::Expr;
use std::alloc::{AllocError, Global};

/// The rows, each with the columns set to what the expressions are worth in it.
pub(crate) fn changed_rows(
    alloc: Global,
    sets: &[(usize, Expr)],
    rows: &[Row],
) -> Result<Vec<Row>, AllocError>
    requires narrow { All (λ s. is_narrow [] s.1 ≡ true) sets.now }
    requires rows { All IsRow rows.now }
    requires storable { All (AreStorable sets.now) rows.now }
    ensures { IfOk result (λ v. v.items ≡ map (set_row sets.now) rows.now) }
{
    let mut out = Vec::with_capacity(alloc, rows.len())?;
    for row in rows {
        out.push(changed_row(alloc, sets, row)?)?;
    }
    Ok(out)
}

/// A row with the columns set: each expression looks at the row as it was.
fn changed_row(alloc: Global, sets: &[(usize, Expr)], row: &Row) -> Result<Row, AllocError>
    requires narrow { All (λ s. is_narrow [] s.1 ≡ true) sets.now }
    requires row { IsRow row.now }
    requires storable { AreStorable sets.now row.now }
    ensures { IfOk result (λ r. r ≡ set_row sets.now row.now) }
{
    let sight = Sight::of_row(row.as_slice());
    let mut out = row.copy(alloc)?.into_vec();
    for set in sets {
        let value = narrow(alloc, &value_of(&set.1, &sight))?;
        put(&mut out, set.0, value);
    }
    Ok(List::new(out))
}

/// Puts a value in its place, if the row has it.
fn put(row: &mut Vec<Value>, place: usize, value: Value)
    ensures { row.new.items ≡ slice_set row.old.items place value }
{
    if place < row.len() {
        row[place] = value;
    }
}

/// What a column holds of the value; a text is copied.
fn narrow(alloc: Global, value: &Worth<'_>) -> Result<Value, AllocError>
    requires { IsValue (narrowed (wide_of value.now)) }
    ensures { IfOk result (λ v. v ≡ narrowed (wide_of value.now)) }
{
    match value {
        Worth::Null => Ok(Value::Null),
        Worth::Bool(b) => Ok(Value::Bool(*b)),
        Worth::Int(n) => Ok(Value::Int(*n as i64)),
        Worth::Date(d) => Ok(Value::Date(*d)),
        Worth::Text(t) => Ok(Value::Text(t.copy(alloc)?)),
    }
}
