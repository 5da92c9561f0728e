ghost use Rattle.std.specs.Prelude.{◌≡◌, IfOk, map};
ghost use Rattle.std.specs.List.{All};
ghost use Rattle.col_value.specs.Order.{IsValue};
ghost use Rattle.change_binder.specs.Flaws.{AreStored};
ghost use Rattle.sql_binding.specs.Inserts.{narrowed};

use col_value::{List, Row, Value, Wide, WideRow};
use std::alloc::{AllocError, Global};

/// The rows of a table that these literals make; each text is copied once.
pub(crate) fn narrow_rows(alloc: Global, rows: &[WideRow]) -> Result<Vec<Row>, AllocError>
    requires { All AreStored rows.now }
    ensures { IfOk result (λ v. v.items ≡ map (map narrowed) rows.now) }
{
    let mut out = Vec::with_capacity(alloc, rows.len())?;
    for row in rows {
        out.push(narrow_row(alloc, row.as_slice())?)?;
    }
    Ok(out)
}

fn narrow_row(alloc: Global, row: &[Wide]) -> Result<Row, AllocError>
    requires { AreStored row.now }
    ensures { IfOk result (λ r. r ≡ map narrowed row.now) }
{
    let mut out = Vec::with_capacity(alloc, row.len())?;
    for literal in row {
        out.push(narrow(alloc, literal)?)?;
    }
    Ok(List::new(out))
}

/// What a column holds of a literal.
pub(crate) fn narrow(alloc: Global, literal: &Wide) -> Result<Value, AllocError>
    requires { IsValue (narrowed literal.now) }
    ensures { IfOk result (λ v. v ≡ narrowed literal.now) }
{
    match literal {
        Wide::Null => Ok(Value::Null),
        Wide::Bool(b) => Ok(Value::Bool(*b)),
        Wide::Int(n) => Ok(Value::Int(*n as i64)),
        Wide::Date(d) => Ok(Value::Date(*d)),
        Wide::Text(t) => Ok(Value::Text(t.copy(alloc)?)),
    }
}
