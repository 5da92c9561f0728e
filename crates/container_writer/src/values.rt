//! What a column of a container holds.

ghost use Rattle.std.specs.Prelude.{◌≡◌, map, pos, slice_index_or, IfOk};
ghost use Rattle.std.specs.List.{All};
ghost use Rattle.block_choice.specs.Choice.{TakesAll};
ghost use Rattle.col_value.specs.Order.{IsValue};
ghost use Rattle.col_value.specs.declared.value.Value.TheVariants.{Int, Null};
ghost use Rattle.ros_container.specs.Rows.{column_values, epoch_values, stored_values};
ghost use Rattle.container_writer.specs.Ordered.{asked_of};

use crate::refs::{Keyed, StampedRef};
use block_choice::takes_all;
use col_value::{Encoding, Value};
use std::alloc::{AllocError, Global};
use value_bytes::is_value;

/// The values, where a column of this encoding takes them.
fn taken(values: Vec<Value>, encoding: Encoding) -> Result<Vec<Value>, AllocError>
    ensures same { IfOk result (λ v. v ≡ values) }
    ensures taken { IfOk result (λ v. TakesAll encoding v.items) }
{
    if takes_all(encoding, values.as_slice()) {
        Ok(values)
    } else {
        Err(AllocError)
    }
}

/// The value of a row in a column, where a table may have it; one that is not there is NULL.
fn value_of(alloc: Global, row: &[Value], column: usize) -> Result<Value, AllocError>
    ensures same { IfOk result (λ v. v ≡ slice_index_or row.now column Null) }
    ensures value { IfOk result IsValue }
{
    match row.get(column) {
        Some(value) if is_value(value) => value.copy(alloc),
        Some(_) => Err(AllocError),
        None => Ok(Value::Null),
    }
}

/// An epoch as a number.
fn number_of(epoch: u64) -> Result<Value, AllocError>
    ensures same { IfOk result (λ v. v ≡ Int (pos epoch)) }
    ensures value { IfOk result IsValue }
{
    if epoch > i64::MAX as u64 {
        return Err(AllocError);
    }
    Ok(Value::Int(epoch as i64))
}

fn column_values(alloc: Global, rows: &[Keyed], column: usize) -> Result<Vec<Value>, AllocError>
    ensures same { IfOk result (λ v. v.items ≡ column_values column (map asked_of rows.now)) }
    ensures values { IfOk result (λ v. All IsValue v.items) }
{
    let mut out = Vec::with_capacity(alloc, rows.len())?;
    for row in rows {
        out.push_reserved(value_of(alloc, row.stamped.row, column)?);
    }
    Ok(out)
}

fn epoch_values(alloc: Global, rows: &[Keyed]) -> Result<Vec<Value>, AllocError>
    ensures same { IfOk result (λ v. v.items ≡ epoch_values (map asked_of rows.now)) }
    ensures values { IfOk result (λ v. All IsValue v.items) }
{
    let mut out = Vec::with_capacity(alloc, rows.len())?;
    for row in rows {
        out.push_reserved(number_of(row.stamped.ins)?);
    }
    Ok(out)
}

/// What a column of a container of these rows holds; the epochs stand behind the others. Where it can't have these values, that is
/// answered as want of memory.
pub fn stored_values(
    alloc: Global,
    columns: usize,
    rows: &[Keyed],
    column: usize,
    encoding: Encoding,
) -> Result<Vec<Value>, AllocError>
    ensures same { IfOk result (λ v. v.items ≡ stored_values columns column (map asked_of rows.now)) }
    ensures values { IfOk result (λ v. All IsValue v.items) }
    ensures taken { IfOk result (λ v. TakesAll encoding v.items) }
{
    if column == columns {
        taken(epoch_values(alloc, rows)?, encoding)
    } else {
        taken(column_values(alloc, rows, column)?, encoding)
    }
}
