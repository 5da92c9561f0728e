//! What a column of a container holds.

ghost use Rattle.std.specs.Prelude.{◌≡◌, map, pos, slice_index_or, IfOk};
ghost use Rattle.std.specs.List.{All};
ghost use Rattle.block_choice.specs.Choice.{TakesAll};
ghost use Rattle.block_codec.specs.Held.{cell_value, number_value};
ghost use Rattle.col_value.specs.Order.{IsValue};
ghost use Rattle.col_value.specs.declared.value.Value.TheVariants.{Int, Null};
ghost use Rattle.ros_container.specs.Rows.{column_values, epoch_values, stored_values};
ghost use Rattle.container_draft.specs.Placed.{asked_at, all_at};

use crate::rows::Rows;
use block_choice::takes_all;
use block_codec::Cell;
use col_value::{Encoding, Value};
use std::alloc::{AllocError, Global};
use value_bytes::is_value;

/// The value, where a table may have it.
fn fitting(value: Value) -> Result<Value, AllocError>
    ensures same { IfOk result (λ v. v ≡ value) }
    ensures value { IfOk result IsValue }
{
    if is_value(&value) {
        Ok(value)
    } else {
        Err(AllocError)
    }
}

/// The values, where a column of this encoding takes them.
fn taken(values: Vec<Value>, encoding: Encoding) -> Result<Vec<Value>, AllocError>
    ensures same { IfOk result (λ v. v ≡ values) }
    ensures taken { IfOk result (λ v. TakesAll encoding v.items) }
{
    if takes_all(encoding, values.as_slice()) {
        Ok(values)
    } else {
        Err(AllocError)
    }
}

/// The value of a cell, of its own.
fn owned(alloc: Global, cell: Cell) -> Result<Value, AllocError>
    ensures { IfOk result (λ v. v ≡ cell_value cell.entry) }
{
    match cell {
        Cell::Lent(value) => value.copy(alloc),
        Cell::Made(value) => Ok(value),
    }
}

/// The value of the row at a place, where a table may have it; a row that is not there has none.
fn value_at(alloc: Global, rows: &Rows, place: usize, column: usize) -> Result<Value, AllocError>
    ensures same { IfOk result (λ v. v ≡ slice_index_or (asked_at rows.now place).row column Null) }
    ensures value { IfOk result IsValue }
{
    let spot = rows.spot(place);
    match spot.lent(column) {
        Some(value) if is_value(value) => value.copy(alloc),
        Some(_) => Err(AllocError),
        None => fitting(owned(alloc, spot.cell(column))?),
    }
}

/// The epoch of the row at a place.
pub fn epoch_at(rows: &Rows, place: usize) -> u64
    ensures { result ≡ (asked_at rows.now place).ins }
{
    rows.spot(place).epoch()
}

/// An epoch as a number.
fn number_of(epoch: u64) -> Result<Value, AllocError>
    ensures same { IfOk result (λ v. v ≡ Int (pos epoch)) }
    ensures value { IfOk result IsValue }
{
    if epoch > i64::MAX as u64 {
        return Err(AllocError);
    }
    Ok(Value::Int(epoch as i64))
}

/// The value that a number of a lane stands for is one of a table.
fn lane_value(n: i64) -> Value
    ensures same { result ≡ number_value n }
    ensures value { IsValue result }
{
    if n == i64::MIN {
        Value::Null
    } else {
        Value::Int(n)
    }
}

/// The value at a place of a lane; where none stands there it is NULL.
fn value_in(lane: &[i64], place: usize) -> Value
    ensures same { result ≡ slice_index_or (map number_value lane.now) place Null }
    ensures value { IsValue result }
{
    match lane.get(place) {
        Some(n) => lane_value(*n),
        None => Value::Null,
    }
}

/// The values at places of a lane.
fn gathered(alloc: Global, lane: &[i64], places: &[usize]) -> Result<Vec<Value>, AllocError>
    ensures same { IfOk result (λ v. v.items ≡ map (λ i. slice_index_or (map number_value lane.now) i Null) places.now) }
    ensures values { IfOk result (λ v. All IsValue v.items) }
{
    let mut out = Vec::with_capacity(alloc, places.len())?;
    for place in places {
        out.push_reserved(value_in(lane, *place));
    }
    Ok(out)
}

/// The values of rows in a column, each copied from where it is held.
fn copied(
    alloc: Global,
    rows: &Rows,
    places: &[usize],
    column: usize,
) -> Result<Vec<Value>, AllocError>
    ensures same { IfOk result (λ v. v.items ≡ column_values column (all_at rows.now places.now)) }
    ensures values { IfOk result (λ v. All IsValue v.items) }
{
    let mut out = Vec::with_capacity(alloc, places.len())?;
    for place in places {
        out.push_reserved(value_at(alloc, rows, *place, column)?);
    }
    Ok(out)
}

fn column_values(
    alloc: Global,
    rows: &Rows,
    places: &[usize],
    column: usize,
) -> Result<Vec<Value>, AllocError>
    ensures same { IfOk result (λ v. v.items ≡ column_values column (all_at rows.now places.now)) }
    ensures values { IfOk result (λ v. All IsValue v.items) }
{
    match rows.numbers(alloc, column)? {
        Some(lane) => gathered(alloc, lane.as_slice(), places),
        None => copied(alloc, rows, places, column),
    }
}

fn epoch_values(alloc: Global, rows: &Rows, places: &[usize]) -> Result<Vec<Value>, AllocError>
    ensures same { IfOk result (λ v. v.items ≡ epoch_values (all_at rows.now places.now)) }
    ensures values { IfOk result (λ v. All IsValue v.items) }
{
    let mut out = Vec::with_capacity(alloc, places.len())?;
    for place in places {
        out.push_reserved(number_of(epoch_at(rows, *place))?);
    }
    Ok(out)
}

/// What a column of a container of these rows holds; the epochs stand behind the others. Where it can't have these values, that is
/// answered as want of memory.
pub fn stored_values(
    alloc: Global,
    columns: usize,
    rows: &Rows,
    places: &[usize],
    column: usize,
    encoding: Encoding,
) -> Result<Vec<Value>, AllocError>
    ensures same { IfOk result (λ v. v.items ≡ stored_values columns column (all_at rows.now places.now)) }
    ensures values { IfOk result (λ v. All IsValue v.items) }
    ensures taken { IfOk result (λ v. TakesAll encoding v.items) }
{
    if column == columns {
        taken(epoch_values(alloc, rows, places)?, encoding)
    } else {
        taken(column_values(alloc, rows, places, column)?, encoding)
    }
}
