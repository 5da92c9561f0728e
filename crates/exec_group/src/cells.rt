//! Rows that stand in columns: their values at a place.

ghost use Rattle.std.specs.Prelude.{◌≡◌, ◌<◌, length, slice_index_or, IfOk};
ghost use Rattle.std.specs.Option.{IfSome};
ghost use Rattle.block_codec.specs.Held.{day_value, number_value};
ghost use Rattle.col_value.specs.Order.{widened};
ghost use Rattle.col_value.specs.declared.value.Value.TheVariants.{Null};
ghost use Rattle.sql_bound.specs.Outputs.{keys_of};
ghost use Rattle.expr_value.specs.Worths.{wide_of};
ghost use Rattle.exec_group.specs.Columns.{cell, row_of};

use block_codec::{Block, Cell};
use col_value::{List, Row, Value};
use expr_value::Worth;
use std::alloc::{AllocError, Global};

/// What a number of a lane is worth.
fn number_worth<'a>(n: i64) -> Worth<'a>
    ensures { wide_of result ≡ widened (number_value n) }
{
    if n == i64::MIN {
        Worth::Null
    } else {
        Worth::Int(i128::from(n))
    }
}

/// What a day of a lane is worth.
fn day_worth<'a>(d: u32) -> Worth<'a>
    ensures { wide_of result ≡ widened (day_value d) }
{
    if d == 0 { Worth::Null } else { Worth::Date(d) }
}

/// What a value of a block is worth, where it is lent.
fn lent_worth<'a>(block: &'a Block, place: usize) -> Option<Worth<'a>>
    requires { place < length block.now }
    ensures { IfSome result (λ w. wide_of w ≡ widened (slice_index_or block.now place Null)) }
{
    match block.cell(place) {
        Cell::Lent(value) => Some(Worth::of_value(value)),
        Cell::Made(_) => None,
    }
}

/// What a value of a block is worth, where no value has to be made for it.
fn worth_in<'a>(block: &'a Block, place: usize) -> Option<Worth<'a>>
    ensures { IfSome result (λ w. wide_of w ≡ widened (slice_index_or block.now place Null)) }
{
    if place >= block.len() {
        return None;
    }
    if let Some(numbers) = block.numbers() {
        return Some(number_worth(numbers[place]));
    }
    if let Some(days) = block.days() {
        return Some(day_worth(days[place]));
    }
    lent_worth(block, place)
}

/// What the value of a column in the row at a place is worth, where no value has to be made for it.
pub fn worth_at<'a>(columns: &'a [Option<Block>], column: usize, place: usize) -> Option<Worth<'a>>
    ensures { IfSome result (λ w. wide_of w ≡ widened (slice_index_or (row_of columns.now place) column Null)) }
{
    match columns.get(column) {
        Some(Some(block)) => worth_in(block, place),
        Some(None) | None => Some(Worth::Null),
    }
}

/// The value of a column at a place.
fn value_at(alloc: Global, column: &Option<Block>, place: usize) -> Result<Value, AllocError>
    ensures { IfOk result (λ v. v ≡ cell place column.now) }
{
    match column {
        Some(block) if place < block.len() => block.copy_at(alloc, place),
        _ => Ok(Value::Null),
    }
}

/// The row at a place.
pub fn row_at(
    alloc: Global,
    columns: &[Option<Block>],
    place: usize,
) -> Result<Vec<Value>, AllocError>
    ensures { IfOk result (λ v. v.items ≡ row_of columns.now place) }
{
    let mut row = Vec::with_capacity(alloc, columns.len())?;
    for column in columns {
        row.push(value_at(alloc, column, place)?)?;
    }
    Ok(row)
}

/// The value of a column in the row at a place; NULL where there is no such column.
fn value_in(
    alloc: Global,
    columns: &[Option<Block>],
    column: usize,
    place: usize,
) -> Result<Value, AllocError>
    ensures { IfOk result (λ v. v ≡ slice_index_or (row_of columns.now place) column Null) }
{
    match columns.get(column) {
        Some(column) => value_at(alloc, column, place),
        None => Ok(Value::Null),
    }
}

/// The key of the row at a place.
pub fn key_at(
    alloc: Global,
    keys: &[usize],
    columns: &[Option<Block>],
    place: usize,
) -> Result<Row, AllocError>
    ensures { IfOk result (λ r. r ≡ keys_of keys.now (row_of columns.now place)) }
{
    let mut key = Vec::with_capacity(alloc, keys.len())?;
    for column in keys {
        key.push(value_in(alloc, columns, *column, place)?)?;
    }
    Ok(List::new(key))
}
