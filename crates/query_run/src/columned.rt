//! Rows put in columns.

ghost use Rattle.std.specs.Prelude.{◌≡◌, [], true, length, map, slice_index_or, IfOk};
ghost use Rattle.std.specs.List.{All};
ghost use Rattle.std.specs.Option.{IfSome};
ghost use Rattle.block_codec.specs.Held.{day_value, number_value};
ghost use Rattle.col_value.specs.declared.value.Value.TheVariants.{Null};
ghost use Rattle.query_run.specs.Joining.{AreColumnsOf, IsColumnOf};

use block_codec::{Block, lane_day, lane_number};
use col_value::{Row, Value};
use std::alloc::{AllocError, Global};

/// Whether a row has no value in a column.
fn is_null_at(row: &[Value], column: usize) -> bool
    ensures { result ≡ true → slice_index_or row.now column Null ≡ Null }
{
    match row.get(column) {
        Some(Value::Null) | None => true,
        _ => false,
    }
}

/// Whether no row has a value in a column.
fn is_null_in(rows: &[Row], column: usize) -> bool
    ensures { result ≡ true → All (λ r. slice_index_or r column Null ≡ Null) rows.now }
{
    for row in rows {
        if !is_null_at(row.as_slice(), column) {
            return false;
        }
    }
    true
}

/// The number of a lane that stands for a row's value in a column, if one does.
fn number_at(row: &[Value], column: usize) -> Option<i64>
    ensures { IfSome result (λ n. number_value n ≡ slice_index_or row.now column Null) }
{
    match row.get(column) {
        Some(value) => lane_number(value),
        None => Some(i64::MIN),
    }
}

/// The day of a lane that stands for a row's value in a column, if one does.
fn day_at(row: &[Value], column: usize) -> Option<u32>
    ensures { IfSome result (λ d. day_value d ≡ slice_index_or row.now column Null) }
{
    match row.get(column) {
        Some(value) => lane_day(value),
        None => Some(0),
    }
}

/// A row's value in a column.
fn value_at(alloc: Global, row: &[Value], column: usize) -> Result<Value, AllocError>
    ensures { IfOk result (λ v. v ≡ slice_index_or row.now column Null) }
{
    match row.get(column) {
        Some(value) => value.copy(alloc),
        None => Ok(Value::Null),
    }
}

/// The numbers of a lane that stand for the values of rows in a column, if such do.
pub fn numbers_in(
    alloc: Global,
    rows: &[Row],
    column: usize,
) -> Result<Option<Vec<i64>>, AllocError>
    ensures { IfOk result (λ o. IfSome o (λ v. map number_value v.items ≡ map (λ r. slice_index_or r column Null) rows.now)) }
{
    let mut out = Vec::with_capacity(alloc, rows.len())?;
    for row in rows {
        let Some(n) = number_at(row.as_slice(), column) else {
            return Ok(None);
        };
        out.push(n)?;
    }
    Ok(Some(out))
}

/// The days of a lane that stand for the values of rows in a column, if such do.
fn days_in(alloc: Global, rows: &[Row], column: usize) -> Result<Option<Vec<u32>>, AllocError>
    ensures { IfOk result (λ o. IfSome o (λ v. map day_value v.items ≡ map (λ r. slice_index_or r column Null) rows.now)) }
{
    let mut out = Vec::with_capacity(alloc, rows.len())?;
    for row in rows {
        let Some(d) = day_at(row.as_slice(), column) else {
            return Ok(None);
        };
        out.push(d)?;
    }
    Ok(Some(out))
}

/// The values of rows in a column.
fn values_in(alloc: Global, rows: &[Row], column: usize) -> Result<Vec<Value>, AllocError>
    ensures { IfOk result (λ v. v.items ≡ map (λ r. slice_index_or r column Null) rows.now) }
{
    let mut out = Vec::with_capacity(alloc, rows.len())?;
    for row in rows {
        out.push(value_at(alloc, row.as_slice(), column)?)?;
    }
    Ok(out)
}

/// The values of rows in a column, in a lane where one holds them.
fn block_in(alloc: Global, rows: &[Row], column: usize) -> Result<Block, AllocError>
    ensures { IfOk result (λ b. b ≡ map (λ r. slice_index_or r column Null) rows.now) }
{
    if let Some(numbers) = numbers_in(alloc, rows, column)? {
        return Ok(Block::of_numbers(numbers));
    }
    if let Some(days) = days_in(alloc, rows, column)? {
        return Ok(Block::of_days(days));
    }
    Ok(Block::of(values_in(alloc, rows, column)?))
}

/// The column of the values that rows have at one place; None where they have none.
fn column_in(alloc: Global, rows: &[Row], column: usize) -> Result<Option<Block>, AllocError>
    ensures { IfOk result (IsColumnOf rows.now column) }
{
    if is_null_in(rows, column) {
        return Ok(None);
    }
    Ok(Some(block_in(alloc, rows, column)?))
}

/// How many columns all rows have; None where there is no row, or one has more than another.
pub fn common_width(rows: &[Row]) -> Option<usize>
    ensures { IfSome result (λ width. All (λ r. length r ≡ width) rows.now) }
{
    let Some((first, _later)) = rows.split_first() else {
        return None;
    };
    let width = first.as_slice().len();
    if all_have(rows, width) {
        Some(width)
    } else {
        None
    }
}

/// Whether all rows have so many columns.
fn all_have(rows: &[Row], width: usize) -> bool
    ensures { result ≡ true → All (λ r. length r ≡ width) rows.now }
{
    for row in rows {
        if row.as_slice().len() != width {
            return false;
        }
    }
    true
}

/// Rows with so many columns, put in columns.
pub fn columns_of(
    alloc: Global,
    rows: &[Row],
    width: usize,
) -> Result<Vec<Option<Block>>, AllocError>
    requires { All (λ r. length r ≡ width) rows.now }
    ensures { IfOk result (λ v. AreColumnsOf rows.now v.items) }
{
    let mut out = Vec::with_capacity(alloc, width)?;
    for column in 0..width {
        out.push(column_in(alloc, rows, column)?)?;
    }
    Ok(out)
}
