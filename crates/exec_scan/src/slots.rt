//! A row that is used again: its values are replaced where they stand.

ghost use Rattle.std.specs.Prelude.{◌≡◌, ◌<◌, length, slice_index_or, OnOk};
ghost use Rattle.std.specs.List.{All};
ghost use Rattle.std.specs.Option.{IfSome};
ghost use Rattle.col_value.specs.declared.value.Value.TheVariants.{Null};
ghost use Rattle.exec_scan.specs.Batches.{cell, row_of};

use block_codec::{Block, number_value};
use col_value::Value;
use std::alloc::{AllocError, Global};

/// Puts a value into a slot, unless it stands there.
fn put(alloc: Global, slot: &mut Value, value: &Value) -> Result<(), AllocError>
    ensures { OnOk result (slot.new ≡ value.now) }
{
    if slot.is(value) {
        return Ok(());
    }
    *slot = value.copy(alloc)?;
    Ok(())
}

/// Puts a value of a block into a slot.
fn put_at(alloc: Global, slot: &mut Value, values: &Block, i: usize) -> Result<(), AllocError>
    requires { i < length values.now }
    ensures { OnOk result (slot.new ≡ slice_index_or values.now i Null) }
{
    match values.numbers() {
        Some(numbers) => {
            *slot = number_value(numbers[i]);
            Ok(())
        },
        None => {
            let cell = values.cell(i);
            put(alloc, slot, cell.value())
        },
    }
}

/// Puts the value of a column in a row into a slot, NULL where the column wasn't read.
fn put_cell(
    alloc: Global,
    slot: &mut Value,
    column: &Option<Block>,
    i: usize,
) -> Result<(), AllocError>
    requires { IfSome column.now (λ vs. i < length vs) }
    ensures { OnOk result (slot.new ≡ cell i column.now) }
{
    match column {
        Some(values) => put_at(alloc, slot, values, i),
        None => {
            *slot = Value::Null;
            Ok(())
        },
    }
}

/// Gives a row so many values.
fn set_width(row: &mut Vec<Value>, width: usize) -> Result<(), AllocError>
    ensures { OnOk result (length row.new.items ≡ width) }
{
    if row.len() == width {
        return Ok(());
    }
    row.clear();
    row.reserve(width)?;
    for _ in 0..width {
        row.push(Value::Null)?;
    }
    Ok(())
}

/// Makes a row of these values.
#[tactic(auto, using(crate::proofs::Replaced::value_next, crate::proofs::Replaced::all_values))]
pub fn set_values(alloc: Global, row: &mut Vec<Value>, values: &[Value]) -> Result<(), AllocError>
    ensures { OnOk result (row.new.items ≡ values.now) }
{
    set_width(row, values.len())?;
    for c in 0..values.len() {
        put(alloc, &mut row[c], &values[c])?;
    }
    Ok(())
}

/// Makes a row of the values of columns in a row of theirs.
#[tactic(auto, using(crate::proofs::Replaced::cell_next, crate::proofs::Replaced::all_cells))]
pub fn set_cells(
    alloc: Global,
    row: &mut Vec<Value>,
    columns: &[Option<Block>],
    i: usize,
) -> Result<(), AllocError>
    requires { All (λ o. IfSome o (λ vs. i < length vs)) columns.now }
    ensures { OnOk result (row.new.items ≡ row_of columns.now i) }
{
    set_width(row, columns.len())?;
    for c in 0..columns.len() {
        put_cell(alloc, &mut row[c], &columns[c], i)?;
    }
    Ok(())
}
