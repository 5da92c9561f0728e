//! The rows of a block that may be wanted.

ghost use Rattle.std.specs.Prelude.{◌≡◌, false, length, get_or, is_some, slice_index_or, None, Some, IfOk, IsTrue};
ghost use Rattle.col_value.specs.declared.value.Value.TheVariants.{Null};
ghost use Rattle.wanted_rows.specs.Wanted.{inserted};
ghost use Rattle.proj_store.specs.Candidates.{columns_in, row_of, values_in};

use block_codec::Block;
use col_value::{Asked, List, Row, Value};
use std::alloc::{AllocError, Global};
use std::marker::Model;
use write_store::Inserted;

/// The rows of a block that may be wanted, each at its place, and none at the others: which they are, the epochs that inserted the rows,
/// and the values that they have in the columns, as far as these were read. A row is made only when it is asked for.
#[derive(Drop)]
pub struct Candidates {
    pub alive: Vec<bool>,
    pub stamps: Vec<u64>,
    pub columns: Vec<Option<Block>>,
}

impl Model for Candidates {
    ghost use Rattle.std.specs.Prelude.{List, Option};
    ghost use Rattle.write_store.specs.declared.held.Inserted.{Inserted as Key};
    ghost use Rattle.proj_store.specs.Candidates.{candidates, columns_in};

    ghost Value = { List (Option Key) };

    ghost view = { λ c. candidates c.alive.items c.stamps.items (columns_in c.columns.items) };
}

/// The value of a column at a place, or NULL where the column has none there.
fn copy_at(alloc: Global, column: &Option<Block>, i: usize) -> Result<Value, AllocError>
    ensures { IfOk result (λ v. v ≡ slice_index_or (values_in column.now) i Null) }
{
    match column {
        Some(values) if i < values.len() => values.copy_at(alloc, i),
        _ => Ok(Value::Null),
    }
}

/// Whether a column has this value at a place.
fn is_at(value: &Value, column: &Option<Block>, i: usize) -> bool
    ensures { IsTrue result → value.now ≡ slice_index_or (values_in column.now) i Null }
{
    match column {
        Some(values) if i < values.len() => {
            let cell = values.cell(i);
            value.is(cell.value())
        }
        _ => value.is(&Value::Null),
    }
}

/// The values of columns at a place.
fn row_at(alloc: Global, columns: &[Option<Block>], i: usize) -> Result<Row, AllocError>
    ensures { IfOk result (λ row. row ≡ row_of (columns_in columns.now) i) }
{
    let mut row = Vec::with_capacity(alloc, columns.len())?;
    for column in columns {
        row.push(copy_at(alloc, column, i)?)?;
    }
    Ok(List::new(row))
}

/// Whether these are the values of columns at a place.
fn are_at(row: &[Value], columns: &[Option<Block>], i: usize) -> bool
    ensures { IsTrue result → row.now ≡ row_of (columns_in columns.now) i }
{
    if row.len() != columns.len() {
        return false;
    }
    for j in 0..row.len() {
        if !is_at(&row[j], &columns[j], i) {
            return false;
        }
    }
    true
}

/// Whether a row is this one, which a block has at a place.
fn is_row(asked: &Asked, ins: u64, columns: &[Option<Block>], i: usize) -> bool
    ensures ins { IsTrue result → asked.now.ins ≡ ins }
    ensures row { IsTrue result → asked.now.row ≡ row_of (columns_in columns.now) i }
{
    asked.ins == ins && are_at(asked.row.as_slice(), columns, i)
}

/// The epoch at a place, or 0 where there is none.
fn stamp_at(stamps: &[u64], i: usize) -> u64
    ensures { result ≡ get_or stamps.now i 0 }
{
    match stamps.get(i) {
        Some(ins) => *ins,
        None => 0,
    }
}

fn is_alive(alive: &[bool], i: usize) -> bool
    ensures { result ≡ get_or alive.now i false }
{
    match alive.get(i) {
        Some(alive) => *alive,
        None => false,
    }
}

impl Candidates {
    /// How many rows the block has.
    pub fn len(&self) -> usize
        ensures { result ≡ length self.now }
    {
        self.alive.as_slice().len()
    }

    /// Whether the row at a place may be wanted.
    pub fn has(&self, i: usize) -> bool
        ensures { result ≡ is_some (get_or self.now i None) }
    {
        is_alive(self.alive.as_slice(), i)
    }

    /// Whether the row at a place may be wanted and is this one.
    pub fn is(&self, i: usize, asked: &Asked) -> bool
        ensures { IsTrue result → get_or self.now i None ≡ Some (inserted asked.now) }
    {
        if !is_alive(self.alive.as_slice(), i) {
            return false;
        }
        let ins = stamp_at(self.stamps.as_slice(), i);
        is_row(asked, ins, self.columns.as_slice(), i)
    }

    /// The row at a place, where it may be wanted.
    pub fn row(&self, alloc: Global, i: usize) -> Result<Option<Inserted>, AllocError>
        ensures { IfOk result (λ row. row ≡ get_or self.now i None) }
    {
        if !is_alive(self.alive.as_slice(), i) {
            return Ok(None);
        }
        let ins = stamp_at(self.stamps.as_slice(), i);
        let row = row_at(alloc, self.columns.as_slice(), i)?;
        Ok(Some(Inserted { ins, row }))
    }
}
