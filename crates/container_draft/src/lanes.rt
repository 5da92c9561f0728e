//! The rows of a container in memory.

ghost use Rattle.std.specs.Prelude.{◌≡◌, ◌<◌, ◌+◌, ◌++◌, [], length, get_or, map, slice_index_or, IfOk, IfSome};
ghost use Rattle.block_codec.specs.Held.{cell_value, number_value};
ghost use Rattle.col_value.specs.declared.value.Value.TheVariants.{Null};
ghost use Rattle.ros_container.specs.Rows.{column_values};
ghost use Rattle.container_draft.specs.Lanes.{row_by, rows_by};
ghost use Rattle.container_draft.specs.Placed.{asked_at};

use crate::column::Column;
use block_codec::Cell;
use col_value::Value;
use std::alloc::AllocError;
use std::marker::Model;

/// Rows that are held by their columns, with the epochs that inserted them.
#[derive(Drop)]
pub struct Lanes {
    columns: Vec<Column>,
    epochs: Vec<u64>,
}

impl Model for Lanes {
    ghost use Rattle.std.specs.Prelude.{List};
    ghost use Rattle.col_value.specs.declared.row.Asked.{Asked};
    ghost use Rattle.container_draft.specs.Lanes.{row_by, rows_by};

    ghost Value = { List Asked };

    ghost view = { λ l. rows_by l.columns.items l.epochs.items };
}

/// The value of a column at a place; a column that is not there has NULL.
fn cell_of(columns: &[Column], place: usize, column: usize) -> Cell<'_>
    ensures { cell_value result ≡ slice_index_or (row_by columns.now place) column Null }
{
    match columns.get(column) {
        Some(column) => column.cell(place),
        None => Cell::Made(Value::Null),
    }
}

/// The number of a lane that stands for the value of a column at a place, where such are held.
fn number_of(columns: &[Column], place: usize, column: usize) -> Option<i64>
    ensures { IfSome result (λ n. number_value n ≡ slice_index_or (row_by columns.now place) column Null) }
{
    match columns.get(column) {
        Some(column) => column.number(place),
        None => None,
    }
}

/// The value of a column at a place, where it is a word that is lent.
fn lent_of(columns: &[Column], place: usize, column: usize) -> Option<&Value>
    ensures { IfSome result (λ v. v.now ≡ slice_index_or (row_by columns.now place) column Null) }
{
    match columns.get(column) {
        Some(column) => column.lent(place),
        None => None,
    }
}

/// The numbers of a column of so many values behind others, where it is there and holds such.
fn numbers_of(
    columns: &[Column],
    column: usize,
    count: usize,
    before: Vec<i64>,
) -> Result<Option<Vec<i64>>, AllocError>
    ensures numbers { IfOk result (λ o. IfSome o (λ v. map number_value v.items ≡ map number_value before.items ++ get_or columns.now column [])) }
    ensures there { IfOk result (λ o. IfSome o (λ v. column < length columns.now)) }
    ensures long { IfOk result (λ o. IfSome o (λ v. length v.items ≡ length before.items + count)) }
{
    let Some(values) = columns.get(column) else {
        return Ok(None);
    };
    let few = before.len();
    match values.numbers(before)? {
        Some(numbers) if numbers.len() >= few && numbers.len() - few == count => Ok(Some(numbers)),
        _ => Ok(None),
    }
}

/// The epoch at a place; where none stands there it is 0.
fn epoch_in(epochs: &[u64], place: usize) -> u64
    ensures { result ≡ get_or epochs.now place 0 }
{
    match epochs.get(place) {
        Some(epoch) => *epoch,
        None => 0,
    }
}

impl Lanes {
    /// The rows with these epochs whose columns have these values.
    pub fn new(columns: Vec<Column>, epochs: Vec<u64>) -> Lanes
        ensures { result ≡ rows_by columns.items epochs.items }
    {
        Lanes { columns, epochs }
    }

    /// How many rows there are.
    pub fn len(&self) -> usize
        ensures { result ≡ length self.now }
    {
        self.epochs.as_slice().len()
    }

    /// The value of the row at a place in a column, or NULL.
    pub fn cell(&self, place: usize, column: usize) -> Cell<'_>
        ensures { cell_value result ≡ slice_index_or (asked_at self.now place).row column Null }
    {
        if place < self.len() {
            cell_of(self.columns.as_slice(), place, column)
        } else {
            Cell::Made(Value::Null)
        }
    }

    /// The number of a lane that stands for the value of the row at a place in a column, where such are held.
    pub fn number(&self, place: usize, column: usize) -> Option<i64>
        ensures { IfSome result (λ n. number_value n ≡ slice_index_or (asked_at self.now place).row column Null) }
    {
        if place < self.len() {
            number_of(self.columns.as_slice(), place, column)
        } else {
            None
        }
    }

    /// The numbers of lanes that stand for the values of a column, behind others, where such are held.
    pub fn numbers(&self, column: usize, before: Vec<i64>) -> Result<Option<Vec<i64>>, AllocError>
        ensures { IfOk result (λ o. IfSome o (λ v. map number_value v.items ≡ map number_value before.items ++ column_values column self.now)) }
    {
        numbers_of(self.columns.as_slice(), column, self.len(), before)
    }

    /// The value of the row at a place in a column, where it is a word that is lent.
    pub fn lent(&self, place: usize, column: usize) -> Option<&Value>
        ensures { IfSome result (λ v. v.now ≡ slice_index_or (asked_at self.now place).row column Null) }
    {
        if place < self.len() {
            lent_of(self.columns.as_slice(), place, column)
        } else {
            None
        }
    }

    /// How many values the row at a place has.
    pub fn width(&self, place: usize) -> usize
        ensures { result ≡ length (asked_at self.now place).row }
    {
        if place < self.len() {
            self.columns.as_slice().len()
        } else {
            0
        }
    }

    /// The epoch of the row at a place.
    pub fn epoch(&self, place: usize) -> u64
        ensures { result ≡ (asked_at self.now place).ins }
    {
        epoch_in(self.epochs.as_slice(), place)
    }
}
