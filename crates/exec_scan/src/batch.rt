//! A batch of rows.

ghost use Rattle.std.specs.Prelude.{◌≡◌, ◌<◌, ◌+◌, ◌++◌, ◌∷◌, [], length, map, slice_index_or, IfOk, OnOk, IsSomeAnd};
ghost use Rattle.std.specs.List.{All, slice_get};
ghost use Rattle.std.specs.Option.{IfSome};
ghost use Rattle.col_value.specs.Order.{IsRow, IsValue};
ghost use Rattle.query_cover.specs.Seen.{placed, value_at};
ghost use Rattle.exec_scan.specs.Batches.{HaveAll, IsBatch, row_of, rows_at};

use crate::slots::{set_cells, set_values};
use block_codec::Block;
use col_value::Value;
use std::alloc::{AllocError, Global};
use std::marker::Model;

/// How the rows of a batch are held.
#[derive(Drop)]
pub enum Form {
    /// Rows of so many values, which stand behind each other, and where each row begins.
    Made(usize, Vec<Value>, Vec<usize>),
    /// Columns, none where all values are NULL, and the places of the rows in them.
    Columns(Vec<Option<Block>>, Vec<usize>),
}

/// Up to 1,024 rows of a table's columns, and the epochs that inserted them, where these are told.
#[derive(Drop)]
pub struct Batch {
    form: Form,
    inserted: Vec<u64>,
}

impl Model for Batch {
    ghost use Rattle.exec_scan.specs.Batches.{AreRows, rows_in, Shown};

    ghost Value = { Shown };

    ghost view = { λ b. record { rows = rows_in b.form; inserted = b.inserted.items } };

    ghost invariant = { λ b. AreRows b.form };
}

/// The value of a row at a place, NULL where there is none.
fn value_of(alloc: Global, row: &[Value], place: Option<usize>) -> Result<Value, AllocError>
    requires { IsRow row.now }
    ensures value { IfOk result (λ v. v ≡ value_at row.now place) }
    ensures valid { IfOk result IsValue }
{
    match place {
        Some(place) => match row.get(place) {
            Some(value) => value.copy(alloc),
            None => Ok(Value::Null),
        },
        None => Ok(Value::Null),
    }
}

/// Appends the values of a row at places.
pub fn put_row(
    alloc: Global,
    values: &mut Vec<Value>,
    row: &[Value],
    places: &[Option<usize>],
) -> Result<(), AllocError>
    requires row { IsRow row.now }
    requires valid { All IsValue values.old.items }
    ensures values { OnOk result (values.new.items ≡ values.old.items ++ placed places.now row.now) }
    ensures valid { OnOk result (All IsValue values.new.items) }
{
    for place in places {
        values.push(value_of(alloc, row, *place)?)?;
    }
    Ok(())
}

/// Makes `row` the row at a place of rows that begin at these places of a list of values.
fn copy_made(
    alloc: Global,
    width: usize,
    values: &[Value],
    starts: &[usize],
    place: usize,
    row: &mut Vec<Value>,
) -> Result<(), AllocError>
    requires there { place < length starts.now }
    requires batch { IsBatch width values.now starts.now }
    ensures row { OnOk result (IsSomeAnd (slice_get (rows_at width values.now starts.now) place) (λ r. row.new.items ≡ r)) }
    ensures valid { OnOk result (IsRow row.new.items) }
{
    let first = starts[place];
    set_values(alloc, row, &values[first..first + width])
}

/// Makes `row` the row at a place of the rows of columns at these places.
#[tactic(auto, using(crate::proofs::Alive::columns_there, crate::proofs::Alive::row_valid, crate::proofs::Alive::row_found))]
fn copy_cells(
    alloc: Global,
    columns: &[Option<Block>],
    places: &[usize],
    place: usize,
    row: &mut Vec<Value>,
) -> Result<(), AllocError>
    requires there { place < length places.now }
    requires have { HaveAll columns.now places.now }
    ensures row { OnOk result (IsSomeAnd (slice_get (map (row_of columns.now) places.now) place) (λ r. row.new.items ≡ r)) }
    ensures valid { OnOk result (IsRow row.new.items) }
{
    set_cells(alloc, row, columns, places[place])
}

impl Batch {
    /// No row.
    pub(crate) fn empty(alloc: Global) -> Batch
        ensures rows { result.rows ≡ [] }
        ensures inserted { result.inserted ≡ [] }
    {
        Batch {
            form: Form::Made(0, Vec::new(alloc), Vec::new(alloc)),
            inserted: Vec::new(alloc),
        }
    }

    /// The rows of so many values that begin at these places, and these insert epochs.
    pub(crate) fn of(
        width: usize,
        values: Vec<Value>,
        starts: Vec<usize>,
        inserted: Vec<u64>,
    ) -> Batch
        requires { IsBatch width values.items starts.items }
        ensures rows { result.rows ≡ rows_at width values.items starts.items }
        ensures inserted { result.inserted ≡ inserted.items }
    {
        Batch {
            form: Form::Made(width, values, starts),
            inserted,
        }
    }

    /// The rows of columns at these places, and these insert epochs.
    pub(crate) fn of_columns(
        columns: Vec<Option<Block>>,
        places: Vec<usize>,
        inserted: Vec<u64>,
    ) -> Batch
        requires { HaveAll columns.items places.items }
        ensures rows { result.rows ≡ map (row_of columns.items) places.items }
        ensures inserted { result.inserted ≡ inserted.items }
    {
        Batch {
            form: Form::Columns(columns, places),
            inserted,
        }
    }

    /// How many rows there are.
    pub fn len(&self) -> usize
        ensures { result ≡ length self.now.rows }
    {
        match &self.form {
            Form::Made(_, _, starts) => starts.len(),
            Form::Columns(_, places) => places.len(),
        }
    }

    /// The columns and the places of the rows in them, where the rows are held so.
    #[tactic(auto, using(crate::proofs::Alive::rows_valid))]
    pub fn columns(&self) -> Option<(&[Option<Block>], &[usize])>
        ensures rows { IfSome result (λ x. map (row_of x.0.now) x.1.now ≡ self.now.rows) }
        ensures valid { IfSome result (λ x. All (λ i. IsRow (row_of x.0.now i)) x.1.now) }
    {
        match &self.form {
            Form::Columns(columns, places) => Some((columns.as_slice(), places.as_slice())),
            Form::Made(_, _, _) => None,
        }
    }

    /// Makes `row` the row at a place. A text that it has there already isn't copied again.
    pub fn copy_row(
        &self,
        alloc: Global,
        place: usize,
        row: &mut Vec<Value>,
    ) -> Result<(), AllocError>
        requires { place < length self.now.rows }
        ensures row { OnOk result (IsSomeAnd (slice_get self.now.rows place) (λ r. row.new.items ≡ r)) }
        ensures valid { OnOk result (IsRow row.new.items) }
    {
        match &self.form {
            Form::Made(width, values, starts) => {
                copy_made(
                    alloc,
                    *width,
                    values.as_slice(),
                    starts.as_slice(),
                    place,
                    row,
                )
            },
            Form::Columns(columns, places) => {
                copy_cells(alloc, columns.as_slice(), places.as_slice(), place, row)
            },
        }
    }

    /// The epoch that inserted the row at a place, 0 where it isn't told.
    pub fn inserted(&self, place: usize) -> u64
        ensures { result ≡ slice_index_or self.now.inserted place 0 }
    {
        match self.inserted.get(place) {
            Some(ins) => *ins,
            None => 0,
        }
    }
}
