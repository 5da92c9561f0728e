//! Rows in memory, and the places where they are held.

ghost use Rattle.std.specs.Prelude.{◌≡◌, ◌≤◌, ◌+◌, ◌++◌, length, map, slice_index_or, IfOk, IfSome, OnOk};
ghost use Rattle.block_codec.specs.Held.{cell_value, number_value};
ghost use Rattle.col_value.specs.declared.value.Value.TheVariants.{Null};
ghost use Rattle.ros_container.specs.Rows.{column_values};
ghost use Rattle.container_draft.specs.Lanes.{joined};
ghost use Rattle.container_draft.specs.Placed.{asked_at};
ghost use Rattle.container_draft.specs.Spots.{asked_on};

use crate::lanes::Lanes;
use block_codec::Cell;
use col_value::{Asked, Row, Value};
use std::alloc::{AllocError, Global};
use std::marker::Model;

/// Rows of their own, and behind them those of containers.
#[derive(Drop)]
pub struct Rows {
    own: Vec<Asked>,
    parts: Vec<Lanes>,
}

impl Model for Rows {
    ghost use Rattle.std.specs.Prelude.{List, ◌++◌};
    ghost use Rattle.col_value.specs.declared.row.Asked.{Asked};
    ghost use Rattle.container_draft.specs.Lanes.{joined};

    ghost Value = { List Asked };

    ghost view = { λ r. r.own.items ++ joined r.parts.items };
}

/// A row where it is held.
#[derive(Clone, Copy)]
pub enum Spot<'a> {
    Own(&'a Asked),
    In(&'a Lanes, usize),
    Nowhere,
}

/// The value of a row in a column, or NULL.
fn cell_of(row: &Row, column: usize) -> Cell<'_>
    ensures { cell_value result ≡ slice_index_or row.now column Null }
{
    match row.as_slice().get(column) {
        Some(value) => Cell::Lent(value),
        None => Cell::Made(Value::Null),
    }
}

/// The row at a place of containers' rows, one container after the other.
fn spot_in(parts: &[Lanes], place: usize) -> Spot<'_>
    ensures { asked_on result ≡ asked_at (joined parts.now) place }
{
    let mut at = place;
    for lanes in parts {
        let count = lanes.len();
        if at < count {
            return Spot::In(lanes, at);
        }
        at -= count;
    }
    Spot::Nowhere
}

/// A number with those of containers' rows, or the greatest one.
fn count_on(first: usize, parts: &[Lanes]) -> usize
    ensures { result ≤ first + length (joined parts.now) }
{
    let mut count = first;
    for lanes in parts {
        count = count.saturating_add(lanes.len());
    }
    count
}

/// The numbers of a column of containers' rows, one container after the other, where all hold such.
fn numbers_in(alloc: Global, parts: &[Lanes], column: usize) -> Result<Option<Vec<i64>>, AllocError>
    ensures { IfOk result (λ o. IfSome o (λ v. map number_value v.items ≡ column_values column (joined parts.now))) }
{
    let mut out = Vec::with_capacity(alloc, count_on(0, parts))?;
    for lanes in parts {
        match lanes.numbers(column, out)? {
            Some(more) => out = more,
            None => return Ok(None),
        }
    }
    Ok(Some(out))
}

impl<'a> Spot<'a> {
    /// The value of the row in a column, or NULL.
    pub fn cell(&self, column: usize) -> Cell<'a>
        ensures { cell_value result ≡ slice_index_or (asked_on self.now).row column Null }
    {
        match self {
            Spot::Own(asked) => cell_of(&asked.row, column),
            Spot::In(lanes, place) => lanes.cell(*place, column),
            Spot::Nowhere => Cell::Made(Value::Null),
        }
    }

    /// The number of a lane that stands for the value of the row in a column, where such are held.
    pub fn number(&self, column: usize) -> Option<i64>
        ensures { IfSome result (λ n. number_value n ≡ slice_index_or (asked_on self.now).row column Null) }
    {
        match self {
            Spot::In(lanes, place) => lanes.number(*place, column),
            _ => None,
        }
    }

    /// The value of the row in a column, where it is lent.
    pub fn lent(&self, column: usize) -> Option<&'a Value>
        ensures { IfSome result (λ v. v.now ≡ slice_index_or (asked_on self.now).row column Null) }
    {
        match self {
            Spot::Own(asked) => asked.row.as_slice().get(column),
            Spot::In(lanes, place) => lanes.lent(*place, column),
            Spot::Nowhere => None,
        }
    }

    /// How many values the row has.
    pub fn width(&self) -> usize
        ensures { result ≡ length (asked_on self.now).row }
    {
        match self {
            Spot::Own(asked) => asked.row.as_slice().len(),
            Spot::In(lanes, place) => lanes.width(*place),
            Spot::Nowhere => 0,
        }
    }

    /// The epoch of the row.
    pub fn epoch(&self) -> u64
        ensures { result ≡ (asked_on self.now).ins }
    {
        match self {
            Spot::Own(asked) => asked.ins,
            Spot::In(lanes, place) => lanes.epoch(*place),
            Spot::Nowhere => 0,
        }
    }
}

impl Rows {
    /// Rows of their own. It takes no memory.
    pub fn of(alloc: Global, own: Vec<Asked>) -> Rows
        ensures { result ≡ own.items }
    {
        Rows {
            own,
            parts: Vec::new(alloc),
        }
    }

    /// A number that their count isn't below; it is their count, where that is one of a `usize`.
    pub fn count(&self) -> usize
        ensures { result ≤ length self.now }
    {
        count_on(self.own.len(), self.parts.as_slice())
    }

    /// The rows of a container join the others.
    pub fn push(&mut self, lanes: Lanes) -> Result<(), AllocError>
        ensures { OnOk result (self.new ≡ self.old ++ lanes) }
    {
        self.parts.push(lanes)?;
        Ok(())
    }

    /// The numbers of lanes that stand for the values of a column, where such are held.
    pub fn numbers(&self, alloc: Global, column: usize) -> Result<Option<Vec<i64>>, AllocError>
        ensures { IfOk result (λ o. IfSome o (λ v. map number_value v.items ≡ column_values column self.now)) }
    {
        if !self.own.is_empty() {
            return Ok(None);
        }
        numbers_in(alloc, self.parts.as_slice(), column)
    }

    /// The row at a place.
    pub fn spot(&self, place: usize) -> Spot<'_>
        ensures { asked_on result ≡ asked_at self.now place }
    {
        let own = self.own.as_slice();
        if place < own.len() {
            Spot::Own(&own[place])
        } else {
            spot_in(self.parts.as_slice(), place - own.len())
        }
    }
}
