//! What is collected of the tuples of a query.

ghost use Rattle.std.specs.Prelude.{◌≡◌, ◌+◌, ◌<◌, ◌≤◌, ◌++◌, ◌∷◌, true, false, List, [], length, map, take, OnOk, IfOk};
ghost use Rattle.std.specs.Option.{IfSome};
ghost use Rattle.col_value.specs.Order.{IsRow};
ghost use Rattle.col_value.specs.declared.value.Value.{Value};
ghost use Rattle.exec_group.specs.Columns.{row_of, AreRowsAt};
ghost use Rattle.sql_bound.specs.Bounds.{column_bound};
ghost use Rattle.query_laws.specs.Bounded.{IsBoundedQuery};
ghost use Rattle.query_order.specs.Enough.{AreFew};
ghost use Rattle.query_run.specs.Outputs.{HoldsOutput, IsAdded, IsBar, IsPlain};

use crate::bar::{bar_of, is_barred, is_behind};
use crate::lane::{is_barred_at, items_of_place};
use crate::past::barred_run;
use crate::seen::{has_windows, seen_row};
use block_codec::Block;
use col_value::{Row, Value, WideRow};
use exec_group::{GroupMethod, Groups};
use expr_value::items_of;
use query_order::order_rows;
use sql_bound::BoundQuery;
use std::alloc::{AllocError, Global};

/// So many rows that a count counts them, and a number of a row behind all others, 2^63 - 2.
const MOST: u64 = 9223372036854775806;

/// Output rows of a query without groups and windows, those that can still be printed, with a bar behind which none can, or else the tuples
/// that its windows see, or its groups, and of how many tuples.
#[derive(Drop)]
pub struct Collected {
    pub rows: Vec<WideRow>,
    pub bar: Option<WideRow>,
    pub seen: Vec<Row>,
    pub groups: Groups,
    pub taken: u64,
}

impl Collected {
    /// What is collected of no tuple, with groups that are found by this method.
    pub fn new(
        alloc: Global,
        query: &BoundQuery,
        method: GroupMethod,
    ) -> Result<Collected, AllocError>
        ensures { IfOk result (HoldsOutput query.now []) }
    {
        Ok(Collected {
            rows: Vec::new(alloc),
            bar: None,
            seen: Vec::new(alloc),
            groups: Groups::new(alloc, query, method)?,
            taken: 0,
        })
    }

    /// Takes a tuple that is kept. More than 2^63 - 2 tuples find no memory.
    pub fn take(
        &mut self,
        alloc: Global,
        query: &BoundQuery,
        tuple: &[Value],
    ) -> Result<(), AllocError>
        requires bounded { IsBoundedQuery query.now }
        requires row { IsRow tuple.now }
        ensures { OnOk result ((rows : List (List Value)) → HoldsOutput query.now rows self.old → HoldsOutput query.now (rows ++ tuple.now ∷ []) self.new) }
    {
        if self.taken >= MOST {
            return Err(AllocError);
        }
        self.taken += 1;
        if query.grouped {
            return self.groups.push(alloc, query, tuple);
        }
        if has_windows(query) {
            self.seen.push(seen_row(alloc, query, tuple)?)?;
            return Ok(());
        }
        if is_barred(query, &self.bar, tuple) {
            return Ok(());
        }
        let row = items_of(alloc, query.items.as_slice(), tuple)?;
        add_row(alloc, &mut self.rows, &mut self.bar, query, row)
    }

    /// Takes the row at a place of columns, which is kept. More than 2^63 - 2 tuples find no memory.
    fn take_place(
        &mut self,
        alloc: Global,
        query: &BoundQuery,
        columns: &[Option<Block>],
        place: usize,
    ) -> Result<(), AllocError>
        requires bounded { IsBoundedQuery query.now }
        requires plain { IsPlain query.now }
        requires row { IsRow (row_of columns.now place) }
        ensures { OnOk result ((rows : List (List Value)) → HoldsOutput query.now rows self.old → HoldsOutput query.now (rows ++ row_of columns.now place ∷ []) self.new) }
    {
        if self.taken >= MOST {
            return Err(AllocError);
        }
        self.taken += 1;
        if is_barred_at(query, &self.bar, columns, place) {
            return Ok(());
        }
        let row = items_of_place(alloc, query.items.as_slice(), columns, place)?;
        add_row(alloc, &mut self.rows, &mut self.bar, query, row)
    }

    /// Passes over the first of the rows at places of columns that stand behind the bar, or takes the first; answers how many it took so.
    fn take_next(
        &mut self,
        alloc: Global,
        query: &BoundQuery,
        columns: &[Option<Block>],
        places: &[usize],
    ) -> Result<usize, AllocError>
        requires bounded { IsBoundedQuery query.now }
        requires plain { IsPlain query.now }
        requires some { 0 < length places.now }
        requires rows { AreRowsAt columns.now places.now }
        ensures some { IfOk result (λ n. 0 < n) }
        ensures within { IfOk result (λ n. n ≤ length places.now) }
        ensures taken { IfOk result (λ n. (rows : List (List Value)) → HoldsOutput query.now rows self.old → HoldsOutput query.now (rows ++ map (row_of columns.now) (take n places.now)) self.new) }
    {
        let n = barred_run(query, &self.bar, columns, places);
        if n > 0 {
            self.taken = more_taken(self.taken, n)?;
            return Ok(n);
        }
        self.take_place(alloc, query, columns, places[0])?;
        Ok(1)
    }

    /// Takes the rows at places of columns.
    fn take_each(
        &mut self,
        alloc: Global,
        query: &BoundQuery,
        columns: &[Option<Block>],
        places: &[usize],
    ) -> Result<(), AllocError>
        requires bounded { IsBoundedQuery query.now }
        requires plain { IsPlain query.now }
        requires rows { AreRowsAt columns.now places.now }
        ensures { OnOk result ((rows : List (List Value)) → HoldsOutput query.now rows self.old → HoldsOutput query.now (rows ++ map (row_of columns.now) places.now) self.new) }
    {
        let mut at = 0;
        while at < places.len() {
            let n = self.take_next(alloc, query, columns, &places[at..])?;
            at += n;
        }
        Ok(())
    }

    /// The same in groups.
    fn take_grouped(
        &mut self,
        alloc: Global,
        query: &BoundQuery,
        columns: &[Option<Block>],
        places: &[usize],
    ) -> Result<(), AllocError>
        requires bounded { IsBoundedQuery query.now }
        requires grouped { query.now.grouped ≡ true }
        requires rows { AreRowsAt columns.now places.now }
        ensures { OnOk result ((rows : List (List Value)) → HoldsOutput query.now rows self.old → HoldsOutput query.now (rows ++ map (row_of columns.now) places.now) self.new) }
    {
        self.taken = more_taken(self.taken, places.len())?;
        self.groups.push_columns(alloc, query, columns, places)
    }

    /// Takes the tuples at places of columns, which are kept, where no windows see them. More than 2^63 - 2 tuples find no memory.
    pub fn take_columns(
        &mut self,
        alloc: Global,
        query: &BoundQuery,
        columns: &[Option<Block>],
        places: &[usize],
    ) -> Result<(), AllocError>
        requires bounded { IsBoundedQuery query.now }
        requires unseen { query.now.grouped ≡ false → query.now.windows ≡ [] }
        requires rows { AreRowsAt columns.now places.now }
        ensures { OnOk result ((rows : List (List Value)) → HoldsOutput query.now rows self.old → HoldsOutput query.now (rows ++ map (row_of columns.now) places.now) self.new) }
    {
        if query.grouped {
            return self.take_grouped(alloc, query, columns, places);
        }
        self.take_each(alloc, query, columns, places)
    }
}

/// How many tuples there are with so many more, of which more than 2^63 - 2 find no memory.
fn more_taken(taken: u64, count: usize) -> Result<u64, AllocError>
    ensures sum { IfOk result (λ n. n ≡ taken + count) }
    ensures few { IfOk result (λ n. n < column_bound) }
{
    match taken.checked_add(count as u64) {
        Some(sum) if sum <= MOST => Ok(sum),
        _ => Err(AllocError),
    }
}

/// Whether rows are so many more than are printed that a sort of them pays.
fn are_many(rows: &[WideRow], limit: Option<u128>) -> bool
    ensures { result ≡ false → AreFew limit rows.now }
{
    match limit {
        Some(count) => rows.len() as u128 >= count.saturating_mul(2).saturating_add(4096),
        None => false,
    }
}

/// A row joins the others. Where the query has a limit, they are cut back once they are many more, and the last of them is the bar.
pub fn add_row(
    alloc: Global,
    rows: &mut Vec<WideRow>,
    bar: &mut Option<WideRow>,
    query: &BoundQuery,
    row: WideRow,
) -> Result<(), AllocError>
    ensures { OnOk result (IsAdded query.now row rows.old.items rows.new.items bar.old bar.new) }
{
    if query.limit.is_none() {
        rows.push(row)?;
        return Ok(());
    }
    let mut all = std::mem::replace(rows, Vec::new(alloc));
    all.push(row)?;
    if !are_many(all.as_slice(), query.limit) {
        *rows = all;
        return Ok(());
    }
    let first = order_rows(all, query.order.as_slice(), query.limit)?;
    *bar = bar_of(alloc, query, first.as_slice())?;
    *rows = first;
    Ok(())
}

/// The same, where a row that stands behind the bar is dropped at once.
pub fn add_made(
    alloc: Global,
    rows: &mut Vec<WideRow>,
    bar: &mut Option<WideRow>,
    query: &BoundQuery,
    row: WideRow,
) -> Result<(), AllocError>
    requires few { AreFew query.now.limit rows.old.items }
    requires bar { IfSome bar.old (IsBar query.now.order query.now.limit rows.old.items) }
    ensures { OnOk result (IsAdded query.now row rows.old.items rows.new.items bar.old bar.new) }
{
    if is_behind(query, bar, &row) {
        return Ok(());
    }
    add_row(alloc, rows, bar, query, row)
}
