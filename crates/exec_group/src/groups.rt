//! Groups, each found by its key.

ghost use Rattle.std.specs.Prelude.{◌≡◌, ℕ, ◌<◌, ◌++◌, ◌∷◌, List, [], false, true, get_or, length, map, set, IfOk, OnOk, IsErrOf};
ghost use Rattle.std.specs.List.{All};
ghost use Rattle.col_value.specs.Order.{IsRow};
ghost use Rattle.col_value.specs.declared.value.Value.{Value};
ghost use Rattle.expr_value.specs.Worths.{wide_of};
ghost use Rattle.sql_bound.specs.declared.query.BoundQuery.{BoundQuery};
ghost use Rattle.sql_bound.specs.Outputs.{keys_of};
ghost use Rattle.exec_group.specs.Accumulators.{accumulated, argument_in, is_bounded_aggregate};
ghost use Rattle.exec_group.specs.Columns.{each_put, padded, put_at, put_each, row_of, AreRowsAt};
ghost use Rattle.exec_group.specs.Groups.{AreGroups, FitsAt, HasGreatSum, HoldsGroups, IsGreatAt, IsPut, one_group, worths_at};
ghost use Rattle.exec_group.specs.declared.fault.GroupFault.{GroupFault};

use crate::GroupFault;
use crate::argument::argument_of;
use crate::held_keys::Keys;
use crate::kept::Kept;
use crate::method::GroupMethod;
use block_codec::Block;
use col_value::{List, Value, Wide};
use expr_value::Worth;
use sql_bound::{Aggregate, BoundQuery};
use std::alloc::{AllocError, Global};
use std::marker::Model;

/// The groups of the rows taken so far: their keys, and of each aggregate what it keeps in each group.
#[derive(Drop)]
pub struct Groups {
    keys: Keys,
    columns: Vec<Kept>,
}

impl Model for Groups {
    ghost use Rattle.exec_group.specs.Groups.{Held};

    ghost Value = { Held };

    ghost view = { λ g. record { keys = g.keys; columns = g.columns.items } };
}

/// Groups that are done, none of whose sums is too great. Contracts see the GROUP BY columns of each, and beside them its aggregates; they
/// are made when they are asked for.
#[derive(Drop)]
pub struct Grouped {
    keys: Keys,
    columns: Vec<Kept>,
}

impl Model for Grouped {
    ghost use Rattle.std.specs.Prelude.{length};
    ghost use Rattle.exec_group.specs.Groups.{DoneGroups, worths_upto};

    ghost Value = { DoneGroups };

    ghost view = { λ g. record { keys = g.keys; aggs = worths_upto g.columns.items (length g.keys) } };
}

impl Grouped {
    /// How many there are.
    #[tactic(auto, using(crate::proofs::Done::worths_count))]
    pub fn len(&self) -> usize
        ensures keys { result ≡ length self.now.keys }
        ensures aggs { result ≡ length self.now.aggs }
    {
        self.keys.len()
    }

    /// Puts the GROUP BY columns and the aggregates of the group at a place into two lists, in the place of what they hold.
    #[tactic(auto, using(crate::proofs::Done::worths_there))]
    pub fn copy_group(
        &self,
        alloc: Global,
        group: usize,
        keys: &mut Vec<Value>,
        aggs: &mut Vec<Wide>,
    ) -> Result<(), AllocError>
        requires { group < length self.now.keys }
        ensures keys { OnOk result (keys.new.items ≡ get_or self.now.keys group []) }
        ensures aggs { OnOk result (aggs.new.items ≡ get_or self.now.aggs group []) }
    {
        self.keys.copy_key(alloc, group, keys)?;
        copy_worths(alloc, self.columns.as_slice(), group, aggs)
    }
}

impl Groups {
    /// The groups over no row: none, or the one group of a query without GROUP BY. By the method `Sorted` keys of one number are held as they
    /// come, as long as each is greater than the one before it; a row of any other key is first held against the key of the row before it.
    pub fn new(alloc: Global, query: &BoundQuery, method: GroupMethod) -> Result<Groups, AllocError>
        ensures { IfOk result (HoldsGroups query.now []) }
    {
        if query.keys.as_slice().is_empty() {
            return Groups::one(alloc, query.aggs.as_slice());
        }
        Ok(Groups {
            keys: Keys::new(alloc, query.keys.as_slice().len(), method),
            columns: columns_of(alloc, query.aggs.as_slice(), 0)?,
        })
    }

    /// One group, of no key and no row.
    fn one(alloc: Global, aggs: &[Aggregate]) -> Result<Groups, AllocError>
        ensures { IfOk result (λ g. g ≡ one_group aggs.now) }
    {
        let mut keys = Keys::new(alloc, 0, GroupMethod::Hash);
        keys.add(alloc, List::new(Vec::new(alloc)))?;
        let columns = columns_of(alloc, aggs, 1)?;
        Ok(Groups { keys, columns })
    }

    /// Takes a row of the query. Groups that found no memory for a row are of no more use.
    pub fn push(
        &mut self,
        alloc: Global,
        query: &BoundQuery,
        row: &[Value],
    ) -> Result<(), AllocError>
        requires bounded { All (λ a. is_bounded_aggregate a ≡ true) query.now.aggs }
        requires row { IsRow row.now }
        ensures { OnOk result ((rows : List (List Value)) → HoldsGroups query.now rows self.old → HoldsGroups query.now (rows ++ row.now ∷ []) self.new) }
    {
        self.put(alloc, query.keys.as_slice(), query.aggs.as_slice(), row)
    }

    /// Puts a row to its group, or begins a group with it.
    fn put(
        &mut self,
        alloc: Global,
        keys: &[usize],
        aggs: &[Aggregate],
        row: &[Value],
    ) -> Result<(), AllocError>
        requires bounded { All (λ a. is_bounded_aggregate a ≡ true) aggs.now }
        requires row { IsRow row.now }
        ensures { OnOk result (IsPut (λ (r : List Value). r) keys.now aggs.now (row.now ∷ []) self.old self.new) }
    {
        let group = self.keys.enter_row(alloc, keys, row)?;
        let count = self.keys.len();
        put_row(&mut self.columns, alloc, aggs, count, group, row)
    }

    /// Takes the rows of the query at places of columns, one aggregate after another.
    pub fn push_columns(
        &mut self,
        alloc: Global,
        query: &BoundQuery,
        columns: &[Option<Block>],
        places: &[usize],
    ) -> Result<(), AllocError>
        requires bounded { All (λ a. is_bounded_aggregate a ≡ true) query.now.aggs }
        requires rows { AreRowsAt columns.now places.now }
        ensures { OnOk result ((rows : List (List Value)) → HoldsGroups query.now rows self.old → HoldsGroups query.now (rows ++ map (row_of columns.now) places.now) self.new) }
    {
        self.put_columns(
            alloc,
            query.keys.as_slice(),
            query.aggs.as_slice(),
            columns,
            places,
        )
    }

    /// Puts the rows at places to their groups.
    fn put_columns(
        &mut self,
        alloc: Global,
        keys: &[usize],
        aggs: &[Aggregate],
        columns: &[Option<Block>],
        places: &[usize],
    ) -> Result<(), AllocError>
        requires bounded { All (λ a. is_bounded_aggregate a ≡ true) aggs.now }
        requires rows { AreRowsAt columns.now places.now }
        ensures { OnOk result (IsPut (row_of columns.now) keys.now aggs.now places.now self.old self.new) }
    {
        let groups = self.keys.enter_columns(alloc, keys, columns, places)?;
        let count = self.keys.len();
        put_places(
            &mut self.columns,
            alloc,
            aggs,
            count,
            columns,
            groups.as_slice(),
            places,
        )
    }

    /// The groups of all rows taken, and a fault where a SUM passes what a result holds in one of them. It takes no memory.
    pub fn finish(self) -> Result<Grouped, GroupFault>
        ensures groups { IfOk result (λ g. (q : BoundQuery) (rows : List (List Value)) → HoldsGroups q rows self → AreGroups q rows g) }
        ensures in_range { OnOk result ((q : BoundQuery) (rows : List (List Value)) → HoldsGroups q rows self → HasGreatSum q rows → ⊥) }
        ensures great { IsErrOf result GroupFault.SumOutOfRange → (q : BoundQuery) (rows : List (List Value)) → HoldsGroups q rows self → HasGreatSum q rows }
    {
        let Groups { keys, columns } = self;
        if !all_fit(columns.as_slice(), keys.len()) {
            return Err(GroupFault::SumOutOfRange);
        }
        Ok(Grouped { keys, columns })
    }
}

/// An aggregate over no row in so many groups.
fn column_of(alloc: Global, a: &Aggregate, count: usize) -> Result<Kept, AllocError>
    ensures { IfOk result (λ c. c ≡ padded count (accumulated a.now.kind 0 []) []) }
{
    let mut column = Kept::new(alloc, a.kind);
    column.pad(alloc, a.kind, count)?;
    Ok(column)
}

/// The aggregates over no row in so many groups.
fn columns_of(alloc: Global, aggs: &[Aggregate], count: usize) -> Result<Vec<Kept>, AllocError>
    ensures { IfOk result (λ v. v.items ≡ map (λ a. padded count (accumulated a.kind 0 []) []) aggs.now) }
{
    let mut out = Vec::with_capacity(alloc, aggs.len())?;
    for a in aggs {
        out.push(column_of(alloc, a, count)?)?;
    }
    Ok(out)
}

/// Lets an aggregate take a row more in one of so many groups.
fn put_row_in(
    column: &mut Kept,
    alloc: Global,
    a: &Aggregate,
    count: usize,
    group: usize,
    value: &Worth<'_>,
) -> Result<(), AllocError>
    ensures { OnOk result (column.new ≡ put_at (padded count (accumulated a.now.kind 0 []) column.old) group (wide_of value.now)) }
{
    column.pad(alloc, a.kind, count)?;
    column.take(alloc, group, value)
}

/// The same of the aggregate at place i.
fn put_row_at(
    columns: &mut Vec<Kept>,
    alloc: Global,
    i: usize,
    a: &Aggregate,
    count: usize,
    group: usize,
    value: &Worth<'_>,
) -> Result<(), AllocError>
    ensures { OnOk result (columns.new.items ≡ set columns.old.items i (put_at (padded count (accumulated a.now.kind 0 []) (get_or columns.old.items i [])) group (wide_of value.now))) }
{
    if i < columns.len() {
        put_row_in(&mut columns[i], alloc, a, count, group, value)?;
    }
    Ok(())
}

/// Lets each aggregate take a row more in one of so many groups.
fn put_row(
    columns: &mut Vec<Kept>,
    alloc: Global,
    aggs: &[Aggregate],
    count: usize,
    group: usize,
    row: &[Value],
) -> Result<(), AllocError>
    requires bounded { All (λ a. is_bounded_aggregate a ≡ true) aggs.now }
    requires row { IsRow row.now }
    ensures { OnOk result (columns.new.items ≡ each_put (λ (r : List Value). r) count (group ∷ []) (row.now ∷ []) aggs.now columns.old.items) }
{
    for (i, a) in aggs.iter().enumerate() {
        put_row_at(columns, alloc, i, a, count, group, &argument_of(a, row))?;
    }
    Ok(())
}

/// Lets an aggregate take the rows at places of columns, each in one of so many groups.
fn put_places_in(
    column: &mut Kept,
    alloc: Global,
    a: &Aggregate,
    count: usize,
    columns: &[Option<Block>],
    groups: &[usize],
    places: &[usize],
) -> Result<(), AllocError>
    requires bounded { is_bounded_aggregate a.now ≡ true }
    requires rows { AreRowsAt columns.now places.now }
    requires long { length groups.now ≡ length places.now }
    ensures { OnOk result (column.new ≡ put_each (λ p. argument_in a.now.arg (row_of columns.now p)) groups.now places.now (padded count (accumulated a.now.kind 0 []) column.old)) }
{
    column.pad(alloc, a.kind, count)?;
    column.take_columns(alloc, a, columns, groups, places)
}

/// The same of the aggregate at place i.
fn put_places_at(
    kept: &mut Vec<Kept>,
    alloc: Global,
    i: usize,
    a: &Aggregate,
    count: usize,
    columns: &[Option<Block>],
    groups: &[usize],
    places: &[usize],
) -> Result<(), AllocError>
    requires bounded { is_bounded_aggregate a.now ≡ true }
    requires rows { AreRowsAt columns.now places.now }
    requires long { length groups.now ≡ length places.now }
    ensures { OnOk result (kept.new.items ≡ set kept.old.items i (put_each (λ p. argument_in a.now.arg (row_of columns.now p)) groups.now places.now (padded count (accumulated a.now.kind 0 []) (get_or kept.old.items i [])))) }
{
    if i < kept.len() {
        put_places_in(&mut kept[i], alloc, a, count, columns, groups, places)?;
    }
    Ok(())
}

/// Lets each aggregate take the rows at places of columns, each in one of so many groups.
fn put_places(
    kept: &mut Vec<Kept>,
    alloc: Global,
    aggs: &[Aggregate],
    count: usize,
    columns: &[Option<Block>],
    groups: &[usize],
    places: &[usize],
) -> Result<(), AllocError>
    requires bounded { All (λ a. is_bounded_aggregate a ≡ true) aggs.now }
    requires rows { AreRowsAt columns.now places.now }
    requires long { length groups.now ≡ length places.now }
    ensures { OnOk result (kept.new.items ≡ each_put (row_of columns.now) count groups.now places.now aggs.now kept.old.items) }
{
    for (i, a) in aggs.iter().enumerate() {
        put_places_at(kept, alloc, i, a, count, columns, groups, places)?;
    }
    Ok(())
}

/// Whether no sum is too great in a group.
fn fit_at(columns: &[Kept], group: usize) -> bool
    ensures fit { result ≡ true → FitsAt columns.now group }
    ensures great { result ≡ false → IsGreatAt columns.now group }
{
    for column in columns {
        if column.is_great_at(group) {
            return false;
        }
    }
    true
}

/// Whether none is in each of the first groups.
fn all_fit(columns: &[Kept], count: usize) -> bool
    ensures fit { result ≡ true → (g : ℕ) → g < count → FitsAt columns.now g }
    ensures great { result ≡ false → (g : ℕ) × (g < count) × IsGreatAt columns.now g }
{
    for group in 0..count {
        if !fit_at(columns, group) {
            return false;
        }
    }
    true
}

/// Puts the values of the aggregates in a group into a list, in the place of what it holds.
fn copy_worths(
    alloc: Global,
    columns: &[Kept],
    group: usize,
    out: &mut Vec<Wide>,
) -> Result<(), AllocError>
    ensures { OnOk result (out.new.items ≡ worths_at columns.now group) }
{
    out.clear();
    for column in columns {
        out.push(column.worth_at(alloc, group)?)?;
    }
    Ok(())
}
