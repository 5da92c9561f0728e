//! What one aggregate keeps, group by group.

ghost use Rattle.std.specs.Prelude.{◌≡◌, ℕ, ◌+◌, ◌<◌, ◌≤◌, List, false, true, [], Some, get_or, length, map, set, take, IfOk, OnOk};
ghost use Rattle.std.specs.List.{All};
ghost use Rattle.std.specs.Option.{IfSome};
ghost use Rattle.col_value.specs.Order.{IsRow};
ghost use Rattle.col_value.specs.declared.wide.Wide.{Wide};
ghost use Rattle.col_value.specs.declared.wide.Wide.TheVariants as wide;
ghost use Rattle.expr_value.specs.Worths.{wide_of};
ghost use Rattle.exec_group.specs.Accumulators.{accumulated, argument_in, is_bounded_aggregate, worth_or_null};
ghost use Rattle.exec_group.specs.Columns.{padded, put_at, put_each, row_of, taken_at, AreRowsAt};
ghost use Rattle.exec_group.specs.Counted.{counted_each, counts_as};
ghost use Rattle.exec_group.specs.Groups.{kept_at};
ghost use Rattle.exec_group.specs.declared.accumulator.Accumulator.TheVariants.{Rows, TooGreat};
ghost use Rattle.sql_bound.specs.Values.{number_in};

use crate::Accumulator;
use crate::columns::{take_place, take_run};
use crate::lanes::lane_of;
use block_codec::Block;
use col_value::Wide;
use expr_value::Worth;
use sql_bound::{Aggregate, Expr};
use sql_tree::AggKind;
use std::alloc::{AllocError, Global};
use std::marker::Model;

/// So many rows of one group are taken together.
const MANY: usize = 16;

/// How they are held: of COUNT(*) the counts alone.
#[derive(Drop)]
pub enum Form {
    Counts(Vec<u64>),
    Each(Vec<Accumulator>),
}

/// An accumulator for each group, which contracts see as their list.
#[derive(Drop)]
pub struct Kept {
    form: Form,
}

impl Model for Kept {
    ghost use Rattle.std.specs.Prelude.{List};
    ghost use Rattle.exec_group.specs.Counted.{kept_held};
    ghost use Rattle.exec_group.specs.declared.accumulator.Accumulator.{Accumulator};

    ghost Value = { List Accumulator };

    ghost view = { λ k. kept_held k.form };
}

impl Kept {
    /// No group.
    pub fn new(alloc: Global, kind: AggKind) -> Kept
        ensures { result ≡ [] }
    {
        match kind {
            AggKind::CountAll => Kept {
                form: Form::Counts(Vec::new(alloc)),
            },
            AggKind::Count | AggKind::Sum | AggKind::Min | AggKind::Max => Kept {
                form: Form::Each(Vec::new(alloc)),
            },
        }
    }

    /// Begins groups until there are so many.
    pub fn pad(&mut self, alloc: Global, kind: AggKind, count: usize) -> Result<(), AllocError>
        ensures { OnOk result (self.new ≡ padded count (accumulated kind 0 []) self.old) }
    {
        match &mut self.form {
            Form::Counts(counts) => match kind {
                AggKind::CountAll => pad_counts(counts, count),
                AggKind::Count | AggKind::Sum | AggKind::Min | AggKind::Max => {
                    let mut list = each_of(alloc, counts.as_slice())?;
                    pad(&mut list, kind, count)?;
                    self.form = Form::Each(list);
                    Ok(())
                },
            },
            Form::Each(list) => pad(list, kind, count),
        }
    }

    /// Takes a row more in a group, in which the argument has this value.
    pub fn take(&mut self, alloc: Global, group: usize, value: &Worth<'_>) -> Result<(), AllocError>
        ensures { OnOk result (self.new ≡ put_at self.old group (wide_of value.now)) }
    {
        match &mut self.form {
            Form::Counts(counts) => count_at(counts, group),
            Form::Each(list) => take_at(list, alloc, group, value),
        }
    }

    /// Takes the rows at places of columns, each in its group.
    pub fn take_columns(
        &mut self,
        alloc: Global,
        a: &Aggregate,
        columns: &[Option<Block>],
        groups: &[usize],
        places: &[usize],
    ) -> Result<(), AllocError>
        requires bounded { is_bounded_aggregate a.now ≡ true }
        requires rows { AreRowsAt columns.now places.now }
        requires long { length groups.now ≡ length places.now }
        ensures { OnOk result (self.new ≡ put_each (λ p. argument_in a.now.arg (row_of columns.now p)) groups.now places.now self.old) }
    {
        match &mut self.form {
            Form::Counts(counts) => count_each(counts, groups),
            Form::Each(list) => take_columns(list, alloc, a, columns, groups, places),
        }
    }

    /// Whether the aggregate is a sum that is too great in a group.
    #[tactic(auto, using(crate::proofs::Counting::no_count_is_great))]
    pub fn is_great_at(&self, group: usize) -> bool
        ensures great { result ≡ true → kept_at self.now group ≡ TooGreat }
        ensures fits { result ≡ false → kept_at self.now group ≡ TooGreat → ⊥ }
    {
        match &self.form {
            Form::Counts(_) => false,
            Form::Each(list) => is_great_in(list.as_slice(), group),
        }
    }

    /// The aggregate's value in a group; NULL where there is no such group, or where it is a sum that is too great.
    pub fn worth_at(&self, alloc: Global, group: usize) -> Result<Wide, AllocError>
        ensures { IfOk result (λ w. w ≡ worth_or_null (kept_at self.now group)) }
    {
        match &self.form {
            Form::Counts(counts) => Ok(count_worth(counts.as_slice(), group)),
            Form::Each(list) => worth_in(alloc, list.as_slice(), group),
        }
    }
}

/// Whether the accumulator of a group is a sum that is too great.
fn is_great_in(list: &[Accumulator], group: usize) -> bool
    ensures great { result ≡ true → kept_at list.now group ≡ TooGreat }
    ensures fits { result ≡ false → kept_at list.now group ≡ TooGreat → ⊥ }
{
    match list.get(group) {
        Some(accumulator) => accumulator.is_great(),
        None => false,
    }
}

/// The count of a group; NULL where there is no such group.
fn count_worth(counts: &[u64], group: usize) -> Wide
    ensures { result ≡ worth_or_null (kept_at (counts_as counts.now) group) }
{
    match counts.get(group) {
        Some(n) => Wide::Int(i128::from(*n)),
        None => Wide::Null,
    }
}

/// The value of a group's accumulator; NULL where there is no such group, or where it is a sum that is too great.
fn worth_in(alloc: Global, list: &[Accumulator], group: usize) -> Result<Wide, AllocError>
    ensures { IfOk result (λ w. w ≡ worth_or_null (kept_at list.now group)) }
{
    match list.get(group) {
        Some(accumulator) => accumulator.worth_or_null(alloc),
        None => Ok(Wide::Null),
    }
}

/// The accumulators of counts.
fn each_of(alloc: Global, counts: &[u64]) -> Result<Vec<Accumulator>, AllocError>
    ensures { IfOk result (λ v. v.items ≡ counts_as counts.now) }
{
    let mut out = Vec::with_capacity(alloc, counts.len())?;
    for n in counts {
        out.push(Accumulator::Rows(*n))?;
    }
    Ok(out)
}

/// Begins counts until there are so many.
fn pad_counts(counts: &mut Vec<u64>, count: usize) -> Result<(), AllocError>
    ensures { OnOk result (counts_as counts.new.items ≡ padded count (Rows 0) (counts_as counts.old.items)) }
{
    while counts.len() < count {
        counts.push(0)?;
    }
    Ok(())
}

/// A count and so many more. One that no u64 holds finds no memory.
fn raised_by(n: u64, many: usize) -> Result<u64, AllocError>
    ensures { IfOk result (λ m. m ≡ n + many) }
{
    match n.checked_add(many as u64) {
        Some(m) => Ok(m),
        None => Err(AllocError),
    }
}

/// Counts so many rows more in a group.
fn count_many(counts: &mut Vec<u64>, group: usize, many: usize) -> Result<(), AllocError>
    ensures { OnOk result (counts.new.items ≡ set counts.old.items group (get_or counts.old.items group 0 + many)) }
{
    if group < counts.len() {
        counts[group] = raised_by(counts[group], many)?;
    }
    Ok(())
}

/// The same, whatever the argument is worth.
fn count_at(counts: &mut Vec<u64>, group: usize) -> Result<(), AllocError>
    ensures { OnOk result ((w : Wide) → counts_as counts.new.items ≡ put_at (counts_as counts.old.items) group w) }
{
    count_many(counts, group, 1)
}

/// Counts a row more in each of these groups.
fn count_all(counts: &mut Vec<u64>, groups: &[usize]) -> Result<(), AllocError>
    ensures { OnOk result (counts.new.items ≡ counted_each groups.now counts.old.items) }
{
    for group in groups {
        count_many(counts, *group, 1)?;
    }
    Ok(())
}

/// Counts the first of these rows together, where many of one group stand there, or else all; answers how many it counted.
fn count_next(counts: &mut Vec<u64>, groups: &[usize]) -> Result<usize, AllocError>
    requires some { 0 < length groups.now }
    ensures some { IfOk result (λ n. 0 < n) }
    ensures within { IfOk result (λ n. n ≤ length groups.now) }
    ensures counted { IfOk result (λ n. counts.new.items ≡ counted_each (take n groups.now) counts.old.items) }
{
    let n = same_length(groups);
    if n >= MANY {
        count_many(counts, groups[0], n)?;
        return Ok(n);
    }
    count_all(counts, groups)?;
    Ok(groups.len())
}

/// Counts a row more in each of these groups, many of one group together.
fn count_runs(counts: &mut Vec<u64>, groups: &[usize]) -> Result<(), AllocError>
    ensures { OnOk result (counts.new.items ≡ counted_each groups.now counts.old.items) }
{
    let mut at = 0;
    while at < groups.len() {
        let n = count_next(counts, &groups[at..])?;
        at += n;
    }
    Ok(())
}

/// The same, whatever the argument is worth in the rows.
fn count_each(counts: &mut Vec<u64>, groups: &[usize]) -> Result<(), AllocError>
    ensures { OnOk result ((f : ℕ → Wide) (places : List ℕ) → length groups.now ≡ length places → counts_as counts.new.items ≡ put_each f groups.now places (counts_as counts.old.items)) }
{
    count_runs(counts, groups)
}

/// Begins groups until there are so many.
fn pad(list: &mut Vec<Accumulator>, kind: AggKind, count: usize) -> Result<(), AllocError>
    ensures { OnOk result (list.new.items ≡ padded count (accumulated kind 0 []) list.old.items) }
{
    while list.len() < count {
        list.push(Accumulator::new(kind))?;
    }
    Ok(())
}

/// Lets the accumulator of a group take a value.
fn take_at(
    list: &mut Vec<Accumulator>,
    alloc: Global,
    group: usize,
    value: &Worth<'_>,
) -> Result<(), AllocError>
    ensures { OnOk result (list.new.items ≡ put_at list.old.items group (wide_of value.now)) }
{
    if group < list.len() {
        list[group].take(alloc, value)?;
    }
    Ok(())
}

/// Lets the accumulator of a group take the row at a place.
fn take_place_at(
    list: &mut Vec<Accumulator>,
    alloc: Global,
    group: usize,
    a: &Aggregate,
    columns: &[Option<Block>],
    place: usize,
) -> Result<(), AllocError>
    requires bounded { is_bounded_aggregate a.now ≡ true }
    requires row { IsRow (row_of columns.now place) }
    ensures { OnOk result (list.new.items ≡ put_at list.old.items group (argument_in a.now.arg (row_of columns.now place))) }
{
    if group < list.len() {
        take_place(&mut list[group], alloc, a, columns, place)?;
    }
    Ok(())
}

/// Takes the rows at places, one after another.
fn take_each(
    list: &mut Vec<Accumulator>,
    alloc: Global,
    a: &Aggregate,
    columns: &[Option<Block>],
    groups: &[usize],
    places: &[usize],
) -> Result<(), AllocError>
    requires bounded { is_bounded_aggregate a.now ≡ true }
    requires rows { AreRowsAt columns.now places.now }
    requires long { length groups.now ≡ length places.now }
    ensures { OnOk result (list.new.items ≡ put_each (λ p. argument_in a.now.arg (row_of columns.now p)) groups.now places.now list.old.items) }
{
    for (i, place) in places.iter().enumerate() {
        take_place_at(list, alloc, groups[i], a, columns, *place)?;
    }
    Ok(())
}

/// Lets the accumulator of a group take a number.
#[inline(always)]
fn take_number_at(
    list: &mut Vec<Accumulator>,
    alloc: Global,
    group: usize,
    n: i64,
) -> Result<(), AllocError>
    ensures { OnOk result (list.new.items ≡ put_at list.old.items group (wide.Int n)) }
{
    if group < list.len() {
        list[group].take_number(alloc, n)?;
    }
    Ok(())
}

/// Takes numbers, each in its group.
#[inline(never)]
fn take_numbers(
    list: &mut Vec<Accumulator>,
    alloc: Global,
    groups: &[usize],
    numbers: &[i64],
) -> Result<(), AllocError>
    requires long { length groups.now ≡ length numbers.now }
    ensures { OnOk result (list.new.items ≡ put_each (λ n. wide.Int n) groups.now numbers.now list.old.items) }
{
    for (i, n) in numbers.iter().enumerate() {
        take_number_at(list, alloc, groups[i], *n)?;
    }
    Ok(())
}

/// The numbers that an argument is worth in the rows at places, if it is a number in each.
fn argument_lane(
    alloc: Global,
    a: &Aggregate,
    columns: &[Option<Block>],
    places: &[usize],
) -> Result<Option<Vec<i64>>, AllocError>
    ensures { IfOk result (λ o. IfSome o (λ v. map Some v.items ≡ map (λ i. number_in (argument_in a.now.arg (row_of columns.now i))) places.now)) }
{
    match &a.arg {
        Some(e) => lane_of(alloc, e, columns, places),
        None => Ok(None),
    }
}

/// How many groups, from the first on, are the same.
fn same_length(groups: &[usize]) -> usize
    ensures within { result ≤ length groups.now }
    ensures same { All (λ h. h ≡ get_or groups.now 0 0) (take result groups.now) }
{
    for (n, group) in groups.iter().enumerate() {
        if *group != groups[0] {
            return n;
        }
    }
    groups.len()
}

/// Takes the rows at places of columns in one group.
fn take_run_at(
    list: &mut Vec<Accumulator>,
    alloc: Global,
    group: usize,
    a: &Aggregate,
    columns: &[Option<Block>],
    places: &[usize],
) -> Result<(), AllocError>
    requires bounded { is_bounded_aggregate a.now ≡ true }
    requires rows { AreRowsAt columns.now places.now }
    ensures { OnOk result (list.new.items ≡ set list.old.items group (taken_at columns.now a.now places.now (get_or list.old.items group TooGreat))) }
{
    if group < list.len() {
        take_run(&mut list[group], alloc, a, columns, places)?;
    }
    Ok(())
}

/// Takes the rows at places of columns, each in its group, one after another.
fn take_mixed(
    list: &mut Vec<Accumulator>,
    alloc: Global,
    a: &Aggregate,
    columns: &[Option<Block>],
    groups: &[usize],
    places: &[usize],
) -> Result<(), AllocError>
    requires bounded { is_bounded_aggregate a.now ≡ true }
    requires rows { AreRowsAt columns.now places.now }
    requires long { length groups.now ≡ length places.now }
    ensures { OnOk result (list.new.items ≡ put_each (λ p. argument_in a.now.arg (row_of columns.now p)) groups.now places.now list.old.items) }
{
    match argument_lane(alloc, a, columns, places)? {
        Some(numbers) => take_numbers(list, alloc, groups, numbers.as_slice()),
        None => take_each(list, alloc, a, columns, groups, places),
    }
}

/// Takes the first of the rows at places together, where many of one group stand there, or else all; answers how many it took.
fn take_next(
    list: &mut Vec<Accumulator>,
    alloc: Global,
    a: &Aggregate,
    columns: &[Option<Block>],
    groups: &[usize],
    places: &[usize],
) -> Result<usize, AllocError>
    requires bounded { is_bounded_aggregate a.now ≡ true }
    requires rows { AreRowsAt columns.now places.now }
    requires long { length groups.now ≡ length places.now }
    requires some { 0 < length places.now }
    ensures some { IfOk result (λ n. 0 < n) }
    ensures within { IfOk result (λ n. n ≤ length places.now) }
    ensures taken { IfOk result (λ n. list.new.items ≡ put_each (λ p. argument_in a.now.arg (row_of columns.now p)) (take n groups.now) (take n places.now) list.old.items) }
{
    let n = same_length(groups);
    if n >= MANY {
        take_run_at(list, alloc, groups[0], a, columns, &places[..n])?;
        return Ok(n);
    }
    take_mixed(list, alloc, a, columns, groups, places)?;
    Ok(places.len())
}

/// Takes the rows at places of columns, each in its group.
fn take_columns(
    list: &mut Vec<Accumulator>,
    alloc: Global,
    a: &Aggregate,
    columns: &[Option<Block>],
    groups: &[usize],
    places: &[usize],
) -> Result<(), AllocError>
    requires bounded { is_bounded_aggregate a.now ≡ true }
    requires rows { AreRowsAt columns.now places.now }
    requires long { length groups.now ≡ length places.now }
    ensures { OnOk result (list.new.items ≡ put_each (λ p. argument_in a.now.arg (row_of columns.now p)) groups.now places.now list.old.items) }
{
    let mut at = 0;
    while at < places.len() {
        let n = take_next(list, alloc, a, columns, &groups[at..], &places[at..])?;
        at += n;
    }
    Ok(())
}
