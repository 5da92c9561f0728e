//! The walk forward: the numbers of each row, and what its partition adds up to so far.

ghost use Rattle.std.specs.Prelude.{◌≡◌, ℕ, ◌+◌, true, map, List, None, option_map, IfOk, OnOk, IsErrOf};
ghost use Rattle.std.specs.List.{All};
ghost use Rattle.col_value.specs.declared.value.Value.{Value};
ghost use Rattle.sql_bound.specs.declared.query.BoundWindow.{BoundWindow as Window};
ghost use Rattle.exec_group.specs.Accumulators.{is_bounded_aggregate};
ghost use Rattle.exec_window.specs.declared.fault.WindowFault.{WindowFault};
ghost use Rattle.exec_window.specs.Walks.{AllFit, IsGreat, IsRowOf, SomeGreat, before_at, is_peer, joins, next_at, number_at, pair_of, seen_of, step_of, steps, sum_at};

use crate::WindowFault;
use crate::compare::{are_peers, is_in_partition};
use crate::tuples::Tuple;
use col_value::Wide;
use exec_group::{Accumulator, GroupFault, argument_of};
use sql_bound::{Aggregate, BoundWindow};
use std::alloc::{AllocError, Global};

/// Where a walk stands: at a row, behind so many of its partition and so many that stand before it, with what the partition adds up to.
#[derive(Drop)]
pub struct At<'a> {
    pub tuple: Tuple<'a>,
    pub peer: bool,
    pub numbered: u64,
    pub before: u64,
    pub sum: Accumulator,
}

/// What a walk leaves of a row: its place, whether it is a peer of the one before it, behind how many of its partition and how many that
/// stand before it, and the aggregate up to it.
#[derive(Drop)]
pub struct Step {
    pub place: usize,
    pub peer: bool,
    pub numbered: u64,
    pub before: u64,
    pub frame: Wide,
}

fn joins(window: &BoundWindow, at: &Option<At<'_>>, tuple: &Tuple<'_>) -> bool
    ensures { result ≡ joins window.now (option_map seen_of at.now) (pair_of tuple.now) }
{
    match at {
        Some(at) => is_in_partition(window, tuple.row, at.tuple.row),
        None => false,
    }
}

fn is_peer(window: &BoundWindow, at: &Option<At<'_>>, tuple: &Tuple<'_>) -> bool
    ensures { result ≡ is_peer window.now (option_map seen_of at.now) (pair_of tuple.now) }
{
    match at {
        Some(at) => {
            is_in_partition(window, tuple.row, at.tuple.row)
                && are_peers(window, tuple.row, at.tuple.row)
        }
        None => false,
    }
}

/// Behind how many tuples of its partition a tuple stands. A number that no u64 holds finds no memory.
fn number_at(
    window: &BoundWindow,
    at: &Option<At<'_>>,
    tuple: &Tuple<'_>,
) -> Result<u64, AllocError>
    ensures { IfOk result (λ n. n ≡ number_at window.now (option_map seen_of at.now) (pair_of tuple.now)) }
{
    match at {
        Some(at) if is_in_partition(window, tuple.row, at.tuple.row) => raised(at.numbered),
        Some(_) | None => Ok(0),
    }
}

fn raised(n: u64) -> Result<u64, AllocError>
    ensures { IfOk result (λ m. m ≡ n + 1) }
{
    match n.checked_add(1) {
        Some(m) => Ok(m),
        None => Err(AllocError),
    }
}

/// Behind how many that stand before it; `numbered` is how many of its partition there are so far.
fn before_at(window: &BoundWindow, at: &Option<At<'_>>, tuple: &Tuple<'_>, numbered: u64) -> u64
    requires { numbered ≡ number_at window.now (option_map seen_of at.now) (pair_of tuple.now) }
    ensures { result ≡ before_at window.now (option_map seen_of at.now) (pair_of tuple.now) }
{
    match at {
        Some(last) if is_peer(window, at, tuple) => last.before,
        Some(_) | None => numbered,
    }
}

/// What the partition adds up to before a tuple that joins it or begins another.
fn sum_at(joined: bool, aggregate: &Aggregate, at: Option<At<'_>>) -> Accumulator
    ensures { (w : Window) (t : ℕ × List Value) → joined ≡ joins w (option_map seen_of at.entry) t → result ≡ sum_at w aggregate.now (option_map seen_of at.entry) t }
{
    match at {
        Some(at) if joined => at.sum,
        Some(_) | None => Accumulator::new(aggregate.kind),
    }
}

/// The walk at the next tuple.
fn next<'a>(
    alloc: Global,
    window: &BoundWindow,
    aggregate: &Aggregate,
    at: Option<At<'a>>,
    tuple: Tuple<'a>,
) -> Result<At<'a>, AllocError>
    requires bounded { is_bounded_aggregate aggregate.now ≡ true }
    requires row { IsRowOf tuple }
    ensures { IfOk result (λ n. seen_of n ≡ next_at window.now aggregate.now (option_map seen_of at.entry) (pair_of tuple.entry)) }
{
    let joined = joins(window, &at, &tuple);
    let peer = is_peer(window, &at, &tuple);
    let numbered = number_at(window, &at, &tuple)?;
    let before = before_at(window, &at, &tuple, numbered);
    let mut sum = sum_at(joined, aggregate, at);
    sum.take(alloc, &argument_of(aggregate, tuple.row.as_slice()))?;
    Ok(At {
        tuple,
        peer,
        numbered,
        before,
        sum,
    })
}

/// What is left of where the walk stands; a fault where the sum is too great.
fn step_of(alloc: Global, at: &At<'_>) -> Result<Step, WindowFault>
    ensures step { IfOk result (λ s. s ≡ step_of (seen_of at.now)) }
    ensures fits { OnOk result (IsGreat (seen_of at.now) → ⊥) }
    ensures great { IsErrOf result WindowFault.SumOutOfRange → IsGreat (seen_of at.now) }
{
    match at.sum.worth(alloc) {
        Ok(frame) => Ok(Step {
            place: at.tuple.place,
            peer: at.peer,
            numbered: at.numbered,
            before: at.before,
            frame,
        }),
        Err(GroupFault::SumOutOfRange) => Err(WindowFault::SumOutOfRange),
        Err(GroupFault::Memory) => Err(WindowFault::Memory),
    }
}

/// What the walk leaves of the tuples. `SumOutOfRange` comes exactly where the sum of a partition is too great somewhere on the way.
pub fn walk(
    alloc: Global,
    window: &BoundWindow,
    aggregate: &Aggregate,
    tuples: &[Tuple<'_>],
) -> Result<Vec<Step>, WindowFault>
    requires bounded { is_bounded_aggregate aggregate.now ≡ true }
    requires rows { All IsRowOf tuples.now }
    ensures steps { IfOk result (λ v. v.items ≡ steps window.now aggregate.now None (map pair_of tuples.now)) }
    ensures fits { OnOk result (AllFit window.now aggregate.now None (map pair_of tuples.now)) }
    ensures great { IsErrOf result WindowFault.SumOutOfRange → SomeGreat window.now aggregate.now None (map pair_of tuples.now) }
{
    let mut out = Vec::with_capacity(alloc, tuples.len())?;
    let mut at = None;
    for tuple in tuples {
        let here = next(alloc, window, aggregate, at, *tuple)?;
        out.push(step_of(alloc, &here)?)?;
        at = Some(here);
    }
    Ok(out)
}
