//! Aggregates that take the rows at places of columns, one aggregate after another.

ghost use Rattle.std.specs.Prelude.{◌≡◌, ℕ, ◌+◌, ◌≤◌, true, false, if◌then◌else◌, Some, map, length, IfOk, OnOk};
ghost use Rattle.std.specs.Option.{IfSome};
ghost use Rattle.std.specs.List.{slice_index_or};
ghost use Rattle.block_codec.specs.Held.{number_value};
ghost use Rattle.col_value.specs.Order.{widened, IsRow};
ghost use Rattle.col_value.specs.declared.value.Value.TheVariants.{Null};
ghost use Rattle.exec_group.specs.Accumulators.{argument_in, is_bounded_aggregate, taken};
ghost use Rattle.expr_value.specs.Worths.{wide_of};
ghost use Rattle.sql_bound.specs.Bounds.{magnitude};
ghost use Rattle.sql_bound.specs.Values.{number_in, of_row, value_of};
ghost use Rattle.exec_group.specs.Columns.{row_of, taken_at, AreRowsAt, HasGained, IsRaised, IsTotalOf};

use crate::Accumulator;
use crate::argument::argument_of;
use crate::cells::{row_at, worth_at};
use crate::lanes::{lane_of, numbers_of};
use crate::numbers::{lane_number_at, number_at};
use block_codec::Block;
use expr_value::Worth;
use sql_bound::{Aggregate, Expr};
use std::alloc::{AllocError, Global};

/// So few rows are taken one by one as quickly as together.
const FEW: usize = 4;

/// What the argument of an aggregate is worth in the row at a place, where no row has to be made for it.
fn argument_at<'a>(
    a: &'a Aggregate,
    columns: &'a [Option<Block>],
    place: usize,
) -> Option<Worth<'a>>
    ensures { IfSome result (λ w. wide_of w ≡ argument_in a.now.arg (row_of columns.now place)) }
{
    match &a.arg {
        None => Some(Worth::Null),
        Some(Expr::Col(column)) => worth_at(columns, *column, place),
        Some(e) => match number_at(e, columns, place) {
            Some(n) => Some(Worth::Int(i128::from(n))),
            None => None,
        },
    }
}

/// An aggregate takes the row at a place, which is made for it.
fn take_made(
    accumulator: &mut Accumulator,
    alloc: Global,
    a: &Aggregate,
    columns: &[Option<Block>],
    place: usize,
) -> Result<(), AllocError>
    requires bounded { is_bounded_aggregate a.now ≡ true }
    requires row { IsRow (row_of columns.now place) }
    ensures { OnOk result (accumulator.new ≡ taken accumulator.old (argument_in a.now.arg (row_of columns.now place))) }
{
    let row = row_at(alloc, columns, place)?;
    accumulator.take(alloc, &argument_of(a, row.as_slice()))
}

/// An aggregate takes the row at a place.
pub fn take_place(
    accumulator: &mut Accumulator,
    alloc: Global,
    a: &Aggregate,
    columns: &[Option<Block>],
    place: usize,
) -> Result<(), AllocError>
    requires bounded { is_bounded_aggregate a.now ≡ true }
    requires row { IsRow (row_of columns.now place) }
    ensures { OnOk result (accumulator.new ≡ taken accumulator.old (argument_in a.now.arg (row_of columns.now place))) }
{
    match argument_at(a, columns, place) {
        Some(value) => accumulator.take(alloc, &value),
        None => take_made(accumulator, alloc, a, columns, place),
    }
}

/// An aggregate takes the rows at places, one after another.
fn take_each(
    accumulator: &mut Accumulator,
    alloc: Global,
    a: &Aggregate,
    columns: &[Option<Block>],
    places: &[usize],
) -> Result<(), AllocError>
    requires bounded { is_bounded_aggregate a.now ≡ true }
    requires rows { AreRowsAt columns.now places.now }
    ensures { OnOk result (accumulator.new ≡ taken_at columns.now a.now places.now accumulator.old) }
{
    for place in places {
        take_place(accumulator, alloc, a, columns, *place)?;
    }
    Ok(())
}

/// Raises a count of rows by so many, if it is one and a u64 holds it then; answers whether it did.
fn raises_rows(accumulator: &mut Accumulator, count: usize) -> bool
    ensures raised { result ≡ true → IsRaised count accumulator.old accumulator.new }
    ensures stays { result ≡ false → accumulator.new ≡ accumulator.old }
{
    match accumulator {
        Accumulator::Rows(n) => raises_by(n, count as u64),
        _ => false,
    }
}

/// Raises a count by so many, where a u64 holds it then; answers whether it did.
fn raises_by(n: &mut u64, count: u64) -> bool
    ensures { n.new ≡ (if result then n.old + count else n.old) }
{
    match n.checked_add(count) {
        Some(sum) => {
            *n = sum;
            true
        },
        None => false,
    }
}

/// The sum of the numbers of a lane, which an expression is worth in the rows at places, and their magnitudes added up, where both are
/// numbers of 64 bits.
#[inline(never)]
fn short_total(
    e: &Expr,
    columns: &[Option<Block>],
    places: &[usize],
    lane: &[i64],
) -> Option<(i64, u64)>
    requires { map Some lane.now ≡ map (λ i. number_in (value_of (of_row (row_of columns.now i)) e.now)) places.now }
    ensures { IfSome result (λ t. IsTotalOf columns.now e.now places.now t.0 t.1) }
{
    let mut sum = 0i64;
    let mut size = 0u64;
    for n in lane {
        let Some(more) = sum.checked_add(*n) else {
            return None;
        };
        let Some(wider) = size.checked_add(n.unsigned_abs()) else {
            return None;
        };
        sum = more;
        size = wider;
    }
    Some((sum, size))
}

/// The same, however great they are.
fn wide_total(
    e: &Expr,
    columns: &[Option<Block>],
    places: &[usize],
    lane: &[i64],
) -> Option<(i128, u128)>
    requires { map Some lane.now ≡ map (λ i. number_in (value_of (of_row (row_of columns.now i)) e.now)) places.now }
    ensures { IfSome result (λ t. IsTotalOf columns.now e.now places.now t.0 t.1) }
{
    let mut sum = 0i128;
    let mut size = 0u128;
    for n in lane {
        let Some(more) = sum.checked_add(i128::from(*n)) else {
            return None;
        };
        let Some(greater) = size.checked_add(u128::from(n.unsigned_abs())) else {
            return None;
        };
        sum = more;
        size = greater;
    }
    Some((sum, size))
}

/// The same, in 64 bits where these hold it.
fn lane_total(
    e: &Expr,
    columns: &[Option<Block>],
    places: &[usize],
    lane: &[i64],
) -> Option<(i128, u128)>
    requires { map Some lane.now ≡ map (λ i. number_in (value_of (of_row (row_of columns.now i)) e.now)) places.now }
    ensures { IfSome result (λ t. IsTotalOf columns.now e.now places.now t.0 t.1) }
{
    match short_total(e, columns, places, lane) {
        Some((sum, size)) => Some((i128::from(sum), u128::from(size))),
        None => wide_total(e, columns, places, lane),
    }
}

/// The same of a column's lane, from its numbers at the places.
#[inline(never)]
fn column_total(
    e: &Expr,
    columns: &[Option<Block>],
    numbers: &[i64],
    places: &[usize],
) -> Option<(i64, u64)>
    requires { (place : ℕ) → value_of (of_row (row_of columns.now place)) e.now ≡ widened (slice_index_or (map number_value numbers.now) place Null) }
    ensures { IfSome result (λ t. IsTotalOf columns.now e.now places.now t.0 t.1) }
{
    let mut sum = 0i64;
    let mut size = 0u64;
    for place in places {
        let Some(n) = lane_number_at(numbers, *place) else {
            return None;
        };
        let Some(more) = sum.checked_add(n) else {
            return None;
        };
        let Some(wider) = size.checked_add(n.unsigned_abs()) else {
            return None;
        };
        sum = more;
        size = wider;
    }
    Some((sum, size))
}

/// The same, where the expression is a column whose lane has numbers at the places.
fn total_in_place(e: &Expr, columns: &[Option<Block>], places: &[usize]) -> Option<(i128, u128)>
    ensures { IfSome result (λ t. IsTotalOf columns.now e.now places.now t.0 t.1) }
{
    let Some(numbers) = numbers_of(e, columns) else {
        return None;
    };
    match column_total(e, columns, numbers, places) {
        Some((sum, size)) => Some((i128::from(sum), u128::from(size))),
        None => None,
    }
}

/// The same, where all that the expression is worth are numbers of 64 bits.
fn total_of(
    alloc: Global,
    e: &Expr,
    columns: &[Option<Block>],
    places: &[usize],
) -> Result<Option<(i128, u128)>, AllocError>
    ensures { IfOk result (λ o. IfSome o (λ t. IsTotalOf columns.now e.now places.now t.0 t.1)) }
{
    if let Some(total) = total_in_place(e, columns, places) {
        return Ok(Some(total));
    }
    match lane_of(alloc, e, columns, places)? {
        Some(lane) => Ok(lane_total(e, columns, places, lane.as_slice())),
        None => Ok(None),
    }
}

/// Whether an aggregate is a sum that has begun.
fn is_begun(accumulator: &Accumulator) -> bool {
    match accumulator {
        Accumulator::Sum(Some(_)) => true,
        _ => false,
    }
}

/// Adds a total to a sum that has begun, where a result holds it then; answers whether it did.
fn adds_total(accumulator: &mut Accumulator, sum: i128, size: u128) -> bool
    requires { magnitude sum ≤ size }
    ensures added { result ≡ true → HasGained sum size accumulator.old accumulator.new }
    ensures stays { result ≡ false → accumulator.new ≡ accumulator.old }
{
    match accumulator {
        Accumulator::Sum(Some(total)) => total.adds_all(sum, size),
        _ => false,
    }
}

/// Adds the rows at places to a sum that has begun, at once; answers whether it did.
#[tactic(auto, using(crate::proofs::Totals::total_taken))]
fn sums_run(
    accumulator: &mut Accumulator,
    alloc: Global,
    a: &Aggregate,
    columns: &[Option<Block>],
    places: &[usize],
) -> Result<bool, AllocError>
    ensures taken { IfOk result (λ did. did ≡ true → accumulator.new ≡ taken_at columns.now a.now places.now accumulator.old) }
    ensures stays { IfOk result (λ did. did ≡ false → accumulator.new ≡ accumulator.old) }
{
    if places.len() < FEW || !is_begun(accumulator) {
        return Ok(false);
    }
    let Some(e) = &a.arg else {
        return Ok(false);
    };
    match total_of(alloc, e, columns, places)? {
        Some((sum, size)) => Ok(adds_total(accumulator, sum, size)),
        None => Ok(false),
    }
}

/// An aggregate takes the rows at places.
#[tactic(auto, using(crate::proofs::Together::raised_taken))]
pub fn take_run(
    accumulator: &mut Accumulator,
    alloc: Global,
    a: &Aggregate,
    columns: &[Option<Block>],
    places: &[usize],
) -> Result<(), AllocError>
    requires bounded { is_bounded_aggregate a.now ≡ true }
    requires rows { AreRowsAt columns.now places.now }
    ensures { OnOk result (accumulator.new ≡ taken_at columns.now a.now places.now accumulator.old) }
{
    if raises_rows(accumulator, places.len()) {
        return Ok(());
    }
    if sums_run(accumulator, alloc, a, columns, places)? {
        return Ok(());
    }
    take_each(accumulator, alloc, a, columns, places)
}
