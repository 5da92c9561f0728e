//! Places in the order of a container.

ghost use Rattle.std.specs.Prelude.{◌≡◌, ◌<◌, ◌<ℤ◌, length, map, IfOk, IsTrue};
ghost use Rattle.std.specs.List.{All};
ghost use Rattle.std.specs.List.Sorted.{IsSorted};
ghost use Rattle.common_laws.specs.Bags.{SameBag};
ghost use Rattle.block_codec.specs.Held.{number_value};
ghost use Rattle.ros_container.specs.Rows.{column_values};
ghost use Rattle.container_writer.specs.Ordered.{container_cmp};
ghost use Rattle.container_draft.specs.Leads.{first_key, keys_of, IsLed};
ghost use Rattle.container_draft.specs.Led.{place_of};
ghost use Rattle.container_draft.specs.Placed.{asked_at};

use crate::leading::{Led, all_led, by_leads, places_of};
use crate::leads::{far_on, first_key, keys_of};
use crate::rows::Rows;
use catalog_types::Projection;
use std::alloc::{AllocError, Global};

/// Whether all places are below a number.
pub fn are_below(places: &[usize], count: usize) -> bool
    ensures { IsTrue result → All (λ i. i < count) places.now }
{
    for place in places {
        if *place >= count {
            return false;
        }
    }
    true
}

fn is_less(a: i64, b: i64) -> bool
    ensures { IsTrue result → a <ℤ b }
{
    a < b
}

/// Whether the numbers of their first key rise from each place to the next.
fn are_rising(shape: &Projection, rows: &Rows, lane: &[i64], places: &[usize]) -> bool
    requires { map number_value lane.now ≡ column_values (first_key shape.now.sort) rows.now }
    ensures { IsTrue result → IsSorted (λ i j. container_cmp shape.now (asked_at rows.now i) (asked_at rows.now j)) places.now }
{
    let mut last = i64::MIN;
    for place in places {
        let at = far_on(lane, *place).at;
        if !is_less(last, at) {
            return false;
        }
        last = at;
    }
    true
}

/// Whether places are found to be in the order of a container as they stand.
fn stand_in_order(
    alloc: Global,
    shape: &Projection,
    rows: &Rows,
    places: &[usize],
) -> Result<bool, AllocError>
    ensures { IfOk result (λ b. IsTrue b → IsSorted (λ i j. container_cmp shape.now (asked_at rows.now i) (asked_at rows.now j)) places.now) }
{
    match rows.numbers(alloc, first_key(shape.sort.as_slice()))? {
        Some(lane) => Ok(are_rising(shape, rows, lane.as_slice(), places)),
        None => Ok(false),
    }
}

/// Places with the leads of their rows.
fn led(
    alloc: Global,
    shape: &Projection,
    rows: &Rows,
    places: Vec<usize>,
) -> Result<Vec<Led>, AllocError>
    ensures places { IfOk result (λ v. map place_of v.items ≡ places.items) }
    ensures led { IfOk result (λ v. All (IsLed (keys_of shape.now.sort) rows.now) v.items) }
{
    let keys = keys_of(shape.sort.as_slice());
    all_led(alloc, rows, keys, places.as_slice())
}

/// The places of rows in the order of a container. A place where no row stands is answered as want of memory: no job has such.
pub fn in_order(
    shape: &Projection,
    rows: &Rows,
    places: Vec<usize>,
) -> Result<Vec<usize>, AllocError>
    ensures same { IfOk result (λ v. SameBag places.items v.items) }
    ensures within { IfOk result (λ v. All (λ i. i < length rows.now) v.items) }
    ensures ascending { IfOk result (λ v. IsSorted (λ i j. container_cmp shape.now (asked_at rows.now i) (asked_at rows.now j)) v.items) }
{
    if !are_below(places.as_slice(), rows.count()) {
        return Err(AllocError);
    }
    let alloc = *places.allocator();
    if stand_in_order(alloc, shape, rows, places.as_slice())? {
        return Ok(places);
    }
    let leds = led(alloc, shape, rows, places)?;
    let sorted = by_leads(shape, rows, leds)?;
    places_of(alloc, sorted.as_slice())
}
