//! Places with the leads of their rows, sorted by these first.

ghost use Rattle.std.specs.Prelude.{◌≡◌, map, IfOk, IfSome};
ghost use Rattle.std.specs.List.{All};
ghost use Rattle.std.specs.List.Sorted.{IsPermutation, IsSorted};
ghost use Rattle.block_codec.specs.Held.{number_value};
ghost use Rattle.ros_container.specs.Rows.{column_values};
ghost use Rattle.container_draft.specs.Leads.{led_cmp, IsLed};
ghost use Rattle.container_draft.specs.Led.{place_of};

use crate::leads::{KeyLanes, Keys, Lead, lead_at};
use crate::order::place_order;
use crate::rows::Rows;
use catalog_types::Projection;
use std::alloc::{AllocError, Global};
use std::cmp::Ordering;

/// A place, with the lead of its row.
#[derive(Clone, Copy)]
pub struct Led {
    pub lead: Lead,
    pub place: usize,
}

fn led_at(lanes: &KeyLanes, rows: &Rows, place: usize, keys: Keys) -> Led
    requires first { IfSome lanes.now.first (λ v. map number_value v.items ≡ column_values keys.first rows.now) }
    requires second { IfSome lanes.now.second (λ v. map number_value v.items ≡ column_values keys.second rows.now) }
    requires third { IfSome lanes.now.third (λ v. map number_value v.items ≡ column_values keys.third rows.now) }
    ensures place { result.place ≡ place }
    ensures led { IsLed keys rows.now result }
{
    Led {
        lead: lead_at(lanes, rows, place, keys),
        place,
    }
}

/// Each place with the lead of its row.
fn led_by(
    alloc: Global,
    lanes: &KeyLanes,
    rows: &Rows,
    places: &[usize],
    keys: Keys,
) -> Result<Vec<Led>, AllocError>
    requires first { IfSome lanes.now.first (λ v. map number_value v.items ≡ column_values keys.first rows.now) }
    requires second { IfSome lanes.now.second (λ v. map number_value v.items ≡ column_values keys.second rows.now) }
    requires third { IfSome lanes.now.third (λ v. map number_value v.items ≡ column_values keys.third rows.now) }
    ensures places { IfOk result (λ v. map place_of v.items ≡ places.now) }
    ensures led { IfOk result (λ v. All (IsLed keys rows.now) v.items) }
{
    let mut out = Vec::with_capacity(alloc, places.len())?;
    for place in places {
        out.push_reserved(led_at(lanes, rows, *place, keys));
    }
    Ok(out)
}

/// Each place with the lead of its row. The lanes are gone behind it.
pub fn all_led(
    alloc: Global,
    rows: &Rows,
    keys: Keys,
    places: &[usize],
) -> Result<Vec<Led>, AllocError>
    ensures places { IfOk result (λ v. map place_of v.items ≡ places.now) }
    ensures led { IfOk result (λ v. All (IsLed keys rows.now) v.items) }
{
    let lanes = KeyLanes {
        first: rows.numbers(alloc, keys.first)?,
        second: rows.numbers(alloc, keys.second)?,
        third: rows.numbers(alloc, keys.third)?,
    };
    led_by(alloc, &lanes, rows, places, keys)
}

/// By what the leads tell, and only where they are alike by the rows.
fn led_order(shape: &Projection, rows: &Rows, a: &Led, b: &Led) -> Ordering
    ensures { result ≡ led_cmp shape.now rows.now a.now b.now }
{
    match a.lead.first.cmp(&b.lead.first) {
        Ordering::Equal => {}
        order => return order,
    }
    match a.lead.second.cmp(&b.lead.second) {
        Ordering::Equal => {}
        order => return order,
    }
    match a.lead.third.cmp(&b.lead.third) {
        Ordering::Equal => {}
        order => return order,
    }
    place_order(shape, rows, a.place, b.place)
}

/// The same by their leads, and as a container is ordered. The sort merges what is in order already.
pub fn by_leads(shape: &Projection, rows: &Rows, leds: Vec<Led>) -> Result<Vec<Led>, AllocError>
    ensures same { IfOk result (λ v. IsPermutation leds.items v.items) }
    ensures ascending { IfOk result (λ v. IsSorted (led_cmp shape.now rows.now) v.items) }
{
    let mut leds = leds;
    leds.sort_by(|a, b| led_order(shape, rows, a, b))?;
    Ok(leds)
}

/// The places alone.
pub fn places_of(alloc: Global, leds: &[Led]) -> Result<Vec<usize>, AllocError>
    ensures { IfOk result (λ v. v.items ≡ map place_of leds.now) }
{
    let mut out = Vec::with_capacity(alloc, leds.len())?;
    for led in leds {
        out.push_reserved(led.place);
    }
    Ok(out)
}
