//! The day from which the others are counted.

ghost use Rattle.std.specs.Prelude.{◌≡◌, ◌↔◌, IsTrue, map};
ghost use Rattle.std.specs.List.{All, list_any};
ghost use Rattle.block_codec.specs.Held.{day_value};
ghost use Rattle.enc_delta.specs.DateDelta.{IsDated, is_date, day, earlier, first_day, day_base};

use col_value::Value;

fn is_dated(value: &Value) -> bool
    ensures { IsTrue result ↔ IsDated value.now }
{
    match value {
        Value::Null => true,
        Value::Date(_) => true,
        Value::Bool(_) => false,
        Value::Int(_) => false,
        Value::Text(_) => false,
    }
}

/// Whether all are dates or NULL.
pub fn are_dated(values: &[Value]) -> bool
    ensures { IsTrue result ↔ All IsDated values.now }
{
    for value in values {
        if !is_dated(value) {
            return false;
        }
    }
    true
}

fn is_date(value: &Value) -> bool
    ensures { result ≡ is_date value.now }
{
    match value {
        Value::Date(_) => true,
        _ => false,
    }
}

/// Whether one is a date.
pub fn has_date(values: &[Value]) -> bool
    ensures { result ≡ list_any is_date values.now }
{
    for value in values {
        if is_date(value) {
            return true;
        }
    }
    false
}

fn day(value: &Value) -> Option<u32>
    ensures { result ≡ day value.now }
{
    match value {
        Value::Date(d) => Some(*d),
        _ => None,
    }
}

/// The earlier of two days, or the one that is there.
fn earlier(a: Option<u32>, b: Option<u32>) -> Option<u32>
    ensures { result ≡ earlier a b }
{
    match (a, b) {
        (None, b) => b,
        (Some(a), None) => Some(a),
        (Some(a), Some(b)) => Some(a.min(b)),
    }
}

fn first_day(values: &[Value]) -> Option<u32>
    ensures { result ≡ first_day values.now }
{
    let mut found = None;
    for value in values {
        found = earlier(found, day(value));
    }
    found
}

/// The day of a lane, if there is one.
fn in_lane(d: u32) -> Option<u32>
    ensures { result ≡ day (day_value d) }
{
    if d == 0 { None } else { Some(d) }
}

fn first_lane(days: &[u32]) -> Option<u32>
    ensures { result ≡ first_day (map day_value days.now) }
{
    let mut found = None;
    for d in days {
        found = earlier(found, in_lane(*d));
    }
    found
}

/// The least day of some lanes, 0 where there is none.
pub fn lane_day_base(days: &[u32]) -> u32
    ensures { result ≡ day_base (map day_value days.now) }
{
    match first_lane(days) {
        Some(d) => d,
        None => 0,
    }
}

/// The least day, 0 where there is none.
pub fn day_base(values: &[Value]) -> u32
    ensures { result ≡ day_base values.now }
{
    match first_day(values) {
        Some(d) => d,
        None => 0,
    }
}
