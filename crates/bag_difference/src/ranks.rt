//! Numbers that ascend with the first values of a row, or stay. No claim is made of them: they only decide how much is left to sort.

use col_value::{Row, Stamped, Value};
use std::cmp::Ordering;

#[derive(Clone, Copy, Debug)]
pub struct Ranks {
    pub first: u64,
    pub second: u64,
    pub third: u64,
}

/// A row where it stands, and its ranks, which are near at hand.
#[derive(Clone, Copy, Debug)]
pub struct Keyed<'a> {
    pub ranks: Ranks,
    pub stamped: &'a Stamped,
}

/// The first eight bytes of a text as a number; behind its end there are zeros.
fn head(text: &[u8]) -> u64 {
    let mut head: u64 = 0;
    for i in 0..8 {
        let byte = match text.get(i) {
            Some(byte) => u64::from(*byte),
            None => 0,
        };
        head = head.wrapping_mul(256).wrapping_add(byte);
    }
    head
}

/// The rank of a value among those of its column.
fn rank(value: &Value) -> u64 {
    match value {
        Value::Null => 0,
        Value::Bool(value) => 1 + u64::from(*value),
        Value::Int(n) => u64::from_be_bytes(n.to_be_bytes()).wrapping_add(1 << 63),
        Value::Date(d) => u64::from(*d),
        Value::Text(text) => head(text.as_bytes()),
    }
}

/// The rank of a row by the value at a place, if there is one.
fn rank_at(row: &Row, place: usize) -> u64 {
    match row.as_slice().get(place) {
        Some(value) => rank(value),
        None => 0,
    }
}

pub fn ranks_of(row: &Row) -> Ranks {
    Ranks {
        first: rank_at(row, 0),
        second: rank_at(row, 1),
        third: rank_at(row, 2),
    }
}

pub fn by_ranks(a: &Ranks, b: &Ranks) -> Ordering {
    match a.first.cmp(&b.first) {
        Ordering::Equal => match a.second.cmp(&b.second) {
            Ordering::Equal => a.third.cmp(&b.third),
            order => order,
        },
        order => order,
    }
}
