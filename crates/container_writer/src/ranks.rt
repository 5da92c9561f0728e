//! Numbers beside rows by which they come nearly into the order of a container.
//!
//! That order looks at values where they are held. A sort by numbers beside each row waits for no memory, and leaves little to do for the
//! one that the order is promised of: of a rank nothing is promised.

use catalog_types::Projection;
use col_value::Value;
use std::alloc::{AllocError, Global};

/// The columns by which rows are ordered, the first of them first.
pub fn order_columns(alloc: Global, shape: &Projection) -> Result<Vec<usize>, AllocError> {
    let mut columns = Vec::new(alloc);
    columns.extend_from_slice(shape.sort.as_slice())?;
    for column in 0..shape.columns.as_slice().len() {
        if !columns.as_slice().contains(&column) {
            columns.push(column)?;
        }
    }
    Ok(columns)
}

/// The rank of a value among those of its column. Only where it is this value's alone do the columns behind tell more.
#[derive(Clone, Copy, Debug)]
pub struct Rank {
    pub at: u64,
    pub alone: bool,
}

/// A rank that one value has.
pub fn rank_alone(at: u64) -> Rank {
    Rank { at, alone: true }
}

/// The rank of a number: as one without a sign, in the same order.
pub fn number_rank(n: i64) -> Rank {
    rank_alone(u64::from_be_bytes(n.to_be_bytes()).wrapping_add(1 << 63))
}

/// The first eight bytes of a text as a number; behind its end there are zeros.
fn head(text: &[u8]) -> u64 {
    let mut head: u64 = 0;
    for i in 0..8 {
        let byte = match text.get(i) {
            Some(byte) => u64::from(*byte),
            None => 0,
        };
        head = head.wrapping_mul(256).wrapping_add(byte);
    }
    head
}

fn text_rank(text: &[u8]) -> Rank {
    Rank {
        at: head(text),
        alone: !text.is_empty() && text.len() <= 8,
    }
}

/// The rank of a value.
pub fn rank_of(value: &Value) -> Rank {
    match value {
        Value::Null => rank_alone(0),
        Value::Bool(value) => rank_alone(1 + u64::from(*value)),
        Value::Int(n) => number_rank(*n),
        Value::Date(d) => rank_alone(u64::from(*d).wrapping_add(1 << 63)),
        Value::Text(text) => text_rank(text.as_bytes()),
    }
}
