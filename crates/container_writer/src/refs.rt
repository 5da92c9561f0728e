//! Rows where they stand.

use col_value::{Row, Value};

/// A row where it stands, with its epochs.
#[derive(Clone, Copy, Debug)]
pub struct StampedRef<'a> {
    pub row: &'a Row,
    pub ins: u64,
    pub del: Option<u64>,
}

/// The values of a row where they stand, with its epochs.
#[derive(Clone, Copy, Debug)]
pub struct StampedValues<'a> {
    pub row: &'a [Value],
    pub ins: u64,
    pub del: Option<u64>,
}

/// Numbers that ascend with the first values by which a row is ordered, or stay.
#[derive(Clone, Copy, Debug)]
pub struct Ranks {
    pub first: u64,
    pub second: u64,
}

/// A row on its way into a container, and its ranks, which are near at hand.
#[derive(Clone, Copy, Debug)]
pub struct Keyed<'a> {
    pub ranks: Ranks,
    pub stamped: StampedValues<'a>,
}
