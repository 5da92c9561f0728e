//! The values that rows have in their columns.

ghost use Rattle.std.specs.Prelude.{◌≡◌, ◌&&◌, slice_index_or, true, IfOk};
ghost use Rattle.std.specs.Ordering.{is_le};
ghost use Rattle.col_value.specs.Order.{value_cmp};
ghost use Rattle.wanted_rows.specs.Spans.{AreSpans, Covers, IsSpan, lies_in};
ghost use Rattle.wanted_rows.specs.Wanted.{tally};

use col_value::{Asked, Value};
use std::alloc::{AllocError, Global};

/// The least and the greatest value that rows have in a column.
#[derive(Drop)]
pub struct Span {
    pub least: Value,
    pub greatest: Value,
}

impl Span {
    /// Whether a value lies within it.
    pub fn has(&self, value: &Value) -> bool
        ensures { result ≡ lies_in self.now value.now }
    {
        is_at_most(&self.least, value) && is_at_most(value, &self.greatest)
    }

    /// Whether a value from the least to the greatest may lie within it.
    pub fn meets(&self, least: &Value, greatest: &Value) -> bool
        ensures { result ≡ (is_le (value_cmp self.now.least greatest.now) && is_le (value_cmp least.now self.now.greatest)) }
    {
        is_at_most(&self.least, greatest) && is_at_most(least, &self.greatest)
    }

    /// Whether all values from the least to the greatest lie within it.
    pub fn has_all(&self, least: &Value, greatest: &Value) -> bool {
        is_at_most(&self.least, least) && is_at_most(greatest, &self.greatest)
    }

    /// Whether one value alone lies within it.
    pub fn is_single(&self) -> bool {
        self.least.is(&self.greatest)
    }
}

/// Whether the one is no greater than the other.
fn is_at_most(a: &Value, b: &Value) -> bool
    ensures { result ≡ is_le (value_cmp a.now b.now) }
{
    match (a, b) {
        (Value::Int(a), Value::Int(b)) => *a <= *b,
        _ => a.order(b).is_le(),
    }
}

/// For each column of the first row, the span of the values that the rows have there.
pub fn spans_of(alloc: Global, rows: &[Asked]) -> Result<Vec<Span>, AllocError>
    ensures { IfOk result (λ spans. Covers spans.items (λ q. tally q rows.now)) }
{
    match rows.first() {
        Some(asked) => each_span(alloc, rows, asked.row.as_slice()),
        None => Ok(Vec::new(alloc)),
    }
}

/// A span for each column of a row.
fn each_span(alloc: Global, rows: &[Asked], row: &[Value]) -> Result<Vec<Span>, AllocError>
    ensures { IfOk result (λ spans. AreSpans rows.now spans.items) }
{
    let mut spans = Vec::with_capacity(alloc, row.len())?;
    for (column, value) in row.iter().enumerate() {
        spans.push(span_of(alloc, rows, column, value)?)?;
    }
    Ok(spans)
}

/// The span of a value and of those that the rows have in a column.
fn span_of(alloc: Global, rows: &[Asked], column: usize, value: &Value) -> Result<Span, AllocError>
    ensures { IfOk result (IsSpan column rows.now) }
{
    let null = Value::Null;
    let mut least = value;
    let mut greatest = value;
    for asked in rows {
        let value = value_in(asked.row.as_slice(), column, &null);
        least = lesser(least, value);
        greatest = greater(greatest, value);
    }
    Ok(Span {
        least: least.copy(alloc)?,
        greatest: greatest.copy(alloc)?,
    })
}

/// The value in a column, or another where the row has none.
fn value_in<'a>(row: &'a [Value], column: usize, other: &'a Value) -> &'a Value
    ensures { result.now ≡ slice_index_or row.now column other.now }
{
    match row.get(column) {
        Some(value) => value,
        None => other,
    }
}

fn lesser<'a>(a: &'a Value, b: &'a Value) -> &'a Value
    ensures { (is_le (value_cmp result.now a.now) ≡ true) × (is_le (value_cmp result.now b.now) ≡ true) }
{
    if is_at_most(a, b) { a } else { b }
}

fn greater<'a>(a: &'a Value, b: &'a Value) -> &'a Value
    ensures { (is_le (value_cmp a.now result.now) ≡ true) × (is_le (value_cmp b.now result.now) ≡ true) }
{
    if is_at_most(a, b) { b } else { a }
}
