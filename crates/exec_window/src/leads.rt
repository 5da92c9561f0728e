//! Two numbers of a row, by which the order of a walk mostly tells it from another one without a look at its values.

ghost use Rattle.std.specs.Prelude.{◌≡◌, slice_index_or};
ghost use Rattle.col_value.specs.declared.value.Value.TheVariants.{Null};
ghost use Rattle.exec_window.specs.Leads.{first_lead, is_exact, lead_of, rank_of, second_lead, turned, within};

use col_value::{Row, Value};

/// Numbers from here to `HIGH` are their own ranks.
const LOW: i64 = -4_611_686_018_427_387_904;

const HIGH: i64 = 4_611_686_018_427_387_904;
/// Ranks of days are less.
const BEYOND: i64 = 4_611_686_022_722_355_200;
/// The rank of a text.
const TEXT: i64 = 9_223_372_036_854_775_807;

/// The rank of a row's first key, and where this tells what the key is, that of its second.
#[derive(Clone, Copy)]
pub struct Lead {
    pub first: i64,
    pub second: i64,
}

fn within(n: i64) -> i64
    ensures { result ≡ within n }
{
    if n < LOW {
        LOW
    } else if HIGH < n {
        HIGH
    } else {
        n
    }
}

/// A number that stands as the value does, where two differ.
fn rank_of(value: &Value) -> i64
    ensures { result ≡ rank_of value.now }
{
    match value {
        Value::Null => LOW - 3,
        Value::Bool(false) => LOW - 2,
        Value::Bool(true) => LOW - 1,
        Value::Int(n) => within(*n),
        Value::Date(d) => HIGH + 1 + i64::from((*d).min(u32::MAX)),
        Value::Text(_) => TEXT,
    }
}

/// Whether one value alone has this rank.
fn is_exact(rank: i64) -> bool
    ensures { result ≡ is_exact rank }
{
    rank != LOW && rank != HIGH && rank < BEYOND
}

fn turned(rank: i64, descending: bool) -> i64
    ensures { result ≡ turned rank descending }
{
    if descending { -1 - rank } else { rank }
}

fn rank_at(row: &Row, column: usize) -> i64
    ensures { result ≡ rank_of (slice_index_or row.now column Null) }
{
    match row.as_slice().get(column) {
        Some(value) => rank_of(value),
        None => rank_of(&Value::Null),
    }
}

fn first_lead(keys: &[(usize, bool)], row: &Row) -> i64
    ensures { result ≡ first_lead keys.now row.now }
{
    match keys {
        [(column, descending), ..] => turned(rank_at(row, *column), *descending),
        [] => 0,
    }
}

fn second_lead(keys: &[(usize, bool)], row: &Row) -> i64
    ensures { result ≡ second_lead keys.now row.now }
{
    match keys {
        [(column, _), later @ ..] if is_exact(rank_at(row, *column)) => first_lead(later, row),
        _ => 0,
    }
}

/// The numbers of a row by these keys.
pub fn lead_of(keys: &[(usize, bool)], row: &Row) -> Lead
    ensures { result ≡ lead_of keys.now row.now }
{
    Lead {
        first: first_lead(keys, row),
        second: second_lead(keys, row),
    }
}
