//! Whether values are those of an entry's block.

ghost use Rattle.std.specs.Prelude.{◌≡◌, ◌&&◌, ◌==◌, ◌-◌, map, min, length};
ghost use Rattle.std.specs.List.{list_all};
ghost use Rattle.std.specs.Ordering.{is_le};
ghost use Rattle.col_value.specs.Order.{value_cmp};
ghost use Rattle.block_codec.specs.Held.{day_value, number_value};
ghost use Rattle.col_file.specs.Read.{is_between};

use block_codec::{Block, lane_day, lane_number};
use col_value::Value;
use pos_index::Entry;

/// Whether it is less than the other or the same: numbers and days without a look at their kinds' order.
fn is_at_most(a: &Value, b: &Value) -> bool
    ensures { result ≡ is_le (value_cmp a.now b.now) }
{
    match (a, b) {
        (Value::Int(a), Value::Int(b)) => *a <= *b,
        (Value::Date(a), Value::Date(b)) => *a <= *b,
        _ => a.order(b).is_le(),
    }
}

fn is_between(entry: &Entry, value: &Value) -> bool
    ensures { result ≡ is_between entry.now value.now }
{
    is_at_most(&entry.least, value) && is_at_most(value, &entry.greatest)
}

fn are_words_between(entry: &Entry, words: &[Value]) -> bool
    ensures { result ≡ list_all (is_between entry.now) words.now }
{
    for word in words {
        if !is_between(entry, word) {
            return false;
        }
    }
    true
}

/// Whether the value of a number of a lane lies between those of two others, which are the entry's least and greatest.
fn is_within(entry: &Entry, least: i64, greatest: i64, n: i64) -> bool
    requires least { number_value least ≡ entry.now.least }
    requires greatest { number_value greatest ≡ entry.now.greatest }
    ensures { result ≡ is_between entry.now (number_value n) }
{
    least <= n && n <= greatest
}

/// The same of all values of a lane.
fn are_numbers_within(entry: &Entry, least: i64, greatest: i64, numbers: &[i64]) -> bool
    requires least { number_value least ≡ entry.now.least }
    requires greatest { number_value greatest ≡ entry.now.greatest }
    ensures { result ≡ list_all (λ n. is_between entry.now (number_value n)) numbers.now }
{
    for n in numbers {
        if !is_within(entry, least, greatest, *n) {
            return false;
        }
    }
    true
}

/// Whether the value of a day of a lane lies between those of two others, which are the entry's least and greatest.
fn is_day_within(entry: &Entry, least: u32, greatest: u32, d: u32) -> bool
    requires least { day_value least ≡ entry.now.least }
    requires greatest { day_value greatest ≡ entry.now.greatest }
    ensures { result ≡ is_between entry.now (day_value d) }
{
    least <= d && d <= greatest
}

/// The same of all values of a lane.
fn are_days_within(entry: &Entry, least: u32, greatest: u32, days: &[u32]) -> bool
    requires least { day_value least ≡ entry.now.least }
    requires greatest { day_value greatest ≡ entry.now.greatest }
    ensures { result ≡ list_all (λ d. is_between entry.now (day_value d)) days.now }
{
    for d in days {
        if !is_day_within(entry, least, greatest, *d) {
            return false;
        }
    }
    true
}

fn are_each_between(entry: &Entry, values: &Block) -> bool
    ensures { result ≡ list_all (is_between entry.now) values.now }
{
    for i in 0..values.len() {
        let cell = values.cell(i);
        if !is_between(entry, cell.value()) {
            return false;
        }
    }
    true
}

/// The same of a lane of numbers, whose ends are numbers mostly.
fn are_numbers_between(entry: &Entry, numbers: &[i64], values: &Block) -> bool
    requires { map number_value numbers.now ≡ values.now }
    ensures { result ≡ list_all (is_between entry.now) values.now }
{
    match (lane_number(&entry.least), lane_number(&entry.greatest)) {
        (Some(least), Some(greatest)) => are_numbers_within(entry, least, greatest, numbers),
        _ => are_each_between(entry, values),
    }
}

/// The same of a lane of days, whose ends are days mostly.
fn are_days_between(entry: &Entry, days: &[u32], values: &Block) -> bool
    requires { map day_value days.now ≡ values.now }
    ensures { result ≡ list_all (is_between entry.now) values.now }
{
    match (lane_day(&entry.least), lane_day(&entry.greatest)) {
        (Some(least), Some(greatest)) => are_days_within(entry, least, greatest, days),
        _ => are_each_between(entry, values),
    }
}

/// Whether all values of a block are: of words there may be few, but a word may stand for none of the values.
fn are_between(entry: &Entry, values: &Block) -> bool
    ensures { result ≡ list_all (is_between entry.now) values.now }
{
    if let Some(numbers) = values.numbers() {
        return are_numbers_between(entry, numbers, values);
    }
    if let Some(days) = values.days() {
        return are_days_between(entry, days, values);
    }
    if let Some((words, _)) = values.coded() {
        if are_words_between(entry, words) {
            return true;
        }
    }
    are_each_between(entry, values)
}

/// How many values the block of this entry has, in a column of so many rows.
fn rows_of(rows: u64, entry: &Entry) -> u64
    ensures { result ≡ min 1024 (rows - entry.now.first) }
{
    rows.saturating_sub(entry.first).min(1024)
}

/// Whether the values are as many as the block of this entry has, each from its least to its greatest.
pub fn are_values(values: &Block, rows: u64, entry: &Entry) -> bool
    ensures { result ≡ (length values.now == min 1024 (rows - entry.now.first) && list_all (is_between entry.now) values.now) }
{
    values.len() as u64 == rows_of(rows, entry) && are_between(entry, values)
}
