//! Rows of a block that a bound rules out.

ghost use Rattle.std.specs.Prelude.{◌≡◌, ◌<◌, ◌^◌, ◌<ℤ◌, ℕ, ℤ, FitsSigned, length, map, false, true, IsTrue, Some};
ghost use Rattle.std.specs.Int.{w64};
ghost use Rattle.std.specs.Option.{IfSome, option_map_or};
ghost use Rattle.std.specs.Ordering.{is_le};
ghost use Rattle.block_codec.specs.Held.{day_value, number_value};
ghost use Rattle.col_value.specs.Order.{value_cmp};
ghost use Rattle.col_value.specs.declared.value.Value.TheVariants.{Int};
ghost use Rattle.row_bounds.specs.Bounds.{lies_in};
ghost use Rattle.exec_scan.specs.Reading.{RulesOut, Stays};

use block_codec::{Block, lane_day, lane_number};
use col_value::Value;
use proj_store::SharedIndex;
use row_bounds::Bound;

/// Whether a number is less than a least value.
fn is_below(n: i64, least: &Option<Value>) -> bool
    ensures { IsTrue result → option_map_or (λ least. is_le (value_cmp least (Int n))) least.now true ≡ false }
{
    match least {
        Some(Value::Int(least)) => n < *least,
        Some(Value::Date(_)) | Some(Value::Text(_)) => true,
        Some(Value::Null) | Some(Value::Bool(_)) | None => false,
    }
}

/// Whether a number is greater than a greatest value.
fn is_above(n: i64, greatest: &Option<Value>) -> bool
    ensures { IsTrue result → option_map_or (λ greatest. is_le (value_cmp (Int n) greatest)) greatest.now true ≡ false }
{
    match greatest {
        Some(Value::Int(greatest)) => *greatest < n,
        Some(Value::Null) | Some(Value::Bool(_)) => true,
        Some(Value::Date(_)) | Some(Value::Text(_)) | None => false,
    }
}

/// Whether a value lies out of a bound. Numbers are compared at once.
fn lies_out(bound: &Bound, value: &Value) -> bool
    ensures { IsTrue result → lies_in bound.now value.now ≡ false }
{
    match value {
        Value::Int(n) => is_below(*n, &bound.least) || is_above(*n, &bound.greatest),
        Value::Null | Value::Bool(_) | Value::Date(_) | Value::Text(_) => {
            bound.misses(value, value)
        }
    }
}

/// Whether all values of block k lie in a bound, as the index of their column says. A hint, which decides no answer.
pub fn covers(bound: &Bound, index: &Option<SharedIndex>, k: usize) -> bool {
    match index {
        Some(at) => match at.get().entries.as_slice().get(k) {
            Some(entry) => !lies_out(bound, &entry.least) && !lies_out(bound, &entry.greatest),
            None => false,
        },
        None => false,
    }
}

/// Whether a row is alive still, by its value in the column of a bound.
fn stays(alive: bool, bound: &Bound, value: &Value) -> bool
    ensures { Stays bound.now value.now alive result }
{
    alive && !lies_out(bound, value)
}

/// A number of a lane such that values of lesser numbers are less than a least value.
#[tactic(auto, using(crate::proofs::Within::out_below, crate::proofs::Within::none_below))]
fn first_of(least: &Option<Value>) -> i64
    ensures { (n : ℤ) → FitsSigned w64 n → n <ℤ result → option_map_or (λ least. is_le (value_cmp least (number_value n))) least.now true ≡ false }
{
    match least {
        Some(value) => match lane_number(value) {
            Some(n) => n,
            None => i64::MIN,
        },
        None => i64::MIN,
    }
}

/// A number of a lane such that values of greater numbers are greater than a greatest value.
#[tactic(auto, using(crate::proofs::Within::out_above, crate::proofs::Within::none_above))]
fn last_of(greatest: &Option<Value>) -> i64
    ensures { (n : ℤ) → FitsSigned w64 n → result <ℤ n → option_map_or (λ greatest. is_le (value_cmp (number_value n) greatest)) greatest.now true ≡ false }
{
    match greatest {
        Some(value) => match lane_number(value) {
            Some(n) => n,
            None => i64::MAX,
        },
        None => i64::MAX,
    }
}

/// Whether a row is alive still, by the number of its value in the column of a bound.
fn stays_within(alive: bool, bound: &Bound, first: i64, last: i64, n: i64) -> bool
    requires first { (m : ℤ) → FitsSigned w64 m → m <ℤ first → option_map_or (λ least. is_le (value_cmp least (number_value m))) bound.now.least true ≡ false }
    requires last { (m : ℤ) → FitsSigned w64 m → last <ℤ m → option_map_or (λ greatest. is_le (value_cmp (number_value m) greatest)) bound.now.greatest true ≡ false }
    ensures { Stays bound.now (number_value n) alive result }
{
    alive && first <= n && n <= last
}

/// Rows whose value, a number of a lane, lies out of a bound are alive no more.
fn rule_out_numbers(alive: &mut [bool], bound: &Bound, numbers: &[i64])
    requires { length numbers.now ≡ length alive.old }
    ensures long { length alive.new ≡ length alive.old }
    ensures rules { RulesOut bound.now (Some (map number_value numbers.now)) alive.old alive.new }
{
    let first = first_of(&bound.least);
    let last = last_of(&bound.greatest);
    for i in 0..alive.len() {
        alive[i] = stays_within(alive[i], bound, first, last, numbers[i]);
    }
}

/// A day of a lane such that lesser ones are less than a least value.
#[tactic(auto, using(crate::proofs::Within::day_below))]
fn first_day_of(least: &Option<Value>) -> u32
    ensures { (d : ℕ) → d < result → option_map_or (λ least. is_le (value_cmp least (day_value d))) least.now true ≡ false }
{
    match least {
        Some(value) => match lane_day(value) {
            Some(d) => d,
            None => 0,
        },
        None => 0,
    }
}

/// A day of a lane such that greater ones are greater than a greatest value.
#[tactic(auto, using(crate::proofs::Within::day_above))]
fn last_day_of(greatest: &Option<Value>) -> u32
    ensures { (d : ℕ) → d < 2 ^ 32 → result < d → option_map_or (λ greatest. is_le (value_cmp (day_value d) greatest)) greatest.now true ≡ false }
{
    match greatest {
        Some(value) => match lane_day(value) {
            Some(d) => d,
            None => u32::MAX,
        },
        None => u32::MAX,
    }
}

/// Whether a day lies out of a bound.
fn lies_beyond(bound: &Bound, first: u32, last: u32, d: u32) -> bool
    requires first { (m : ℕ) → m < first → option_map_or (λ least. is_le (value_cmp least (day_value m))) bound.now.least true ≡ false }
    requires last { (m : ℕ) → m < 2 ^ 32 → last < m → option_map_or (λ greatest. is_le (value_cmp (day_value m) greatest)) bound.now.greatest true ≡ false }
    ensures { IsTrue result → lies_in bound.now (day_value d) ≡ false }
{
    d < first || last < d
}

/// Whether a row is alive still, by the day in the column of a bound.
fn stays_between(alive: bool, bound: &Bound, first: u32, last: u32, d: u32) -> bool
    requires first { (m : ℕ) → m < first → option_map_or (λ least. is_le (value_cmp least (day_value m))) bound.now.least true ≡ false }
    requires last { (m : ℕ) → m < 2 ^ 32 → last < m → option_map_or (λ greatest. is_le (value_cmp (day_value m) greatest)) bound.now.greatest true ≡ false }
    ensures { Stays bound.now (day_value d) alive result }
{
    alive && !lies_beyond(bound, first, last, d)
}

/// Rows whose value, a day of a lane, lies out of a bound are alive no more.
fn rule_out_days(alive: &mut [bool], bound: &Bound, days: &[u32])
    requires { length days.now ≡ length alive.old }
    ensures long { length alive.new ≡ length alive.old }
    ensures rules { RulesOut bound.now (Some (map day_value days.now)) alive.old alive.new }
{
    let first = first_day_of(&bound.least);
    let last = last_day_of(&bound.greatest);
    for i in 0..alive.len() {
        alive[i] = stays_between(alive[i], bound, first, last, days[i]);
    }
}

/// Rows whose value lies out of a bound are alive no more.
fn rule_out_values(alive: &mut [bool], bound: &Bound, values: &Block)
    requires { length values.now ≡ length alive.old }
    ensures long { length alive.new ≡ length alive.old }
    ensures rules { RulesOut bound.now (Some values.now) alive.old alive.new }
{
    for i in 0..alive.len() {
        let cell = values.cell(i);
        alive[i] = stays(alive[i], bound, cell.value());
    }
}

/// The same, by the days of a lane where the block has one.
fn rule_out_others(alive: &mut [bool], bound: &Bound, values: &Block)
    requires { length values.now ≡ length alive.old }
    ensures long { length alive.new ≡ length alive.old }
    ensures rules { RulesOut bound.now (Some values.now) alive.old alive.new }
{
    match values.days() {
        Some(days) => rule_out_days(alive, bound, days),
        None => rule_out_values(alive, bound, values),
    }
}

/// The same by a column that may not have been read.
pub fn rule_out(alive: &mut [bool], bound: &Bound, column: &Option<Block>)
    requires { IfSome column.now (λ vs. length vs ≡ length alive.old) }
    ensures long { length alive.new ≡ length alive.old }
    ensures rules { RulesOut bound.now column.now alive.old alive.new }
{
    match column {
        Some(values) => match values.numbers() {
            Some(numbers) => rule_out_numbers(alive, bound, numbers),
            None => rule_out_others(alive, bound, values),
        },
        None => {},
    }
}
