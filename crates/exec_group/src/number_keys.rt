//! Keys that are numbers, or NULL, in the order in which they were met.

ghost use Rattle.std.specs.Prelude.{◌≡◌, ◌++◌, [], ℕ, slice_index_or, Some, get_or, map, position, IfOk, IfNone, OnOk};
ghost use Rattle.std.specs.Option.{IfSome};
ghost use Rattle.block_codec.specs.Held.{number_value};
ghost use Rattle.col_value.specs.declared.value.Value.TheVariants.{Null};
ghost use Rattle.sql_bound.specs.Outputs.{keys_of, same_keys};
ghost use Rattle.exec_group.specs.Columns.{row_of};
ghost use Rattle.exec_group.specs.Groups.{met_one, AreEntered};
ghost use Rattle.exec_group.specs.NumberKeys.{null_number, number_key, IsNoKey, IsNoNumber};

use crate::lanes::column_numbers;
use crate::met_numbers::MetNumbers;
use block_codec::{Block, number_value};
use col_value::{List, Row, Value};
use row_keys::KeyTable;
use std::alloc::{AllocError, Global};

/// The number that stands for a value: -2^63 for NULL.
fn number_in(value: &Value) -> Option<i64>
    ensures some { IfSome result (λ n. number_value n ≡ value.now) }
    ensures none { IfNone result (IsNoNumber value.now) }
{
    match value {
        Value::Null => Some(i64::MIN),
        Value::Int(n) if *n != i64::MIN => Some(*n),
        _ => None,
    }
}

/// The number that stands for a key, if it is one.
pub fn number_of(key: &[Value]) -> Option<i64>
    ensures some { IfSome result (λ n. number_key n ≡ key.now) }
    ensures none { IfNone result (IsNoKey key.now) }
{
    match key {
        [value] => number_in(value),
        _ => None,
    }
}

/// The place of a key among keys that are numbers.
pub fn find_number(numbers: &MetNumbers, key: &[Value]) -> Option<usize>
    ensures { result ≡ position (λ k. same_keys k key.now) (map number_key numbers.now) }
{
    match number_of(key) {
        Some(n) => numbers.find(n),
        None => None,
    }
}

/// The number that stands for the value of a column of a row, if it is one.
fn number_in_row(row: &[Value], column: usize) -> Option<i64>
    ensures some { IfSome result (λ n. number_value n ≡ slice_index_or row.now column Null) }
    ensures none { IfNone result (IsNoNumber (slice_index_or row.now column Null)) }
{
    match row.get(column) {
        Some(value) => number_in(value),
        None => Some(i64::MIN),
    }
}

/// The number that stands for a row's key, if it is one.
fn row_number(keys: &[usize], row: &[Value]) -> Option<i64>
    ensures some { IfSome result (λ n. number_key n ≡ keys_of keys.now row.now) }
    ensures none { IfNone result (IsNoKey (keys_of keys.now row.now)) }
{
    match keys {
        [column] => number_in_row(row, *column),
        _ => None,
    }
}

/// The place of a row's key among keys that are numbers.
pub fn find_row_number(numbers: &MetNumbers, keys: &[usize], row: &[Value]) -> Option<usize>
    ensures { result ≡ position (λ k. same_keys k (keys_of keys.now row.now)) (map number_key numbers.now) }
{
    match row_number(keys, row) {
        Some(n) => numbers.find(n),
        None => None,
    }
}

/// The lane of numbers of a key of one column, if it is held so.
pub fn key_lane<'a>(keys: &[usize], columns: &'a [Option<Block>]) -> Option<&'a [i64]>
    ensures { IfSome result (λ ns. (place : ℕ) → number_key (get_or ns.now place null_number) ≡ keys_of keys.now (row_of columns.now place)) }
{
    match keys {
        [column] => column_numbers(columns, *column),
        _ => None,
    }
}

/// The number of a lane at a place; that of NULL where there is none.
fn lane_number(lane: &[i64], place: usize) -> i64
    ensures { result ≡ get_or lane.now place null_number }
{
    match lane.get(place) {
        Some(n) => *n,
        None => i64::MIN,
    }
}

/// The place of a number, which is put behind the others where it isn't there.
fn enter_number(numbers: &mut MetNumbers, alloc: Global, n: i64) -> Result<usize, AllocError>
    ensures met { OnOk result (map number_key numbers.new ≡ met_one (map number_key numbers.old) (number_key n)) }
    ensures there { IfOk result (λ g. position (λ k. same_keys k (number_key n)) (map number_key numbers.new) ≡ Some g) }
{
    match numbers.find(n) {
        Some(place) => Ok(place),
        None => {
            let place = numbers.numbers().len();
            numbers.add(alloc, n)?;
            Ok(place)
        },
    }
}

/// A number with its place, as above, where another one's place may be known.
fn enter_number_beside(
    numbers: &mut MetNumbers,
    alloc: Global,
    n: i64,
    known: Option<(i64, usize)>,
) -> Result<(i64, usize), AllocError>
    requires known { IfSome known (λ k. position (λ x. same_keys x (number_key k.0)) (map number_key numbers.old) ≡ Some k.1) }
    ensures met { OnOk result (map number_key numbers.new ≡ met_one (map number_key numbers.old) (number_key n)) }
    ensures same { IfOk result (λ k. k.0 ≡ n) }
    ensures there { IfOk result (λ k. position (λ x. same_keys x (number_key k.0)) (map number_key numbers.new) ≡ Some k.1) }
{
    if let Some(found) = known {
        if found.0 == n {
            return Ok(found);
        }
    }
    Ok((n, enter_number(numbers, alloc, n)?))
}

/// The places of the numbers that a lane shows as the keys of the rows at places.
pub fn enter_numbers(
    numbers: &mut MetNumbers,
    alloc: Global,
    keys: &[usize],
    columns: &[Option<Block>],
    lane: &[i64],
    places: &[usize],
) -> Result<Vec<usize>, AllocError>
    requires { (place : ℕ) → number_key (get_or lane.now place null_number) ≡ keys_of keys.now (row_of columns.now place) }
    ensures { IfOk result (λ v. AreEntered (λ p. keys_of keys.now (row_of columns.now p)) places.now (map number_key numbers.old) (map number_key numbers.new) v.items) }
{
    let mut out = Vec::with_capacity(alloc, places.len())?;
    let mut known = None;
    for place in places {
        let found = enter_number_beside(numbers, alloc, lane_number(lane, *place), known)?;
        out.push(found.1)?;
        known = Some(found);
    }
    Ok(out)
}

/// The row of a number.
fn number_row(alloc: Global, n: i64) -> Result<Row, AllocError>
    ensures { IfOk result (λ r. r ≡ number_key n) }
{
    Ok(List::new(Vec::from_array(alloc, [number_value(n)])?))
}

/// Puts the key that the number at a place stands for behind a list.
pub fn put_number(out: &mut Vec<Value>, numbers: &[i64], place: usize) -> Result<(), AllocError>
    ensures { OnOk result (out.new.items ≡ out.old.items ++ get_or (map number_key numbers.now) place []) }
{
    match numbers.get(place) {
        Some(n) => put_value(out, *n),
        None => Ok(()),
    }
}

fn put_value(out: &mut Vec<Value>, n: i64) -> Result<(), AllocError>
    ensures { OnOk result (out.new.items ≡ out.old.items ++ number_key n) }
{
    out.push(number_value(n))?;
    Ok(())
}

/// The rows of numbers, each found by its digest.
pub fn rows_of(alloc: Global, numbers: &[i64]) -> Result<KeyTable, AllocError>
    ensures { IfOk result (λ t. t ≡ map number_key numbers.now) }
{
    let mut out = KeyTable::new(alloc);
    for n in numbers {
        out.add_key(number_row(alloc, *n)?)?;
    }
    Ok(out)
}
