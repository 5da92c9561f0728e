//! Three numbers of a row, by which the order of a container mostly tells it from another one without a look at its values.

ghost use Rattle.std.specs.Prelude.{◌≡◌, map, slice_index_or, IfSome};
ghost use Rattle.block_codec.specs.Held.{number_value};
ghost use Rattle.col_value.specs.declared.value.Value.TheVariants.{Null};
ghost use Rattle.ros_container.specs.Rows.{column_values};
ghost use Rattle.container_draft.specs.Leads.{first_but, first_key, is_either, key_but, keys_of, lead_of, value_at};
ghost use Rattle.container_draft.specs.Placed.{asked_at};
ghost use Rattle.container_draft.specs.Ranks.{far_rank, is_far, is_near, near_rank};
ghost use Rattle.container_draft.specs.Spots.{asked_on};

use crate::ranks::{Far, Near, far_number, far_rank, near_number, near_rank};
use crate::rows::{Rows, Spot};
use col_value::Value;

/// The columns by which rows are told apart first.
#[derive(Clone, Copy)]
pub struct Keys {
    pub first: usize,
    pub second: usize,
    pub third: usize,
}

/// The ranks of a row's keys, as far as they tell of it.
#[derive(Clone, Copy)]
pub struct Lead {
    pub first: i64,
    pub second: i32,
    pub third: i32,
}

fn is_either(p: usize, q: usize, column: usize) -> bool
    ensures { result ≡ is_either p q column }
{
    column == p || column == q
}

/// The first column that is neither of two.
fn first_but(p: usize, q: usize) -> usize
    ensures { result ≡ first_but p q }
{
    if !is_either(p, q, 0) {
        0
    } else if !is_either(p, q, 1) {
        1
    } else {
        2
    }
}

/// The first of these columns that is neither of two, or of all.
fn key_but(p: usize, q: usize, sort: &[usize]) -> usize
    ensures { result ≡ key_but p q sort.now }
{
    for column in sort {
        if !is_either(p, q, *column) {
            return *column;
        }
    }
    first_but(p, q)
}

/// The column by which rows are told apart first.
pub fn first_key(sort: &[usize]) -> usize
    ensures { result ≡ first_key sort.now }
{
    match sort.first() {
        Some(column) => *column,
        None => 0,
    }
}

/// The keys of rows that are sorted by these columns.
pub fn keys_of(sort: &[usize]) -> Keys
    ensures { result ≡ keys_of sort.now }
{
    let first = first_key(sort);
    let second = key_but(first, first, sort);
    let third = key_but(first, second, sort);
    Keys {
        first,
        second,
        third,
    }
}

fn far_in(spot: &Spot, column: usize) -> Far
    ensures at { result.at ≡ far_rank (value_at (asked_on spot.now).row column) }
    ensures exact { result.exact ≡ is_far (value_at (asked_on spot.now).row column) }
{
    match spot.lent(column) {
        Some(value) => far_rank(value),
        None => far_rank(spot.cell(column).value()),
    }
}

fn near_in(spot: &Spot, column: usize) -> Near
    ensures at { result.at ≡ near_rank (value_at (asked_on spot.now).row column) }
    ensures exact { result.exact ≡ is_near (value_at (asked_on spot.now).row column) }
{
    match spot.lent(column) {
        Some(value) => near_rank(value),
        None => near_rank(spot.cell(column).value()),
    }
}

/// The rank of the first key of the row at a place, by the key's lane.
pub fn far_on(lane: &[i64], place: usize) -> Far
    ensures at { result.at ≡ far_rank (slice_index_or (map number_value lane.now) place Null) }
    ensures exact { result.exact ≡ is_far (slice_index_or (map number_value lane.now) place Null) }
{
    match lane.get(place) {
        Some(n) => far_number(*n),
        None => far_rank(&Value::Null),
    }
}

fn near_on(lane: &[i64], place: usize) -> Near
    ensures at { result.at ≡ near_rank (slice_index_or (map number_value lane.now) place Null) }
    ensures exact { result.exact ≡ is_near (slice_index_or (map number_value lane.now) place Null) }
{
    match lane.get(place) {
        Some(n) => near_number(*n),
        None => near_rank(&Value::Null),
    }
}

/// The numbers of the keys' columns, where their lanes hold such.
#[derive(Drop)]
pub struct KeyLanes {
    pub first: Option<Vec<i64>>,
    pub second: Option<Vec<i64>>,
    pub third: Option<Vec<i64>>,
}

fn far_at(lane: &Option<Vec<i64>>, rows: &Rows, place: usize, column: usize) -> Far
    requires { IfSome lane.now (λ v. map number_value v.items ≡ column_values column rows.now) }
    ensures at { result.at ≡ far_rank (value_at (asked_at rows.now place).row column) }
    ensures exact { result.exact ≡ is_far (value_at (asked_at rows.now place).row column) }
{
    match lane {
        Some(lane) => far_on(lane.as_slice(), place),
        None => far_in(&rows.spot(place), column),
    }
}

fn near_at(lane: &Option<Vec<i64>>, rows: &Rows, place: usize, column: usize) -> Near
    requires { IfSome lane.now (λ v. map number_value v.items ≡ column_values column rows.now) }
    ensures at { result.at ≡ near_rank (value_at (asked_at rows.now place).row column) }
    ensures exact { result.exact ≡ is_near (value_at (asked_at rows.now place).row column) }
{
    match lane {
        Some(lane) => near_on(lane.as_slice(), place),
        None => near_in(&rows.spot(place), column),
    }
}

/// The lead of the row at a place.
pub fn lead_at(lanes: &KeyLanes, rows: &Rows, place: usize, keys: Keys) -> Lead
    requires first { IfSome lanes.now.first (λ v. map number_value v.items ≡ column_values keys.first rows.now) }
    requires second { IfSome lanes.now.second (λ v. map number_value v.items ≡ column_values keys.second rows.now) }
    requires third { IfSome lanes.now.third (λ v. map number_value v.items ≡ column_values keys.third rows.now) }
    ensures { result ≡ lead_of keys (asked_at rows.now place).row }
{
    let first = far_at(&lanes.first, rows, place, keys.first);
    if !first.exact {
        return Lead {
            first: first.at,
            second: 0,
            third: 0,
        };
    }
    let second = near_at(&lanes.second, rows, place, keys.second);
    let third = if second.exact {
        near_at(&lanes.third, rows, place, keys.third).at
    } else {
        0
    };
    Lead {
        first: first.at,
        second: second.at,
        third,
    }
}
