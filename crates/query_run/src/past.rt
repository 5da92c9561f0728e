//! Rows in columns whose output rows stand behind the bar, as the lane of the first key of ORDER BY shows it.

ghost use Rattle.std.specs.Prelude.{◌≡◌, ℕ, ◌≤◌, true, if◌then◌else◌, length, map, take, IsSomeAnd, slice_index_or};
ghost use Rattle.std.specs.List.{All};
ghost use Rattle.std.specs.Option.{IfSome};
ghost use Rattle.std.specs.Ordering.{is_lt, ordering_reverse};
ghost use Rattle.std.specs.declared.cmp.Ordering.TheVariants.{Less};
ghost use Rattle.block_codec.specs.Held.{number_value};
ghost use Rattle.col_value.specs.Order.{value_cmp, widened};
ghost use Rattle.col_value.specs.declared.value.Value.TheVariants as value;
ghost use Rattle.col_value.specs.declared.wide.Wide.TheVariants.{Null};
ghost use Rattle.exec_group.specs.Columns.{row_of};
ghost use Rattle.sql_bound.specs.Printed.{key_cmp, printed_cmp};
ghost use Rattle.sql_bound.specs.Values.{of_row};
ghost use Rattle.query_run.specs.Outputs.{items_in, IsLaneOf};

use block_codec::Block;
use col_value::{Wide, WideRow};
use sql_bound::{BoundQuery, Expr};

/// The lane of numbers of a column, if it is held so.
pub fn numbers_of(columns: &[Option<Block>], column: usize) -> Option<&[i64]>
    ensures { IfSome result (λ ns. (place : ℕ) → slice_index_or (row_of columns.now place) column value.Null ≡ slice_index_or (map number_value ns.now) place value.Null) }
{
    match columns.get(column) {
        Some(Some(block)) => block.numbers(),
        _ => None,
    }
}

/// The lane of numbers of an output column, if it is a column of the table and held so.
fn lane_of<'a>(query: &BoundQuery, columns: &'a [Option<Block>], column: usize) -> Option<&'a [i64]>
    ensures { IfSome result (λ ns. IsLaneOf query.now columns.now column ns.now) }
{
    match query.items.as_slice().get(column) {
        Some(Expr::Col(i)) => numbers_of(columns, *i),
        _ => None,
    }
}

/// The number of a lane that stands for a number, if one does.
fn lane_number(n: i128) -> Option<i64>
    ensures { IfSome result (λ m. widened (number_value m) ≡ widened (value.Int n)) }
{
    match i64::try_from(n) {
        Ok(m) if m != i64::MIN => Some(m),
        _ => None,
    }
}

/// The number of a lane that stands for the value in an output row's column, if one does.
fn number_in(row: &WideRow, column: usize) -> Option<i64>
    ensures { IfSome result (λ n. slice_index_or row.now column Null ≡ widened (number_value n)) }
{
    match row.as_slice().get(column) {
        Some(Wide::Int(n)) => lane_number(*n),
        Some(Wide::Null) | None => Some(i64::MIN),
        _ => None,
    }
}

/// Whether a number stands behind that of the bar.
#[tactic(auto, using(crate::proofs::Behind::past_down, crate::proofs::Behind::past_up))]
fn is_past(bar: i64, n: i64, descending: bool) -> bool
    ensures { result ≡ true → (if descending then ordering_reverse (value_cmp (number_value bar) (number_value n)) else value_cmp (number_value bar) (number_value n)) ≡ Less }
{
    if descending { n < bar } else { bar < n }
}

/// How many of the first places have numbers behind that of the bar.
fn past_run(numbers: &[i64], bar: i64, descending: bool, places: &[usize]) -> usize
    ensures within { result ≤ length places.now }
    ensures past { All (λ i. (if descending then ordering_reverse (value_cmp (number_value bar) (slice_index_or (map number_value numbers.now) i value.Null)) else value_cmp (number_value bar) (slice_index_or (map number_value numbers.now) i value.Null)) ≡ Less) (take result places.now) }
{
    for (n, place) in places.iter().enumerate() {
        if !is_past_at(numbers, bar, descending, *place) {
            return n;
        }
    }
    places.len()
}

fn is_past_at(numbers: &[i64], bar: i64, descending: bool, place: usize) -> bool
    ensures { result ≡ true → (if descending then ordering_reverse (value_cmp (number_value bar) (slice_index_or (map number_value numbers.now) place value.Null)) else value_cmp (number_value bar) (slice_index_or (map number_value numbers.now) place value.Null)) ≡ Less }
{
    match numbers.get(place) {
        Some(n) => is_past(bar, *n, descending),
        None => false,
    }
}

/// How many of the rows at the first places have output rows that stand behind another one by a key.
fn behind_run(
    query: &BoundQuery,
    row: &WideRow,
    columns: &[Option<Block>],
    places: &[usize],
    column: usize,
    descending: bool,
) -> usize
    ensures within { result ≤ length places.now }
    ensures behind { All (λ i. key_cmp (column, descending) row.now (items_in query.now (of_row (row_of columns.now i))) ≡ Less) (take result places.now) }
{
    match (lane_of(query, columns, column), number_in(row, column)) {
        (Some(numbers), Some(bar)) => past_run(numbers, bar, descending, places),
        _ => 0,
    }
}

/// How many of the rows at the first places have output rows that stand behind another one, as far as the first key of ORDER BY shows it.
fn passed_run(
    query: &BoundQuery,
    row: &WideRow,
    columns: &[Option<Block>],
    places: &[usize],
) -> usize
    ensures within { result ≤ length places.now }
    ensures passed { All (λ i. is_lt (printed_cmp query.now.order row.now (items_in query.now (of_row (row_of columns.now i)))) ≡ true) (take result places.now) }
{
    let Some((key, _later)) = query.order.as_slice().split_first() else {
        return 0;
    };
    behind_run(query, row, columns, places, key.0, key.1)
}

/// The same of the bar.
pub fn barred_run(
    query: &BoundQuery,
    bar: &Option<WideRow>,
    columns: &[Option<Block>],
    places: &[usize],
) -> usize
    ensures within { result ≤ length places.now }
    ensures barred { All (λ i. IsSomeAnd bar.now (λ row. is_lt (printed_cmp query.now.order row (items_in query.now (of_row (row_of columns.now i)))) ≡ true)) (take result places.now) }
{
    match bar {
        Some(row) => passed_run(query, row, columns, places),
        None => 0,
    }
}
