//! The bar of a query with a LIMIT: an output row that stands behind it isn't printed.

ghost use Rattle.std.specs.Prelude.{◌≡◌, ◌-◌, true, false, List, Some, length, map, IfOk, IsSomeAnd, slice_index_or};
ghost use Rattle.std.specs.List.{All, slice_get};
ghost use Rattle.std.specs.Option.{IfSome};
ghost use Rattle.std.specs.Ordering.{is_lt};
ghost use Rattle.col_value.specs.Order.{IsRow, IsValue, wide_cmp, wide_kind};
ghost use Rattle.col_value.specs.declared.wide.Wide.{Wide as Result};
ghost use Rattle.col_value.specs.declared.wide.Wide.TheVariants.{Null};
ghost use Rattle.expr_value.specs.Worths.{wide_of};
ghost use Rattle.query_laws.specs.Bounded.{IsBoundedQuery};
ghost use Rattle.sql_bound.specs.Bounds.{bound_of_value, is_narrow};
ghost use Rattle.sql_bound.specs.Printed.{key_cmp, printed_cmp, IsPrinted};
ghost use Rattle.sql_bound.specs.Values.{of_row};
ghost use Rattle.query_run.specs.Outputs.{items_in, IsBar, IsPlain};

use col_value::{Value, WideRow};
use expr_value::{Sight, Worth, value_of};
use sql_bound::BoundQuery;
use std::alloc::{AllocError, Global};
use std::cmp::Ordering;

/// The place of its kind in the order of values.
fn kind_of(value: &Worth<'_>) -> u8
    ensures { result ≡ wide_kind (wide_of value.now) }
{
    match value {
        Worth::Null => 0,
        Worth::Bool(_) => 1,
        Worth::Int(_) => 2,
        Worth::Date(_) => 3,
        Worth::Text(_) => 4,
    }
}

/// The order of values.
pub fn order_of(a: &Worth<'_>, b: &Worth<'_>) -> Ordering
    ensures { result ≡ wide_cmp (wide_of a.now) (wide_of b.now) }
{
    match (a, b) {
        (Worth::Bool(a), Worth::Bool(b)) => a.cmp(b),
        (Worth::Int(a), Worth::Int(b)) => a.cmp(b),
        (Worth::Date(a), Worth::Date(b)) => a.cmp(b),
        (Worth::Text(a), Worth::Text(b)) => a.order(b),
        _ => kind_of(a).cmp(&kind_of(b)),
    }
}

/// The value of an output row's column; NULL where it is not there.
pub fn value_in(row: &WideRow, column: usize) -> Worth<'_>
    ensures { wide_of result ≡ slice_index_or row.now column Null }
{
    match row.as_slice().get(column) {
        Some(value) => Worth::of_wide(value),
        None => Worth::Null,
    }
}

/// The same of the output row that the items make of what they see.
fn value_made<'a>(query: &'a BoundQuery, sight: &Sight<'a>, column: usize) -> Worth<'a>
    requires narrow { All (λ e. is_narrow (map bound_of_value sight.now.aggs) e ≡ true) query.now.items }
    requires rows { All IsValue sight.now.row }
    requires keys { All IsValue sight.now.keys }
    ensures { wide_of result ≡ slice_index_or (items_in query.now sight.now) column Null }
{
    match query.items.as_slice().get(column) {
        Some(item) => value_of(item, sight),
        None => Worth::Null,
    }
}

/// How an output row and one that isn't made stand by one key of ORDER BY.
fn order_by(
    query: &BoundQuery,
    row: &WideRow,
    sight: &Sight<'_>,
    column: usize,
    descending: bool,
) -> Ordering
    requires narrow { All (λ e. is_narrow (map bound_of_value sight.now.aggs) e ≡ true) query.now.items }
    requires rows { All IsValue sight.now.row }
    requires keys { All IsValue sight.now.keys }
    ensures { result ≡ key_cmp (column, descending) row.now (items_in query.now sight.now) }
{
    let order = order_of(&value_in(row, column), &value_made(query, sight, column));
    if descending { order.reverse() } else { order }
}

/// Whether an output row stands before one that isn't made, by the keys of ORDER BY.
fn is_before(query: &BoundQuery, row: &WideRow, sight: &Sight<'_>) -> bool
    requires narrow { All (λ e. is_narrow (map bound_of_value sight.now.aggs) e ≡ true) query.now.items }
    requires rows { All IsValue sight.now.row }
    requires keys { All IsValue sight.now.keys }
    ensures { result ≡ true → is_lt (printed_cmp query.now.order row.now (items_in query.now sight.now)) ≡ true }
{
    for (column, descending) in query.order.as_slice() {
        match order_by(query, row, sight, *column, *descending) {
            Ordering::Less => return true,
            Ordering::Equal => {},
            Ordering::Greater => return false,
        }
    }
    false
}

/// Whether the bar stands before the output row that the items make of what they see, by the keys of ORDER BY. The row isn't made.
pub fn is_sight_barred(query: &BoundQuery, bar: &Option<WideRow>, sight: &Sight<'_>) -> bool
    requires narrow { All (λ e. is_narrow (map bound_of_value sight.now.aggs) e ≡ true) query.now.items }
    requires rows { All IsValue sight.now.row }
    requires keys { All IsValue sight.now.keys }
    ensures { result ≡ true → IsSomeAnd bar.now (λ row. is_lt (printed_cmp query.now.order row (items_in query.now sight.now)) ≡ true) }
{
    match bar {
        Some(row) => is_before(query, row, sight),
        None => false,
    }
}

/// The same of the output row of a tuple.
pub fn is_barred(query: &BoundQuery, bar: &Option<WideRow>, tuple: &[Value]) -> bool
    requires bounded { IsBoundedQuery query.now }
    requires plain { IsPlain query.now }
    requires tuple { IsRow tuple.now }
    ensures { result ≡ true → IsSomeAnd bar.now (λ row. is_lt (printed_cmp query.now.order row (items_in query.now (of_row tuple.now))) ≡ true) }
{
    is_sight_barred(query, bar, &Sight::of_row(tuple))
}

/// How two output rows stand by one key of ORDER BY.
fn key_order(a: &WideRow, b: &WideRow, column: usize, descending: bool) -> Ordering
    ensures { result ≡ key_cmp (column, descending) a.now b.now }
{
    let order = order_of(&value_in(a, column), &value_in(b, column));
    if descending { order.reverse() } else { order }
}

/// How two output rows stand in the printed order.
fn printed_order(query: &BoundQuery, a: &WideRow, b: &WideRow) -> Ordering
    ensures { result ≡ printed_cmp query.now.order a.now b.now }
{
    for (column, descending) in query.order.as_slice() {
        match key_order(a, b, *column, *descending) {
            Ordering::Equal => {}
            order => return order,
        }
    }
    a.order(b)
}

/// Whether an output row stands behind the bar.
pub fn is_behind(query: &BoundQuery, bar: &Option<WideRow>, row: &WideRow) -> bool
    ensures { result ≡ true → IsSomeAnd bar.now (λ b. is_lt (printed_cmp query.now.order b row.now) ≡ true) }
{
    match bar {
        Some(bar) => printed_order(query, bar, row).is_lt(),
        None => false,
    }
}

/// The last of some rows.
fn last_of(alloc: Global, rows: &[WideRow]) -> Result<Option<WideRow>, AllocError>
    ensures { IfOk result (λ last. IfSome last (λ row. slice_get rows.now (length rows.now - 1) ≡ Some row)) }
{
    match rows.last() {
        Some(row) => Ok(Some(row.copy(alloc)?)),
        None => Ok(None),
    }
}

/// The last of the rows that are printed of some others, where they are as many as the limit.
pub fn bar_of(
    alloc: Global,
    query: &BoundQuery,
    rows: &[WideRow],
) -> Result<Option<WideRow>, AllocError>
    ensures { IfOk result (λ bar. (all : List (List Result)) → IsPrinted query.now.order query.now.limit all rows.now → IfSome bar (IsBar query.now.order query.now.limit rows.now)) }
{
    match query.limit {
        Some(count) if rows.len() as u128 == count => last_of(alloc, rows),
        _ => Ok(None),
    }
}
