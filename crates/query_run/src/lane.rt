//! The output row of a row that stands in columns.

ghost use Rattle.std.specs.Prelude.{◌≡◌, true, [], if◌then◌else◌, map, IfOk, IsSomeAnd, slice_index_or};
ghost use Rattle.std.specs.List.{All};
ghost use Rattle.std.specs.Option.{IfSome};
ghost use Rattle.std.specs.Ordering.{is_lt, ordering_reverse};
ghost use Rattle.block_codec.specs.Held.{number_value};
ghost use Rattle.col_value.specs.Order.{IsRow, wide_cmp, widened};
ghost use Rattle.col_value.specs.declared.value.Value.TheVariants as value;
ghost use Rattle.col_value.specs.declared.wide.Wide.TheVariants.{Null};
ghost use Rattle.exec_group.specs.Columns.{row_of};
ghost use Rattle.expr_value.specs.Worths.{wide_of};
ghost use Rattle.sql_bound.specs.Bounds.{is_narrow};
ghost use Rattle.sql_bound.specs.Printed.{key_cmp, printed_cmp};
ghost use Rattle.sql_bound.specs.Values.{of_row, value_of};
ghost use Rattle.query_run.specs.Outputs.{items_in};

use crate::bar::{order_of, value_in};
use crate::filter::lane_of;
use block_codec::Block;
use col_value::{List, Wide, WideRow};
use exec_group::{row_at, worth_at};
use expr_value::{Worth, items_of};
use sql_bound::{BoundQuery, Expr};
use std::alloc::{AllocError, Global};
use std::cmp::Ordering;

/// What an expression is worth in the row at a place, where no row has to be made for it.
fn told_at<'a>(e: &'a Expr, columns: &'a [Option<Block>], place: usize) -> Option<Worth<'a>>
    ensures { IfSome result (λ w. wide_of w ≡ value_of (of_row (row_of columns.now place)) e.now) }
{
    match e {
        Expr::Col(column) => worth_at(columns, *column, place),
        Expr::Lit(value) => Some(Worth::of_wide(value)),
        _ => None,
    }
}

/// The value of an output column in the row that the row at a place makes, where no row has to be made for it.
fn item_at<'a>(
    query: &'a BoundQuery,
    columns: &'a [Option<Block>],
    place: usize,
    column: usize,
) -> Option<Worth<'a>>
    ensures { IfSome result (λ w. wide_of w ≡ slice_index_or (items_in query.now (of_row (row_of columns.now place))) column Null) }
{
    match query.items.as_slice().get(column) {
        Some(item) => told_at(item, columns, place),
        None => Some(Worth::Null),
    }
}

/// How two values stand, turned round where a key descends.
fn key_order(a: &Worth<'_>, b: &Worth<'_>, descending: bool) -> Ordering
    ensures { result ≡ (if descending then ordering_reverse (wide_cmp (wide_of a.now) (wide_of b.now)) else wide_cmp (wide_of a.now) (wide_of b.now)) }
{
    let order = order_of(a, b);
    if descending { order.reverse() } else { order }
}

/// How an output row and that of the row at a place stand by one key of ORDER BY, where no row has to be made to tell it.
fn order_by_at(
    query: &BoundQuery,
    row: &WideRow,
    columns: &[Option<Block>],
    place: usize,
    column: usize,
    descending: bool,
) -> Option<Ordering>
    ensures { IfSome result (λ o. o ≡ key_cmp (column, descending) row.now (items_in query.now (of_row (row_of columns.now place)))) }
{
    match item_at(query, columns, place, column) {
        Some(value) => Some(key_order(&value_in(row, column), &value, descending)),
        None => None,
    }
}

/// Whether an output row stands before that of the row at a place by the keys of ORDER BY, as far as that can be told without a row.
fn is_before_at(query: &BoundQuery, row: &WideRow, columns: &[Option<Block>], place: usize) -> bool
    ensures { result ≡ true → is_lt (printed_cmp query.now.order row.now (items_in query.now (of_row (row_of columns.now place)))) ≡ true }
{
    for (column, descending) in query.order.as_slice() {
        match order_by_at(query, row, columns, place, *column, *descending) {
            Some(Ordering::Less) => return true,
            Some(Ordering::Equal) => {},
            Some(Ordering::Greater) | None => return false,
        }
    }
    false
}

/// Whether the bar stands before the output row of the row at a place by the keys of ORDER BY.
pub fn is_barred_at(
    query: &BoundQuery,
    bar: &Option<WideRow>,
    columns: &[Option<Block>],
    place: usize,
) -> bool
    ensures { result ≡ true → IsSomeAnd bar.now (λ row. is_lt (printed_cmp query.now.order row (items_in query.now (of_row (row_of columns.now place)))) ≡ true) }
{
    match bar {
        Some(row) => is_before_at(query, row, columns, place),
        None => false,
    }
}

/// The value that a number of a lane stands for.
fn number_wide(n: i64) -> Wide
    ensures { result ≡ widened (number_value n) }
{
    if n == i64::MIN {
        Wide::Null
    } else {
        Wide::Int(i128::from(n))
    }
}

/// The number of a lane at a place as a value, if there is one.
fn lane_wide(numbers: &[i64], place: usize) -> Option<Wide>
    ensures { IfSome result (λ w. w ≡ widened (slice_index_or (map number_value numbers.now) place value.Null)) }
{
    match numbers.get(place) {
        Some(n) => Some(number_wide(*n)),
        None => None,
    }
}

/// The number that an expression is worth in the row at a place as a value, if it is a column that is held as a lane of numbers.
fn number_told_at(e: &Expr, columns: &[Option<Block>], place: usize) -> Option<Wide>
    ensures { IfSome result (λ w. w ≡ value_of (of_row (row_of columns.now place)) e.now) }
{
    match lane_of(e, columns) {
        Some(numbers) => lane_wide(numbers, place),
        None => None,
    }
}

/// What an expression is worth in the row at a place, with a text of its own, where no row has to be made for it.
fn own_told_at(
    alloc: Global,
    e: &Expr,
    columns: &[Option<Block>],
    place: usize,
) -> Result<Option<Wide>, AllocError>
    ensures { IfOk result (λ o. IfSome o (λ w. w ≡ value_of (of_row (row_of columns.now place)) e.now)) }
{
    if let Some(wide) = number_told_at(e, columns, place) {
        return Ok(Some(wide));
    }
    match told_at(e, columns, place) {
        Some(worth) => Ok(Some(worth.own(alloc)?)),
        None => Ok(None),
    }
}

/// The output row of the row at a place, which is made for it.
fn made_items(
    alloc: Global,
    items: &[Expr],
    columns: &[Option<Block>],
    place: usize,
) -> Result<WideRow, AllocError>
    requires narrow { All (λ e. is_narrow [] e ≡ true) items.now }
    requires row { IsRow (row_of columns.now place) }
    ensures { IfOk result (λ r. r ≡ map (value_of (of_row (row_of columns.now place))) items.now) }
{
    let row = row_at(alloc, columns, place)?;
    items_of(alloc, items, row.as_slice())
}

/// The output row of the row at a place.
pub fn items_of_place(
    alloc: Global,
    items: &[Expr],
    columns: &[Option<Block>],
    place: usize,
) -> Result<WideRow, AllocError>
    requires narrow { All (λ e. is_narrow [] e ≡ true) items.now }
    requires row { IsRow (row_of columns.now place) }
    ensures { IfOk result (λ r. r ≡ map (value_of (of_row (row_of columns.now place))) items.now) }
{
    let mut out = Vec::with_capacity(alloc, items.len())?;
    for item in items {
        let Some(value) = own_told_at(alloc, item, columns, place)? else {
            return made_items(alloc, items, columns, place);
        };
        out.push(value)?;
    }
    Ok(List::new(out))
}
