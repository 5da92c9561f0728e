//! The orders by which a window looks at rows.

ghost use Rattle.std.specs.Prelude.{◌≡◌, slice_index_or};
ghost use Rattle.std.specs.Ordering.{is_eq};
ghost use Rattle.col_value.specs.Order.{row_cmp, value_cmp};
ghost use Rattle.col_value.specs.declared.value.Value.TheVariants.{Null};
ghost use Rattle.sql_bound.specs.Outputs.{in_partition, keys_of, window_cmp, window_key_cmp};
ghost use Rattle.exec_window.specs.Leads.{led_cmp};
ghost use Rattle.exec_window.specs.Walks.{pair_of, walk_cmp};

use crate::tuples::Tuple;
use col_value::{Row, Value};
use sql_bound::BoundWindow;
use std::cmp::Ordering;

/// By one column; a value that is not there is NULL.
fn compare_at(a: &Row, b: &Row, column: usize) -> Ordering
    ensures { result ≡ value_cmp (slice_index_or a.now column Null) (slice_index_or b.now column Null) }
{
    match (a.as_slice().get(column), b.as_slice().get(column)) {
        (Some(a), Some(b)) => a.order(b),
        (Some(a), None) => a.order(&Value::Null),
        (None, Some(b)) => Value::Null.order(b),
        (None, None) => Ordering::Equal,
    }
}

fn compare_by(a: &Row, b: &Row, column: usize, descending: bool) -> Ordering
    ensures { result ≡ window_key_cmp (column, descending) a.now b.now }
{
    let order = compare_at(a, b, column);
    if descending { order.reverse() } else { order }
}

/// By the keys of a window's ORDER BY.
fn compare_keys(a: &Row, b: &Row, order: &[(usize, bool)]) -> Ordering
    ensures { result ≡ window_cmp order.now a.now b.now }
{
    for (column, descending) in order {
        match compare_by(a, b, *column, *descending) {
            Ordering::Equal => {}
            order => return order,
        }
    }
    Ordering::Equal
}

/// By the columns of PARTITION BY.
fn compare_parts(a: &Row, b: &Row, columns: &[usize]) -> Ordering
    ensures { result ≡ row_cmp (keys_of columns.now a.now) (keys_of columns.now b.now) }
{
    for column in columns {
        match compare_at(a, b, *column) {
            Ordering::Equal => {}
            order => return order,
        }
    }
    Ordering::Equal
}

/// Whether the second is of the first one's partition.
pub fn is_in_partition(window: &BoundWindow, row: &Row, other: &Row) -> bool
    ensures { result ≡ in_partition window.now row.now other.now }
{
    compare_parts(row, other, window.partition.as_slice()).is_eq()
}

/// Whether two rows of one partition are peers.
pub fn are_peers(window: &BoundWindow, row: &Row, other: &Row) -> bool
    ensures { result ≡ is_eq (window_cmp window.now.order other.now row.now) }
{
    compare_keys(other, row, window.order.as_slice()).is_eq()
}

/// The order in which a window walks its rows.
fn compare_rows(window: &BoundWindow, a: &Tuple<'_>, b: &Tuple<'_>) -> Ordering
    ensures { result ≡ walk_cmp window.now (pair_of a.now) (pair_of b.now) }
{
    match compare_parts(a.row, b.row, window.partition.as_slice()) {
        Ordering::Equal => {}
        order => return order,
    }
    match compare_keys(a.row, b.row, window.order.as_slice()) {
        Ordering::Equal => {}
        order => return order,
    }
    match a.row.order(b.row) {
        Ordering::Equal => {}
        order => return order,
    }
    a.place.cmp(&b.place)
}

/// The same by what the leads tell, and only where they are alike by the rows.
pub fn compare(window: &BoundWindow, a: &Tuple<'_>, b: &Tuple<'_>) -> Ordering
    ensures { result ≡ led_cmp window.now a.now b.now }
{
    match a.lead.first.cmp(&b.lead.first) {
        Ordering::Equal => {}
        order => return order,
    }
    match a.lead.second.cmp(&b.lead.second) {
        Ordering::Equal => {}
        order => return order,
    }
    compare_rows(window, a, b)
}
