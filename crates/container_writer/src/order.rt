//! The order of a container's rows.

ghost use Rattle.std.specs.Prelude.{◌≡◌, slice_index_or};
ghost use Rattle.col_value.specs.Order.{value_cmp, row_cmp, projected};
ghost use Rattle.col_value.specs.declared.value.Value.TheVariants.{Null};
ghost use Rattle.container_writer.specs.Ordered.{asked_of, container_cmp};

use crate::refs::{Keyed, StampedRef};
use catalog_types::Projection;
use col_value::Value;
use std::cmp::Ordering;

/// The order of two rows by one column; a value that is not there is NULL.
fn order_at(a: &[Value], b: &[Value], column: usize) -> Ordering
    ensures { result ≡ value_cmp (slice_index_or a.now column Null) (slice_index_or b.now column Null) }
{
    match (a.get(column), b.get(column)) {
        (Some(a), Some(b)) => a.order(b),
        (Some(a), None) => a.order(&Value::Null),
        (None, Some(b)) => Value::Null.order(b),
        (None, None) => Ordering::Equal,
    }
}

/// The order of two rows by some columns, the first of them first.
fn order_on(a: &[Value], b: &[Value], columns: &[usize]) -> Ordering
    ensures { result ≡ row_cmp (projected a.now columns.now) (projected b.now columns.now) }
{
    for column in columns {
        match order_at(a, b, *column) {
            Ordering::Equal => {}
            order => return order,
        }
    }
    Ordering::Equal
}

/// Whether a row stands before another in a container, or at its place.
pub fn have_risen(shape: &Projection, a: &[Value], b: &[Value]) -> bool {
    match order_on(a, b, shape.sort.as_slice()) {
        Ordering::Equal => a.cmp(b).is_le(),
        order => order.is_lt(),
    }
}

/// The order of two rows in a container. It takes no memory.
pub fn container_order(shape: &Projection, a: &Keyed, b: &Keyed) -> Ordering
    ensures { result ≡ container_cmp shape.now (asked_of a.now) (asked_of b.now) }
{
    let (a, b) = (a.stamped, b.stamped);
    match order_on(a.row, b.row, shape.sort.as_slice()) {
        Ordering::Equal => match a.row.cmp(b.row) {
            Ordering::Equal => a.ins.cmp(&b.ins),
            order => order,
        },
        order => order,
    }
}
