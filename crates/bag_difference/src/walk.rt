//! Two sorted lists of rows, gone over at once.

ghost use Rattle.std.specs.Prelude.{◌≡◌, Some, None, IfSome, IfNone};
ghost use Rattle.bag_difference.specs.Differences.{count_of};
ghost use Rattle.bag_difference.specs.Walks.{first_apart, rows_of};

use crate::ordering::stamped_order;
use crate::ranks::Keyed;
use col_value::Stamped;
use std::cmp::Ordering;

/// The lesser of the two rows at the first place where the lists differ, or the only one there.
pub fn first_difference<'a>(xs: &[Keyed<'a>], ys: &[Keyed<'a>]) -> Option<&'a Stamped>
    ensures differ { IfSome result (λ r. first_apart (rows_of xs.now) (rows_of ys.now) ≡ Some r.now) }
    ensures same { IfNone result (first_apart (rows_of xs.now) (rows_of ys.now) ≡ None) }
{
    let (mut first, mut second) = (xs, ys);
    while let ([x, later @ ..], [y, rest @ ..]) = (first, second) {
        match stamped_order(x.stamped, y.stamped) {
            Ordering::Less => return Some(x.stamped),
            Ordering::Equal => {
                first = later;
                second = rest;
            }
            Ordering::Greater => return Some(y.stamped),
        }
    }
    match (first, second) {
        ([x, ..], _) => Some(x.stamped),
        ([], [y, ..]) => Some(y.stamped),
        ([], []) => None,
    }
}

/// How often a row stands in a list.
pub fn count_of(rows: &[Stamped], row: &Stamped) -> u64
    ensures { result ≡ count_of row.now rows.now }
{
    let mut count: u64 = 0;
    for each in rows {
        if stamped_order(each, row).is_eq() {
            count += 1;
        }
    }
    count
}
