//! Rows with their places, and with their leads.

ghost use Rattle.std.specs.Prelude.{◌≡◌, ◌++◌, false, map, List, IfOk};
ghost use Rattle.std.specs.List.{All, enumerate_from};
ghost use Rattle.std.specs.List.Sorted.{IsPermutation, IsSorted};
ghost use Rattle.exec_window.specs.Leads.{led_cmp, walk_keys, IsLed};
ghost use Rattle.exec_window.specs.Walks.{pair_of, walk_cmp};

use crate::compare::compare;
use crate::leads::{Lead, lead_of};
use col_value::Row;
use sql_bound::BoundWindow;
use std::alloc::{AllocError, Global};

/// A row with its lead, and its place among all.
#[derive(Clone, Copy)]
pub struct Tuple<'a> {
    pub lead: Lead,
    pub place: usize,
    pub row: &'a Row,
}

/// The columns of a partition as keys.
fn parts(alloc: Global, columns: &[usize]) -> Result<Vec<(usize, bool)>, AllocError>
    ensures { IfOk result (λ v. v.items ≡ map (λ c. (c, false)) columns.now) }
{
    let mut out = Vec::with_capacity(alloc, columns.len())?;
    for column in columns {
        out.push((*column, false))?;
    }
    Ok(out)
}

/// The keys of a walk.
fn walk_keys(alloc: Global, window: &BoundWindow) -> Result<Vec<(usize, bool)>, AllocError>
    ensures { IfOk result (λ v. v.items ≡ walk_keys window.now) }
{
    let mut out = parts(alloc, window.partition.as_slice())?;
    for key in window.order.as_slice() {
        out.push(*key)?;
    }
    Ok(out)
}

fn led<'a>(window: &BoundWindow, keys: &[(usize, bool)], place: usize, row: &'a Row) -> Tuple<'a>
    requires { keys.now ≡ walk_keys window.now }
    ensures tuple { pair_of result ≡ (place, row.entry.now) }
    ensures led { IsLed window.now result }
{
    Tuple {
        lead: lead_of(keys, row),
        place,
        row,
    }
}

fn placed<'a>(
    alloc: Global,
    window: &BoundWindow,
    keys: &[(usize, bool)],
    rows: &'a [Row],
) -> Result<Vec<Tuple<'a>>, AllocError>
    requires keys { keys.now ≡ walk_keys window.now }
    ensures placed { IfOk result (λ v. map pair_of v.items ≡ enumerate_from 0 rows.entry.now) }
    ensures led { IfOk result (λ v. All (IsLed window.now) v.items) }
{
    let mut out = Vec::with_capacity(alloc, rows.len())?;
    for (place, row) in rows.iter().enumerate() {
        out.push(led(window, keys, place, row))?;
    }
    Ok(out)
}

fn in_order<'a>(window: &BoundWindow, tuples: Vec<Tuple<'a>>) -> Result<Vec<Tuple<'a>>, AllocError>
    ensures same { IfOk result (λ v. IsPermutation tuples.entry.items v.items) }
    ensures ascending { IfOk result (λ v. IsSorted (led_cmp window.now) v.items) }
{
    let mut tuples = tuples;
    tuples.sort_by(|a, b| compare(window, a, b))?;
    Ok(tuples)
}

/// The rows with their places, in the order in which a window walks them.
pub fn sorted<'a>(
    alloc: Global,
    window: &BoundWindow,
    rows: &'a [Row],
) -> Result<Vec<Tuple<'a>>, AllocError>
    ensures same { IfOk result (λ v. (ts : List Tuple) × (map pair_of ts ≡ enumerate_from 0 rows.entry.now) × IsPermutation ts v.items) }
    ensures ascending { IfOk result (λ v. IsSorted (λ a b. walk_cmp window.now (pair_of a) (pair_of b)) v.items) }
{
    let keys = walk_keys(alloc, window)?;
    let tuples = placed(alloc, window, keys.as_slice(), rows)?;
    let ordered = in_order(window, tuples)?;
    Ok(ordered)
}
