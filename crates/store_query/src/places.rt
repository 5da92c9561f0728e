//! Where the columns that a query uses stand in a projection.

ghost use Rattle.std.specs.Prelude.{◌≡◌, ◌<◌, ◌==◌, ◌+◌, ◌^◌, true, length, map, position, IfOk};
ghost use Rattle.sql_bound.specs.Used.{is_used};
ghost use Rattle.store_query.specs.Placing.{ArePlacesOf, AreWithin, IsPlaceOf};

use catalog_types::ProjColumn;
use expr_places::is_used;
use sql_bound::{BoundQuery, FromItem};
use std::alloc::{AllocError, Global};

/// Whether the query may use the column at a place behind another; one past all numbers isn't looked for.
fn may_be_used(query: &BoundQuery, first: usize, c: usize) -> bool
    ensures may { is_used query.now (first + c) ≡ true → result ≡ true }
    ensures only { result ≡ true → first + c < 2 ^ 64 → is_used query.now (first + c) ≡ true }
{
    match first.checked_add(c) {
        Some(column) => is_used(query, column),
        None => true,
    }
}

/// The first place of the table's column `c` among those of a projection.
fn place_in(columns: &[ProjColumn], c: usize) -> Option<usize>
    ensures { result ≡ position (λ k. k.ordinal == c) columns.now }
{
    columns.iter().position(|column| column.ordinal == c)
}

/// The place of the table's column `c` among those of a projection, if it has the column and the query uses it.
fn place_of(query: &BoundQuery, first: usize, columns: &[ProjColumn], c: usize) -> Option<usize>
    ensures { IsPlaceOf query.now first (map (λ k. k.ordinal) columns.now) c result }
{
    if !may_be_used(query, first, c) {
        return None;
    }
    place_in(columns, c)
}

/// For each column of a FROM item its place among those of a projection, if the query uses the column.
pub fn places_of(
    alloc: Global,
    query: &BoundQuery,
    item: FromItem,
    columns: &[ProjColumn],
) -> Result<Vec<Option<usize>>, AllocError>
    ensures places { IfOk result (λ v. ArePlacesOf query.now item.first item.columns (map (λ k. k.ordinal) columns.now) v.items) }
    ensures within { IfOk result (λ v. AreWithin (length columns.now) v.items) }
{
    let mut out = Vec::with_capacity(alloc, item.columns)?;
    for c in 0..item.columns {
        out.push(place_of(query, item.first, columns, c))?;
    }
    Ok(out)
}
