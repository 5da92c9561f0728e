//! Which projection is read.

ghost use Rattle.std.specs.Prelude.{◌≡◌, map, IfOk, IsSomeAnd, Some};
ghost use Rattle.std.specs.List.{slice_get};
ghost use Rattle.std.specs.Option.{IfSome};
ghost use Rattle.row_matching.specs.Seeing.{ArePlaces, IsSource};

use catalog_types::ProjColumn;
use proj_store::ProjStore;
use std::alloc::{AllocError, Global};

/// A projection by its place, and for each column of the table its place there.
#[derive(Drop)]
pub struct Source {
    pub place: usize,
    pub places: Vec<Option<usize>>,
}

/// Where a projection has a column of its table.
fn place_in(columns: &[ProjColumn], column: usize) -> Option<usize>
    ensures { IfSome result (λ i. slice_get (map (λ c. c.ordinal) columns.now) i ≡ Some column) }
{
    for i in 0..columns.len() {
        if columns[i].ordinal == column {
            return Some(i);
        }
    }
    None
}

/// Where a projection has each of so many columns of its table; None where it lacks one.
fn places_of(
    alloc: Global,
    columns: &[ProjColumn],
    count: usize,
) -> Result<Option<Vec<Option<usize>>>, AllocError>
    ensures { IfOk result (λ o. IfSome o (λ v. ArePlaces (map (λ c. c.ordinal) columns.now) count v.items)) }
{
    let mut out = Vec::new(alloc);
    for column in 0..count {
        match place_in(columns, column) {
            Some(place) => out.push(Some(place))?,
            None => return Ok(None),
        }
    }
    Ok(Some(out))
}

/// Where a projection that is up to date has each of so many columns; None for another one.
fn places_in(
    alloc: Global,
    part: &ProjStore,
    count: usize,
) -> Result<Option<Vec<Option<usize>>>, AllocError>
    ensures { IfOk result (λ o. IfSome o (λ v. IsSource count v.items part.now.stored)) }
{
    let entry = part.entry();
    if !entry.fresh {
        return Ok(None);
    }
    places_of(alloc, entry.columns.as_slice(), count)
}

/// The first projection that is up to date and has all columns of its table; that there is none is answered as want of memory.
pub fn source_of(alloc: Global, parts: &[ProjStore], count: usize) -> Result<Source, AllocError>
    ensures { IfOk result (λ s. IsSomeAnd (slice_get parts.now s.place) (λ p. IsSource count s.places.items p.stored)) }
{
    for place in 0..parts.len() {
        match places_in(alloc, &parts[place], count)? {
            Some(places) => return Ok(Source { place, places }),
            None => {}
        }
    }
    Err(AllocError)
}
