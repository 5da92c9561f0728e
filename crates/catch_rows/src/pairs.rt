//! Two projections of a table that may have containers in common.

ghost use Rattle.std.specs.Prelude.{IfOk, IfSome};
ghost use Rattle.catch_rows.specs.Sharing.{HasParts, IsPair, IsPairIn};

use crate::alike::alike_in;
use proj_store::ProjStore;
use row_matching::{Source, source_of};
use std::alloc::{AllocError, Global};
use table_store::TableStore;

/// A projection behind and one like it ahead, and for each column of their table its place there.
#[derive(Drop)]
pub struct Pair<'a> {
    pub first: &'a ProjStore,
    pub second: &'a ProjStore,
    pub places: Vec<Option<usize>>,
}

/// How many columns a table has, and its projections.
#[derive(Clone, Copy)]
struct Own<'a> {
    columns: usize,
    parts: &'a [ProjStore],
}

/// The table at a place.
fn own_of(tables: &TableStore, table: usize) -> Option<Own<'_>>
    ensures { IfSome result (λ o. HasParts tables.now table o.columns o.parts.now) }
{
    let Some(entry) = tables.root().tables.as_slice().get(table) else {
        return None;
    };
    let Some(parts) = tables.tables().get(table) else {
        return None;
    };
    Some(Own {
        columns: entry.columns.as_slice().len(),
        parts: parts.as_slice(),
    })
}

fn pair_in<'a>(alloc: Global, old: Own<'a>, new: Own<'a>) -> Result<Option<Pair<'a>>, AllocError>
    ensures { IfOk result (λ o. IfSome o (λ pair. IsPairIn old.entry.columns new.entry.columns old.entry.parts.now new.entry.parts.now pair.places.items pair.first.now pair.second.now)) }
{
    if old.columns != new.columns {
        return Ok(None);
    }
    let Source { place, places } = source_of(alloc, old.parts, old.columns)?;
    let Some(first) = old.parts.get(place) else {
        return Ok(None);
    };
    match alike_in(first, new.parts) {
        Some(place) => Ok(Some(Pair {
            first,
            second: &new.parts[place],
            places,
        })),
        None => Ok(None),
    }
}

/// The first projection behind that has all columns of the table at a place, and one like it ahead, if there is one.
pub fn pair_of<'a>(
    alloc: Global,
    behind: &'a TableStore,
    ahead: &'a TableStore,
    table: usize,
) -> Result<Option<Pair<'a>>, AllocError>
    ensures { IfOk result (λ o. IfSome o (λ pair. IsPair behind.now ahead.now table pair.places.items pair.first.now pair.second.now)) }
{
    let Some(old) = own_of(behind, table) else {
        return Ok(None);
    };
    let Some(new) = own_of(ahead, table) else {
        return Ok(None);
    };
    pair_in(alloc, old, new)
}
