//! Where the columns of one projection stand among those of another.

ghost use Rattle.std.specs.Prelude.{◌≡◌, length, map, IfOk};
ghost use Rattle.audit_model.specs.Pairs.{place_in, places_among};
ghost use Rattle.store_audit.specs.Passes.{places_in_all};

use catalog_types::{ProjColumn, Projection};
use std::alloc::{AllocError, Global};

/// The place of a column of the table, or the number of columns.
fn place_in(columns: &[ProjColumn], ordinal: usize) -> usize
    ensures { result ≡ place_in (map (λ c. c.ordinal) columns.now) ordinal }
{
    let mut place: usize = 0;
    let mut rest = columns;
    while let [column, later @ ..] = rest {
        if column.ordinal == ordinal {
            return place;
        }
        place += 1;
        rest = later;
    }
    place
}

pub fn places_among(
    alloc: Global,
    first: &Projection,
    second: &Projection,
) -> Result<Vec<usize>, AllocError>
    ensures { IfOk result (λ v. v.items ≡ places_among first.now second.now) }
{
    let columns = first.columns.as_slice();
    let others = second.columns.as_slice();
    let mut places = Vec::new(alloc);
    for column in others {
        places.push(place_in(columns, column.ordinal))?;
    }
    Ok(places)
}

#[tactic(auto, using(crate::proofs::Places::one_more))]
pub fn all_places(alloc: Global, shape: &Projection) -> Result<Vec<usize>, AllocError>
    ensures { IfOk result (λ v. v.items ≡ places_in_all shape.now) }
{
    let mut places = Vec::new(alloc);
    for place in 0..shape.columns.as_slice().len() {
        places.push(place)?;
    }
    Ok(places)
}
