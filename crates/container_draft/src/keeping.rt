//! Which rows are written.

ghost use Rattle.std.specs.Prelude.{◌≡◌, ℕ, None, map, filter, take, get_or, length, IfOk, OnOk, ◌++◌, ◌∷◌, []};
ghost use Rattle.std.specs.List.{range_with_len};
ghost use Rattle.container_draft.specs.Keeping.{is_kept, kept_of, dels_at, listed_if};

use std::alloc::{AllocError, Global};

/// Whether a row is retained from a mark on.
fn is_kept(mark: u64, del: Option<u64>) -> bool
    ensures { result ≡ is_kept mark del }
{
    match del {
        Some(epoch) => mark < epoch,
        None => true,
    }
}

/// The delete at a place; none where the list ends before it.
pub fn del_at(dels: &[Option<u64>], place: usize) -> Option<u64>
    ensures { result ≡ get_or dels.now place None }
{
    if place < dels.len() {
        dels[place]
    } else {
        None
    }
}

/// A place joins others where it is kept.
fn add_if(out: &mut Vec<usize>, place: usize, keep: bool) -> Result<(), AllocError>
    ensures { OnOk result (out.new.items ≡ out.old.items ++ listed_if keep place) }
{
    if !keep {
        return Ok(());
    }
    out.push(place)?;
    Ok(())
}

/// The places of the rows that are retained from a mark on.
pub fn kept_places(alloc: Global, mark: u64, dels: &[Option<u64>]) -> Result<Vec<usize>, AllocError>
    ensures { IfOk result (λ v. v.items ≡ kept_of mark dels.now) }
{
    let mut out = Vec::new(alloc);
    for place in 0..dels.len() {
        add_if(&mut out, place, is_kept(mark, del_at(dels, place)))?;
    }
    Ok(out)
}

/// The deletes at some places.
pub fn deletes_at(
    alloc: Global,
    dels: &[Option<u64>],
    places: &[usize],
) -> Result<Vec<Option<u64>>, AllocError>
    ensures { IfOk result (λ v. v.items ≡ dels_at dels.now places.now) }
{
    let mut out = Vec::with_capacity(alloc, places.len())?;
    for place in places {
        out.push_reserved(del_at(dels, *place));
    }
    Ok(out)
}
