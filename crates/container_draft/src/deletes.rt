//! The deletes of chosen containers' rows.

ghost use Rattle.std.specs.Prelude.{◌≡◌, ◌<◌, ◌++◌, None, get_or, length, map, IfOk, OnOk, IsSomeAnd};
ghost use Rattle.std.specs.List.{All, range_with_len, slice_get};
ghost use Rattle.proj_store.specs.Sound.{MarksItsRows};
ghost use Rattle.stored_rows.specs.Stored.{mark_in};
ghost use Rattle.merge_rows.specs.Inputs.{chosen};
ghost use Rattle.container_draft.specs.Keeping.{beside_of};
ghost use Rattle.container_draft.specs.Reading.{deletes, deletes_if, deletes_in};

use crate::all::all_flags;
use crate::keeping::del_at;
use crate::reading::is_chosen;
use catalog_types::Container;
use del_vector::Mark;
use proj_store::{ProjStore, deletes_of};
use std::alloc::{AllocError, Global};

/// The first deletes of a list, none behind its end.
fn padded(alloc: Global, dels: &[Option<u64>], count: usize) -> Result<Vec<Option<u64>>, AllocError>
    ensures { IfOk result (λ v. v.items ≡ map (λ i. get_or dels.now i None) (range_with_len 0 count)) }
{
    let mut out = Vec::with_capacity(alloc, count)?;
    for place in 0..count {
        out.push_reserved(del_at(dels, place));
    }
    Ok(out)
}

/// The deletes of a container of so many rows, by its delete vector and by the marks that came since.
pub fn deletes_by(
    alloc: Global,
    count: usize,
    held: &[Mark],
    fresh: &[Mark],
) -> Result<Vec<Option<u64>>, AllocError>
    requires held { All (λ e. e.position < count) held.now }
    requires fresh { All (λ e. e.position < count) fresh.now }
    ensures { IfOk result (λ v. v.items ≡ deletes (beside_of held.now fresh.now) count) }
{
    let found = deletes_of(alloc, count, held, fresh)?;
    padded(alloc, found.as_slice(), count)
}

fn add_deletes(dels: &mut Vec<Option<u64>>, more: Vec<Option<u64>>) -> Result<(), AllocError>
    ensures { OnOk result (dels.new.items ≡ dels.old.items ++ more.items) }
{
    let mut more = more;
    dels.append(&mut more)
}

/// The deletes of a container's rows join others where they are wanted.
fn add_if(
    alloc: Global,
    dels: &mut Vec<Option<u64>>,
    p: &ProjStore,
    place: usize,
    container: &Container,
    wanted: bool,
) -> Result<(), AllocError>
    requires place { place < length p.now.stored.beside }
    requires kept { IsSomeAnd (slice_get p.now.stored.beside place) (MarksItsRows container.now) }
    ensures { OnOk result (IsSomeAnd (slice_get p.now.stored.beside place) (λ b. dels.new.items ≡ dels.old.items ++ deletes_if wanted b container.now.rows)) }
{
    if !wanted {
        return Ok(());
    }
    let (held, fresh) = (p.vector(place), p.fresh_marks(place));
    let more = deletes_by(alloc, container.rows as usize, held, fresh)?;
    add_deletes(dels, more)
}

/// The deletes of the chosen containers' rows, one container after the other.
pub fn chosen_deletes(
    alloc: Global,
    p: &ProjStore,
    inputs: &[bool],
) -> Result<Vec<Option<u64>>, AllocError>
    ensures { IfOk result (λ v. v.items ≡ deletes_in (chosen inputs.now p.now.stored.entry.containers) (chosen inputs.now p.now.stored.beside)) }
{
    let containers = p.entry().containers.as_slice();
    let mut out = Vec::new(alloc);
    for (i, container) in containers.iter().enumerate() {
        let wanted = is_chosen(inputs, i);
        add_if(alloc, &mut out, p, i, container, wanted)?;
    }
    Ok(out)
}

/// The deletes of all containers' rows, one container after the other.
pub fn all_deletes(alloc: Global, p: &ProjStore) -> Result<Vec<Option<u64>>, AllocError>
    ensures { IfOk result (λ v. v.items ≡ deletes_in p.now.stored.entry.containers p.now.stored.beside) }
{
    let all = all_flags(alloc, p.entry().containers.as_slice().len())?;
    chosen_deletes(alloc, p, all.as_slice())
}
