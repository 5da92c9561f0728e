//! The delete epochs of a container's rows.

ghost use Rattle.std.specs.Prelude.{◌≡◌, ◌<◌, ℕ, [], ◌∷◌, length, replicate, IfOk, None, slice_index_or};
ghost use Rattle.std.specs.Option.{option_or};
ghost use Rattle.std.specs.List.{All};
ghost use Rattle.del_vector.specs.Marks.{epoch_at};
ghost use Rattle.stored_rows.specs.Stored.{mark_in};
ghost use Rattle.proj_store.specs.Blocks.{in_list};
ghost use Rattle.proj_store.specs.Loaded.{beside_of};
ghost use Rattle.proj_store.specs.Sound.{MarksItsRows};

use crate::kept::Kept;
use catalog_types::Container;
use del_vector::Mark;
use std::alloc::{AllocError, Global};

/// So many rows that aren't deleted.
fn undeleted(alloc: Global, count: usize) -> Result<Vec<Option<u64>>, AllocError>
    ensures { IfOk result (λ v. v.items ≡ replicate count None) }
{
    Vec::from_elem(alloc, None, count)
}

/// A row that isn't deleted yet is deleted by its mark.
fn put_mark(deletes: &mut [Option<u64>], mark: Mark)
    requires { mark.position < length deletes.old }
    ensures long { length deletes.new ≡ length deletes.old }
    ensures deleted { (i : ℕ) → slice_index_or deletes.new i None ≡ option_or (slice_index_or deletes.old i None) (epoch_at (mark ∷ []) i) }
{
    let place = mark.position as usize;
    match deletes[place] {
        Some(_) => {}
        None => deletes[place] = Some(mark.epoch),
    }
}

/// Rows that aren't deleted yet are deleted by their marks.
fn put_marks(deletes: &mut [Option<u64>], marks: &[Mark])
    requires { All (λ e. e.position < length deletes.old) marks.now }
    ensures long { length deletes.new ≡ length deletes.old }
    ensures deleted { (i : ℕ) → slice_index_or deletes.new i None ≡ option_or (slice_index_or deletes.old i None) (epoch_at marks.now i) }
{
    for mark in marks {
        put_mark(deletes, *mark);
    }
}

fn put_both(deletes: &mut [Option<u64>], held: &[Mark], fresh: &[Mark])
    requires held { All (λ e. e.position < length deletes.old) held.now }
    requires fresh { All (λ e. e.position < length deletes.old) fresh.now }
    ensures long { length deletes.new ≡ length deletes.old }
    ensures deleted { (i : ℕ) → slice_index_or deletes.new i None ≡ option_or (option_or (slice_index_or deletes.old i None) (epoch_at held.now i)) (epoch_at fresh.now i) }
{
    put_marks(deletes, held);
    put_marks(deletes, fresh);
}

/// The epochs that delete so many rows, by both lists of marks.
fn marked(
    alloc: Global,
    count: usize,
    held: &[Mark],
    fresh: &[Mark],
) -> Result<Vec<Option<u64>>, AllocError>
    requires held { All (λ e. e.position < count) held.now }
    requires fresh { All (λ e. e.position < count) fresh.now }
    ensures { IfOk result (λ v. (i : ℕ) → slice_index_or v.items i None ≡ option_or (epoch_at held.now i) (epoch_at fresh.now i)) }
{
    let mut deletes = undeleted(alloc, count)?;
    put_both(deletes.as_mut_slice(), held, fresh);
    Ok(deletes)
}

/// The epochs that delete the rows of a container of so many, by its delete vector and by the marks that came since; nothing where there
/// are no marks.
pub fn deletes_of(
    alloc: Global,
    count: usize,
    held: &[Mark],
    fresh: &[Mark],
) -> Result<Vec<Option<u64>>, AllocError>
    requires held { All (λ e. e.position < count) held.now }
    requires fresh { All (λ e. e.position < count) fresh.now }
    ensures { IfOk result (λ v. (i : ℕ) → slice_index_or v.items i None ≡ option_or (epoch_at held.now i) (epoch_at fresh.now i)) }
{
    if held.is_empty() && fresh.is_empty() {
        return Ok(Vec::new(alloc));
    }
    marked(alloc, count, held, fresh)
}

/// The epochs that delete the rows of a container, by what is kept of it; nothing where there are no marks.
pub(crate) fn kept_deletes(
    alloc: Global,
    container: &Container,
    kept: &Kept,
) -> Result<Vec<Option<u64>>, AllocError>
    requires { MarksItsRows container.now (beside_of kept.now) }
    ensures { IfOk result (λ v. (i : ℕ) → in_list v.items i ≡ mark_in (beside_of kept.now) i) }
{
    let (held, fresh) = (kept.held.marks(), kept.fresh.as_slice());
    deletes_of(alloc, container.rows as usize, held, fresh)
}
