//! The marks of a container, those of its delete vector and those that came since.

ghost use Rattle.std.specs.Prelude.{◌≡◌, ◌<◌, ◌++◌, ℕ, [], ◌∷◌, IfOk, OnOk};
ghost use Rattle.std.specs.Option.{option_or};
ghost use Rattle.std.specs.List.{All};
ghost use Rattle.del_vector.specs.Marks.{epoch_at};

use del_vector::{DelVector, Mark};
use std::alloc::{AllocError, Global};

fn joined(alloc: Global, held: &[Mark], fresh: &[Mark]) -> Result<Vec<Mark>, AllocError>
    ensures { IfOk result (λ v. v.items ≡ held.now ++ fresh.now) }
{
    let mut marks = Vec::from_slice(alloc, held)?;
    marks.extend_from_slice(fresh)?;
    Ok(marks)
}

/// The marks in ascending order of their positions; of a position the first mark stays the first.
fn by_position(marks: Vec<Mark>) -> Result<Vec<Mark>, AllocError>
    ensures { IfOk result (λ v. (i : ℕ) → epoch_at v.items i ≡ epoch_at marks.items i) }
{
    let mut marks = marks;
    marks.sort_by(|a, b| a.position.cmp(&b.position))?;
    Ok(marks)
}

/// A position that isn't marked yet gets its mark.
fn put_mark(vector: &mut DelVector, mark: Mark) -> Result<(), AllocError>
    requires { 0 < mark.epoch }
    ensures epochs { OnOk result ((i : ℕ) → epoch_at vector.new.marks i ≡ option_or (epoch_at vector.old.marks i) (epoch_at (mark ∷ []) i)) }
    ensures within { OnOk result ((n : ℕ) → mark.position < n → All (λ e. e.position < n) vector.old.marks → All (λ e. e.position < n) vector.new.marks) }
{
    match vector.epoch_at(mark.position) {
        Some(_) => Ok(()),
        None => {
            vector.reserve(1)?;
            vector.add(mark.position, mark.epoch);
            Ok(())
        }
    }
}

/// The delete vector of these marks. Marks of rows that the container lacks, or of epoch 0, are answered as want of memory: no store
/// has such.
fn vector_of(alloc: Global, marks: &[Mark], rows: u64) -> Result<DelVector, AllocError>
    ensures epochs { IfOk result (λ v. (i : ℕ) → epoch_at v.marks i ≡ epoch_at marks.now i) }
    ensures within { IfOk result (λ v. All (λ e. e.position < rows) v.marks) }
{
    let mut vector = DelVector::new(alloc);
    for mark in marks {
        if mark.position >= rows || mark.epoch == 0 {
            return Err(AllocError);
        }
        put_mark(&mut vector, *mark)?;
    }
    Ok(vector)
}

/// The delete vector of a container of so many rows with more marks.
pub fn vector_with(
    alloc: Global,
    held: &[Mark],
    fresh: &[Mark],
    rows: u64,
) -> Result<DelVector, AllocError>
    ensures epochs { IfOk result (λ v. (i : ℕ) → epoch_at v.marks i ≡ option_or (epoch_at held.now i) (epoch_at fresh.now i)) }
    ensures within { IfOk result (λ v. All (λ e. e.position < rows) v.marks) }
{
    let marks = by_position(joined(alloc, held, fresh)?)?;
    vector_of(alloc, marks.as_slice(), rows)
}
