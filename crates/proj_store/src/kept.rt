//! What is kept in memory of a container.

ghost use Rattle.std.specs.Prelude.{◌≡◌, ◌<◌, ℕ, [], ◌∷◌, length, map, None, IfOk};
ghost use Rattle.std.specs.Option.{option_or};
ghost use Rattle.std.specs.List.{All};
ghost use Rattle.del_vector.specs.Marks.{epoch_at};
ghost use Rattle.stored_rows.specs.Stored.{mark_in};
ghost use Rattle.write_store.specs.Memory.{held_of};
ghost use Rattle.wanted_rows.specs.Picked.{asked_of, del_at};
ghost use Rattle.proj_store.specs.Loaded.{beside_of};

use col_value::Asked;
use del_vector::{DelVector, Mark};
use std::alloc::{AllocError, Global};
use write_store::Held;

/// The delete vector of a container, and the marks that came since.
#[derive(Drop)]
pub struct Kept {
    pub held: DelVector,
    pub fresh: Vec<Mark>,
}

/// The epoch of a position by marks in any order; of several marks the first counts.
fn first_epoch(marks: &[Mark], position: u64) -> Option<u64>
    ensures { result ≡ epoch_at marks.now position }
{
    for mark in marks {
        if mark.position == position {
            return Some(mark.epoch);
        }
    }
    None
}

/// A row that isn't deleted yet is deleted by its mark.
fn put_mark(rows: &mut [Held], mark: Mark)
    requires { mark.position < length rows.old }
    ensures rows { asked_of rows.new ≡ asked_of rows.old }
    ensures long { length rows.new ≡ length rows.old }
    ensures deleted { (i : ℕ) → del_at rows.new i ≡ option_or (del_at rows.old i) (epoch_at (mark ∷ []) i) }
{
    let place = mark.position as usize;
    match rows[place].del {
        Some(_) => {}
        None => rows[place].del = Some(mark.epoch),
    }
}

/// Rows that aren't deleted yet are deleted by their marks.
fn put_marks(rows: &mut [Held], marks: &[Mark])
    requires { All (λ e. e.position < length rows.old) marks.now }
    ensures rows { asked_of rows.new ≡ asked_of rows.old }
    ensures long { length rows.new ≡ length rows.old }
    ensures deleted { (i : ℕ) → del_at rows.new i ≡ option_or (del_at rows.old i) (epoch_at marks.now i) }
{
    for mark in marks {
        put_mark(rows, *mark);
    }
}

fn put_all(rows: &mut Vec<Held>, marks: &[Mark])
    requires { All (λ e. e.position < length rows.old.items) marks.now }
    ensures rows { asked_of rows.new.items ≡ asked_of rows.old.items }
    ensures long { length rows.new.items ≡ length rows.old.items }
    ensures deleted { (i : ℕ) → del_at rows.new.items i ≡ option_or (del_at rows.old.items i) (epoch_at marks.now i) }
{
    put_marks(rows.as_mut_slice(), marks);
}

/// The rows of a container, none of them deleted.
fn undeleted(alloc: Global, rows: Vec<Asked>) -> Result<Vec<Held>, AllocError>
    ensures { IfOk result (λ v. v.items ≡ map (held_of None) rows.items) }
{
    rows.into_iter()
        .map(|asked| Held::new(asked, None))
        .collect(alloc)
}

impl Kept {
    /// The epoch that deletes a position, if one does.
    pub fn mark_at(&self, position: u64) -> Option<u64>
        ensures { result ≡ mark_in (beside_of self.now) position }
    {
        match self.held.epoch_at(position) {
            Some(epoch) => Some(epoch),
            None => first_epoch(self.fresh.as_slice(), position),
        }
    }

    /// The rows of the container, each with the epoch that deletes its position.
    pub fn stamp(&self, alloc: Global, rows: Vec<Asked>) -> Result<Vec<Held>, AllocError>
        requires held { All (λ e. e.position < length rows.items) self.now.held.marks }
        requires fresh { All (λ e. e.position < length rows.items) self.now.fresh.items }
        ensures rows { IfOk result (λ v. asked_of v.items ≡ rows.items) }
        ensures deleted { IfOk result (λ v. (i : ℕ) → del_at v.items i ≡ mark_in (beside_of self.now) i) }
    {
        let mut stamped = undeleted(alloc, rows)?;
        put_all(&mut stamped, self.held.marks());
        put_all(&mut stamped, self.fresh.as_slice());
        Ok(stamped)
    }
}
