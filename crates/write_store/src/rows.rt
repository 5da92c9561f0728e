//! Work on rows in memory as they lie there.

ghost use Rattle.std.specs.Prelude.{◌≡◌, ◌≤◌, ◌<◌, [], ◌∷◌, map, length, filter, nat_le, nat_lt, IfOk, vec_len, vec_capacity};
ghost use Rattle.std.specs.List.{All};
ghost use Rattle.write_store.specs.Memory.{stamp, AreHeldRows, deleted_at, wider};

use crate::held::Held;
use col_value::{Stamped, Value};
use std::alloc::{AllocError, Global};

/// The row at a place is deleted by an epoch.
pub fn delete(rows: &mut [Held], place: usize, epoch: u64)
    requires { place < length rows.old }
    ensures rows { map stamp rows.new ≡ deleted_at epoch (place ∷ []) (map stamp rows.old) }
    ensures long { length rows.new ≡ length rows.old }
    ensures valid { AreHeldRows rows.old → AreHeldRows rows.new }
{
    rows[place].del = Some(epoch);
}

/// The rows at these places are deleted by an epoch.
pub fn delete_each(rows: &mut [Held], places: &[usize], epoch: u64)
    requires { All (λ p. p < length rows.old) places.now }
    ensures rows { map stamp rows.new ≡ deleted_at epoch places.now (map stamp rows.old) }
    ensures long { length rows.new ≡ length rows.old }
    ensures valid { AreHeldRows rows.old → AreHeldRows rows.new }
{
    for place in places {
        delete(rows, *place, epoch);
    }
}

/// Keeps the rows that were inserted after an epoch.
pub fn keep_after(rows: &mut Vec<Held>, epoch: u64)
    ensures rows { map stamp rows.new.items ≡ filter (λ s. nat_lt epoch s.ins) (map stamp rows.old.items) }
    ensures fewer { vec_len rows.new ≤ vec_len rows.old }
    ensures room { vec_capacity rows.new ≡ vec_capacity rows.old }
    ensures valid { AreHeldRows rows.old.items → AreHeldRows rows.new.items }
{
    rows.retain(|row| row.inserted.ins > epoch);
}

/// Copies of the rows that were inserted up to an epoch.
pub fn copies_upto(alloc: Global, rows: &[Held], epoch: u64) -> Result<Vec<Stamped>, AllocError>
    ensures { IfOk result (λ v. v.items ≡ filter (λ s. nat_le s.ins epoch) (map stamp rows.now)) }
{
    let mut taken = Vec::new(alloc);
    for row in rows {
        if row.inserted.ins <= epoch {
            taken.push(row.copy(alloc)?)?;
        }
    }
    Ok(taken)
}

/// Copies of the rows with one value more each.
pub fn copies_with(alloc: Global, rows: &[Held], last: &Value) -> Result<Vec<Held>, AllocError>
    ensures { IfOk result (λ v. v.items ≡ map (wider last.now) rows.now) }
{
    let mut taken = Vec::with_capacity(alloc, rows.len())?;
    for row in rows {
        taken.push(row.copy_with(alloc, last)?)?;
    }
    Ok(taken)
}
