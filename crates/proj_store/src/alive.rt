//! Which rows of a block may be wanted.

ghost use Rattle.std.specs.Prelude.{◌≡◌, ◌<◌, ◌+◌, ◌^◌, ℕ, length, get_or, is_none, true, false, IfOk, IsTrue, ◌↔◌};
ghost use Rattle.std.specs.List.{Any};
ghost use Rattle.wanted_rows.specs.Wanted.{need_in};
ghost use Rattle.proj_store.specs.Blocks.{in_list};
ghost use Rattle.proj_store.specs.Candidates.{NarrowsBy, Stays};

use block_codec::Block;
use col_value::Value;
use std::alloc::{AllocError, Global};
use wanted_rows::Wants;

/// The delete epoch at a place; none where the list ends before it.
fn delete_at(deletes: &[Option<u64>], place: usize) -> Option<u64>
    ensures { result ≡ in_list deletes.now place }
{
    match deletes.get(place) {
        Some(del) => *del,
        None => None,
    }
}

/// Of so many rows from a place on those are alive that aren't deleted.
pub fn undeleted(
    alloc: Global,
    count: usize,
    deletes: &[Option<u64>],
    first: usize,
) -> Result<Vec<bool>, AllocError>
    requires { first + count < 2 ^ 64 }
    ensures long { IfOk result (λ v. length v.items ≡ count) }
    ensures live { IfOk result (λ v. (i : ℕ) → i < length v.items → get_or v.items i false ≡ is_none (in_list deletes.now (first + i))) }
{
    let mut alive = Vec::with_capacity(alloc, count)?;
    for i in 0..count {
        alive.push(delete_at(deletes, first + i).is_none())?;
    }
    Ok(alive)
}

/// Whether a row is alive still, by its value in a column.
fn stays(alive: bool, value: &Value, column: usize, wants: &Wants) -> bool
    ensures { Stays column value.now (need_in wants.now) alive result }
{
    alive && wants.may_have(column, value)
}

/// Rows with a value that no wanted row has in a column are alive no more.
pub fn narrow(alive: &mut [bool], values: &Block, column: usize, wants: &Wants)
    requires { length alive.old ≡ length values.now }
    ensures long { length alive.new ≡ length alive.old }
    ensures narrows { NarrowsBy column values.now (need_in wants.now) alive.old alive.new }
{
    for i in 0..alive.len() {
        let cell = values.cell(i);
        alive[i] = stays(alive[i], cell.value(), column, wants);
    }
}

/// Whether some row is alive.
pub fn has_any(alive: &[bool]) -> bool
    ensures { IsTrue result ↔ Any (λ a. a ≡ true) alive.now }
{
    alive.iter().any(|a| *a)
}
