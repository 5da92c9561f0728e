//! Whether a projection stores a row that is retained from a mark on. No file is read: the delete epochs are in memory.

ghost use Rattle.std.specs.Prelude.{◌≡◌, ◌<◌, length, map, slice_index_or, IfOk, None, List};
ghost use Rattle.std.specs.List.{All, list_any};
ghost use Rattle.common_laws.specs.Maps.{Contents};
ghost use Rattle.col_value.specs.declared.row.Stamped.{Stamped};
ghost use Rattle.row_history.specs.History.{is_retained};
ghost use Rattle.stored_rows.specs.Stored.{Stores, mark_in};
ghost use Rattle.write_store.specs.Memory.{stamp};
ghost use Rattle.exec_scan.specs.Retaining.{is_kept, keeps_from, KeepsAt};

use del_vector::Mark;
use proj_store::{ProjStore, deletes_of};
use std::alloc::{AllocError, Global};
use write_store::Held;

/// Whether a row with this delete epoch is retained.
fn is_kept(mark: u64, del: Option<u64>) -> bool
    ensures { result ≡ is_kept mark del }
{
    match del {
        Some(epoch) => mark < epoch,
        None => true,
    }
}

/// The epoch that deletes the row at a place, if one does.
fn epoch_at(deletes: &[Option<u64>], i: usize) -> Option<u64>
    ensures { result ≡ slice_index_or deletes.now i None }
{
    match deletes.get(i) {
        Some(epoch) => *epoch,
        None => None,
    }
}

/// Whether one of so many rows is retained.
fn keeps_some(mark: u64, deletes: &[Option<u64>], count: usize) -> bool
    ensures { result ≡ keeps_from mark (λ i. slice_index_or deletes.now i None) 0 count }
{
    for i in 0..count {
        if is_kept(mark, epoch_at(deletes, i)) {
            return true;
        }
    }
    false
}

/// Whether one of the rows of a container of so many is retained.
fn marks_keep(
    alloc: Global,
    mark: u64,
    count: usize,
    held: &[Mark],
    fresh: &[Mark],
) -> Result<bool, AllocError>
    requires held { All (λ e. e.position < count) held.now }
    requires fresh { All (λ e. e.position < count) fresh.now }
    ensures { IfOk result (λ b. b ≡ keeps_from mark (mark_in (record { held = held.now; fresh = fresh.now })) 0 count) }
{
    let deletes = deletes_of(alloc, count, held, fresh)?;
    Ok(keeps_some(mark, deletes.as_slice(), count))
}

/// Whether one of the rows of the container at a place is retained.
fn container_keeps(
    alloc: Global,
    mark: u64,
    store: &ProjStore,
    i: usize,
) -> Result<bool, AllocError>
    requires { i < length store.now.stored.entry.containers }
    ensures { IfOk result (KeepsAt mark store.now.stored i) }
{
    let shape = store.entry();
    let entry = &shape.containers.as_slice()[i];
    marks_keep(
        alloc,
        mark,
        entry.rows as usize,
        store.vector(i),
        store.fresh_marks(i),
    )
}

/// Whether one of these rows is retained.
fn memory_keeps(mark: u64, rows: &[Held]) -> bool
    ensures { result ≡ list_any (is_retained mark) (map stamp rows.now) }
{
    for row in rows {
        if is_kept(mark, row.del) {
            return true;
        }
    }
    false
}

/// Whether a projection stores a row that has no delete epoch, or one above a mark. The disk isn't called.
pub fn retains(alloc: Global, store: &ProjStore, mark: u64) -> Result<bool, AllocError>
    ensures { IfOk result (λ b. (m : Contents) (rows : List Stamped) → Stores m store.now.stored rows → b ≡ list_any (is_retained mark) rows) }
{
    let count = store.entry().containers.as_slice().len();
    for i in 0..count {
        if container_keeps(alloc, mark, store, i)? {
            return Ok(true);
        }
    }
    Ok(memory_keeps(mark, store.unsaved()))
}
