//! The rows that are retained from a mark on, where they stand.

ghost use Rattle.std.specs.Prelude.{◌≡◌, ◌<◌, nat_lt, true, get_or, None, map, IfOk, IsTrue, ◌↔◌};
ghost use Rattle.std.specs.List.{All};
ghost use Rattle.std.specs.Option.{option_map_or};
ghost use Rattle.row_history.specs.History.{retained, stamped};
ghost use Rattle.container_writer.specs.Ordered.{stamped_of};
ghost use Rattle.write_store.specs.Memory.{stamp};
ghost use Rattle.purge_job.specs.Purging.{stamped_with};

use col_value::{Asked, Stamped};
use container_writer::StampedRef;
use del_vector::Mark;
use std::alloc::{AllocError, Global};
use write_store::Held;

/// Whether all marks are later than an epoch.
pub fn are_later(marks: &[Mark], mark: u64) -> bool
    ensures { IsTrue result ↔ All (λ e. mark < e.epoch) marks.now }
{
    marks.iter().all(|each| mark < each.epoch)
}

/// Whether what was deleted so is retained from a mark on.
pub fn is_kept(del: Option<u64>, mark: u64) -> bool
    ensures { result ≡ option_map_or (λ e. nat_lt mark e) del true }
{
    match del {
        Some(epoch) => mark < epoch,
        None => true,
    }
}

/// The delete at a place; none where the list ends before it.
fn del_at(dels: &[Option<u64>], place: usize) -> Option<u64>
    ensures { result ≡ get_or dels.now place None }
{
    if place < dels.len() {
        dels[place]
    } else {
        None
    }
}

fn stamp(asked: Asked, del: Option<u64>) -> Stamped
    ensures { result ≡ stamped del asked }
{
    let Asked { row, ins } = asked;
    Stamped { row, ins, del }
}

/// Rows with these deletes at their places.
fn with_deletes(
    alloc: Global,
    rows: Vec<Asked>,
    dels: &[Option<u64>],
) -> Result<Vec<Stamped>, AllocError>
    ensures { IfOk result (λ v. v.items ≡ stamped_with dels.now rows.items) }
{
    let mut out = Vec::with_capacity(alloc, rows.len())?;
    for asked in rows {
        let del = del_at(dels, out.len());
        out.push(stamp(asked, del))?;
    }
    Ok(out)
}

fn retained(alloc: Global, rows: Vec<Stamped>, mark: u64) -> Result<Vec<Stamped>, AllocError>
    ensures { IfOk result (λ v. v.items ≡ retained mark rows.items) }
{
    let mut out = Vec::new(alloc);
    for row in rows {
        if is_kept(row.del, mark) {
            out.push(row)?;
        }
    }
    Ok(out)
}

/// The rows with these deletes that are retained from a mark on.
pub fn kept_rows(
    alloc: Global,
    rows: Vec<Asked>,
    dels: &[Option<u64>],
    mark: u64,
) -> Result<Vec<Stamped>, AllocError>
    ensures { IfOk result (λ v. v.items ≡ retained mark (stamped_with dels.now rows.items)) }
{
    retained(alloc, with_deletes(alloc, rows, dels)?, mark)
}

/// The rows where they stand.
pub fn refs(alloc: Global, rows: &[Stamped]) -> Result<Vec<StampedRef<'_>>, AllocError>
    ensures { IfOk result (λ v. map stamped_of v.items ≡ rows.now) }
{
    let mut out = Vec::with_capacity(alloc, rows.len())?;
    for stamped in rows {
        out.push(StampedRef {
            row: &stamped.row,
            ins: stamped.ins,
            del: stamped.del,
        })?;
    }
    Ok(out)
}

/// The rows in memory that are retained from a mark on, where they stand.
pub fn memory_refs(
    alloc: Global,
    rows: &[Held],
    mark: u64,
) -> Result<Vec<StampedRef<'_>>, AllocError>
    ensures { IfOk result (λ v. map stamped_of v.items ≡ retained mark (map stamp rows.now)) }
{
    let mut out = Vec::new(alloc);
    for held in rows {
        if is_kept(held.del, mark) {
            out.push(StampedRef {
                row: &held.inserted.row,
                ins: held.inserted.ins,
                del: held.del,
            })?;
        }
    }
    Ok(out)
}
