//! Rows up to an epoch.

ghost use Rattle.std.specs.Prelude.{◌≡◌, map, IfOk};
ghost use Rattle.del_vector.specs.Marks.{epoch_at};
ghost use Rattle.row_history.specs.History.{stamped, cut_row, cut_rows};
ghost use Rattle.stored_rows.specs.Held.{stamped_from};
ghost use Rattle.container_writer.specs.Ordered.{stamped_of};

use col_value::{Asked, Stamped};
use container_writer::StampedRef;
use del_vector::DelVector;
use std::alloc::{AllocError, Global};

fn stamp(asked: Asked, del: Option<u64>) -> Stamped
    ensures { result ≡ stamped del asked }
{
    let Asked { row, ins } = asked;
    Stamped { row, ins, del }
}

/// The rows of a container, each with the epoch that deletes its position.
fn with_marks(
    alloc: Global,
    rows: Vec<Asked>,
    marks: &DelVector,
) -> Result<Vec<Stamped>, AllocError>
    ensures { IfOk result (λ v. v.items ≡ stamped_from 0 (epoch_at marks.now.marks) rows.items) }
{
    let mut out = Vec::with_capacity(alloc, rows.len())?;
    for asked in rows {
        let del = marks.epoch_at(out.len() as u64);
        out.push(stamp(asked, del))?;
    }
    Ok(out)
}

fn cut_row(row: Stamped, epoch: u64) -> Stamped
    ensures { result ≡ cut_row epoch row }
{
    let del = match row.del {
        Some(del) => { if del <= epoch { Some(del) } else { None } }
        None => None,
    };
    Stamped { del, ..row }
}

fn cut_rows(alloc: Global, rows: Vec<Stamped>, epoch: u64) -> Result<Vec<Stamped>, AllocError>
    ensures { IfOk result (λ v. v.items ≡ cut_rows epoch rows.items) }
{
    let mut out = Vec::new(alloc);
    for row in rows {
        if row.ins <= epoch {
            out.push(cut_row(row, epoch))?;
        }
    }
    Ok(out)
}

/// The rows of a container up to an epoch, without the deletes after it.
pub fn rows_upto(
    alloc: Global,
    rows: Vec<Asked>,
    marks: &DelVector,
    epoch: u64,
) -> Result<Vec<Stamped>, AllocError>
    ensures { IfOk result (λ v. v.items ≡ cut_rows epoch (stamped_from 0 (epoch_at marks.now.marks) rows.items)) }
{
    cut_rows(alloc, with_marks(alloc, rows, marks)?, epoch)
}

/// The rows where they stand.
pub fn refs(alloc: Global, rows: &[Stamped]) -> Result<Vec<StampedRef<'_>>, AllocError>
    ensures { IfOk result (λ v. map stamped_of v.items ≡ rows.now) }
{
    let mut out = Vec::with_capacity(alloc, rows.len())?;
    for stamped in rows {
        out.push(StampedRef {
            row: &stamped.row,
            ins: stamped.ins,
            del: stamped.del,
        })?;
    }
    Ok(out)
}
