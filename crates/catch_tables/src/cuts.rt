//! Rows cut at an epoch, and the least in which others differ from them.

ghost use Rattle.std.specs.Prelude.{◌≡◌, IfOk, IfSome, IfNone};
ghost use Rattle.common_laws.specs.Bags.{SameBag};
ghost use Rattle.row_history.specs.History.{cut_row, cut_rows};
ghost use Rattle.catch_tables.specs.Told.{IsLeastIn};

use bag_difference::least_difference;
use col_value::Stamped;
use std::alloc::{AllocError, Global};

/// A row cut at an epoch.
fn cut_row(alloc: Global, row: &Stamped, epoch: u64) -> Result<Stamped, AllocError>
    ensures { IfOk result (λ s. s ≡ cut_row epoch row.now) }
{
    let del = match row.del {
        Some(del) if del <= epoch => Some(del),
        _ => None,
    };
    Ok(Stamped {
        row: row.row.copy(alloc)?,
        ins: row.ins,
        del,
    })
}

/// Rows cut at an epoch.
fn cut_rows(alloc: Global, rows: &[Stamped], epoch: u64) -> Result<Vec<Stamped>, AllocError>
    ensures { IfOk result (λ v. v.items ≡ cut_rows epoch rows.now) }
{
    let mut out = Vec::new(alloc);
    for row in rows {
        if row.ins <= epoch {
            out.push(cut_row(alloc, row, epoch)?)?;
        }
    }
    Ok(out)
}

/// The least row in which rows differ from others that are cut at an epoch.
pub fn difference_at(
    alloc: Global,
    rows: Vec<Stamped>,
    ahead: &[Stamped],
    epoch: u64,
) -> Result<Option<Stamped>, AllocError>
    ensures same { IfOk result (λ o. IfNone o (SameBag rows.items (cut_rows epoch ahead.now))) }
    ensures differ { IfOk result (λ o. IfSome o (λ row. IsLeastIn rows.items (cut_rows epoch ahead.now) row)) }
{
    let cut = cut_rows(alloc, ahead, epoch)?;
    match least_difference(alloc, rows, cut)? {
        Some(difference) => Ok(Some(difference.row)),
        None => Ok(None),
    }
}
