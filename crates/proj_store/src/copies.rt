//! Rows for a reader.

ghost use Rattle.std.specs.Prelude.{◌≡◌, ◌++◌, map, IfOk, OnOk};
ghost use Rattle.row_history.specs.History.{is_visible, visible};
ghost use Rattle.write_store.specs.Memory.{stamp};

use col_value::{Row, Stamped};
use std::alloc::{AllocError, Global};
use write_store::Held;

/// Appends copies of rows in memory.
pub fn add_copies(alloc: Global, out: &mut Vec<Stamped>, rows: &[Held]) -> Result<(), AllocError>
    ensures { OnOk result (out.new.items ≡ out.old.items ++ map stamp rows.now) }
{
    for row in rows {
        out.push(row.copy(alloc)?)?;
    }
    Ok(())
}

fn is_visible(row: &Stamped, epoch: u64) -> bool
    ensures { result ≡ is_visible epoch row.now }
{
    row.ins <= epoch
        && match row.del {
            Some(del) => del > epoch,
            None => true,
        }
}

/// The rows that are visible at an epoch.
pub fn visible_rows(alloc: Global, rows: Vec<Stamped>, epoch: u64) -> Result<Vec<Row>, AllocError>
    ensures { IfOk result (λ v. v.items ≡ visible epoch rows.items) }
{
    let mut out = Vec::new(alloc);
    for row in rows {
        if is_visible(&row, epoch) {
            out.push(row.row)?;
        }
    }
    Ok(out)
}
