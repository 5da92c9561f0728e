//! A column that joins those of a projection.

ghost use Rattle.std.specs.Prelude.{◌≡◌, ◌≤◌, ◌++◌, ◌∷◌, ℕ, [], List as Items, length, map, IfOk};
ghost use Rattle.std.specs.List.{All};
ghost use Rattle.common_laws.specs.Maps.{Contents};
ghost use Rattle.col_value.specs.Order.{IsValue};
ghost use Rattle.col_value.specs.declared.row.Stamped.{Stamped as AStamped};
ghost use Rattle.col_value.specs.declared.value.Value.{Value as AValue};
ghost use Rattle.stored_rows.specs.Stored.{Projected, Stores, IsMemoryAbove};
ghost use Rattle.write_store.specs.Memory.{with_value};
ghost use Rattle.proj_store.specs.Widening.{new_column, with_column};

use catalog_types::{ProjColumn, copy_proj_columns};
use col_value::{Encoding, List, Value};
use std::alloc::{AllocError, Global};

/// Columns with one more behind them: a column of the table that has this default.
pub fn columns_with(
    alloc: Global,
    columns: &[ProjColumn],
    ordinal: usize,
    default: &Value,
) -> Result<List<ProjColumn>, AllocError>
    ensures { IfOk result (λ cs. cs ≡ columns.now ++ new_column ordinal default.now ∷ []) }
{
    let mut wider = copy_proj_columns(alloc, columns)?;
    let default = Some(default.copy(alloc)?);
    wider.push(ProjColumn {
        ordinal,
        encoding: Encoding::Auto,
        default,
    })?;
    Ok(List::new(wider))
}

/// A projection that gets a column stores its rows with the default behind the other values, whether they are in memory or in containers
/// that were written before; and what is in memory alone is as late as before.
pub fn a_default_joins_each_row()
    ensures stores { (m : Contents) (ordinal : ℕ) (v : AValue) (p : Projected) (rows : Items AStamped) → All (λ k. k.stored ≤ length p.entry.columns) p.entry.containers
        → Stores m p rows → Stores m (with_column ordinal v p) (map (with_value v) rows) }
    ensures above { (low ordinal : ℕ) (v : AValue) (p : Projected) → IsMemoryAbove low p → IsMemoryAbove low (with_column ordinal v p) }
{}
