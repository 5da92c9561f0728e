//! The rows of the source's memory, with the columns of the new projection.

ghost use Rattle.std.specs.Prelude.{◌≡◌, map, slice_index_or, IfOk};
ghost use Rattle.col_value.specs.Order.{projected};
ghost use Rattle.col_value.specs.declared.value.Value.TheVariants.{Null};
ghost use Rattle.row_history.specs.History.{is_retained, on_columns};
ghost use Rattle.write_store.specs.Memory.{stamp};
ghost use Rattle.container_writer.specs.Ordered.{stamped_of};
ghost use Rattle.refresh_job.specs.Rows.{wanted};

use col_value::{List, Row, Stamped, Value};
use container_writer::StampedRef;
use std::alloc::{AllocError, Global};
use write_store::Held;

/// Whether a row is retained from a mark on.
fn is_kept(held: &Held, mark: u64) -> bool
    ensures { result ≡ is_retained mark (stamp held.now) }
{
    match held.del {
        Some(epoch) => mark < epoch,
        None => true,
    }
}

/// The value of a row in a column; one that is not there is NULL.
fn value_of(alloc: Global, row: &Row, column: usize) -> Result<Value, AllocError>
    ensures { IfOk result (λ v. v ≡ slice_index_or row.now column Null) }
{
    match row.as_slice().get(column) {
        Some(value) => value.copy(alloc),
        None => Ok(Value::Null),
    }
}

fn project(alloc: Global, row: &Row, columns: &[usize]) -> Result<Row, AllocError>
    ensures { IfOk result (λ r. r ≡ projected row.now columns.now) }
{
    let mut out = Vec::with_capacity(alloc, columns.len())?;
    for column in columns {
        out.push(value_of(alloc, row, *column)?)?;
    }
    Ok(List::new(out))
}

/// A row with some columns alone.
fn narrowed(alloc: Global, held: &Held, via: &[usize]) -> Result<Stamped, AllocError>
    ensures { IfOk result (λ r. r ≡ on_columns via.now (stamp held.now)) }
{
    let narrow = project(alloc, &held.inserted.row, via)?;
    Ok(Stamped {
        row: narrow,
        ins: held.inserted.ins,
        del: held.del,
    })
}

/// The rows in memory that are retained from a mark on, with some columns alone.
pub fn wanted_rows(
    alloc: Global,
    rows: &[Held],
    via: &[usize],
    mark: u64,
) -> Result<Vec<Stamped>, AllocError>
    ensures { IfOk result (λ v. v.items ≡ wanted mark via.now (map stamp rows.now)) }
{
    let mut out = Vec::new(alloc);
    for held in rows {
        if is_kept(held, mark) {
            out.push(narrowed(alloc, held, via)?)?;
        }
    }
    Ok(out)
}

/// The rows where they stand.
pub fn refs(alloc: Global, rows: &[Stamped]) -> Result<Vec<StampedRef<'_>>, AllocError>
    ensures { IfOk result (λ v. map stamped_of v.items ≡ rows.now) }
{
    let mut out = Vec::with_capacity(alloc, rows.len())?;
    for stamped in rows {
        out.push(StampedRef {
            row: &stamped.row,
            ins: stamped.ins,
            del: stamped.del,
        })?;
    }
    Ok(out)
}
