//! The retained history of a table.

ghost use Rattle.std.specs.Prelude.{◌≡◌, ◌≤◌, ◌↔◌, ◌∷◌, ◌++◌, [], Some, IfOk, IfErr, IsTrue, OnOk, IsSomeAnd};
ghost use Rattle.std.specs.List.{All, slice_get};
ghost use Rattle.common_laws.specs.Bags.{SameBag};
ghost use Rattle.common_laws.specs.Causes.{HasCause};
ghost use Rattle.col_disk.specs.Faults.{IsUnblamed};
ghost use Rattle.col_disk.specs.Moved.{Moved, NoName};
ghost use Rattle.col_value.specs.Order.{IsRow};
ghost use Rattle.row_history.specs.History.{is_retained, retained};
ghost use Rattle.db_model.specs.Database.{Database};
ghost use Rattle.query_cover.specs.Seen.{placed, value_at};
ghost use Rattle.store_commit.specs.Seen.{Stands};
ghost use Rattle.table_store.specs.Faults.{BlamesStored};
ghost use Rattle.row_matching.specs.Keeping.{history, KeepsAll};

use crate::sources::{Source, source_of};
use col_disk::{Disk, StoreFault};
use col_value::{Row, Stamped, Value};
use std::alloc::{AllocError, Global};
use stored_rows::one_list_of_rows;
use table_store::TableStore;
use value_bytes::is_value;

/// Whether each of these is a value of a table.
fn is_row(values: &[Value]) -> bool
    ensures { IsTrue result ↔ IsRow values.now }
{
    values.iter().all(|value| is_value(value))
}

/// The value of a row at a place, NULL where there is none.
fn value_at(alloc: Global, row: &[Value], place: Option<usize>) -> Result<Value, AllocError>
    ensures { IfOk result (λ v. v ≡ value_at row.now place) }
{
    match place {
        Some(place) => match row.get(place) {
            Some(value) => value.copy(alloc),
            None => Ok(Value::Null),
        },
        None => Ok(Value::Null),
    }
}

/// The values of a row at places.
fn placed(alloc: Global, places: &[Option<usize>], row: &[Value]) -> Result<Vec<Value>, AllocError>
    ensures { IfOk result (λ v. v.items ≡ placed places.now row.now) }
{
    let mut out = Vec::with_capacity(alloc, places.len())?;
    for place in places {
        out.push(value_at(alloc, row, *place)?)?;
    }
    Ok(out)
}

fn is_retained(mark: u64, stored: &Stamped) -> bool
    ensures { result ≡ is_retained mark stored.now }
{
    match stored.del {
        Some(epoch) => mark < epoch,
        None => true,
    }
}

/// A row joins the others where its values are values of a table.
fn push_row(
    out: &mut Vec<Stamped>,
    values: Vec<Value>,
    ins: u64,
    del: Option<u64>,
) -> Result<(), AllocError>
    requires { All (λ s. IsRow s.row) out.old.items }
    ensures valid { OnOk result (All (λ s. IsRow s.row) out.new.items) }
    ensures kept { OnOk result (KeepsAll ((record { row = values.items; ins = ins; del = del }) ∷ []) out.old.items out.new.items) }
{
    if !is_row(values.as_slice()) {
        return Ok(());
    }
    let row = Row::new(values);
    out.push(Stamped { row, ins, del })?;
    Ok(())
}

/// A stored row joins the others, with the columns of the table, where it is retained from the mark on.
fn keep(
    alloc: Global,
    mark: u64,
    places: &[Option<usize>],
    stored: &Stamped,
    out: &mut Vec<Stamped>,
) -> Result<(), AllocError>
    requires { All (λ s. IsRow s.row) out.old.items }
    ensures valid { OnOk result (All (λ s. IsRow s.row) out.new.items) }
    ensures kept { OnOk result (KeepsAll (history mark places.now (stored.now ∷ [])) out.old.items out.new.items) }
{
    if !is_retained(mark, stored) {
        return Ok(());
    }
    let values = placed(alloc, places, stored.row.as_slice())?;
    push_row(out, values, stored.ins, stored.del)
}

/// The rows that are retained from a mark on, with the columns of the table. One that isn't a row of a table is left out: no table has one.
pub fn retain(
    alloc: Global,
    mark: u64,
    places: &[Option<usize>],
    stored: &[Stamped],
) -> Result<Vec<Stamped>, AllocError>
    ensures valid { IfOk result (λ v. All (λ s. IsRow s.row) v.items) }
    ensures kept { IfOk result (λ v. KeepsAll (history mark places.now stored.now) [] v.items) }
{
    let mut out = Vec::new(alloc);
    for row in stored {
        keep(alloc, mark, places, row, &mut out)?;
    }
    Ok(out)
}

/// The rows of the table at a place that are retained from a mark on, with their epochs, in any order; their columns stand as the table has
/// them. A file of a container is blamed only where it holds no rows, so none where the store stands for a database. Nothing is written.
pub fn table_history<D: Disk>(
    alloc: Global,
    tables: &TableStore,
    table: usize,
    mark: u64,
    disk: &mut D,
) -> Result<Vec<Stamped>, StoreFault>
    ensures found { IfOk result (λ v. (d : Database) → Stands ⟦<D as Disk>⟧ tables.now disk.old d → d.ahm ≤ mark → IsSomeAnd (slice_get d.tables table) (λ t. SameBag v.items (retained mark t.rows))) }
    ensures valid { IfOk result (λ v. All (λ s. IsRow s.row) v.items) }
    ensures unblamed { IfErr result (λ fault. (d : Database) → Stands ⟦<D as Disk>⟧ tables.now disk.old d → IsUnblamed fault) }
    ensures blamed { IfErr result (BlamesStored tables.now.stores (D.holds disk.old)) }
    ensures kept { D.holds disk.new ≡ D.holds disk.old }
    ensures moved { Moved ⟦<D as Disk>⟧ NoName NoName disk.old disk.new }
    ensures cause { HasCause StoreFault.Disk (D.faults disk.old) (D.faults disk.new) result }
{
    one_list_of_rows();
    let Some(entry) = tables.root().tables.as_slice().get(table) else {
        return Err(StoreFault::Memory);
    };
    let Some(parts) = tables.tables().get(table) else {
        return Err(StoreFault::Memory);
    };
    let parts = parts.as_slice();
    let source = match source_of(alloc, parts, entry.columns.as_slice().len()) {
        Ok(source) => source,
        Err(AllocError) => return Err(StoreFault::Memory),
    };
    let Source { place, places } = source;
    let Some(store) = parts.get(place) else {
        return Err(StoreFault::Memory);
    };
    let stored = match store.stamped(alloc, disk) {
        Ok(stored) => stored,
        Err(fault) => return Err(fault),
    };
    match retain(alloc, mark, places.as_slice(), stored.as_slice()) {
        Ok(rows) => Ok(rows),
        Err(AllocError) => Err(StoreFault::Memory),
    }
}
