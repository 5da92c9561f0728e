//! A commit's work on one projection.

ghost use Rattle.std.specs.Prelude.{◌≡◌, ◌≤◌, ◌==◌, true, Some, length, map, slice_index_or, IfErr, IfOk};
ghost use Rattle.std.specs.List.{All, list_all};
ghost use Rattle.common_laws.specs.Causes.{HasCause};
ghost use Rattle.common_laws.specs.Maps.{Contents};
ghost use Rattle.col_disk.specs.Moved.{Moved, NoName};
ghost use Rattle.col_value.specs.Order.{IsRow, projected};
ghost use Rattle.col_value.specs.declared.value.Value.TheVariants.{Null};
ghost use Rattle.row_history.specs.History.{asked_on};
ghost use Rattle.folder_model.specs.Projections.{ordinals};
ghost use Rattle.table_store.specs.Changing.{applied, coming, deleted_from, in_order, with_coming, AreFound, AreWhole, CanApply, CanDelete, IsReady};
ghost use Rattle.col_disk.specs.Faults.{IsUnblamed};
ghost use Rattle.proj_store.specs.Reading.{BlamesRows};
ghost use Rattle.table_store.specs.Faults.{IsReadable};

use catalog_types::{ProjColumn, Projection};
use col_disk::{Disk, StoreFault};
use col_value::{Asked, Row, Value};
use proj_store::{Marks, ProjStore, ReadyRows};
use std::alloc::{AllocError, Global};
use std::marker::Model;

/// What a commit does to a projection: rows that come, and the places of rows that are deleted, if any are asked for.
#[derive(Drop)]
pub struct ReadyPart {
    rows: ReadyRows,
    marks: Option<Marks>,
}

impl Model for ReadyPart {
    ghost use Rattle.table_store.specs.Changing.{Ready};

    ghost Value = { Ready };

    ghost view = { λ r. record { rows = r.rows; marks = r.marks } };
}

/// The value of a row at a column; one that isn't there is NULL.
fn value_at(alloc: Global, row: &Row, column: usize) -> Result<Value, AllocError>
    ensures { IfOk result (λ v. v ≡ slice_index_or row.now column Null) }
{
    match row.as_slice().get(column) {
        Some(value) => value.copy(alloc),
        None => Ok(Value::Null),
    }
}

/// A row of the table with the columns of a projection.
fn row_on(alloc: Global, row: &Row, columns: &[ProjColumn]) -> Result<Row, AllocError>
    ensures { IfOk result (λ r. r ≡ projected row.now (map (λ c. c.ordinal) columns.now)) }
{
    let mut values = Vec::with_capacity(alloc, columns.len())?;
    for column in columns {
        values.push(value_at(alloc, row, column.ordinal)?)?;
    }
    Ok(Row::new(values))
}

fn rows_on(alloc: Global, rows: &[Row], entry: &Projection) -> Result<Vec<Row>, AllocError>
    ensures { IfOk result (λ v. v.items ≡ map (λ row. projected row (ordinals entry.now)) rows.now) }
{
    let mut out = Vec::with_capacity(alloc, rows.len())?;
    for row in rows {
        out.push(row_on(alloc, row, entry.columns.as_slice())?)?;
    }
    Ok(out)
}

fn deletes_on(
    alloc: Global,
    deletes: &[Asked],
    entry: &Projection,
) -> Result<Vec<Asked>, AllocError>
    ensures { IfOk result (λ v. v.items ≡ map (asked_on (ordinals entry.now)) deletes.now) }
{
    let mut out = Vec::with_capacity(alloc, deletes.len())?;
    for asked in deletes {
        let row = row_on(alloc, &asked.row, entry.columns.as_slice())?;
        out.push(Asked {
            row,
            ins: asked.ins,
        })?;
    }
    Ok(out)
}

/// Whether columns are the first ones of the table in their order.
fn in_order(columns: &[ProjColumn]) -> bool
    ensures { result ≡ in_order columns.now }
{
    for (i, column) in columns.iter().enumerate() {
        if column.ordinal != i {
            return false;
        }
    }
    true
}

fn are_long(rows: &[Row], count: usize) -> bool
    ensures { result ≡ list_all (λ row. length row == count) rows.now }
{
    rows.iter().all(|row| row.as_slice().len() == count)
}

/// Whether a projection is up to date and has the columns of rows of the table, so that it can take the rows themselves.
pub fn can_take(store: &ProjStore, rows: &[Row]) -> bool
    ensures { result ≡ true → AreWhole rows.now store.now.stored }
{
    let entry = store.entry();
    if !entry.fresh {
        return false;
    }
    let columns = entry.columns.as_slice();
    in_order(columns) && are_long(rows, columns.len())
}

/// Room for rows of the table and, where the projection doesn't take these themselves, copies with its columns.
fn rows_for(
    alloc: Global,
    store: &mut ProjStore,
    rows: &[Row],
    takes: bool,
) -> Result<ReadyRows, AllocError>
    requires valid { All IsRow rows.now }
    requires whole { takes ≡ true → AreWhole rows.now store.old.stored }
    ensures rows { IfOk result (λ own. coming takes rows.now own ≡ map (λ row. projected row (ordinals store.old.stored.entry)) rows.now) }
    ensures room { IfOk result (λ own. length (coming takes rows.now own) ≤ store.new.spare) }
    ensures stored { store.new.stored ≡ store.old.stored }
    ensures rooms { store.new.rooms ≡ store.old.rooms }
{
    if takes {
        store.make_room(rows.len())?;
        return Ok(ReadyRows::of(Vec::new(alloc)));
    }
    let own = rows_on(alloc, rows, store.entry())?;
    store.prepare_rows(own)
}

/// Finds the rows that are deleted, and makes room for their marks. Where none is asked for, no row is looked at.
fn marks_for<D: Disk>(
    alloc: Global,
    disk: &mut D,
    store: &mut ProjStore,
    deletes: &[Asked],
) -> Result<Option<Marks>, StoreFault>
    ensures found { IfOk result (λ o. (m : Contents) → D.holds disk.old ≡ Some m → AreFound m store.old.stored (map (asked_on (ordinals store.old.stored.entry)) deletes.now) o) }
    ensures ready { IfOk result (λ o. CanDelete o store.new) }
    ensures stored { store.new.stored ≡ store.old.stored }
    ensures spare { store.new.spare ≡ store.old.spare }
    ensures unblamed { IfErr result (λ fault. (m : Contents) → D.holds disk.old ≡ Some m → store.old.stored.entry.fresh ≡ true → IsReadable m store.old.stored → IsUnblamed fault) }
    ensures blamed { IfErr result (BlamesRows store.old.stored.entry (D.holds disk.old)) }
    ensures kept { D.holds disk.new ≡ D.holds disk.old }
    ensures moved { Moved ⟦<D as Disk>⟧ NoName NoName disk.old disk.new }
    ensures cause { HasCause StoreFault.Disk (D.faults disk.old) (D.faults disk.new) result }
{
    if deletes.is_empty() {
        return Ok(None);
    }
    let wanted = match deletes_on(alloc, deletes, store.entry()) {
        Ok(wanted) => wanted,
        Err(AllocError) => return Err(StoreFault::Memory),
    };
    match store.prepare_marks(alloc, disk, wanted) {
        Ok(marks) => Ok(Some(marks)),
        Err(fault) => Err(fault),
    }
}

/// Makes ready what a commit of these rows and deletes of the table does to a projection; nothing changes but the room. Where it `takes` the
/// rows of the table themselves, these come later.
pub fn prepare_part<D: Disk>(
    alloc: Global,
    disk: &mut D,
    store: &mut ProjStore,
    rows: &[Row],
    deletes: &[Asked],
    takes: bool,
) -> Result<Option<ReadyPart>, StoreFault>
    requires valid { All IsRow rows.now }
    requires whole { takes ≡ true → AreWhole rows.now store.old.stored }
    ensures prepared { IfOk result (λ o. (m : Contents) → D.holds disk.old ≡ Some m → IsReady m rows.now deletes.now store.old.stored (with_coming takes rows.now o)) }
    ensures ready { IfOk result (λ o. CanApply (with_coming takes rows.now o) store.new) }
    ensures stored { store.new.stored ≡ store.old.stored }
    ensures unblamed { IfErr result (λ fault. (m : Contents) → D.holds disk.old ≡ Some m → IsReadable m store.old.stored → IsUnblamed fault) }
    ensures blamed { IfErr result (BlamesRows store.old.stored.entry (D.holds disk.old)) }
    ensures kept { D.holds disk.new ≡ D.holds disk.old }
    ensures moved { Moved ⟦<D as Disk>⟧ NoName NoName disk.old disk.new }
    ensures cause { HasCause StoreFault.Disk (D.faults disk.old) (D.faults disk.new) result }
{
    if !store.entry().fresh {
        return Ok(None);
    }
    let marks = match marks_for(alloc, disk, store, deletes) {
        Ok(marks) => marks,
        Err(fault) => return Err(fault),
    };
    match rows_for(alloc, store, rows, takes) {
        Ok(rows) => Ok(Some(ReadyPart { rows, marks })),
        Err(AllocError) => Err(StoreFault::Memory),
    }
}

/// What was made ready, with these rows.
pub fn with_coming(ready: Option<ReadyPart>, rows: Vec<Row>) -> Option<ReadyPart>
    requires { All IsRow rows.items }
    ensures { result ≡ with_coming true rows.items ready }
{
    match ready {
        Some(ReadyPart { marks, .. }) => Some(ReadyPart {
            rows: ReadyRows::of(rows),
            marks,
        }),
        None => None,
    }
}

/// Marks the rows that are deleted. It takes no memory.
fn apply_marks(store: &mut ProjStore, marks: Option<Marks>, epoch: u64)
    requires { CanDelete marks store.old }
    ensures stored { store.new.stored ≡ deleted_from epoch marks store.old.stored }
    ensures spare { store.new.spare ≡ store.old.spare }
{
    match marks {
        Some(marks) => store.apply_marks(marks, epoch),
        None => {}
    }
}

/// Does to a projection what was made ready, at an epoch. It takes no memory.
pub fn apply_part(store: &mut ProjStore, ready: Option<ReadyPart>, epoch: u64)
    requires { CanApply ready store.old }
    ensures { store.new.stored ≡ applied epoch ready store.old.stored }
{
    match ready {
        Some(ReadyPart { rows, marks }) => {
            apply_marks(store, marks, epoch);
            store.apply_rows(rows, epoch);
        }
        None => {}
    }
}
