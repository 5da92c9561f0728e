//! Rows without those that the session deletes.

ghost use Rattle.std.specs.Prelude.{◌≡◌, ◌∷◌, ℕ, map, IfOk, OnOk};
ghost use Rattle.std.specs.List.{All};
ghost use Rattle.col_value.specs.Order.{IsRow};
ghost use Rattle.col_value.specs.declared.row.Asked.{Asked as ARow};
ghost use Rattle.db_model.specs.State.{pending_deletes};
ghost use Rattle.wanted_rows.specs.Wanted.{need_in, tally};
ghost use Rattle.store_query.specs.Lessening.{asked, cleared, deletes_of, value_kept, AreGone, IsLess, Keeps};

use col_value::{Asked, Row, Value};
use sql_bound::FromItem;
use sql_tree::At;
use std::alloc::{AllocError, Global};
use table_store::TableStore;
use txn_core::Session;
use wanted_rows::Wants;
use write_store::Inserted;

/// The pending deletes of the table of a name.
fn pending_deletes<'a>(changes: &'a Session, name: &[u8]) -> &'a [Asked]
    ensures { result.now ≡ pending_deletes name.now changes.now }
{
    match changes.on(name) {
        Some(changes) => changes.deletes(),
        None => &[],
    }
}

/// The pending deletes of a FROM item's table that are seen: none but in the session's own view. It takes no memory.
pub fn deletes_of<'a>(
    tables: &TableStore,
    changes: &'a Session,
    at: At,
    item: FromItem,
) -> &'a [Asked]
    ensures { result.now ≡ deletes_of at tables.now.catalogue.tables changes.now item }
{
    match at {
        At::View => match tables.root().tables.as_slice().get(item.table) {
            Some(table) => pending_deletes(changes, table.name.as_slice()),
            None => &[],
        },
        At::Latest => &[],
        At::Epoch(_) => &[],
    }
}

/// The value of a row in a column that has a place; NULL in another one.
fn value_kept(
    alloc: Global,
    row: &[Value],
    c: usize,
    place: Option<usize>,
) -> Result<Value, AllocError>
    ensures { IfOk result (λ v. v ≡ value_kept row.now (c, place)) }
{
    match place {
        Some(_) => match row.get(c) {
            Some(value) => value.copy(alloc),
            None => Ok(Value::Null),
        },
        None => Ok(Value::Null),
    }
}

/// A row of a table as a scan makes it: with NULL in the columns that have no place.
fn cleared(alloc: Global, row: &[Value], places: &[Option<usize>]) -> Result<Row, AllocError>
    ensures { IfOk result (λ r. r ≡ cleared places.now row.now) }
{
    let mut out = Vec::with_capacity(alloc, places.len())?;
    for (c, place) in places.iter().enumerate() {
        out.push(value_kept(alloc, row, c, *place)?)?;
    }
    Ok(Row::new(out))
}

/// How often each row is deleted, as a scan makes it.
pub fn wants_of(
    alloc: Global,
    deletes: &[Asked],
    places: &[Option<usize>],
) -> Result<Wants, AllocError>
    ensures { IfOk result (λ w. (q : ARow) → need_in w q ≡ tally q (map (λ a. asked (cleared places.now a.row)) deletes.now)) }
{
    let mut gone = Vec::with_capacity(alloc, deletes.len())?;
    for delete in deletes {
        let row = cleared(alloc, delete.row.as_slice(), places)?;
        gone.push(Asked { row, ins: 0 })?;
    }
    Wants::new(alloc, gone)
}

/// Takes a row out, where that is still to be done, and appends it otherwise.
fn keep(alloc: Global, wants: &mut Wants, out: &mut Vec<Row>, row: Row) -> Result<(), AllocError>
    requires out { All IsRow out.old.items }
    requires row { IsRow row }
    ensures keeps { OnOk result (Keeps row out.old.items out.new.items (need_in wants.old) (need_in wants.new)) }
    ensures valid { OnOk result (All IsRow out.new.items) }
{
    let row = Inserted { ins: 0, row };
    if wants.take(alloc, &row)? {
        return Ok(());
    }
    let Inserted { row, .. } = row;
    out.push(row)?;
    Ok(())
}

/// Rows without those that are to be taken out.
fn less(alloc: Global, rows: Vec<Row>, wants: Wants) -> Result<Vec<Row>, AllocError>
    requires { All IsRow rows.items }
    ensures less { IfOk result (λ v. AreGone (need_in wants) rows.items v.items) }
    ensures valid { IfOk result (λ v. All IsRow v.items) }
{
    let mut wants = wants;
    let mut rest = rows;
    let mut out = Vec::new(alloc);
    while let Some(row) = rest.pop() {
        keep(alloc, &mut wants, &mut out, row)?;
    }
    Ok(out)
}

/// Rows of a table, as a scan makes them, without those that are deleted.
pub fn without_deletes(
    alloc: Global,
    rows: Vec<Row>,
    deletes: &[Asked],
    places: &[Option<usize>],
) -> Result<Vec<Row>, AllocError>
    requires { All IsRow rows.items }
    ensures less { IfOk result (λ v. IsLess (map (λ a. cleared places.now a.row) deletes.now) rows.items v.items) }
    ensures valid { IfOk result (λ v. All IsRow v.items) }
{
    if deletes.is_empty() {
        return Ok(rows);
    }
    let wants = wants_of(alloc, deletes, places)?;
    less(alloc, rows, wants)
}
