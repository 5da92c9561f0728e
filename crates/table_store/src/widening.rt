//! A catalogue in which a table has one column more.

ghost use Rattle.std.specs.Prelude.{◌≡◌, ◌<◌, ◌==◌, ◌^◌, length, map, IfOk, OnOk};
ghost use Rattle.std.specs.List.{list_any};
ghost use Rattle.folder_model.specs.Projections.{shape_of};
ghost use Rattle.sound_laws.specs.Moves.{change_at};
ghost use Rattle.table_store.specs.Widening.{has_all, wide_entry, wide_table, with_column_at};

use crate::moving::no_table;
use catalog_types::{Catalogue, Projection, Table};
use col_value::{Column, List, Value};
use proj_store::columns_with;
use std::alloc::{AllocError, Global};

/// Whether a projection has the table's column of this place.
fn has_column(entry: &Projection, ordinal: usize) -> bool
    ensures { result ≡ list_any (λ c. c.0 == ordinal) (shape_of entry.now).columns }
{
    for column in entry.columns.as_slice() {
        if column.ordinal == ordinal {
            return true;
        }
    }
    false
}

/// Whether a projection has all columns of its table.
pub fn has_all(columns: &[Column], entry: &Projection) -> bool
    ensures { result ≡ has_all columns.now entry.now }
{
    for (place, _) in columns.iter().enumerate() {
        if !has_column(entry, place) {
            return false;
        }
    }
    true
}

fn widen_entry(
    alloc: Global,
    entry: &mut Projection,
    columns: &[Column],
    default: &Value,
) -> Result<(), AllocError>
    ensures { OnOk result (entry.new ≡ wide_entry columns.now default.now entry.old) }
{
    if !has_all(columns, entry) {
        return Ok(());
    }
    entry.columns = columns_with(alloc, entry.columns.as_slice(), columns.len(), default)?;
    Ok(())
}

fn widen_entries(
    alloc: Global,
    entries: &mut [Projection],
    columns: &[Column],
    default: &Value,
) -> Result<(), AllocError>
    ensures { OnOk result (entries.new ≡ map (wide_entry columns.now default.now) entries.old) }
{
    for entry in entries.iter_mut() {
        widen_entry(alloc, entry, columns, default)?;
    }
    Ok(())
}

/// A table with one column more.
fn widen_table(
    alloc: Global,
    table: Table,
    column: &Column,
    default: &Value,
) -> Result<Table, AllocError>
    ensures { IfOk result (λ t. t ≡ wide_table column.now default.now table) }
{
    let Table {
        name,
        columns,
        projections,
    } = table;
    let (mut columns, mut projections) = (columns.into_vec(), projections.into_vec());
    widen_entries(
        alloc,
        projections.as_mut_slice(),
        columns.as_slice(),
        default,
    )?;
    columns.push(column.copy(alloc)?)?;
    Ok(Table {
        name,
        columns: List::new(columns),
        projections: List::new(projections),
    })
}

/// Tables of which one has one column more.
fn widen_table_at(
    alloc: Global,
    tables: Vec<Table>,
    table: usize,
    column: &Column,
    default: &Value,
) -> Result<Vec<Table>, AllocError>
    requires { table < length tables.items }
    ensures { IfOk result (λ v. v.items ≡ change_at table (wide_table column.now default.now) tables.items) }
{
    let mut tables = tables;
    let old = std::mem::replace(&mut tables[table], no_table(alloc));
    tables[table] = widen_table(alloc, old, column, default)?;
    Ok(tables)
}

/// The catalogue where the table at a place has one column more.
pub fn with_column_at(
    alloc: Global,
    root: &Catalogue,
    last: u64,
    table: usize,
    column: &Column,
    default: &Value,
) -> Result<Catalogue, AllocError>
    requires there { table < length root.now.tables }
    requires next { root.now.next < 2 ^ 62 }
    ensures { IfOk result (λ c. c ≡ with_column_at last table column.now default.now root.now) }
{
    let Catalogue { tables, .. } = root.copy(alloc)?;
    let tables = widen_table_at(alloc, tables.into_vec(), table, column, default)?;
    Ok(Catalogue {
        last,
        ahm: root.ahm,
        next: root.next + 1,
        tables: List::new(tables),
    })
}
