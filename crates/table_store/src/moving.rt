//! A catalogue in which one entry is another.

ghost use Rattle.std.specs.Prelude.{◌≡◌, ◌<◌, ◌^◌, length, IfOk, IsSomeAnd};
ghost use Rattle.std.specs.List.{slice_get};
ghost use Rattle.sound_laws.specs.Moves.{change_at};
ghost use Rattle.table_store.specs.Moving.{with_entry, with_entry_at};

use catalog_types::{Catalogue, Projection, Table, copy_proj_columns};
use col_value::{List, Name};
use std::alloc::{AllocError, Global};

/// The same entry once more.
pub fn entry_copy(alloc: Global, entry: &Projection) -> Result<Projection, AllocError>
    ensures { IfOk result (λ p. p ≡ entry.now) }
{
    let name = entry.name.copy(alloc)?;
    let columns = List::new(copy_proj_columns(alloc, entry.columns.as_slice())?);
    let sort = List::new(Vec::from_slice(alloc, entry.sort.as_slice())?);
    let containers = List::new(Vec::from_slice(alloc, entry.containers.as_slice())?);
    Ok(Projection {
        name,
        columns,
        sort,
        fresh: entry.fresh,
        lge: entry.lge,
        born: entry.born,
        containers,
    })
}

/// A table whose projection at a place has another entry.
fn put_entry(table: Table, place: usize, entry: Projection) -> Table
    requires { place < length table.projections }
    ensures { result ≡ with_entry place entry table }
{
    let Table {
        name,
        columns,
        projections,
    } = table;
    let mut projections = projections.into_vec();
    projections[place] = entry;
    Table {
        name,
        columns,
        projections: List::new(projections),
    }
}

/// A table to stand where another is taken from.
pub fn no_table(alloc: Global) -> Table {
    Table {
        name: Name::new(Vec::new(alloc)),
        columns: List::new(Vec::new(alloc)),
        projections: List::new(Vec::new(alloc)),
    }
}

/// Tables in which a projection of one has another entry.
fn put_entry_at(
    alloc: Global,
    tables: Vec<Table>,
    table: usize,
    place: usize,
    entry: Projection,
) -> Vec<Table>
    requires { IsSomeAnd (slice_get tables.items table) (λ t. place < length t.projections) }
    ensures { result.items ≡ change_at table (with_entry place entry) tables.items }
{
    let mut tables = tables;
    let old = std::mem::replace(&mut tables[table], no_table(alloc));
    tables[table] = put_entry(old, place, entry);
    tables
}

/// The catalogue with another entry at a place of a table, whose version is the number before its next one.
pub fn with_entry_at(
    alloc: Global,
    root: Catalogue,
    last: u64,
    version: u64,
    table: usize,
    place: usize,
    entry: Projection,
) -> Catalogue
    requires there { IsSomeAnd (slice_get root.tables table) (λ t. place < length t.projections) }
    requires version { version < 2 ^ 62 }
    ensures { result ≡ with_entry_at last version table place entry root }
{
    let Catalogue { ahm, tables, .. } = root;
    let tables = put_entry_at(alloc, tables.into_vec(), table, place, entry);
    Catalogue {
        last,
        ahm,
        next: version + 1,
        tables: List::new(tables),
    }
}
