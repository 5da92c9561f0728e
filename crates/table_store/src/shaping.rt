//! A catalogue in which a table has one projection more, or one less.

ghost use Rattle.std.specs.Prelude.{◌≡◌, ◌≤◌, ◌<◌, ◌^◌, length, map, IfOk, IsSomeAnd};
ghost use Rattle.std.specs.List.{slice_get};
ghost use Rattle.sound_laws.specs.Moves.{change_at};
ghost use Rattle.table_store.specs.Creating.{place_of};
ghost use Rattle.table_store.specs.Shaping.{new_entry, with_projection, with_projection_at, without_projection, without_projection_at};

use crate::creating::is_before;
use crate::moving::no_table;
use catalog_types::{Catalogue, ProjColumn, Projection, Table};
use col_value::{List, Name};
use std::alloc::{AllocError, Global};

/// A projection without rows: which of its table's columns it has, by which of these it is sorted, and whether it is up to date.
#[derive(Drop)]
pub struct NewProjection {
    pub name: Name,
    pub columns: List<ProjColumn>,
    pub sort: List<usize>,
    pub fresh: bool,
}

/// The entry of a new projection, which has all rows up to an epoch if it is up to date.
pub fn new_entry(alloc: Global, projection: NewProjection, last: u64) -> Projection
    ensures { result ≡ new_entry projection last }
{
    let NewProjection {
        name,
        columns,
        sort,
        fresh,
    } = projection;
    Projection {
        name,
        columns,
        sort,
        fresh,
        lge: if fresh { last } else { 0 },
        born: 0,
        containers: List::new(Vec::new(alloc)),
    }
}

/// The place of a projection of this name among projections in the order of their names.
pub fn place_among(projections: &[Projection], name: &Name) -> usize
    ensures place { result ≡ place_of name.now (map (λ p. p.name) projections.now) }
    ensures within { result ≤ length projections.now }
{
    let mut place = 0;
    for projection in projections {
        if is_before(name, &projection.name) {
            return place;
        }
        place += 1;
    }
    place
}

/// A table with one projection more.
fn add_entry(table: Table, place: usize, entry: Projection) -> Result<Table, AllocError>
    requires { place ≤ length table.projections }
    ensures { IfOk result (λ t. t ≡ with_projection place entry table) }
{
    let Table {
        name,
        columns,
        projections,
    } = table;
    let mut projections = projections.into_vec();
    projections.insert(place, entry)?;
    Ok(Table {
        name,
        columns,
        projections: List::new(projections),
    })
}

/// Tables of which one has one projection more.
fn add_entry_at(
    alloc: Global,
    tables: Vec<Table>,
    table: usize,
    place: usize,
    entry: Projection,
) -> Result<Vec<Table>, AllocError>
    requires { IsSomeAnd (slice_get tables.items table) (λ t. place ≤ length t.projections) }
    ensures { IfOk result (λ v. v.items ≡ change_at table (with_projection place entry) tables.items) }
{
    let mut tables = tables;
    let old = std::mem::replace(&mut tables[table], no_table(alloc));
    tables[table] = add_entry(old, place, entry)?;
    Ok(tables)
}

/// The catalogue with one projection more.
pub fn with_projection_at(
    alloc: Global,
    root: &Catalogue,
    last: u64,
    table: usize,
    place: usize,
    entry: Projection,
) -> Result<Catalogue, AllocError>
    requires there { IsSomeAnd (slice_get root.now.tables table) (λ t. place ≤ length t.projections) }
    requires next { root.now.next < 2 ^ 62 }
    ensures { IfOk result (λ c. c ≡ with_projection_at last table place entry root.now) }
{
    let Catalogue { tables, .. } = root.copy(alloc)?;
    let tables = add_entry_at(alloc, tables.into_vec(), table, place, entry)?;
    Ok(Catalogue {
        last,
        ahm: root.ahm,
        next: root.next + 1,
        tables: List::new(tables),
    })
}

/// A table with one projection less.
fn take_entry(table: Table, place: usize) -> Table
    requires { place < length table.projections }
    ensures { result ≡ without_projection place table }
{
    let Table {
        name,
        columns,
        projections,
    } = table;
    let mut projections = projections.into_vec();
    projections.remove(place);
    Table {
        name,
        columns,
        projections: List::new(projections),
    }
}

/// Tables of which one has one projection less.
fn take_entry_at(alloc: Global, tables: Vec<Table>, table: usize, place: usize) -> Vec<Table>
    requires { IsSomeAnd (slice_get tables.items table) (λ t. place < length t.projections) }
    ensures { result.items ≡ change_at table (without_projection place) tables.items }
{
    let mut tables = tables;
    let old = std::mem::replace(&mut tables[table], no_table(alloc));
    tables[table] = take_entry(old, place);
    tables
}

/// The catalogue with one projection less.
pub fn without_projection_at(
    alloc: Global,
    root: &Catalogue,
    last: u64,
    table: usize,
    place: usize,
) -> Result<Catalogue, AllocError>
    requires there { IsSomeAnd (slice_get root.now.tables table) (λ t. place < length t.projections) }
    requires next { root.now.next < 2 ^ 62 }
    ensures { IfOk result (λ c. c ≡ without_projection_at last table place root.now) }
{
    let Catalogue { tables, .. } = root.copy(alloc)?;
    let tables = take_entry_at(alloc, tables.into_vec(), table, place);
    Ok(Catalogue {
        last,
        ahm: root.ahm,
        next: root.next + 1,
        tables: List::new(tables),
    })
}
