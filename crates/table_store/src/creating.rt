//! What a new table is in the catalogue.

ghost use Rattle.std.specs.Prelude.{◌≡◌, ◌≤◌, ◌<◌, ◌^◌, ◌∷◌, [], map, length, IfOk};
ghost use Rattle.std.specs.List.{All, enumerate_from, insert};
ghost use Rattle.std.specs.Ordering.{is_lt, nat_cmp};
ghost use Rattle.std.specs.Cmp.Lexicographic.{slice_cmp};
ghost use Rattle.db_model.specs.Database.{super_name};
ghost use Rattle.table_store.specs.Creating.{whole_column, first_entry, first_table, place_of, with_table};

use catalog_types::{Catalogue, ProjColumn, Projection, Table};
use col_value::{Column, Encoding, List, Name};
use std::alloc::{AllocError, Global};

/// What the projection of all columns of a table is called.
pub fn projection_name(alloc: Global, name: &Name) -> Result<Name, AllocError>
    ensures { IfOk result (λ n. n ≡ super_name name.now) }
{
    let mut bytes = Vec::from_slice(alloc, name.as_slice())?;
    bytes.extend_from_slice(b"_super")?;
    Ok(Name::new(bytes))
}

fn whole_columns(alloc: Global, columns: &[Column]) -> Result<Vec<ProjColumn>, AllocError>
    ensures { IfOk result (λ v. v.items ≡ map whole_column (enumerate_from 0 columns.now)) }
{
    columns
        .iter()
        .enumerate()
        .map(|(ordinal, _)| ProjColumn {
            ordinal,
            encoding: Encoding::Auto,
            default: None,
        })
        .collect(alloc)
}

fn all_places(alloc: Global, columns: &[Column]) -> Result<Vec<usize>, AllocError>
    ensures { IfOk result (λ v. v.items ≡ map (λ e. e.0) (enumerate_from 0 columns.now)) }
{
    columns
        .iter()
        .enumerate()
        .map(|(place, _)| place)
        .collect(alloc)
}

/// The entry of the projection of all columns, without rows.
pub fn first_entry(
    alloc: Global,
    name: Name,
    columns: &[Column],
    last: u64,
) -> Result<Projection, AllocError>
    ensures entry { IfOk result (λ p. p ≡ first_entry name columns.now last) }
    ensures sorted { IfOk result (λ p. All (λ i. i < length p.columns) p.sort) }
{
    let parts = whole_columns(alloc, columns)?;
    let sort = all_places(alloc, columns)?;
    Ok(Projection {
        name,
        columns: List::new(parts),
        sort: List::new(sort),
        fresh: true,
        lge: last,
        born: 0,
        containers: List::new(Vec::new(alloc)),
    })
}

/// The entry of a new table.
pub fn first_table(
    alloc: Global,
    name: Name,
    columns: List<Column>,
    last: u64,
) -> Result<Table, AllocError>
    ensures { IfOk result (λ t. t ≡ first_table name columns last) }
{
    let projection = projection_name(alloc, &name)?;
    let entry = first_entry(alloc, projection, columns.as_slice(), last)?;
    let mut projections = Vec::with_capacity(alloc, 1)?;
    projections.push(entry)?;
    Ok(Table {
        name,
        columns,
        projections: List::new(projections),
    })
}

pub fn is_before(name: &Name, other: &Name) -> bool
    ensures { result ≡ is_lt (slice_cmp nat_cmp name.now other.now) }
{
    name.as_slice().cmp(&other.as_slice()).is_lt()
}

/// The place of a table of this name among tables in the order of their names.
pub fn place_for(tables: &[Table], name: &Name) -> usize
    ensures place { result ≡ place_of name.now (map (λ t. t.name) tables.now) }
    ensures within { result ≤ length tables.now }
{
    let mut place = 0;
    for table in tables {
        if is_before(name, &table.name) {
            return place;
        }
        place += 1;
    }
    place
}

/// The catalogue with one table more.
pub fn with_table(
    alloc: Global,
    root: &Catalogue,
    last: u64,
    place: usize,
    table: Table,
) -> Result<Catalogue, AllocError>
    requires place { place ≤ length root.now.tables }
    requires next { root.now.next < 2 ^ 62 }
    ensures { IfOk result (λ c. c ≡ with_table last place table root.now) }
{
    let Catalogue { tables, .. } = root.copy(alloc)?;
    let mut tables = tables.into_vec();
    tables.insert(place, table)?;
    Ok(Catalogue {
        last,
        ahm: root.ahm,
        next: root.next + 1,
        tables: List::new(tables),
    })
}
