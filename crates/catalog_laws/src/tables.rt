//! A table by itself.

ghost use Rattle.std.specs.Prelude.{◌≡◌, ◌<◌, get_or, length, IfOk};
ghost use Rattle.catalog_types.specs.Valid.{IsValid};
ghost use Rattle.catalog_laws.specs.Going.{alone};
ghost use Rattle.catalog_types.specs.declared.catalogue.Table.{Table as Listed};

use catalog_types::{Catalogue, Table};
use col_value::{List, Name};
use std::alloc::{AllocError, Global};

/// The same table, which is valid in a catalogue of its own. One that isn't is answered as want of memory.
fn valid_alone(
    alloc: Global,
    last: u64,
    ahm: u64,
    next: u64,
    table: Table,
) -> Result<Table, AllocError>
    ensures same { IfOk result (λ t. t ≡ table) }
    ensures valid { IfOk result (λ t. IsValid (alone last ahm next table)) }
{
    let mut tables = Vec::with_capacity(alloc, 1)?;
    tables.push(table)?;
    let catalogue = Catalogue {
        last,
        ahm,
        next,
        tables: List::new(tables),
    };
    if !catalogue.valid() {
        return Err(AllocError);
    }
    let Catalogue { tables, .. } = catalogue;
    let mut tables = tables.into_vec();
    match tables.pop() {
        Some(table) => Ok(table),
        None => Err(AllocError),
    }
}

/// A table to stand where another is taken from.
fn no_table(alloc: Global) -> Table {
    Table {
        name: Name::new(Vec::new(alloc)),
        columns: List::new(Vec::new(alloc)),
        projections: List::new(Vec::new(alloc)),
    }
}

/// The same catalogue, whose table at a place is valid by itself. Where it isn't, that is answered as want of memory.
pub fn valid_at(alloc: Global, catalogue: Catalogue, place: usize) -> Result<Catalogue, AllocError>
    requires { place < length catalogue.tables }
    ensures same { IfOk result (λ c. c ≡ catalogue) }
    ensures valid { IfOk result (λ c. (t : Listed) → t ≡ get_or catalogue.tables place t → IsValid (alone catalogue.last catalogue.ahm catalogue.next t)) }
{
    let Catalogue {
        last,
        ahm,
        next,
        tables,
    } = catalogue;
    let mut tables = tables.into_vec();
    let table = std::mem::replace(&mut tables[place], no_table(alloc));
    tables[place] = valid_alone(alloc, last, ahm, next, table)?;
    Ok(Catalogue {
        last,
        ahm,
        next,
        tables: List::new(tables),
    })
}
