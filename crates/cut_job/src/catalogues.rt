//! A catalogue, cut table by table.

ghost use Rattle.std.specs.Prelude.{◌≡◌, ◌≤◌, ◌+◌, ◌++◌, ◌^◌, ◌∷◌, [], sum_by, IfOk, IfErr, OnOk};
ghost use Rattle.std.specs.List.{All};
ghost use Rattle.common_laws.specs.Causes.{HasCause};
ghost use Rattle.col_disk.specs.Moved.{Moved, NoName};
ghost use Rattle.catalog_types.specs.Numbers.{store_count};
ghost use Rattle.catalog_types.specs.Valid.{IsValid};
ghost use Rattle.container_writer.specs.Writing.{DataFrom};
ghost use Rattle.cut_job.specs.Listed.{IsTableBelow, HasLoadable, table_count};
ghost use Rattle.container_cut.specs.Cutting.{Between};
ghost use Rattle.cut_job.specs.Cutting.{CutsTable, CutsTables, CutsCatalogue};
ghost use Rattle.cut_job.specs.Blamed.{BlamesProjections, BlamesInTables};

use crate::projections::{CutProjections, cut_projections};
use catalog_types::{Catalogue, Projection, Table};
use col_disk::{Disk, StoreFault};
use col_value::{Column, List};
use std::alloc::{AllocError, Global};

/// A table, and the next number that is free.
#[derive(Drop)]
struct CutTable {
    table: Table,
    next: u64,
}

fn copy_columns(alloc: Global, columns: &[Column]) -> Result<Vec<Column>, AllocError>
    ensures { IfOk result (λ v. v.items ≡ columns.now) }
{
    let mut out = Vec::with_capacity(alloc, columns.len())?;
    for column in columns {
        out.push(column.copy(alloc)?)?;
    }
    Ok(out)
}

/// The same table with other projections.
fn with_projections(
    alloc: Global,
    t: &Table,
    projections: List<Projection>,
) -> Result<Table, AllocError>
    ensures { IfOk result (λ u. u ≡ record t.now { projections = projections }) }
{
    let name = t.name.copy(alloc)?;
    let columns = List::new(copy_columns(alloc, t.columns.as_slice())?);
    Ok(Table {
        name,
        columns,
        projections,
    })
}

fn cut_table<D: Disk>(
    alloc: Global,
    t: &Table,
    epoch: u64,
    next: u64,
    disk: &mut D,
) -> Result<CutTable, StoreFault>
    requires numbers { next ≤ 2 ^ 62 }
    requires below { IsTableBelow next t.now }
    requires loadable { HasLoadable t.now }
    ensures cut { IfOk result (λ r. Between (CutsTable epoch t.now r.table) (D.holds disk.old) (D.holds disk.new)) }
    ensures next { IfOk result (λ r. (next ≤ r.next) × (r.next ≤ 2 ^ 62)) }
    ensures below { IfOk result (λ r. IsTableBelow r.next r.table) }
    ensures loadable { IfOk result (λ r. HasLoadable r.table) }
    ensures few { IfOk result (λ r. r.next ≤ next + table_count t.now) }
    ensures blamed { IfErr result (BlamesProjections t.now.projections (D.holds disk.old)) }
    ensures moved { Moved ⟦<D as Disk>⟧ (DataFrom next) NoName disk.old disk.new }
    ensures cause { HasCause StoreFault.Disk (D.faults disk.old) (D.faults disk.new) result }
{
    let done = match cut_projections(alloc, t.projections.as_slice(), epoch, next, disk) {
        Ok(done) => done,
        Err(fault) => return Err(fault),
    };
    let CutProjections { entries, next } = done;
    match with_projections(alloc, t, List::new(entries)) {
        Ok(table) => Ok(CutTable { table, next }),
        Err(AllocError) => Err(StoreFault::Memory),
    }
}

fn add(kept: &mut Vec<Table>, table: Table) -> Result<(), AllocError>
    ensures { OnOk result (kept.new.items ≡ kept.old.items ++ table ∷ []) }
{
    kept.push(table)?;
    Ok(())
}

/// Tables, and the next number that is free.
#[derive(Drop)]
struct CutTables {
    tables: Vec<Table>,
    next: u64,
}

fn cut_tables<D: Disk>(
    alloc: Global,
    tables: &[Table],
    epoch: u64,
    next: u64,
    disk: &mut D,
) -> Result<CutTables, StoreFault>
    requires numbers { next ≤ 2 ^ 62 }
    requires below { All (IsTableBelow next) tables.now }
    requires loadable { All HasLoadable tables.now }
    ensures cut { IfOk result (λ r. Between (CutsTables epoch tables.now r.tables.items) (D.holds disk.old) (D.holds disk.new)) }
    ensures next { IfOk result (λ r. (next ≤ r.next) × (r.next ≤ 2 ^ 62)) }
    ensures loadable { IfOk result (λ r. All HasLoadable r.tables.items) }
    ensures few { IfOk result (λ r. r.next ≤ next + sum_by table_count tables.now) }
    ensures blamed { IfErr result (BlamesInTables tables.now (D.holds disk.old)) }
    ensures moved { Moved ⟦<D as Disk>⟧ (DataFrom next) NoName disk.old disk.new }
    ensures cause { HasCause StoreFault.Disk (D.faults disk.old) (D.faults disk.new) result }
{
    let mut kept = Vec::new(alloc);
    let mut free = next;
    for t in tables {
        let done = match cut_table(alloc, t, epoch, free, disk) {
            Ok(done) => done,
            Err(fault) => return Err(fault),
        };
        free = done.next;
        match add(&mut kept, done.table) {
            Ok(()) => {}
            Err(AllocError) => return Err(StoreFault::Memory),
        }
    }
    Ok(CutTables {
        tables: kept,
        next: free,
    })
}

/// The catalogue cut at the least epoch that an up-to-date projection has reached; what is written gets the numbers that are free, and
/// they aren't free in the new one. `Damaged` names a file of a container, or its delete vector, where these hold no rows.
pub fn cut_catalogue<D: Disk>(
    alloc: Global,
    c: &Catalogue,
    disk: &mut D,
) -> Result<Catalogue, StoreFault>
    requires { IsValid c.now }
    ensures cut { IfOk result (λ r. Between (CutsCatalogue c.now r) (D.holds disk.old) (D.holds disk.new)) }
    ensures next { IfOk result (λ r. c.now.next ≤ r.next) }
    ensures few { IfOk result (λ r. r.next ≤ c.now.next + store_count c.now) }
    ensures loadable { IfOk result (λ r. All HasLoadable r.tables) }
    ensures blamed { IfErr result (BlamesInTables c.now.tables (D.holds disk.old)) }
    ensures moved { Moved ⟦<D as Disk>⟧ (DataFrom c.now.next) NoName disk.old disk.new }
    ensures cause { HasCause StoreFault.Disk (D.faults disk.old) (D.faults disk.new) result }
{
    let last = c.least_lge();
    match cut_tables(alloc, c.tables.as_slice(), last, c.next, disk) {
        Ok(done) => Ok(Catalogue {
            last,
            ahm: c.ahm,
            next: done.next,
            tables: List::new(done.tables),
        }),
        Err(fault) => Err(fault),
    }
}
