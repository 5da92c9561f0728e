//! The rows of a catalogue's projections, judged in their order.

ghost use Rattle.std.specs.Prelude.{◌≡◌, ◌∷◌, [], length, IfOk};
ghost use Rattle.std.specs.List.{All, flat_map, range_with_len};
ghost use Rattle.common_laws.specs.Causes.{HasCause};
ghost use Rattle.col_disk.specs.Moved.{Moved, NoName};
ghost use Rattle.catalog_types.specs.Valid.{IsValid};
ghost use Rattle.ros_container.specs.Readable.{IsReadable};
ghost use Rattle.audit_model.specs.Judging.{JudgesRows};
ghost use Rattle.audit_model.specs.Listed.{place, places_in, places_of};
ghost use Rattle.audit_model.specs.declared.verdict.Verdict.TheVariants.{BadRow as IsBadRow};
ghost use Rattle.audit_rows.specs.Found.{AreReadable, Finds};

use crate::searching::bad_in_container;
use audit_model::{AuditFault, Verdict};
use catalog_types::{Catalogue, Container, Projection, Table};
use col_disk::{Disk, StoreFault};
use std::alloc::{AllocError, Global};

/// The numbers of so many columns.
fn all_columns(alloc: Global, count: usize) -> Result<Vec<usize>, AllocError>
    ensures { IfOk result (λ v. v.items ≡ range_with_len 0 count) }
{
    let mut columns = Vec::with_capacity(alloc, count)?;
    for column in 0..count {
        columns.push(column)?;
    }
    Ok(columns)
}

/// The verdict that a row is bad.
fn bad_row(
    alloc: Global,
    table: &Table,
    shape: &Projection,
    container: &Container,
    pos: u64,
) -> Result<Verdict, AllocError>
    ensures { IfOk result (λ v. v ≡ IsBadRow table.now.name shape.now.name container.now.base pos) }
{
    let table = table.name.copy(alloc)?;
    let projection = shape.name.copy(alloc)?;
    Ok(Verdict::BadRow {
        table,
        projection,
        base: container.base,
        pos,
    })
}

/// The verdict that a row of a container is bad. A file is blamed only where not each is its spelling.
fn judge_container<D: Disk>(
    alloc: Global,
    disk: &mut D,
    table: &Table,
    shape: &Projection,
    container: &Container,
    columns: &[usize],
    epoch: u64,
    mark: u64,
) -> Result<Option<Verdict>, AuditFault>
    requires readable { IsReadable shape.now.columns container.now }
    requires columns { columns.now ≡ range_with_len 0 (length shape.now.columns) }
    ensures judged { IfOk result (Finds (D.holds disk.old) epoch mark (place table.now shape.now container.now ∷ [])) }
    ensures kept { D.holds disk.new ≡ D.holds disk.old }
    ensures moved { Moved ⟦<D as Disk>⟧ NoName NoName disk.old disk.new }
    ensures cause { HasCause AuditFault.Disk (D.faults disk.old) (D.faults disk.new) result }
{
    match bad_in_container(alloc, disk, table, shape, container, columns, epoch, mark) {
        Ok(None) => Ok(None),
        Ok(Some(pos)) => match bad_row(alloc, table, shape, container, pos) {
            Ok(verdict) => Ok(Some(verdict)),
            Err(AllocError) => Err(AuditFault::Memory),
        },
        Err(StoreFault::Damaged(name)) => Ok(Some(Verdict::File(name))),
        Err(StoreFault::Disk) => Err(AuditFault::Disk),
        Err(StoreFault::Memory) => Err(AuditFault::Memory),
    }
}

/// The verdict that a row of a projection is bad.
fn judge_projection<D: Disk>(
    alloc: Global,
    disk: &mut D,
    table: &Table,
    shape: &Projection,
    epoch: u64,
    mark: u64,
) -> Result<Option<Verdict>, AuditFault>
    requires { AreReadable shape.now }
    ensures judged { IfOk result (Finds (D.holds disk.old) epoch mark (places_in table.now shape.now)) }
    ensures kept { D.holds disk.new ≡ D.holds disk.old }
    ensures moved { Moved ⟦<D as Disk>⟧ NoName NoName disk.old disk.new }
    ensures cause { HasCause AuditFault.Disk (D.faults disk.old) (D.faults disk.new) result }
{
    let columns = match all_columns(alloc, shape.columns.as_slice().len()) {
        Ok(columns) => columns,
        Err(AllocError) => return Err(AuditFault::Memory),
    };
    let columns = columns.as_slice();
    let containers = shape.containers.as_slice();
    for container in containers {
        match judge_container(alloc, disk, table, shape, container, columns, epoch, mark) {
            Ok(None) => {}
            Ok(Some(verdict)) => return Ok(Some(verdict)),
            Err(fault) => return Err(fault),
        }
    }
    Ok(None)
}

/// The verdict that a row of a table's projections is bad.
fn judge_table<D: Disk>(
    alloc: Global,
    disk: &mut D,
    table: &Table,
    epoch: u64,
    mark: u64,
) -> Result<Option<Verdict>, AuditFault>
    requires { All AreReadable table.now.projections }
    ensures judged { IfOk result (Finds (D.holds disk.old) epoch mark (places_of table.now)) }
    ensures kept { D.holds disk.new ≡ D.holds disk.old }
    ensures moved { Moved ⟦<D as Disk>⟧ NoName NoName disk.old disk.new }
    ensures cause { HasCause AuditFault.Disk (D.faults disk.old) (D.faults disk.new) result }
{
    let shapes = table.projections.as_slice();
    for shape in shapes {
        match judge_projection(alloc, disk, table, shape, epoch, mark) {
            Ok(None) => {}
            Ok(Some(verdict)) => return Ok(Some(verdict)),
            Err(fault) => return Err(fault),
        }
    }
    Ok(None)
}

/// The verdict that a row of some tables is bad.
fn judge_tables<D: Disk>(
    alloc: Global,
    disk: &mut D,
    tables: &[Table],
    epoch: u64,
    mark: u64,
) -> Result<Option<Verdict>, AuditFault>
    requires { All (λ t. All AreReadable t.projections) tables.now }
    ensures judged { IfOk result (Finds (D.holds disk.old) epoch mark (flat_map places_of tables.now)) }
    ensures kept { D.holds disk.new ≡ D.holds disk.old }
    ensures moved { Moved ⟦<D as Disk>⟧ NoName NoName disk.old disk.new }
    ensures cause { HasCause AuditFault.Disk (D.faults disk.old) (D.faults disk.new) result }
{
    for table in tables {
        match judge_table(alloc, disk, table, epoch, mark) {
            Ok(None) => {}
            Ok(Some(verdict)) => return Ok(Some(verdict)),
            Err(fault) => return Err(fault),
        }
    }
    Ok(None)
}

/// The verdict that a row is bad: the first that doesn't fit its columns or wasn't deleted later than it was inserted, tables, projections
/// and containers as they are listed; None where each is good. Nothing is written or removed.
pub fn judge_rows<D: Disk>(
    alloc: Global,
    disk: &mut D,
    catalogue: &Catalogue,
) -> Result<Option<Verdict>, AuditFault>
    requires { IsValid catalogue.now }
    ensures judged { IfOk result (JudgesRows (D.holds disk.old) catalogue.now) }
    ensures kept { D.holds disk.new ≡ D.holds disk.old }
    ensures moved { Moved ⟦<D as Disk>⟧ NoName NoName disk.old disk.new }
    ensures cause { HasCause AuditFault.Disk (D.faults disk.old) (D.faults disk.new) result }
{
    let tables = catalogue.tables.as_slice();
    judge_tables(alloc, disk, tables, catalogue.least_lge(), catalogue.ahm)
}
