//! The files of a catalogue, judged in their order.

ghost use Rattle.std.specs.Prelude.{◌≡◌, IfOk};
ghost use Rattle.std.specs.List.{All, flat_map};
ghost use Rattle.common_laws.specs.Causes.{HasCause};
ghost use Rattle.col_disk.specs.Moved.{Moved, NoName};
ghost use Rattle.catalog_types.specs.Valid.{IsValid};
ghost use Rattle.audit_model.specs.Judging.{JudgesFiles};
ghost use Rattle.audit_files.specs.Walks.{container_files, projection_files, table_files, IsNamed, AreNamed, AreAllNamed, Judges};

use crate::containers::judge_container;
use audit_model::{AuditFault, Verdict};
use catalog_types::{Catalogue, Container, Projection, Table};
use col_disk::{Disk, StoreFault};
use std::alloc::Global;

/// Judges the files of a projection, container by container.
fn judge_containers<D: Disk>(
    alloc: Global,
    disk: &mut D,
    shape: &Projection,
    containers: &[Container],
) -> Result<(), StoreFault>
    requires { All IsNamed containers.now }
    ensures judged { Judges (D.holds disk.old) (flat_map (container_files shape.now) containers.now) result }
    ensures kept { D.holds disk.new ≡ D.holds disk.old }
    ensures moved { Moved ⟦<D as Disk>⟧ NoName NoName disk.old disk.new }
    ensures cause { HasCause StoreFault.Disk (D.faults disk.old) (D.faults disk.new) result }
{
    for container in containers {
        match judge_container(alloc, disk, shape, container) {
            Ok(()) => {}
            Err(fault) => return Err(fault),
        }
    }
    Ok(())
}

/// Judges the files of a table, projection by projection.
fn judge_projections<D: Disk>(
    alloc: Global,
    disk: &mut D,
    shapes: &[Projection],
) -> Result<(), StoreFault>
    requires { All AreNamed shapes.now }
    ensures judged { Judges (D.holds disk.old) (flat_map projection_files shapes.now) result }
    ensures kept { D.holds disk.new ≡ D.holds disk.old }
    ensures moved { Moved ⟦<D as Disk>⟧ NoName NoName disk.old disk.new }
    ensures cause { HasCause StoreFault.Disk (D.faults disk.old) (D.faults disk.new) result }
{
    for shape in shapes {
        match judge_containers(alloc, disk, shape, shape.containers.as_slice()) {
            Ok(()) => {}
            Err(fault) => return Err(fault),
        }
    }
    Ok(())
}

/// Judges the files of all tables.
fn judge_tables<D: Disk>(alloc: Global, disk: &mut D, tables: &[Table]) -> Result<(), StoreFault>
    requires { All AreAllNamed tables.now }
    ensures judged { Judges (D.holds disk.old) (flat_map table_files tables.now) result }
    ensures kept { D.holds disk.new ≡ D.holds disk.old }
    ensures moved { Moved ⟦<D as Disk>⟧ NoName NoName disk.old disk.new }
    ensures cause { HasCause StoreFault.Disk (D.faults disk.old) (D.faults disk.new) result }
{
    for table in tables {
        match judge_projections(alloc, disk, table.projections.as_slice()) {
            Ok(()) => {}
            Err(fault) => return Err(fault),
        }
    }
    Ok(())
}

/// The verdict that a file is to blame, the first that the catalogue lists and that is absent or isn't its spelling; None where each is
/// its spelling. Nothing is written or removed.
pub fn judge_files<D: Disk>(
    alloc: Global,
    disk: &mut D,
    catalogue: &Catalogue,
) -> Result<Option<Verdict>, AuditFault>
    requires { IsValid catalogue.now }
    ensures judged { IfOk result (JudgesFiles (D.holds disk.old) catalogue.now) }
    ensures kept { D.holds disk.new ≡ D.holds disk.old }
    ensures moved { Moved ⟦<D as Disk>⟧ NoName NoName disk.old disk.new }
    ensures cause { HasCause AuditFault.Disk (D.faults disk.old) (D.faults disk.new) result }
{
    match judge_tables(alloc, disk, catalogue.tables.as_slice()) {
        Ok(()) => Ok(None),
        Err(StoreFault::Damaged(name)) => Ok(Some(Verdict::File(name))),
        Err(StoreFault::Disk) => Err(AuditFault::Disk),
        Err(StoreFault::Memory) => Err(AuditFault::Memory),
    }
}
