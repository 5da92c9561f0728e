//! The files of a container, judged.

ghost use Rattle.std.specs.Prelude.{◌≡◌, ◌<◌, ◌+◌, ◌*◌, ◌^◌, map, Some, IfSome};
ghost use Rattle.std.specs.List.{flat_map, range_with_len};
ghost use Rattle.common_laws.specs.Causes.{HasCause};
ghost use Rattle.col_disk.specs.Moved.{Moved, NoName};
ghost use Rattle.audit_model.specs.Listed.{file, vector_parts};
ghost use Rattle.audit_files.specs.Walks.{column_files, container_files, IsNamed, Judges};

use crate::columns::judge_column;
use crate::stored::StoredColumn;
use catalog_types::{Container, Projection};
use col_disk::{Disk, StoreFault};
use std::alloc::Global;

/// Judges the columns of a projection that a container stores.
fn judge_columns<D: Disk>(
    alloc: Global,
    disk: &mut D,
    shape: &Projection,
    entry: &Container,
) -> Result<(), StoreFault>
    requires { entry.now.base + 2 * entry.now.stored + 1 < 2 ^ 62 }
    ensures judged { Judges (D.holds disk.old) (flat_map (column_files shape.now entry.now) (range_with_len 0 entry.now.stored)) result }
    ensures kept { D.holds disk.new ≡ D.holds disk.old }
    ensures moved { Moved ⟦<D as Disk>⟧ NoName NoName disk.old disk.new }
    ensures cause { HasCause StoreFault.Disk (D.faults disk.old) (D.faults disk.new) result }
{
    for i in 0..entry.stored as usize {
        match judge_column(alloc, disk, shape, entry, StoredColumn::Column(i)) {
            Ok(()) => {}
            Err(fault) => return Err(fault),
        }
    }
    Ok(())
}

/// Judges the delete vector of a container, if one is listed.
fn judge_vector<D: Disk>(
    alloc: Global,
    disk: &mut D,
    shape: &Projection,
    entry: &Container,
) -> Result<(), StoreFault>
    requires { IfSome entry.now.marks (λ n. n < 2 ^ 62) }
    ensures judged { Judges (D.holds disk.old) (map (file shape.now entry.now) (vector_parts entry.now.marks)) result }
    ensures kept { D.holds disk.new ≡ D.holds disk.old }
    ensures moved { Moved ⟦<D as Disk>⟧ NoName NoName disk.old disk.new }
    ensures cause { HasCause StoreFault.Disk (D.faults disk.old) (D.faults disk.new) result }
{
    let _vector = match vector_files::read(alloc, disk, entry) {
        Ok(vector) => vector,
        Err(fault) => return Err(fault),
    };
    Ok(())
}

/// Judges the files of a container: its columns, the epochs, and the delete vector.
pub fn judge_container<D: Disk>(
    alloc: Global,
    disk: &mut D,
    shape: &Projection,
    entry: &Container,
) -> Result<(), StoreFault>
    requires { IsNamed entry.now }
    ensures judged { Judges (D.holds disk.old) (container_files shape.now entry.now) result }
    ensures kept { D.holds disk.new ≡ D.holds disk.old }
    ensures moved { Moved ⟦<D as Disk>⟧ NoName NoName disk.old disk.new }
    ensures cause { HasCause StoreFault.Disk (D.faults disk.old) (D.faults disk.new) result }
{
    match judge_columns(alloc, disk, shape, entry) {
        Ok(()) => {}
        Err(fault) => return Err(fault),
    }
    match judge_column(alloc, disk, shape, entry, StoredColumn::Epochs) {
        Ok(()) => {}
        Err(fault) => return Err(fault),
    }
    judge_vector(alloc, disk, shape, entry)
}
