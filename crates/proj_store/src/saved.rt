//! Reading the rows of a projection's containers.

ghost use Rattle.std.specs.Prelude.{◌≡◌, ◌++◌, Some, length, map, IfOk, IfErr, OnOk};
ghost use Rattle.common_laws.specs.Causes.{HasCause};
ghost use Rattle.common_laws.specs.Maps.{Contents};
ghost use Rattle.col_disk.specs.Moved.{Moved, NoName};
ghost use Rattle.ros_container.specs.Encodings.{written_of};
ghost use Rattle.ros_container.specs.Held.{BlamesContainer};
ghost use Rattle.stored_rows.specs.Stored.{mark_in};
ghost use Rattle.write_store.specs.Memory.{stamp};
ghost use Rattle.wanted_rows.specs.Picked.{asked_of};
ghost use Rattle.proj_store.specs.Loaded.{beside_of};
ghost use Rattle.proj_store.specs.Sound.{MarksItsRows, IsSound};
ghost use Rattle.ros_container.specs.Readable.{IsReadable};
ghost use Rattle.proj_store.specs.Reading.{BlamesRows, ReadsContainer, ReadsEach};

use crate::kept::Kept;
use catalog_types::{Container, Projection};
use col_disk::{Disk, StoreFault};
use col_value::Stamped;
use std::alloc::{AllocError, Global};
use write_store::Held;

/// The rows of one container, each with the epoch that deletes it.
pub fn read_rows<D: Disk>(
    alloc: Global,
    disk: &mut D,
    entry: &Projection,
    container: &Container,
    kept: &Kept,
) -> Result<Vec<Held>, StoreFault>
    requires numbers { IsReadable entry.now.columns container.now }
    requires kept { MarksItsRows container.now (beside_of kept.now) }
    ensures found { IfOk result (λ v. (m : Contents) → D.holds disk.old ≡ Some m → ReadsContainer m (written_of entry.now) container.now (mark_in (beside_of kept.now)) v.items) }
    ensures long { IfOk result (λ v. length (asked_of v.items) ≡ container.now.rows) }
    ensures blamed { IfErr result (BlamesContainer (written_of entry.now) container.now (D.holds disk.old)) }
    ensures kept { D.holds disk.new ≡ D.holds disk.old }
    ensures moved { Moved ⟦<D as Disk>⟧ NoName NoName disk.old disk.new }
    ensures cause { HasCause StoreFault.Disk (D.faults disk.old) (D.faults disk.new) result }
{
    let rows = match ros_container::rows(alloc, disk, container, entry) {
        Ok(rows) => rows,
        Err(fault) => return Err(fault),
    };
    match kept.stamp(alloc, rows) {
        Ok(stamped) => Ok(stamped),
        Err(AllocError) => Err(StoreFault::Memory),
    }
}

/// Appends rows with their epochs.
fn add_rows(alloc: Global, out: &mut Vec<Stamped>, rows: Vec<Held>) -> Result<(), AllocError>
    ensures { OnOk result (out.new.items ≡ out.old.items ++ map stamp rows.items) }
{
    let mut stamped: Vec<Stamped> = rows
        .into_iter()
        .map(|row| row.into_stamped())
        .collect(alloc)?;
    out.append(&mut stamped)
}

/// The rows of all containers, one container after the other.
pub fn saved_rows<D: Disk>(
    alloc: Global,
    disk: &mut D,
    entry: &Projection,
    kept: &[Kept],
) -> Result<Vec<Stamped>, StoreFault>
    requires { IsSound entry.now (map beside_of kept.now) }
    ensures found { IfOk result (λ v. (m : Contents) → D.holds disk.old ≡ Some m → ReadsEach m (written_of entry.now) entry.now.containers (map beside_of kept.now) v.items) }
    ensures blamed { IfErr result (BlamesRows entry.now (D.holds disk.old)) }
    ensures kept { D.holds disk.new ≡ D.holds disk.old }
    ensures moved { Moved ⟦<D as Disk>⟧ NoName NoName disk.old disk.new }
    ensures cause { HasCause StoreFault.Disk (D.faults disk.old) (D.faults disk.new) result }
{
    let containers = entry.containers.as_slice();
    let mut out = Vec::new(alloc);
    for (i, container) in containers.iter().enumerate() {
        let rows = match read_rows(alloc, disk, entry, container, &kept[i]) {
            Ok(rows) => rows,
            Err(fault) => return Err(fault),
        };
        match add_rows(alloc, &mut out, rows) {
            Ok(()) => {}
            Err(AllocError) => return Err(StoreFault::Memory),
        }
    }
    Ok(out)
}
