//! Reading the delete vectors of a projection.

ghost use Rattle.std.specs.Prelude.{◌≡◌, ◌<◌, ◌^◌, Some, map, IfOk, IfErr, IfSome};
ghost use Rattle.std.specs.List.{All, AllZip};
ghost use Rattle.common_laws.specs.Causes.{HasCause};
ghost use Rattle.common_laws.specs.Maps.{Contents};
ghost use Rattle.col_disk.specs.Moved.{Looks, Moved, NoName};
ghost use Rattle.stored_rows.specs.Stored.{IsUnmarked};
ghost use Rattle.proj_store.specs.Loaded.{beside_of};
ghost use Rattle.proj_store.specs.Sound.{MarksItsRows, HasVectorNumber};
ghost use Rattle.proj_store.specs.Reading.{BlamesLoad};

use crate::kept::Kept;
use catalog_types::Container;
use col_disk::{Disk, StoreFault};
use std::alloc::Global;

/// What is kept of each container: its delete vector, and no mark besides.
pub fn load_each<D: Disk>(
    alloc: Global,
    disk: &mut D,
    containers: &[Container],
) -> Result<Vec<Kept>, StoreFault>
    requires { All HasVectorNumber containers.now }
    ensures found { IfOk result (λ v. (m : Contents) → D.holds disk.old ≡ Some m → AllZip (IsUnmarked m) containers.now (map beside_of v.items)) }
    ensures inside { IfOk result (λ v. AllZip MarksItsRows containers.now (map beside_of v.items)) }
    ensures blamed { IfErr result (BlamesLoad containers.now (D.holds disk.old)) }
    ensures looks { Looks ⟦<D as Disk>⟧ disk.old disk.new }
    ensures cause { HasCause StoreFault.Disk (D.faults disk.old) (D.faults disk.new) result }
{
    let mut kept = Vec::new(alloc);
    for container in containers {
        let held = match vector_files::read(alloc, disk, container) {
            Ok(held) => held,
            Err(fault) => return Err(fault),
        };
        let fresh = Vec::new(alloc);
        match kept.push(Kept { held, fresh }) {
            Ok(()) => {}
            Err(_) => return Err(StoreFault::Memory),
        }
    }
    Ok(kept)
}
