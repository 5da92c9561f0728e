ghost use Rattle.std.specs.Prelude.{◌≡◌, IfOk, OnOk};
ghost use Rattle.common_laws.specs.Causes.{HasCause};
ghost use Rattle.col_disk.specs.Calls.{AnswersWhole};
ghost use Rattle.col_disk.specs.Moved.{Looks, Moved, NoName};

use crate::{Disk, DiskFault};
use std::alloc::Global;

/// All bytes of the name, or None where it is absent.
pub fn read_whole<D: Disk>(
    alloc: Global,
    disk: &mut D,
    name: u64,
) -> Result<Option<Vec<u8>>, DiskFault>
    ensures answer { IfOk result (AnswersWhole name (D.holds disk.old)) }
    ensures kept { D.holds disk.new ≡ D.holds disk.old }
    ensures looks { Looks ⟦<D as Disk>⟧ disk.old disk.new }
    ensures moved { Moved ⟦<D as Disk>⟧ NoName NoName disk.old disk.new }
    ensures cause { HasCause DiskFault.Failed (D.faults disk.old) (D.faults disk.new) result }
    ensures unfailed { OnOk result (D.faults disk.new ≡ D.faults disk.old) }
{
    match disk.size(name)? {
        Some(len) => disk.read(alloc, name, 0, len as usize),
        None => Ok(None),
    }
}
