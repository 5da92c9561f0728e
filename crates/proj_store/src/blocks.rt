//! The indexes of a container.

ghost use Rattle.std.specs.Prelude.{◌≡◌, ◌+◌, length, IfOk, IfErr};
ghost use Rattle.std.specs.List.{All};
ghost use Rattle.common_laws.specs.Causes.{HasCause};
ghost use Rattle.col_disk.specs.Moved.{Moved, NoName};
ghost use Rattle.ros_container.specs.Encodings.{written_of};
ghost use Rattle.ros_container.specs.Held.{BlamesContainer};
ghost use Rattle.container_blocks.specs.Blocks.{IsIndexOf};
ghost use Rattle.ros_container.specs.Readable.{IsReadable};
ghost use Rattle.proj_store.specs.Blocks.{HasIndexes};

use catalog_types::{Container, Projection};
use col_disk::{Disk, StoreFault};
use container_blocks::index;
use pos_index::PosIndex;
use std::alloc::Global;

/// The indexes of a container's columns, and behind them that of its epochs.
pub fn indexes_of<D: Disk>(
    alloc: Global,
    disk: &mut D,
    entry: &Projection,
    container: &Container,
) -> Result<Vec<PosIndex>, StoreFault>
    requires numbers { IsReadable entry.now.columns container.now }
    ensures long { IfOk result (λ v. length v.items ≡ length entry.now.columns + 1) }
    ensures fit { IfOk result (λ v. All (IsIndexOf container.now.rows) v.items) }
    ensures held { IfOk result (λ v. HasIndexes (written_of entry.now) container.now (D.holds disk.old) v.items) }
    ensures blamed { IfErr result (BlamesContainer (written_of entry.now) container.now (D.holds disk.old)) }
    ensures kept { D.holds disk.new ≡ D.holds disk.old }
    ensures moved { Moved ⟦<D as Disk>⟧ NoName NoName disk.old disk.new }
    ensures cause { HasCause StoreFault.Disk (D.faults disk.old) (D.faults disk.new) result }
{
    let mut out = Vec::new(alloc);
    for i in 0..entry.columns.as_slice().len() + 1 {
        let at = match index(alloc, disk, container, entry, i) {
            Ok(at) => at,
            Err(fault) => return Err(fault),
        };
        match out.push(at) {
            Ok(()) => {}
            Err(_) => return Err(StoreFault::Memory),
        }
    }
    Ok(out)
}
