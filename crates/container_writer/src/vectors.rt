//! The delete vector of a container.

ghost use Rattle.std.specs.Prelude.{◌≡◌, ◌<◌, ◌^◌, Some, IfOk};
ghost use Rattle.std.specs.List.{All};
ghost use Rattle.common_laws.specs.Causes.{HasCause};
ghost use Rattle.common_laws.specs.Maps.{Contents};
ghost use Rattle.col_disk.specs.Moved.{Moved, Named, NoName};
ghost use Rattle.stored_rows.specs.Held.{HoldsVector};
ghost use Rattle.stored_rows.specs.Listed.{vector_file};
ghost use Rattle.container_writer.specs.Writing.{with_vector};

use catalog_types::Container;
use col_disk::{Disk, DiskFault};
use del_vector::DelVector;
use std::alloc::Global;
use vector_files::greatest_epoch;

/// The entry of a container with another delete vector, whose file of this number is made; where no row is deleted none is listed and
/// no file made.
pub fn write_vector<D: Disk>(
    alloc: Global,
    disk: &mut D,
    entry: Container,
    number: u64,
    vector: &DelVector,
) -> Result<Container, DiskFault>
    requires number { number < 2 ^ 62 }
    requires within { All (λ e. e.position < entry.rows) vector.now.marks }
    ensures entry { IfOk result (λ k. k ≡ with_vector number vector.now.marks entry) }
    ensures held { IfOk result (λ k. (m : Contents) → D.holds disk.new ≡ Some m → HoldsVector m k vector.now.marks) }
    ensures moved { Moved ⟦<D as Disk>⟧ (Named (vector_file number)) NoName disk.old disk.new }
    ensures cause { HasCause DiskFault.Failed (D.faults disk.old) (D.faults disk.new) result }
{
    if vector.count() == 0 {
        return Ok(Container {
            marks: None,
            greatest_mark: 0,
            ..entry
        });
    }
    match vector_files::write(alloc, disk, number, vector) {
        Ok(()) => Ok(Container {
            marks: Some(number),
            greatest_mark: greatest_epoch(vector.marks()),
            ..entry
        }),
        Err(fault) => Err(fault),
    }
}
