//! Writing a delete vector.

ghost use Rattle.std.specs.Prelude.{◌≡◌, ◌<◌, ◌^◌, length, Some, OnOk};
ghost use Rattle.std.specs.List.{All};
ghost use Rattle.common_laws.specs.Causes.{HasCause};
ghost use Rattle.common_laws.specs.Maps.{Contents};
ghost use Rattle.catalog_types.specs.declared.catalogue.Container.{Container as Entry};
ghost use Rattle.col_disk.specs.Moved.{Moved, Named, NoName};
ghost use Rattle.stored_rows.specs.Held.{HoldsVector, greatest_epoch};
ghost use Rattle.stored_rows.specs.Listed.{vector_file};

use col_disk::{Disk, DiskFault};
use del_vector::DelVector;
use std::alloc::{AllocError, Global};

/// Makes the file of a vector that isn't empty. After a fault the file is as it was, absent, or holds anything, and no other is touched.
pub fn write<D: Disk>(
    alloc: Global,
    disk: &mut D,
    number: u64,
    vector: &DelVector,
) -> Result<(), DiskFault>
    requires number { number < 2 ^ 62 }
    requires some { 0 < length vector.now.marks }
    ensures held { OnOk result ((m : Contents) → D.holds disk.new ≡ Some m → (k : Entry) → k.marks ≡ Some number → All (λ e. e.position < k.rows) vector.now.marks → greatest_epoch vector.now.marks ≡ k.greatest_mark → HoldsVector m k vector.now.marks) }
    ensures moved { Moved ⟦<D as Disk>⟧ (Named (vector_file number)) NoName disk.old disk.new }
    ensures cause { HasCause DiskFault.Failed (D.faults disk.old) (D.faults disk.new) result }
{
    match vector.to_bytes(alloc) {
        Ok(bytes) => disk.write(4 * number, bytes.as_slice()),
        Err(AllocError) => Err(DiskFault::Memory),
    }
}
