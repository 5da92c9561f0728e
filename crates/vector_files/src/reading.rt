//! Reading a delete vector.

ghost use Rattle.std.specs.Prelude.{◌≡◌, ◌≢◌, ◌<◌, ◌^◌, Some, Err, IfOk, IfErr, IfSome};
ghost use Rattle.std.specs.List.{All};
ghost use Rattle.common_laws.specs.Causes.{HasCause};
ghost use Rattle.common_laws.specs.Maps.{Contents};
ghost use Rattle.col_disk.specs.Moved.{Moved, Looks, NoName};
ghost use Rattle.del_vector.specs.Spelling.{spelling};
ghost use Rattle.stored_rows.specs.Held.{HoldsVector, HoldsVectorAt, IsVectorOf};
ghost use Rattle.stored_rows.specs.Listed.{vector_file};
ghost use Rattle.vector_files.specs.Blamed.{IsNoVector, BlamesBytes, BlamesNumber, BlamesVector};

use crate::fitting::fit;
use catalog_types::Container;
use col_disk::{Disk, StoreFault, read_whole};
use del_vector::{DelVector, one_vector};
use std::alloc::{AllocError, Global};

/// The vector that the bytes of a file spell.
fn vector_in(
    alloc: Global,
    bytes: &[u8],
    entry: &Container,
    number: u64,
) -> Result<DelVector, StoreFault>
    requires { number < 2 ^ 62 }
    ensures found { IfOk result (λ v. IsVectorOf entry.now v.marks × (bytes.now ≡ spelling v.marks)) }
    ensures blamed { IfErr result (BlamesBytes entry.now number bytes.now) }
    ensures no_cause { result ≢ Err StoreFault.Disk }
{
    match DelVector::from_bytes(alloc, bytes) {
        Ok(Some(vector)) => {
            if fit(entry, vector.marks()) {
                Ok(vector)
            } else {
                one_vector();
                Err(StoreFault::Damaged(4 * number))
            }
        }
        Ok(None) => Err(StoreFault::Damaged(4 * number)),
        Err(AllocError) => Err(StoreFault::Memory),
    }
}

/// The vector in the file of a number.
fn read_number<D: Disk>(
    alloc: Global,
    disk: &mut D,
    entry: &Container,
    number: u64,
) -> Result<DelVector, StoreFault>
    requires { number < 2 ^ 62 }
    ensures found { IfOk result (λ v. (m : Contents) → D.holds disk.old ≡ Some m → HoldsVectorAt m entry.now (Some number) v.marks) }
    ensures within { IfOk result (λ v. All (λ e. e.position < entry.now.rows) v.marks) }
    ensures blamed { IfErr result (BlamesNumber entry.now number (D.holds disk.old)) }
    ensures looks { Looks ⟦<D as Disk>⟧ disk.old disk.new }
    ensures kept { D.holds disk.new ≡ D.holds disk.old }
    ensures moved { Moved ⟦<D as Disk>⟧ NoName NoName disk.old disk.new }
    ensures cause { HasCause StoreFault.Disk (D.faults disk.old) (D.faults disk.new) result }
{
    match read_whole(alloc, disk, 4 * number) {
        Ok(Some(bytes)) => vector_in(alloc, bytes.as_slice(), entry, number),
        Ok(None) => Err(StoreFault::Damaged(4 * number)),
        Err(fault) => Err(StoreFault::from(fault)),
    }
}

/// The delete vector of a container; where its entry lists none, no position is deleted. `Damaged` names the file of the vector where
/// that is absent or spells none, where a position isn't one of the container's, or where the greatest epoch isn't the entry's.
pub fn read<D: Disk>(
    alloc: Global,
    disk: &mut D,
    entry: &Container,
) -> Result<DelVector, StoreFault>
    requires { IfSome entry.now.marks (λ n. n < 2 ^ 62) }
    ensures found { IfOk result (λ v. (m : Contents) → D.holds disk.old ≡ Some m → HoldsVector m entry.now v.marks) }
    ensures within { IfOk result (λ v. All (λ e. e.position < entry.now.rows) v.marks) }
    ensures blamed { IfErr result (BlamesVector entry.now (D.holds disk.old)) }
    ensures looks { Looks ⟦<D as Disk>⟧ disk.old disk.new }
    ensures kept { D.holds disk.new ≡ D.holds disk.old }
    ensures moved { Moved ⟦<D as Disk>⟧ NoName NoName disk.old disk.new }
    ensures cause { HasCause StoreFault.Disk (D.faults disk.old) (D.faults disk.new) result }
{
    match entry.marks {
        Some(number) => read_number(alloc, disk, entry, number),
        None => Ok(DelVector::new(alloc)),
    }
}
