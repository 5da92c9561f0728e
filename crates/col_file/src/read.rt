//! Reading the index of a column.

ghost use Rattle.std.specs.Prelude.{◌≡◌, ◌≢◌, Err, IfOk, IfErr};
ghost use Rattle.common_laws.specs.Causes.{HasCause};
ghost use Rattle.col_disk.specs.Faults.{store_fault};
ghost use Rattle.col_disk.specs.Moved.{Moved, NoName};
ghost use Rattle.pos_index.specs.Index.{index_spelling, IsIndex, Fits};
ghost use Rattle.col_file.specs.Column.{IsFile, IsNoFile};
ghost use Rattle.col_file.specs.Read.{Blames, SpellsIndex};

use col_disk::{Disk, DiskFault, StoreFault, read_whole};
use pos_index::PosIndex;
use std::alloc::{AllocError, Global};

/// The index of so many rows that all of the bytes are; the name is blamed where they are none.
#[tactic(auto, using(crate::proofs::Found::other_rows, crate::proofs::Found::no_index))]
fn index_in(alloc: Global, bytes: &[u8], name: u64, rows: u64) -> Result<PosIndex, StoreFault>
    ensures found { IfOk result (λ x. (x.rows ≡ rows) × IsIndex x × Fits x × (bytes.now ≡ index_spelling x)) }
    ensures blamed { IfErr result (Blames name (SpellsIndex rows bytes.now → ⊥)) }
    ensures no_cause { result ≢ Err StoreFault.Disk }
{
    match PosIndex::from_bytes(alloc, bytes) {
        Ok(Some(index)) => {
            if index.rows == rows {
                Ok(index)
            } else {
                Err(StoreFault::Damaged(name))
            }
        }
        Ok(None) => Err(StoreFault::Damaged(name)),
        Err(AllocError) => Err(StoreFault::Memory),
    }
}

/// What a fault of the disk is to a store.
pub fn fault_of(fault: DiskFault) -> StoreFault
    ensures { result ≡ store_fault fault }
{
    StoreFault::from(fault)
}

/// Reads the index of a column of so many rows. `Damaged(index)` comes only where the file is absent, is no index,
/// or is one of another number of rows.
pub fn read_index<D: Disk>(
    alloc: Global,
    disk: &mut D,
    index: u64,
    rows: u64,
) -> Result<PosIndex, StoreFault>
    ensures index { IfOk result (λ x. (x.rows ≡ rows) × IsIndex x × Fits x) }
    ensures found { IfOk result (λ x. IsFile index (index_spelling x) (D.holds disk.old)) }
    ensures blamed { IfErr result (Blames index (IsNoFile index (SpellsIndex rows) (D.holds disk.old))) }
    ensures kept { D.holds disk.new ≡ D.holds disk.old }
    ensures moved { Moved ⟦<D as Disk>⟧ NoName NoName disk.old disk.new }
    ensures cause { HasCause StoreFault.Disk (D.faults disk.old) (D.faults disk.new) result }
{
    match read_whole(alloc, disk, index) {
        Ok(Some(bytes)) => index_in(alloc, bytes.as_slice(), index, rows),
        Ok(None) => Err(StoreFault::Damaged(index)),
        Err(fault) => Err(fault_of(fault)),
    }
}
