//! Opening: the greatest open gate, and the catalogue behind it.

ghost use Rattle.std.specs.Prelude.{◌≡◌, ◌≢◌, ◌<◌, ◌^◌, ℕ, Some, None, Err, OnOk, IfOk, IfErr, IfSome, IfNone};
ghost use Rattle.std.specs.FinMap.{get};
ghost use Rattle.common_laws.specs.Causes.{HasCause};
ghost use Rattle.common_laws.specs.Maps.{Contents};
ghost use Rattle.col_disk.specs.Calls.{ListsNames};
ghost use Rattle.col_disk.specs.Faults.{store_fault};
ghost use Rattle.col_disk.specs.Moved.{Moved, Looks, ImageOf, NoName};
ghost use Rattle.catalog_bytes.specs.Spelling.{Spells};
ghost use Rattle.catalog_root.specs.Root.{data_file, body_file, IsLeastData, IsBody, HoldsBody, Opens, IsUsable, BlamesHeld, BlamesBody, BlamesRoot};

use crate::found::Found;
use crate::gates::greatest_gate;
use crate::names::body_of;
use catalog_bytes::from_bytes;
use catalog_types::Catalogue;
use col_disk::{Disk, DiskFault, StoreFault, read_whole};
use std::alloc::{AllocError, Global};

/// The first data file of ascending names, if there is one.
fn first_data(names: &[u64]) -> Option<u64>
    ensures found { IfSome result (λ q. (m : Contents) → ListsNames m names.now → (n : ℕ) × (q ≡ data_file n) × IsLeastData m n) }
    ensures none { IfNone result ((m : Contents) → ListsNames m names.now → (n : ℕ) → get m (data_file n) ≡ None) }
{
    for name in names {
        if *name % 4 == 0 {
            return Some(*name);
        }
    }
    None
}

/// The catalogue that the bytes of a version's body spell.
fn catalogue_in(alloc: Global, bytes: &[u8], version: u64) -> Result<Catalogue, StoreFault>
    requires { version < 2 ^ 62 }
    ensures found { IfOk result (λ c. IsBody version c × Spells bytes.now c) }
    ensures blamed { IfErr result (BlamesHeld version (Some bytes.now)) }
    ensures no_cause { result ≢ Err StoreFault.Disk }
{
    match from_bytes(alloc, bytes) {
        Ok(Some(c)) => {
            if version < c.next {
                Ok(c)
            } else {
                Err(StoreFault::Damaged(body_of(version)))
            }
        }
        Ok(None) => Err(StoreFault::Damaged(body_of(version))),
        Err(AllocError) => Err(StoreFault::Memory),
    }
}

fn fault_of(fault: DiskFault) -> StoreFault
    ensures { result ≡ store_fault fault }
{
    StoreFault::from(fault)
}

/// The catalogue of a version's body.
fn catalogue_at<D: Disk>(alloc: Global, disk: &mut D, version: u64) -> Result<Catalogue, StoreFault>
    requires { version < 2 ^ 62 }
    ensures body { IfOk result (IsBody version) }
    ensures found { IfOk result (λ c. (m : Contents) → D.holds disk.old ≡ Some m → HoldsBody (get m (body_file version)) c) }
    ensures blamed { IfErr result (BlamesBody version (D.holds disk.old)) }
    ensures kept { D.holds disk.new ≡ D.holds disk.old }
    ensures looks { Looks ⟦<D as Disk>⟧ disk.old disk.new }
    ensures moved { Moved ⟦<D as Disk>⟧ NoName NoName disk.old disk.new }
    ensures cause { HasCause StoreFault.Disk (D.faults disk.old) (D.faults disk.new) result }
{
    match read_whole(alloc, disk, body_of(version)) {
        Ok(Some(bytes)) => catalogue_in(alloc, bytes.as_slice(), version),
        Ok(None) => Err(StoreFault::Damaged(body_of(version))),
        Err(fault) => Err(fault_of(fault)),
    }
}

/// What a disk with these names and no open gate opens to.
fn without_gate(names: &[u64]) -> Result<Found, StoreFault>
    ensures found { IfOk result (λ f. (f ≡ Found.Fresh) × ((m : Contents) → ListsNames m names.now → (n : ℕ) → get m (data_file n) ≡ None)) }
    ensures blamed { IfErr result (λ e. (q : ℕ) × (e ≡ StoreFault.Damaged q) × ((m : Contents) → ListsNames m names.now → (n : ℕ) × (q ≡ data_file n) × IsLeastData m n)) }
{
    match first_data(names) {
        Some(name) => Err(StoreFault::Damaged(name)),
        None => Ok(Found::Fresh),
    }
}

/// What the disk opens to: the body of its greatest open gate, or `Fresh` where no gate is open and no data file is
/// there. `Damaged` names that body where it spells no valid catalogue with `next` above the version, or else the
/// least data file where no gate is open. First what an earlier process left is made to last, so that a crash from
/// there on leaves what was opened.
pub fn open<D: Disk>(alloc: Global, disk: &mut D) -> Result<Found, StoreFault>
    ensures found { IfOk result (λ f. (m : Contents) → D.holds disk.old ≡ Some m → Opens m f) }
    ensures valid { IfOk result IsUsable }
    ensures blamed { IfErr result (BlamesRoot (D.holds disk.old)) }
    ensures kept { D.holds disk.new ≡ D.holds disk.old }
    ensures settled { OnOk result ((m : Contents) → D.holds disk.old ≡ Some m → (c : Contents) → ImageOf ⟦<D as Disk>⟧ disk.new c → c ≡ m) }
    ensures looks { Looks ⟦<D as Disk>⟧ disk.old disk.new }
    ensures moved { Moved ⟦<D as Disk>⟧ NoName NoName disk.old disk.new }
    ensures cause { HasCause StoreFault.Disk (D.faults disk.old) (D.faults disk.new) result }
{
    match disk.sync() {
        Ok(()) => find_root(alloc, disk),
        Err(fault) => Err(fault_of(fault)),
    }
}

fn find_root<D: Disk>(alloc: Global, disk: &mut D) -> Result<Found, StoreFault>
    ensures found { IfOk result (λ f. (m : Contents) → D.holds disk.old ≡ Some m → Opens m f) }
    ensures valid { IfOk result IsUsable }
    ensures blamed { IfErr result (BlamesRoot (D.holds disk.old)) }
    ensures looks { Looks ⟦<D as Disk>⟧ disk.old disk.new }
    ensures cause { HasCause StoreFault.Disk (D.faults disk.old) (D.faults disk.new) result }
{
    let names = match disk.names(alloc) {
        Ok(names) => names,
        Err(fault) => return Err(fault_of(fault)),
    };
    match greatest_gate(alloc, disk, names.as_slice()) {
        Ok(Some(version)) => match catalogue_at(alloc, disk, version) {
            Ok(catalogue) => Ok(Found::Root { version, catalogue }),
            Err(fault) => Err(fault),
        },
        Ok(None) => without_gate(names.as_slice()),
        Err(fault) => Err(fault_of(fault)),
    }
}
