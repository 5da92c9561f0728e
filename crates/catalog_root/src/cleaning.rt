//! Removing the files that a catalogue has no use for.

ghost use Rattle.std.specs.Prelude.{◌≡◌, ◌↔◌, ◌<◌, ◌^◌, ℕ, Some, None, IsTrue, OnOk, Contains};
ghost use Rattle.std.specs.FinMap.{get};
ghost use Rattle.std.specs.List.{All};
ghost use Rattle.std.specs.List.Sorted.{IsNonDecreasing};
ghost use Rattle.common_laws.specs.Causes.{HasCause};
ghost use Rattle.common_laws.specs.Maps.{Contents};
ghost use Rattle.col_disk.specs.Moved.{Moved, NoName};
ghost use Rattle.catalog_root.specs.Listed.{HasNoUse, IsOfOther, IsSwept, IsUnlisted};

use crate::listing::{is_among, numbers_in};
use crate::names::{body_of, gate_of};
use catalog_types::Catalogue;
use col_disk::{Disk, DiskFault};
use std::alloc::{AllocError, Global};

/// Whether the file has no use beside these numbers and this version.
fn has_no_use(name: u64, version: u64, numbers: &[u64]) -> bool
    requires { IsNonDecreasing numbers.now }
    ensures { IsTrue result ↔ HasNoUse version (Contains numbers.now) name }
{
    let kind = name % 4;
    if kind == 0 {
        !is_among(numbers, name / 4)
    } else {
        kind != 3 && name / 4 != version
    }
}

fn sweep_one<D: Disk>(
    disk: &mut D,
    name: u64,
    version: u64,
    numbers: &[u64],
) -> Result<(), DiskFault>
    requires { IsNonDecreasing numbers.now }
    ensures gone { OnOk result ((m : Contents) → D.holds disk.new ≡ Some m → IsSwept version numbers.now name → get m name ≡ None) }
    ensures moved { Moved ⟦<D as Disk>⟧ NoName (IsSwept version numbers.now) disk.old disk.new }
    ensures cause { HasCause DiskFault.Failed (D.faults disk.old) (D.faults disk.new) result }
    ensures unfailed { OnOk result (D.faults disk.new ≡ D.faults disk.old) }
{
    if has_no_use(name, version, numbers) {
        disk.remove(name)
    } else {
        Ok(())
    }
}

fn sweep<D: Disk>(
    disk: &mut D,
    names: &[u64],
    version: u64,
    numbers: &[u64],
) -> Result<(), DiskFault>
    requires { IsNonDecreasing numbers.now }
    ensures fits { All (λ q. q < 2 ^ 64) names.now }
    ensures gone { OnOk result ((m : Contents) → D.holds disk.new ≡ Some m → (q : ℕ) → Contains names.now q → IsSwept version numbers.now q → get m q ≡ None) }
    ensures moved { Moved ⟦<D as Disk>⟧ NoName (IsSwept version numbers.now) disk.old disk.new }
    ensures cause { HasCause DiskFault.Failed (D.faults disk.old) (D.faults disk.new) result }
    ensures unfailed { OnOk result (D.faults disk.new ≡ D.faults disk.old) }
{
    for name in names {
        sweep_one(disk, *name, version, numbers)?;
    }
    Ok(())
}

/// Removes every data file that the catalogue doesn't list, and every body and gate of another version than this,
/// its own. Nothing is made to last: what a crash brings back, the next cleaning removes.
pub fn clean<D: Disk>(
    alloc: Global,
    disk: &mut D,
    version: u64,
    c: &Catalogue,
) -> Result<(), DiskFault>
    ensures gone { OnOk result ((m : Contents) → D.holds disk.new ≡ Some m → (q : ℕ) → IsUnlisted version c.now q → get m q ≡ None) }
    ensures moved { Moved ⟦<D as Disk>⟧ NoName (IsUnlisted version c.now) disk.old disk.new }
    ensures cause { HasCause DiskFault.Failed (D.faults disk.old) (D.faults disk.new) result }
    ensures unfailed { OnOk result (D.faults disk.new ≡ D.faults disk.old) }
{
    let numbers = match numbers_in(alloc, c) {
        Ok(numbers) => numbers,
        Err(AllocError) => return Err(DiskFault::Memory),
    };
    let names = disk.names(alloc)?;
    sweep(disk, names.as_slice(), version, numbers.as_slice())
}

/// Removes the gate and the body of a version, where it isn't this one.
fn remove_version<D: Disk>(disk: &mut D, was: u64, version: u64) -> Result<(), DiskFault>
    ensures moved { Moved ⟦<D as Disk>⟧ NoName (IsOfOther version) disk.old disk.new }
    ensures cause { HasCause DiskFault.Failed (D.faults disk.old) (D.faults disk.new) result }
    ensures unfailed { OnOk result (D.faults disk.new ≡ D.faults disk.old) }
{
    if was == version {
        return Ok(());
    }
    if was >= 1 << 62 {
        return Ok(());
    }
    match disk.remove(gate_of(was)) {
        Ok(()) => disk.remove(body_of(was)),
        Err(fault) => Err(fault),
    }
}

/// Removes the data files of these numbers that aren't among ascending ones.
fn sweep_numbers<D: Disk>(
    disk: &mut D,
    gone: &[u64],
    version: u64,
    numbers: &[u64],
) -> Result<(), DiskFault>
    requires { IsNonDecreasing numbers.now }
    ensures moved { Moved ⟦<D as Disk>⟧ NoName (IsSwept version numbers.now) disk.old disk.new }
    ensures cause { HasCause DiskFault.Failed (D.faults disk.old) (D.faults disk.new) result }
    ensures unfailed { OnOk result (D.faults disk.new ≡ D.faults disk.old) }
{
    for number in gone {
        sweep_one(disk, number.saturating_mul(4), version, numbers)?;
    }
    Ok(())
}

/// Removes the body and the gate of the version that this one replaced, and of these data files those that the catalogue doesn't list. The
/// folder isn't listed: a file that nothing names is left to the next opening.
pub fn clean_after<D: Disk>(
    alloc: Global,
    disk: &mut D,
    was: u64,
    gone: &[u64],
    version: u64,
    c: &Catalogue,
) -> Result<(), DiskFault>
    ensures moved { Moved ⟦<D as Disk>⟧ NoName (IsUnlisted version c.now) disk.old disk.new }
    ensures cause { HasCause DiskFault.Failed (D.faults disk.old) (D.faults disk.new) result }
{
    match remove_version(disk, was, version) {
        Ok(()) => {}
        Err(fault) => return Err(fault),
    }
    if gone.is_empty() {
        return Ok(());
    }
    match numbers_in(alloc, c) {
        Ok(numbers) => sweep_numbers(disk, gone, version, numbers.as_slice()),
        Err(AllocError) => Err(DiskFault::Memory),
    }
}
