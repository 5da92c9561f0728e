//! Committing: a new version of the catalogue, which the disk then opens to.

ghost use Rattle.std.specs.Prelude.{◌≡◌, ◌<◌, ◌^◌, ℕ, Some, OnOk, IfOk, IfErr, IsErrOf};
ghost use Rattle.std.specs.Option.{option_map};
ghost use Rattle.std.specs.FinMap.{insert};
ghost use Rattle.common_laws.specs.Causes.{HasCause};
ghost use Rattle.common_laws.specs.Maps.{Contents};
ghost use Rattle.col_disk.specs.Crashes.{NoneCame};
ghost use Rattle.col_disk.specs.Moved.{Moved, ImageOf, Leaves, NoName, Named, Either};
ghost use Rattle.col_disk.specs.declared.disk.DiskFault.TheVariants.{Memory as no_memory};
ghost use Rattle.catalog_root.specs.declared.found.Found.{Found};
ghost use Rattle.catalog_root.specs.Crash.{IsRooted, OldOrNew, IsOld, IsReplaced};
ghost use Rattle.catalog_types.specs.Valid.{IsValid};
ghost use Rattle.catalog_root.specs.Root.{body_file, gate_file, IsAbove, IsWritten, NewOrOld};

use crate::names::{OPEN, body_of, gate_of};
use catalog_bytes::to_bytes;
use catalog_types::Catalogue;
use col_disk::{Disk, DiskFault};
use std::alloc::{AllocError, Global};

/// Writes the bytes and makes them last.
fn put<D: Disk>(disk: &mut D, name: u64, bytes: &[u8]) -> Result<(), DiskFault>
    ensures done { OnOk result (D.holds disk.new ≡ option_map (λ m. insert m name bytes.now) (D.holds disk.old)) }
    ensures only { OnOk result ((m : Contents) → D.holds disk.old ≡ Some m → (c : Contents) → ImageOf ⟦<D as Disk>⟧ disk.new c → c ≡ insert m name bytes.now) }
    ensures memory { IsErrOf result no_memory → NoneCame (ImageOf ⟦<D as Disk>⟧ disk.old) (ImageOf ⟦<D as Disk>⟧ disk.new) }
    ensures moved { Moved ⟦<D as Disk>⟧ (Named name) NoName disk.old disk.new }
    ensures cause { HasCause DiskFault.Failed (D.faults disk.old) (D.faults disk.new) result }
    ensures unfailed { OnOk result (D.faults disk.new ≡ D.faults disk.old) }
{
    match disk.write(name, bytes) {
        Ok(()) => disk.sync(),
        Err(fault) => Err(fault),
    }
}

/// Makes this the version that the disk opens to. It must be above every open gate. Its body is there before its
/// gate is written, so that after a fault the disk opens to the new version or to what it opened to before.
pub fn commit<D: Disk>(
    alloc: Global,
    disk: &mut D,
    version: u64,
    c: &Catalogue,
) -> Result<(), DiskFault>
    requires valid { IsValid c.now }
    requires below { version < c.now.next }
    ensures done { OnOk result ((m : Contents) → D.holds disk.old ≡ Some m → IsAbove version m → (n : Contents) × (D.holds disk.new ≡ Some n) × IsWritten n version c.now) }
    ensures either { (m : Contents) → D.holds disk.old ≡ Some m → IsAbove version m → (n : Contents) × (D.holds disk.new ≡ Some n) × NewOrOld version c.now m n }
    ensures any_moment { (was : Found) (m : Contents) → IsRooted (D.holds disk.old) (ImageOf ⟦<D as Disk>⟧ disk.old) was version m → Leaves ⟦<D as Disk>⟧ (OldOrNew was version c.now (ImageOf ⟦<D as Disk>⟧ disk.old) m) disk.old disk.new }
    ensures replaced { (was : Found) (m : Contents) → IsRooted (D.holds disk.old) (ImageOf ⟦<D as Disk>⟧ disk.old) was version m → OnOk result (IsReplaced (D.holds disk.new) (ImageOf ⟦<D as Disk>⟧ disk.new) version c.now m) }
    ensures memory { (was : Found) (m : Contents) → IsRooted (D.holds disk.old) (ImageOf ⟦<D as Disk>⟧ disk.old) was version m → IsErrOf result no_memory → (x : Contents) → ImageOf ⟦<D as Disk>⟧ disk.new x → IsOld was version (ImageOf ⟦<D as Disk>⟧ disk.old) x }
    ensures moved { Moved ⟦<D as Disk>⟧ (Either (Named (body_file version)) (Named (gate_file version))) NoName disk.old disk.new }
    ensures cause { HasCause DiskFault.Failed (D.faults disk.old) (D.faults disk.new) result }
    ensures unfailed { OnOk result (D.faults disk.new ≡ D.faults disk.old) }
{
    match to_bytes(alloc, c) {
        Ok(body) => match put(disk, body_of(version), body.as_slice()) {
            Ok(()) => put(disk, gate_of(version), &[OPEN]),
            Err(fault) => Err(fault),
        },
        Err(AllocError) => Err(DiskFault::Memory),
    }
}
