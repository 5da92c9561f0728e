//! A catalogue committed, and what it doesn't list removed.

ghost use Rattle.std.specs.Prelude.{◌≡◌, ◌≤◌, ◌<◌, List, IsErrOf};
ghost use Rattle.common_laws.specs.Causes.{HasCause};
ghost use Rattle.common_laws.specs.Maps.{Contents};
ghost use Rattle.col_disk.specs.Moved.{Moved, NoName, ImageOf};
ghost use Rattle.col_disk.specs.declared.disk.DiskFault.TheVariants.{Memory};
ghost use Rattle.catalog_types.specs.Valid.{IsValid};
ghost use Rattle.catalog_root.specs.declared.found.Found.{Found};
ghost use Rattle.catalog_root.specs.Crash.{IsLater};
ghost use Rattle.catalog_root.specs.Listed.{IsUnlisted};
ghost use Rattle.catalog_root.specs.Quiet.{Quiet};
ghost use Rattle.db_model.specs.Database.{Database};
ghost use Rattle.db_model.specs.Sound.{IsSoundDatabase};
ghost use Rattle.stored_rows.specs.Stored.{Projected};
ghost use Rattle.folder_model.specs.Tables.{AreDatabase};
ghost use Rattle.store_commit.specs.Seen.{Seen, Stands, seen};
ghost use Rattle.store_commit.specs.Making.{Makes};
ghost use Rattle.store_commit.specs.Replacing.{Replaces};

use catalog_root::{clean, clean_after, commit};
use catalog_types::Catalogue;
use col_disk::{Disk, DiskFault};
use std::alloc::Global;

/// Removes what the catalogue doesn't list. Want of memory leaves the files to a later commit or opening.
pub fn tidy<D: Disk>(
    alloc: Global,
    disk: &mut D,
    version: u64,
    catalogue: &Catalogue,
) -> Result<(), DiskFault>
    ensures failed { IsErrOf result Memory → ⊥ }
    ensures moved { Moved ⟦<D as Disk>⟧ NoName (IsUnlisted version catalogue.now) disk.old disk.new }
    ensures cause { HasCause DiskFault.Failed (D.faults disk.old) (D.faults disk.new) result }
{
    match clean(alloc, disk, version, catalogue) {
        Err(DiskFault::Failed) => Err(DiskFault::Failed),
        _ => Ok(()),
    }
}

/// Removes the version `replaced`, and of the data files `gone` those that the catalogue doesn't list. Want of memory leaves them to a later opening.
fn tidy_after<D: Disk>(
    alloc: Global,
    disk: &mut D,
    replaced: u64,
    gone: &[u64],
    version: u64,
    catalogue: &Catalogue,
) -> Result<(), DiskFault>
    ensures failed { IsErrOf result Memory → ⊥ }
    ensures moved { Moved ⟦<D as Disk>⟧ NoName (IsUnlisted version catalogue.now) disk.old disk.new }
    ensures cause { HasCause DiskFault.Failed (D.faults disk.old) (D.faults disk.new) result }
{
    match clean_after(alloc, disk, replaced, gone, version, catalogue) {
        Err(DiskFault::Failed) => Err(DiskFault::Failed),
        _ => Ok(()),
    }
}

/// Makes the catalogue the one that the disk opens to, lists the folder, and removes what the catalogue doesn't list. Its version is a number
/// that the store hasn't drawn before.
pub fn settle_listed<D: Disk>(
    alloc: Global,
    disk: &mut D,
    version: u64,
    catalogue: &Catalogue,
) -> Result<(), DiskFault>
    requires valid { IsValid catalogue.now }
    requires drawn { version < catalogue.now.next }
    ensures made { (was : Seen) (stores : List (List Projected)) (d e : Database) → (stands : Stands ⟦<D as Disk>⟧ was disk.old d) → was.catalogue.next ≤ version → AreDatabase stands.files catalogue.now stores e → IsSoundDatabase e → Makes ⟦<D as Disk>⟧ Memory was (seen catalogue.now stores) disk.old disk.new result d e }
    ensures replaces { (was : Found) (m : Contents) → IsLater was version → Quiet (D.holds disk.old) (ImageOf ⟦<D as Disk>⟧ disk.old) was m → Replaces ⟦<D as Disk>⟧ m was version catalogue.now disk.old disk.new result }
    ensures cause { HasCause DiskFault.Failed (D.faults disk.old) (D.faults disk.new) result }
{
    match commit(alloc, disk, version, catalogue) {
        Ok(()) => tidy(alloc, disk, version, catalogue),
        Err(fault) => Err(fault),
    }
}

/// The same over a running store, which knows what its commit leaves without use: the version `replaced`, to which the disk opened, and of the
/// data files of the numbers `gone` those that the catalogue doesn't list. The folder isn't listed.
pub fn settle<D: Disk>(
    alloc: Global,
    disk: &mut D,
    replaced: u64,
    gone: &[u64],
    version: u64,
    catalogue: &Catalogue,
) -> Result<(), DiskFault>
    requires valid { IsValid catalogue.now }
    requires drawn { version < catalogue.now.next }
    ensures made { (was : Seen) (stores : List (List Projected)) (d e : Database) → (stands : Stands ⟦<D as Disk>⟧ was disk.old d) → was.catalogue.next ≤ version → AreDatabase stands.files catalogue.now stores e → IsSoundDatabase e → Makes ⟦<D as Disk>⟧ Memory was (seen catalogue.now stores) disk.old disk.new result d e }
    ensures cause { HasCause DiskFault.Failed (D.faults disk.old) (D.faults disk.new) result }
{
    match commit(alloc, disk, version, catalogue) {
        Ok(()) => tidy_after(alloc, disk, replaced, gone, version, catalogue),
        Err(fault) => Err(fault),
    }
}
