//! The three passes.

ghost use Rattle.std.specs.Prelude.{◌≡◌, Some, IfOk};
ghost use Rattle.common_laws.specs.Causes.{HasCause};
ghost use Rattle.common_laws.specs.Maps.{Contents};
ghost use Rattle.col_disk.specs.Moved.{Moved, NoName};
ghost use Rattle.catalog_types.specs.Valid.{IsValid};
ghost use Rattle.audit_model.specs.Verdicts.{IsVerdict, IsVerdictOf};
ghost use Rattle.store_audit.specs.Passes.{JudgesBehindFiles, JudgesBehindRows};

use crate::pairs::judge_pairs;
use audit_files::judge_files;
use audit_model::{AuditFault, Verdict};
use audit_rows::judge_rows;
use catalog_root::{Found, open};
use catalog_types::Catalogue;
use col_disk::{Disk, StoreFault};
use std::alloc::Global;

/// The last pass, where each stored row is good.
fn behind_rows<D: Disk>(
    alloc: Global,
    disk: &mut D,
    catalogue: &Catalogue,
) -> Result<Verdict, AuditFault>
    requires { IsValid catalogue.now }
    ensures judged { IfOk result (JudgesBehindRows (D.holds disk.old) catalogue.now) }
    ensures kept { D.holds disk.new ≡ D.holds disk.old }
    ensures moved { Moved ⟦<D as Disk>⟧ NoName NoName disk.old disk.new }
    ensures cause { HasCause AuditFault.Disk (D.faults disk.old) (D.faults disk.new) result }
{
    match judge_pairs(alloc, disk, catalogue) {
        Ok(Some(verdict)) => Ok(verdict),
        Ok(None) => Ok(Verdict::Yes {
            last: catalogue.least_lge(),
            ahm: catalogue.ahm,
        }),
        Err(fault) => Err(fault),
    }
}

/// The second pass and the last, where each listed file is its spelling.
fn behind_files<D: Disk>(
    alloc: Global,
    disk: &mut D,
    catalogue: &Catalogue,
) -> Result<Verdict, AuditFault>
    requires { IsValid catalogue.now }
    ensures judged { IfOk result (JudgesBehindFiles (D.holds disk.old) catalogue.now) }
    ensures kept { D.holds disk.new ≡ D.holds disk.old }
    ensures moved { Moved ⟦<D as Disk>⟧ NoName NoName disk.old disk.new }
    ensures cause { HasCause AuditFault.Disk (D.faults disk.old) (D.faults disk.new) result }
{
    match judge_rows(alloc, disk, catalogue) {
        Ok(Some(verdict)) => Ok(verdict),
        Ok(None) => behind_rows(alloc, disk, catalogue),
        Err(fault) => Err(fault),
    }
}

fn judge<D: Disk>(alloc: Global, disk: &mut D, catalogue: &Catalogue) -> Result<Verdict, AuditFault>
    requires { IsValid catalogue.now }
    ensures judged { IfOk result (λ verdict. (m : Contents) → D.holds disk.old ≡ Some m → IsVerdictOf m catalogue.now verdict) }
    ensures kept { D.holds disk.new ≡ D.holds disk.old }
    ensures moved { Moved ⟦<D as Disk>⟧ NoName NoName disk.old disk.new }
    ensures cause { HasCause AuditFault.Disk (D.faults disk.old) (D.faults disk.new) result }
{
    match judge_files(alloc, disk, catalogue) {
        Ok(Some(verdict)) => Ok(verdict),
        Ok(None) => behind_files(alloc, disk, catalogue),
        Err(fault) => Err(fault),
    }
}

/// The verdict on the folder: it reopens, or the first file, row or pair of projections that keeps it from that. One sync is made, and
/// nothing is written or removed. `Disk` comes only where the disk's count of faults rose; `Memory` is free.
pub fn audit<D: Disk>(alloc: Global, disk: &mut D) -> Result<Verdict, AuditFault>
    ensures judged { IfOk result (λ verdict. (m : Contents) → D.holds disk.old ≡ Some m → IsVerdict m verdict) }
    ensures kept { D.holds disk.new ≡ D.holds disk.old }
    ensures moved { Moved ⟦<D as Disk>⟧ NoName NoName disk.old disk.new }
    ensures cause { HasCause AuditFault.Disk (D.faults disk.old) (D.faults disk.new) result }
{
    match open(alloc, disk) {
        Ok(Found::Root { catalogue, .. }) => judge(alloc, disk, &catalogue),
        Ok(Found::Fresh) => Ok(Verdict::Yes { last: 0, ahm: 0 }),
        Err(StoreFault::Damaged(file)) => Ok(Verdict::File(file)),
        Err(StoreFault::Disk) => Err(AuditFault::Disk),
        Err(StoreFault::Memory) => Err(AuditFault::Memory),
    }
}
