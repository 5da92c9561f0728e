//! The projections of each table, two by two.

ghost use Rattle.std.specs.Prelude.{◌≡◌, IfOk};
ghost use Rattle.std.specs.List.{All, flat_map};
ghost use Rattle.common_laws.specs.Causes.{HasCause};
ghost use Rattle.col_disk.specs.Moved.{Moved, NoName};
ghost use Rattle.catalog_types.specs.Valid.{IsValid};
ghost use Rattle.audit_model.specs.Judging.{JudgesPairs};
ghost use Rattle.store_audit.specs.Passes.{CanCompare, CanRead, JudgesAll, pairs_beside, pairs_of, super_pairs};

use crate::comparing::{Bounds, judge_pair};
use crate::supers::{is_other, super_of};
use audit_model::{AuditFault, Verdict};
use catalog_types::{Catalogue, Projection, Table};
use col_disk::Disk;
use std::alloc::Global;

/// One projection of a table with another, if that is up to date.
fn judge_beside<D: Disk>(
    alloc: Global,
    disk: &mut D,
    table: &Table,
    first: &Projection,
    second: &Projection,
    bounds: Bounds,
) -> Result<Option<Verdict>, AuditFault>
    requires { CanCompare first.now second.now }
    ensures judged { IfOk result (JudgesAll (D.holds disk.old) bounds.epoch bounds.mark (pairs_beside table.now first.now second.now)) }
    ensures kept { D.holds disk.new ≡ D.holds disk.old }
    ensures moved { Moved ⟦<D as Disk>⟧ NoName NoName disk.old disk.new }
    ensures cause { HasCause AuditFault.Disk (D.faults disk.old) (D.faults disk.new) result }
{
    if is_other(first, second) {
        judge_pair(alloc, disk, table, first, second, bounds)
    } else {
        Ok(None)
    }
}

/// One projection of a table with each of these that is up to date.
fn judge_against<D: Disk>(
    alloc: Global,
    disk: &mut D,
    table: &Table,
    first: &Projection,
    others: &[Projection],
    bounds: Bounds,
) -> Result<Option<Verdict>, AuditFault>
    requires { All (CanCompare first.now) others.now }
    ensures judged { IfOk result (JudgesAll (D.holds disk.old) bounds.epoch bounds.mark (pairs_of table.now first.now others.now)) }
    ensures kept { D.holds disk.new ≡ D.holds disk.old }
    ensures moved { Moved ⟦<D as Disk>⟧ NoName NoName disk.old disk.new }
    ensures cause { HasCause AuditFault.Disk (D.faults disk.old) (D.faults disk.new) result }
{
    for second in others {
        match judge_beside(alloc, disk, table, first, second, bounds) {
            Ok(None) => {}
            Ok(Some(verdict)) => return Ok(Some(verdict)),
            Err(fault) => return Err(fault),
        }
    }
    Ok(None)
}

/// The super projection of least name of a table with each other projection that is up to date.
fn judge_table<D: Disk>(
    alloc: Global,
    disk: &mut D,
    table: &Table,
    bounds: Bounds,
) -> Result<Option<Verdict>, AuditFault>
    requires { All (CanRead table.now) table.now.projections }
    ensures judged { IfOk result (JudgesAll (D.holds disk.old) bounds.epoch bounds.mark (super_pairs table.now)) }
    ensures kept { D.holds disk.new ≡ D.holds disk.old }
    ensures moved { Moved ⟦<D as Disk>⟧ NoName NoName disk.old disk.new }
    ensures cause { HasCause AuditFault.Disk (D.faults disk.old) (D.faults disk.new) result }
{
    match super_of(table) {
        Some(first) => judge_against(
            alloc,
            disk,
            table,
            first,
            table.projections.as_slice(),
            bounds,
        ),
        None => Ok(None),
    }
}

fn judge_tables<D: Disk>(
    alloc: Global,
    disk: &mut D,
    tables: &[Table],
    bounds: Bounds,
) -> Result<Option<Verdict>, AuditFault>
    requires { All (λ t. All (CanRead t) t.projections) tables.now }
    ensures judged { IfOk result (JudgesAll (D.holds disk.old) bounds.epoch bounds.mark (flat_map super_pairs tables.now)) }
    ensures kept { D.holds disk.new ≡ D.holds disk.old }
    ensures moved { Moved ⟦<D as Disk>⟧ NoName NoName disk.old disk.new }
    ensures cause { HasCause AuditFault.Disk (D.faults disk.old) (D.faults disk.new) result }
{
    for table in tables {
        match judge_table(alloc, disk, table, bounds) {
            Ok(None) => {}
            Ok(Some(verdict)) => return Ok(Some(verdict)),
            Err(fault) => return Err(fault),
        }
    }
    Ok(None)
}

/// The verdict that two projections of a table differ, the first pair by names; None where no two do. Nothing is written or removed.
pub fn judge_pairs<D: Disk>(
    alloc: Global,
    disk: &mut D,
    catalogue: &Catalogue,
) -> Result<Option<Verdict>, AuditFault>
    requires { IsValid catalogue.now }
    ensures judged { IfOk result (JudgesPairs (D.holds disk.old) catalogue.now) }
    ensures kept { D.holds disk.new ≡ D.holds disk.old }
    ensures moved { Moved ⟦<D as Disk>⟧ NoName NoName disk.old disk.new }
    ensures cause { HasCause AuditFault.Disk (D.faults disk.old) (D.faults disk.new) result }
{
    let bounds = Bounds {
        epoch: catalogue.least_lge(),
        mark: catalogue.ahm,
    };
    judge_tables(alloc, disk, catalogue.tables.as_slice(), bounds)
}
