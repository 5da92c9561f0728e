//! Two projections of a table, compared.

ghost use Rattle.std.specs.Prelude.{◌≡◌, ◌<◌, Some, length, map, IfOk, IfErr, IfSome, IfNone, List};
ghost use Rattle.std.specs.List.{All};
ghost use Rattle.common_laws.specs.Bags.{SameBag};
ghost use Rattle.common_laws.specs.Causes.{HasCause};
ghost use Rattle.common_laws.specs.Maps.{Contents};
ghost use Rattle.col_disk.specs.Faults.{IsUnblamed};
ghost use Rattle.col_disk.specs.Moved.{Moved, NoName};
ghost use Rattle.col_value.specs.declared.row.Stamped.{Stamped as AStamped};
ghost use Rattle.ros_container.specs.Readable.{IsReadable};
ghost use Rattle.row_history.specs.History.{on_columns};
ghost use Rattle.stored_rows.specs.Held.{Holds};
ghost use Rattle.audit_model.specs.Pairs.{in_columns, pair, places_among};
ghost use Rattle.bag_difference.specs.Differences.{IsLeastDifference};
ghost use Rattle.audit_model.specs.Rows.{judged_in};
ghost use Rattle.store_audit.specs.Passes.{AreBoth, CanCompare, HasBoth, JudgesPair, Tells, places_in_all};

use crate::columns::{all_places, places_among};
use audit_model::{AuditFault, Verdict};
use audit_rows::judged_rows;
use bag_difference::{Difference, least_difference};
use catalog_types::{Projection, Table};
use col_disk::{Disk, StoreFault};
use col_value::Stamped;
use std::alloc::{AllocError, Global};
use stored_rows::one_list_of_rows;

/// The epoch at which rows are cut, and the mark from which on they are judged.
#[derive(Clone, Copy, Debug)]
pub struct Bounds {
    pub epoch: u64,
    pub mark: u64,
}

/// What is judged of the first, in the columns of the second.
fn rows_among<D: Disk>(
    alloc: Global,
    disk: &mut D,
    first: &Projection,
    second: &Projection,
    bounds: Bounds,
) -> Result<Vec<Stamped>, StoreFault>
    requires readable { All (IsReadable first.now.columns) first.now.containers }
    requires columns { All (λ c. c < length first.now.columns) (places_among first.now second.now) }
    ensures found { IfOk result (λ v. (m : Contents) (held : List AStamped) → D.holds disk.old ≡ Some m → Holds m first.now held → v.items ≡ in_columns first.now second.now (judged_in bounds.epoch bounds.mark held)) }
    ensures unblamed { IfErr result (λ fault. (m : Contents) (held : List AStamped) → D.holds disk.old ≡ Some m → Holds m first.now held → IsUnblamed fault) }
    ensures kept { D.holds disk.new ≡ D.holds disk.old }
    ensures moved { Moved ⟦<D as Disk>⟧ NoName NoName disk.old disk.new }
    ensures cause { HasCause StoreFault.Disk (D.faults disk.old) (D.faults disk.new) result }
{
    match places_among(alloc, first, second) {
        Ok(places) => judged_rows(
            alloc,
            disk,
            first,
            places.as_slice(),
            bounds.epoch,
            bounds.mark,
        ),
        Err(AllocError) => Err(StoreFault::Memory),
    }
}

/// What is judged of a projection, in all its columns.
fn rows_whole<D: Disk>(
    alloc: Global,
    disk: &mut D,
    shape: &Projection,
    bounds: Bounds,
) -> Result<Vec<Stamped>, StoreFault>
    requires { All (IsReadable shape.now.columns) shape.now.containers }
    ensures found { IfOk result (λ v. (m : Contents) (held : List AStamped) → D.holds disk.old ≡ Some m → Holds m shape.now held → v.items ≡ map (on_columns (places_in_all shape.now)) (judged_in bounds.epoch bounds.mark held)) }
    ensures unblamed { IfErr result (λ fault. (m : Contents) (held : List AStamped) → D.holds disk.old ≡ Some m → Holds m shape.now held → IsUnblamed fault) }
    ensures kept { D.holds disk.new ≡ D.holds disk.old }
    ensures moved { Moved ⟦<D as Disk>⟧ NoName NoName disk.old disk.new }
    ensures cause { HasCause StoreFault.Disk (D.faults disk.old) (D.faults disk.new) result }
{
    match all_places(alloc, shape) {
        Ok(places) => judged_rows(
            alloc,
            disk,
            shape,
            places.as_slice(),
            bounds.epoch,
            bounds.mark,
        ),
        Err(AllocError) => Err(StoreFault::Memory),
    }
}

/// What is judged of both.
fn both_rows<D: Disk>(
    alloc: Global,
    disk: &mut D,
    first: &Projection,
    second: &Projection,
    bounds: Bounds,
) -> Result<(Vec<Stamped>, Vec<Stamped>), StoreFault>
    requires { CanCompare first.now second.now }
    ensures found { IfOk result (λ r. (m : Contents) → D.holds disk.old ≡ Some m → AreBoth m bounds.epoch bounds.mark first.now second.now r.0.items r.1.items) }
    ensures unblamed { IfErr result (λ fault. (m : Contents) → D.holds disk.old ≡ Some m → HasBoth m bounds.epoch bounds.mark first.now second.now → IsUnblamed fault) }
    ensures kept { D.holds disk.new ≡ D.holds disk.old }
    ensures moved { Moved ⟦<D as Disk>⟧ NoName NoName disk.old disk.new }
    ensures cause { HasCause StoreFault.Disk (D.faults disk.old) (D.faults disk.new) result }
{
    match rows_among(alloc, disk, first, second, bounds) {
        Ok(xs) => match rows_whole(alloc, disk, second, bounds) {
            Ok(ys) => Ok((xs, ys)),
            Err(fault) => Err(fault),
        },
        Err(fault) => Err(fault),
    }
}

fn differ(
    alloc: Global,
    table: &Table,
    first: &Projection,
    second: &Projection,
    found: Difference,
) -> Result<Verdict, AllocError>
    ensures { IfOk result (λ v. (xs ys : List AStamped) → IsLeastDifference xs ys found.row found.first found.second → Tells table.now first.now second.now xs ys v) }
{
    let table = table.name.copy(alloc)?;
    let first = first.name.copy(alloc)?;
    let second = second.name.copy(alloc)?;
    Ok(Verdict::Differ {
        table,
        first,
        second,
        first_count: found.first,
        second_count: found.second,
        row: found.row,
    })
}

/// The verdict that two lists of rows differ; None where they are one bag.
fn compared(
    alloc: Global,
    table: &Table,
    first: &Projection,
    second: &Projection,
    rows: (Vec<Stamped>, Vec<Stamped>),
) -> Result<Option<Verdict>, AllocError>
    ensures same { IfOk result (λ o. IfNone o (SameBag rows.0.items rows.1.items)) }
    ensures differ { IfOk result (λ o. IfSome o (Tells table.now first.now second.now rows.0.items rows.1.items)) }
{
    let (xs, ys) = rows;
    match least_difference(alloc, xs, ys)? {
        None => Ok(None),
        Some(found) => Ok(Some(differ(alloc, table, first, second, found)?)),
    }
}

/// The verdict that two projections of a table differ; None where they hold the same rows. One pair's rows are in memory.
pub fn judge_pair<D: Disk>(
    alloc: Global,
    disk: &mut D,
    table: &Table,
    first: &Projection,
    second: &Projection,
    bounds: Bounds,
) -> Result<Option<Verdict>, AuditFault>
    requires { CanCompare first.now second.now }
    ensures judged { IfOk result (JudgesPair (D.holds disk.old) bounds.epoch bounds.mark (pair table.now first.now second.now)) }
    ensures kept { D.holds disk.new ≡ D.holds disk.old }
    ensures moved { Moved ⟦<D as Disk>⟧ NoName NoName disk.old disk.new }
    ensures cause { HasCause AuditFault.Disk (D.faults disk.old) (D.faults disk.new) result }
{
    one_list_of_rows();
    match both_rows(alloc, disk, first, second, bounds) {
        Ok(rows) => match compared(alloc, table, first, second, rows) {
            Ok(verdict) => Ok(verdict),
            Err(AllocError) => Err(AuditFault::Memory),
        },
        Err(StoreFault::Damaged(file)) => Ok(Some(Verdict::File(file))),
        Err(StoreFault::Disk) => Err(AuditFault::Disk),
        Err(StoreFault::Memory) => Err(AuditFault::Memory),
    }
}
