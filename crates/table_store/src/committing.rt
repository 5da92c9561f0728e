//! A session's changes, made ready for all tables and then done.

ghost use Rattle.std.specs.Prelude.{◌≡◌, Some, length, map, IfErr, IfOk};
ghost use Rattle.std.specs.List.{All, AllZip};
ghost use Rattle.common_laws.specs.Causes.{HasCause};
ghost use Rattle.common_laws.specs.Maps.{Contents};
ghost use Rattle.col_disk.specs.Moved.{Moved, NoName};
ghost use Rattle.catalog_types.specs.Lists.{Pairwise};
ghost use Rattle.catalog_types.specs.Names.{IsBelow};
ghost use Rattle.col_value.specs.Order.{IsRow};
ghost use Rattle.db_model.specs.State.{pending_rows, pending_deletes};
ghost use Rattle.table_store.specs.Held.{projections_of};
ghost use Rattle.table_store.specs.Changing.{CanApply, tables_applied};
ghost use Rattle.table_store.specs.Committing.{ready_with, AreReady};
ghost use Rattle.col_disk.specs.Faults.{IsUnblamed};
ghost use Rattle.table_store.specs.Faults.{BlamesStored, IsReadable};

use crate::parts::{Parts, ReadyTable};
use catalog_types::Table;
use col_disk::{Disk, StoreFault};
use col_value::{Asked, Name, Row};
use std::alloc::Global;
use txn_core::Session;

/// The rows and the deletes that are pending in the table of a name.
fn pending<'a>(changes: &'a Session, name: &Name) -> (&'a [Row], &'a [Asked])
    ensures rows { result.0.now ≡ pending_rows name.now changes.now }
    ensures deletes { result.1.now ≡ pending_deletes name.now changes.now }
    ensures valid { All IsRow result.0.now }
{
    match changes.on(name.as_slice()) {
        Some(changes) => (changes.rows(), changes.deletes()),
        None => (&[], &[]),
    }
}

/// Makes ready what a commit of a session's changes does to each projection of each table; nothing changes but the room.
fn prepare_tables<D: Disk>(
    alloc: Global,
    disk: &mut D,
    tables: &mut [Parts],
    entries: &[Table],
    changes: &Session,
) -> Result<Vec<ReadyTable>, StoreFault>
    requires { length entries.now ≡ length tables.old }
    ensures long { IfOk result (λ v. length v.items ≡ length entries.now) }
    ensures prepared { IfOk result (λ v. (m : Contents) → D.holds disk.old ≡ Some m → AreReady m changes.now entries.now (map projections_of tables.old) (ready_with changes.now entries.now v.items)) }
    ensures ready { IfOk result (λ v. AllZip (AllZip CanApply) (ready_with changes.now entries.now v.items) tables.new) }
    ensures stored { map projections_of tables.new ≡ map projections_of tables.old }
    ensures unblamed { IfErr result (λ fault. (m : Contents) → D.holds disk.old ≡ Some m → All (All (IsReadable m)) (map projections_of tables.old) → IsUnblamed fault) }
    ensures blamed { IfErr result (BlamesStored (map projections_of tables.old) (D.holds disk.old)) }
    ensures kept { D.holds disk.new ≡ D.holds disk.old }
    ensures moved { Moved ⟦<D as Disk>⟧ NoName NoName disk.old disk.new }
    ensures cause { HasCause StoreFault.Disk (D.faults disk.old) (D.faults disk.new) result }
{
    let mut ready = Vec::new(alloc);
    for (i, entry) in entries.iter().enumerate() {
        let (rows, deletes) = pending(changes, &entry.name);
        let parts = match tables[i].prepare(alloc, disk, rows, deletes) {
            Ok(parts) => parts,
            Err(fault) => return Err(fault),
        };
        match ready.push(parts) {
            Ok(()) => {}
            Err(_) => return Err(StoreFault::Memory),
        }
    }
    Ok(ready)
}

/// Does to each table what was made ready, with its pending rows, at an epoch. It takes no memory.
fn apply_tables(
    alloc: Global,
    tables: &mut [Parts],
    entries: &[Table],
    ready: Vec<ReadyTable>,
    changes: &mut Session,
    epoch: u64,
)
    requires long { length ready.items ≡ length entries.now }
    requires apart { Pairwise (λ t u. IsBelow t.name u.name) entries.now }
    requires room { AllZip (AllZip CanApply) (ready_with changes.old entries.now ready.items) tables.old }
    ensures { map projections_of tables.new ≡ tables_applied epoch (ready_with changes.old entries.now ready.items) (map projections_of tables.old) }
{
    let mut rest = ready;
    while let Some(parts) = rest.pop() {
        let i = rest.len();
        let rows = changes.take_rows(alloc, entries[i].name.as_slice());
        tables[i].apply(parts, rows, epoch);
    }
}

/// The same over the tables of a store.
pub fn prepare_all<D: Disk>(
    alloc: Global,
    disk: &mut D,
    tables: &mut Vec<Parts>,
    entries: &[Table],
    changes: &Session,
) -> Result<Vec<ReadyTable>, StoreFault>
    requires { length entries.now ≡ length tables.old.items }
    ensures long { IfOk result (λ v. length v.items ≡ length entries.now) }
    ensures prepared { IfOk result (λ v. (m : Contents) → D.holds disk.old ≡ Some m → AreReady m changes.now entries.now (map projections_of tables.old.items) (ready_with changes.now entries.now v.items)) }
    ensures ready { IfOk result (λ v. AllZip (AllZip CanApply) (ready_with changes.now entries.now v.items) tables.new.items) }
    ensures stored { map projections_of tables.new.items ≡ map projections_of tables.old.items }
    ensures unblamed { IfErr result (λ fault. (m : Contents) → D.holds disk.old ≡ Some m → All (All (IsReadable m)) (map projections_of tables.old.items) → IsUnblamed fault) }
    ensures blamed { IfErr result (BlamesStored (map projections_of tables.old.items) (D.holds disk.old)) }
    ensures kept { D.holds disk.new ≡ D.holds disk.old }
    ensures moved { Moved ⟦<D as Disk>⟧ NoName NoName disk.old disk.new }
    ensures cause { HasCause StoreFault.Disk (D.faults disk.old) (D.faults disk.new) result }
{
    prepare_tables(alloc, disk, tables.as_mut_slice(), entries, changes)
}

pub fn apply_all(
    alloc: Global,
    tables: &mut Vec<Parts>,
    entries: &[Table],
    ready: Vec<ReadyTable>,
    changes: &mut Session,
    epoch: u64,
)
    requires long { length ready.items ≡ length entries.now }
    requires apart { Pairwise (λ t u. IsBelow t.name u.name) entries.now }
    requires room { AllZip (AllZip CanApply) (ready_with changes.old entries.now ready.items) tables.old.items }
    ensures { map projections_of tables.new.items ≡ tables_applied epoch (ready_with changes.old entries.now ready.items) (map projections_of tables.old.items) }
{
    apply_tables(alloc, tables.as_mut_slice(), entries, ready, changes, epoch);
}
