//! Rows of a scan that are held.

ghost use Rattle.std.specs.Prelude.{◌≡◌, ◌<◌, ◌++◌, false, List, Some, length, map, IfOk, IfErr, OnOk, IsSomeAnd};
ghost use Rattle.std.specs.List.{All, slice_get};
ghost use Rattle.common_laws.specs.Causes.{HasCause};
ghost use Rattle.common_laws.specs.Maps.{Contents};
ghost use Rattle.col_disk.specs.Moved.{Moved, NoName};
ghost use Rattle.col_value.specs.Order.{IsRow};
ghost use Rattle.col_value.specs.declared.row.Stamped.{Stamped};
ghost use Rattle.row_history.specs.History.{visible};
ghost use Rattle.stored_rows.specs.Stored.{Stores};
ghost use Rattle.query_cover.specs.Seen.{placed};
ghost use Rattle.col_disk.specs.Faults.{IsUnblamed};
ghost use Rattle.proj_store.specs.Reading.{BlamesRows};
ghost use Rattle.exec_scan.specs.Counting.{SpendsUpto};
ghost use Rattle.exec_scan.specs.Scanning.{AreOwn, start};
ghost use Rattle.store_query.specs.Feeding.{Passes};

use col_disk::{Disk, StoreFault};
use col_value::Row;
use common_laws::Steps;
use exec_scan::{Batch, Scan};
use proj_store::ProjStore;
use row_bounds::Bound;
use std::alloc::{AllocError, Global};
use std::sync::ledger::Ledger;

/// The row of a batch at a place.
fn row_at(alloc: Global, batch: &Batch, place: usize) -> Result<Row, AllocError>
    requires { place < length batch.now.rows }
    ensures row { IfOk result (λ r. IsSomeAnd (slice_get batch.now.rows place) (λ x. r ≡ x)) }
    ensures valid { IfOk result IsRow }
{
    let mut row = Vec::new(alloc);
    batch.copy_row(alloc, place, &mut row)?;
    Ok(Row::new(row))
}

/// Appends the rows of a batch.
fn add_batch(alloc: Global, out: &mut Vec<Row>, batch: &Batch) -> Result<(), AllocError>
    requires { All IsRow out.old.items }
    ensures rows { OnOk result (out.new.items ≡ out.old.items ++ batch.now.rows) }
    ensures valid { OnOk result (All IsRow out.new.items) }
{
    for i in 0..batch.len() {
        out.push(row_at(alloc, batch, i)?)?;
    }
    Ok(())
}

/// The rows of a projection that are visible at an epoch, made for the table's columns: for each of these `places` has its place in the
/// projection, if it is needed. Rows that lie out of the bounds may be passed over. Each block that is read is a step, of no more than a scan takes
/// within these bounds.
pub fn scan_within<D: Disk, L: Ledger>(
    alloc: Global,
    store: &ProjStore,
    epoch: u64,
    places: Vec<Option<usize>>,
    bounds: Vec<Bound>,
    disk: &mut D,
    steps: &mut Steps<L>,
) -> Result<Vec<Row>, StoreFault>
    requires { AreOwn store.now.stored.entry places.items }
    ensures passes { IfOk result (λ v. (m : Contents) → D.holds disk.old ≡ Some m → (rows : List Stamped) → Stores m store.now.stored rows → Passes bounds.items (length places.items) (map (placed places.items) (visible epoch rows)) v.items) }
    ensures valid { IfOk result (λ v. All IsRow v.items) }
    ensures unblamed { IfErr result (λ fault. (m : Contents) → D.holds disk.old ≡ Some m → (rows : List Stamped) → Stores m store.now.stored rows → IsUnblamed fault) }
    ensures blamed { IfErr result (BlamesRows store.now.stored.entry (D.holds disk.old)) }
    ensures steps { SpendsUpto (D.holds disk.old) store.now.stored (start epoch places.items bounds.items false) steps.old steps.new }
    ensures kept { D.holds disk.new ≡ D.holds disk.old }
    ensures moved { Moved ⟦<D as Disk>⟧ NoName NoName disk.old disk.new }
    ensures cause { HasCause StoreFault.Disk (D.faults disk.old) (D.faults disk.new) result }
{
    let mut scan = Scan::new(epoch, places, bounds, false);
    let mut out = Vec::new(alloc);
    loop {
        let batch = match scan.next(alloc, store, disk, steps) {
            Ok(Some(batch)) => batch,
            Ok(None) => return Ok(out),
            Err(fault) => return Err(fault),
        };
        match add_batch(alloc, &mut out, &batch) {
            Ok(()) => {}
            Err(AllocError) => return Err(StoreFault::Memory),
        }
    }
}
