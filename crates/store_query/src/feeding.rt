//! Rows that go to a run of the query, one by one.

ghost use Rattle.std.specs.Prelude.{◌≡◌, ◌<◌, ◌∷◌, true, false, List, [], Some, length, map, IfOk, IfErr, OnOk};
ghost use Rattle.std.specs.List.{All};
ghost use Rattle.common_laws.specs.Causes.{HasCause};
ghost use Rattle.common_laws.specs.Maps.{Contents};
ghost use Rattle.col_disk.specs.Moved.{Moved, NoName};
ghost use Rattle.col_value.specs.Order.{IsRow};
ghost use Rattle.col_value.specs.declared.row.Stamped.{Stamped};
ghost use Rattle.row_history.specs.History.{visible};
ghost use Rattle.stored_rows.specs.Stored.{Stores};
ghost use Rattle.query_laws.specs.Bounded.{IsBoundedQuery};
ghost use Rattle.query_cover.specs.Seen.{placed};
ghost use Rattle.query_run.specs.Runs.{IsRunOf};
ghost use Rattle.col_disk.specs.Faults.{IsUnblamed};
ghost use Rattle.proj_store.specs.Reading.{BlamesRows};
ghost use Rattle.exec_scan.specs.Counting.{SpendsUpto};
ghost use Rattle.exec_scan.specs.Scanning.{AreOwn, start};
ghost use Rattle.wanted_rows.specs.Wanted.{need_in, Tries};
ghost use Rattle.store_query.specs.Feeding.{Feeds, TakesLess, TakesRows};
ghost use Rattle.store_query.specs.Lessening.{asked};

use col_disk::{Disk, StoreFault};
use col_value::{Row, Value};
use common_laws::Steps;
use exec_scan::{Batch, Scan};
use proj_store::ProjStore;
use query_run::Run;
use row_bounds::Bound;
use sql_bound::BoundQuery;
use std::alloc::{AllocError, Global};
use std::sync::ledger::Ledger;
use wanted_rows::Wants;
use write_store::Inserted;

fn row_copy(alloc: Global, values: &[Value]) -> Result<Row, AllocError>
    ensures { IfOk result (λ r. r ≡ values.now) }
{
    let mut out = Vec::with_capacity(alloc, values.len())?;
    for value in values {
        out.push(value.copy(alloc)?)?;
    }
    Ok(Row::new(out))
}

/// Takes a row out, where that is still to be done; answers whether it did. Where nothing ever was to be taken out, it takes no memory.
fn is_gone(alloc: Global, wants: &mut Wants, row: &[Value]) -> Result<bool, AllocError>
    ensures { IfOk result (λ gone. Tries gone (asked row.now) (need_in wants.old) (need_in wants.new)) }
{
    if wants.is_done() {
        return Ok(false);
    }
    let row = row_copy(alloc, row)?;
    wants.take(alloc, &Inserted { ins: 0, row })
}

/// Gives a row to the run, or takes it out, where that is still to be done.
fn feed(
    alloc: Global,
    query: &BoundQuery,
    wants: &mut Wants,
    run: &mut Run,
    row: &[Value],
) -> Result<(), AllocError>
    requires bounded { IsBoundedQuery query.now }
    requires run { IsRunOf query.now run.old }
    requires row { IsRow row.now }
    ensures fed { OnOk result (Feeds query.now (row.now ∷ []) (need_in wants.old) run.old (need_in wants.new) run.new) }
    ensures run { OnOk result (IsRunOf query.now run.new) }
{
    let gone = is_gone(alloc, wants, row)?;
    if gone {
        return Ok(());
    }
    run.take(alloc, query, row)
}

/// Gives the rows of a batch to the run in their columns, if it takes them so and none is to be taken out; answers whether it did.
#[tactic(auto, using(crate::proofs::Fed::takes_run))]
fn feed_columns(
    alloc: Global,
    query: &BoundQuery,
    wants: &Wants,
    run: &mut Run,
    batch: &Batch,
) -> Result<bool, AllocError>
    requires bounded { IsBoundedQuery query.now }
    requires run { IsRunOf query.now run.old }
    ensures fed { IfOk result (λ took. took ≡ true → Feeds query.now batch.now.rows (need_in wants.now) run.old (need_in wants.now) run.new) }
    ensures run { IfOk result (λ took. took ≡ true → IsRunOf query.now run.new) }
    ensures stays { IfOk result (λ took. took ≡ false → run.new ≡ run.old) }
{
    if !wants.is_done() {
        return Ok(false);
    }
    match batch.columns() {
        Some((columns, places)) => run.take_columns(alloc, query, columns, places),
        None => Ok(false),
    }
}

/// Gives the rows of a batch to the run, or takes them out, one after another.
fn feed_each(
    alloc: Global,
    query: &BoundQuery,
    wants: &mut Wants,
    run: &mut Run,
    batch: &Batch,
) -> Result<(), AllocError>
    requires bounded { IsBoundedQuery query.now }
    requires run { IsRunOf query.now run.old }
    ensures fed { OnOk result (Feeds query.now batch.now.rows (need_in wants.old) run.old (need_in wants.new) run.new) }
    ensures run { OnOk result (IsRunOf query.now run.new) }
{
    let mut row = Vec::new(alloc);
    for i in 0..batch.len() {
        batch.copy_row(alloc, i, &mut row)?;
        feed(alloc, query, wants, run, row.as_slice())?;
    }
    Ok(())
}

/// The same, in the columns of the batch where the run takes them.
fn feed_batch(
    alloc: Global,
    query: &BoundQuery,
    wants: &mut Wants,
    run: &mut Run,
    batch: &Batch,
) -> Result<(), AllocError>
    requires bounded { IsBoundedQuery query.now }
    requires run { IsRunOf query.now run.old }
    ensures fed { OnOk result (Feeds query.now batch.now.rows (need_in wants.old) run.old (need_in wants.new) run.new) }
    ensures run { OnOk result (IsRunOf query.now run.new) }
{
    if feed_columns(alloc, query, wants, run, batch)? {
        return Ok(());
    }
    feed_each(alloc, query, wants, run, batch)
}

/// The same with the rows of a projection that are visible at an epoch, made for the table's columns: for each of these `places` has its
/// place in the projection, if it is needed. Rows that lie out of the bounds may be passed over. No more than a batch of them is held. Each block
/// that is read is a step, of no more than a scan takes within these bounds.
pub fn feed_scan<D: Disk, L: Ledger>(
    alloc: Global,
    query: &BoundQuery,
    store: &ProjStore,
    epoch: u64,
    places: Vec<Option<usize>>,
    bounds: Vec<Bound>,
    wants: Wants,
    run: &mut Run,
    disk: &mut D,
    steps: &mut Steps<L>,
) -> Result<(), StoreFault>
    requires bounded { IsBoundedQuery query.now }
    requires own { AreOwn store.now.stored.entry places.items }
    requires run { IsRunOf query.now run.old }
    ensures fed { OnOk result ((m : Contents) → D.holds disk.old ≡ Some m → (rows : List Stamped) → Stores m store.now.stored rows → TakesLess query.now bounds.items (length places.items) (need_in wants) (map (placed places.items) (visible epoch rows)) run.old run.new) }
    ensures run { OnOk result (IsRunOf query.now run.new) }
    ensures unblamed { IfErr result (λ fault. (m : Contents) → D.holds disk.old ≡ Some m → (rows : List Stamped) → Stores m store.now.stored rows → IsUnblamed fault) }
    ensures blamed { IfErr result (BlamesRows store.now.stored.entry (D.holds disk.old)) }
    ensures steps { SpendsUpto (D.holds disk.old) store.now.stored (start epoch places.items bounds.items false) steps.old steps.new }
    ensures kept { D.holds disk.new ≡ D.holds disk.old }
    ensures moved { Moved ⟦<D as Disk>⟧ NoName NoName disk.old disk.new }
    ensures cause { HasCause StoreFault.Disk (D.faults disk.old) (D.faults disk.new) result }
{
    let mut wants = wants;
    let mut scan = Scan::new(epoch, places, bounds, false);
    loop {
        let batch = match scan.next(alloc, store, disk, steps) {
            Ok(Some(batch)) => batch,
            Ok(None) => return Ok(()),
            Err(fault) => return Err(fault),
        };
        match feed_batch(alloc, query, &mut wants, run, &batch) {
            Ok(()) => {}
            Err(AllocError) => return Err(StoreFault::Memory),
        }
    }
}

/// Gives rows to the run.
pub fn feed_rows(
    alloc: Global,
    query: &BoundQuery,
    run: &mut Run,
    rows: &[Row],
) -> Result<(), AllocError>
    requires bounded { IsBoundedQuery query.now }
    requires run { IsRunOf query.now run.old }
    requires rows { All IsRow rows.now }
    ensures rows { OnOk result (TakesRows query.now rows.now run.old run.new) }
    ensures run { OnOk result (IsRunOf query.now run.new) }
{
    for row in rows {
        run.take(alloc, query, row.as_slice())?;
    }
    Ok(())
}
