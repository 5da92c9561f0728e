//! The rows of the FROM items.

ghost use Rattle.std.specs.Prelude.{◌≡◌, ◌<◌, ◌∷◌, [], true, Contains, List as Items, Some, drop, map, IfOk, IfErr, OnOk};
ghost use Rattle.std.specs.List.{All, AllZip};
ghost use Rattle.std.specs.Option.{IfSome};
ghost use Rattle.common_laws.specs.Causes.{HasCause};
ghost use Rattle.common_laws.specs.Maps.{Contents};
ghost use Rattle.col_disk.specs.Moved.{Moved, NoName};
ghost use Rattle.col_value.specs.Order.{IsRow};
ghost use Rattle.col_value.specs.declared.value.Value.{Value as Item};
ghost use Rattle.sql_bound.specs.Outputs.{is_kept};
ghost use Rattle.row_bounds.specs.Bounds.{within};
ghost use Rattle.row_bounds.specs.Setting.{IsSet};
ghost use Rattle.row_bounds.specs.declared.bound.Bound.{Bound as Within};
ghost use Rattle.db_model.specs.Database.{Database};
ghost use Rattle.query_laws.specs.Bounded.{IsBoundedQuery};
ghost use Rattle.query_run.specs.Runs.{IsRunOf};
ghost use Rattle.col_disk.specs.Faults.{IsUnblamed};
ghost use Rattle.table_store.specs.Faults.{BlamesStored};
ghost use Rattle.store_query.specs.Counting.{Counts};
ghost use Rattle.store_query.specs.Feeding.{HasRead, TakesItem};
ghost use Rattle.store_query.specs.Lessening.{cleared, deletes_of, HasChanges};
ghost use Rattle.store_query.specs.Reading.{epoch_of, pending_of, IsOver, IsRead, Suffice};
ghost use Rattle.store_query.specs.Taking.{IsTaken};

use crate::feeding::{feed_rows, feed_scan};
use crate::gathering::scan_within;
use crate::lessening::{deletes_of, wants_of, without_deletes};
use crate::methods::{group_of, join_of};
use crate::pending::{add_rows, pending_of};
use crate::places::places_of;
use col_disk::{Disk, StoreFault};
use col_value::{List, Row};
use common_laws::Steps;
use plan_choice::choose;
use proj_store::ProjStore;
use query_run::Run;
use row_bounds::{Bound, bounds_from};
use sql_bound::{BoundQuery, FromItem};
use sql_tree::At;
use std::alloc::{AllocError, Global};
use std::sync::ledger::Ledger;
use table_store::TableStore;
use txn_core::Session;

/// The epoch up to which rows are read; for one that isn't closed it is the newest.
fn epoch_of(at: At, last: u64) -> u64
    ensures { result ≡ epoch_of at last }
{
    match at {
        At::View => last,
        At::Latest => last,
        At::Epoch(n) => n.min(u128::from(last)) as u64,
    }
}

/// The projection that the choice says for a FROM item. It takes no memory.
fn projection_for<'a>(
    tables: &'a TableStore,
    query: &BoundQuery,
    item: FromItem,
) -> Option<&'a ProjStore>
    ensures { IfSome result (λ p. IsTaken tables.now query.now item p.now.stored) }
{
    let Some(table) = tables.root().tables.as_slice().get(item.table) else {
        return None;
    };
    let Some(parts) = tables.tables().get(item.table) else {
        return None;
    };
    let Some(place) = choose(query, item, table.projections.as_slice()) else {
        return None;
    };
    let Some(store) = parts.as_slice().get(place) else {
        return None;
    };
    Some(store)
}

/// Rows of a FROM item's table as a scan made them, with the session's changes where its view is read: without those that it deletes, and
/// then its pending ones.
fn with_changes(
    alloc: Global,
    tables: &TableStore,
    changes: &Session,
    at: At,
    item: FromItem,
    places: &[Option<usize>],
    rows: Vec<Row>,
) -> Result<Vec<Row>, AllocError>
    requires { All IsRow rows.items }
    ensures changed { IfOk result (λ v. HasChanges (map (λ a. cleared places.now a.row) (deletes_of at tables.now.catalogue.tables changes.now item)) (pending_of at tables.now.catalogue.tables changes.now item) rows.items v.items) }
    ensures valid { IfOk result (λ v. All IsRow v.items) }
{
    let deletes = deletes_of(tables, changes, at, item);
    let mut rows = without_deletes(alloc, rows, deletes, places)?;
    add_rows(alloc, &mut rows, pending_of(tables, changes, at, item))?;
    Ok(rows)
}

/// The bounds that the conditions set to the columns of a FROM item.
fn bounds_for(alloc: Global, query: &BoundQuery, item: FromItem) -> Result<Vec<Bound>, AllocError>
    ensures own { IfOk result (λ v. All (λ b. b.column < item.columns) v.items) }
    ensures kept { IfOk result (λ v. (row : Items Item) → is_kept query.now.keep row ≡ true → within v.items (drop item.first row) ≡ true) }
    ensures set { IfOk result (λ v. (b : Within) → IsSet query.now.keep item.first item.columns b → Contains v.items b) }
{
    bounds_from(alloc, query.keep.as_slice(), item.first, item.columns)
}

/// The rows that a query reads of a FROM item's table: those of the chosen projection, but for some that lie out of the bounds of the
/// conditions, with the session's changes.
fn rows_of_item<D: Disk, L: Ledger>(
    alloc: Global,
    tables: &TableStore,
    changes: &Session,
    at: At,
    query: &BoundQuery,
    item: FromItem,
    disk: &mut D,
    steps: &mut Steps<L>,
) -> Result<Vec<Row>, StoreFault>
    ensures suffice { IfOk result (λ v. (m : Contents) → D.holds disk.old ≡ Some m → (d : Database) → IsRead m tables.now changes.now at d → Suffice at changes.now query.now d item v.items) }
    ensures valid { IfOk result (λ v. All IsRow v.items) }
    ensures unblamed { IfErr result (λ fault. (m : Contents) → D.holds disk.old ≡ Some m → (d : Database) → IsRead m tables.now changes.now at d → IsOver d.tables item → IsUnblamed fault) }
    ensures blamed { IfErr result (BlamesStored tables.now.stores (D.holds disk.old)) }
    ensures steps { Counts (D.holds disk.old) tables.now query.now (item ∷ []) steps.old steps.new }
    ensures kept { D.holds disk.new ≡ D.holds disk.old }
    ensures moved { Moved ⟦<D as Disk>⟧ NoName NoName disk.old disk.new }
    ensures cause { HasCause StoreFault.Disk (D.faults disk.old) (D.faults disk.new) result }
{
    let Some(store) = projection_for(tables, query, item) else {
        return Err(StoreFault::Memory);
    };
    let columns = store.entry().columns.as_slice();
    let places = match places_of(alloc, query, item, columns) {
        Ok(places) => places,
        Err(AllocError) => return Err(StoreFault::Memory),
    };
    let scanned = match Vec::from_slice(alloc, places.as_slice()) {
        Ok(scanned) => scanned,
        Err(AllocError) => return Err(StoreFault::Memory),
    };
    let bounds = match bounds_for(alloc, query, item) {
        Ok(bounds) => bounds,
        Err(AllocError) => return Err(StoreFault::Memory),
    };
    let epoch = epoch_of(at, tables.last());
    let rows = match scan_within(alloc, store, epoch, scanned, bounds, disk, steps) {
        Ok(rows) => rows,
        Err(fault) => return Err(fault),
    };
    match with_changes(alloc, tables, changes, at, item, places.as_slice(), rows) {
        Ok(rows) => Ok(rows),
        Err(AllocError) => Err(StoreFault::Memory),
    }
}

/// Gives a run what a query reads of a FROM item's table, of which none but a batch is held: the rows of the chosen projection, but for those
/// that lie out of the bounds of the conditions, as far as blocks of them can be passed over, and for those that the session deletes; and
/// then its pending ones.
fn feed_item<D: Disk, L: Ledger>(
    alloc: Global,
    tables: &TableStore,
    changes: &Session,
    at: At,
    query: &BoundQuery,
    item: FromItem,
    run: &mut Run,
    disk: &mut D,
    steps: &mut Steps<L>,
) -> Result<(), StoreFault>
    requires bounded { IsBoundedQuery query.now }
    requires run { IsRunOf query.now run.old }
    ensures taken { OnOk result ((m : Contents) → D.holds disk.old ≡ Some m → (d : Database) → IsRead m tables.now changes.now at d → IsOver d.tables item → TakesItem at changes.now query.now d item run.old run.new) }
    ensures run { OnOk result (IsRunOf query.now run.new) }
    ensures unblamed { IfErr result (λ fault. (m : Contents) → D.holds disk.old ≡ Some m → (d : Database) → IsRead m tables.now changes.now at d → IsOver d.tables item → IsUnblamed fault) }
    ensures blamed { IfErr result (BlamesStored tables.now.stores (D.holds disk.old)) }
    ensures steps { Counts (D.holds disk.old) tables.now query.now (item ∷ []) steps.old steps.new }
    ensures kept { D.holds disk.new ≡ D.holds disk.old }
    ensures moved { Moved ⟦<D as Disk>⟧ NoName NoName disk.old disk.new }
    ensures cause { HasCause StoreFault.Disk (D.faults disk.old) (D.faults disk.new) result }
{
    let Some(store) = projection_for(tables, query, item) else {
        return Err(StoreFault::Memory);
    };
    let columns = store.entry().columns.as_slice();
    let places = match places_of(alloc, query, item, columns) {
        Ok(places) => places,
        Err(AllocError) => return Err(StoreFault::Memory),
    };
    let deletes = deletes_of(tables, changes, at, item);
    let wants = match wants_of(alloc, deletes, places.as_slice()) {
        Ok(wants) => wants,
        Err(AllocError) => return Err(StoreFault::Memory),
    };
    let bounds = match bounds_for(alloc, query, item) {
        Ok(bounds) => bounds,
        Err(AllocError) => return Err(StoreFault::Memory),
    };
    let epoch = epoch_of(at, tables.last());
    match feed_scan(
        alloc, query, store, epoch, places, bounds, wants, run, disk, steps,
    ) {
        Ok(()) => {}
        Err(fault) => return Err(fault),
    }
    match feed_rows(alloc, query, run, pending_of(tables, changes, at, item)) {
        Ok(()) => Ok(()),
        Err(AllocError) => Err(StoreFault::Memory),
    }
}

/// The rows that a query reads of each of these FROM items, but for some on which no tuple is kept.
fn rows_of_items<D: Disk, L: Ledger>(
    alloc: Global,
    tables: &TableStore,
    changes: &Session,
    at: At,
    query: &BoundQuery,
    items: &[FromItem],
    disk: &mut D,
    steps: &mut Steps<L>,
) -> Result<Vec<List<Row>>, StoreFault>
    ensures suffice { IfOk result (λ v. (m : Contents) → D.holds disk.old ≡ Some m → (d : Database) → IsRead m tables.now changes.now at d → AllZip (Suffice at changes.now query.now d) items.now v.items) }
    ensures valid { IfOk result (λ v. All (All IsRow) v.items) }
    ensures unblamed { IfErr result (λ fault. (m : Contents) → D.holds disk.old ≡ Some m → (d : Database) → IsRead m tables.now changes.now at d → All (IsOver d.tables) items.now → IsUnblamed fault) }
    ensures blamed { IfErr result (BlamesStored tables.now.stores (D.holds disk.old)) }
    ensures steps { Counts (D.holds disk.old) tables.now query.now items.now steps.old steps.new }
    ensures kept { D.holds disk.new ≡ D.holds disk.old }
    ensures moved { Moved ⟦<D as Disk>⟧ NoName NoName disk.old disk.new }
    ensures cause { HasCause StoreFault.Disk (D.faults disk.old) (D.faults disk.new) result }
{
    let mut out = Vec::new(alloc);
    for item in items {
        let rows = match rows_of_item(alloc, tables, changes, at, query, *item, disk, steps) {
            Ok(rows) => rows,
            Err(fault) => return Err(fault),
        };
        match out.push(List::new(rows)) {
            Ok(()) => {}
            Err(_) => return Err(StoreFault::Memory),
        }
    }
    Ok(out)
}

/// A run of a query to which all that the query reads of its FROM items has come: the rows of the first one by one, when it holds those
/// of the others.
pub fn run_of<D: Disk, L: Ledger>(
    alloc: Global,
    tables: &TableStore,
    changes: &Session,
    at: At,
    query: &BoundQuery,
    first: FromItem,
    others: &[FromItem],
    disk: &mut D,
    steps: &mut Steps<L>,
) -> Result<Run, StoreFault>
    requires bounded { IsBoundedQuery query.now }
    ensures read { IfOk result (λ run. (m : Contents) → D.holds disk.old ≡ Some m → (d : Database) → IsRead m tables.now changes.now at d → All (IsOver d.tables) (first ∷ others.now) → HasRead at changes.now query.now d (first ∷ others.now) run) }
    ensures run { IfOk result (IsRunOf query.now) }
    ensures unblamed { IfErr result (λ fault. (m : Contents) → D.holds disk.old ≡ Some m → (d : Database) → IsRead m tables.now changes.now at d → All (IsOver d.tables) (first ∷ others.now) → IsUnblamed fault) }
    ensures blamed { IfErr result (BlamesStored tables.now.stores (D.holds disk.old)) }
    ensures steps { Counts (D.holds disk.old) tables.now query.now (first ∷ others.now) steps.old steps.new }
    ensures kept { D.holds disk.new ≡ D.holds disk.old }
    ensures moved { Moved ⟦<D as Disk>⟧ NoName NoName disk.old disk.new }
    ensures cause { HasCause StoreFault.Disk (D.faults disk.old) (D.faults disk.new) result }
{
    let more = match rows_of_items(alloc, tables, changes, at, query, others, disk, steps) {
        Ok(more) => more,
        Err(fault) => return Err(fault),
    };
    let join = join_of(tables, query, first, others);
    let group = group_of(tables, query, first);
    let mut run = match Run::new(alloc, query, join, group, more) {
        Ok(run) => run,
        Err(AllocError) => return Err(StoreFault::Memory),
    };
    match feed_item(
        alloc, tables, changes, at, query, first, &mut run, disk, steps,
    ) {
        Ok(()) => Ok(run),
        Err(fault) => Err(fault),
    }
}
