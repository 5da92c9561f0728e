//! The scan.

ghost use Rattle.std.specs.Prelude.{◌≡◌, ◌<◌, ◌++◌, ◌∷◌, [], if◌then◌else◌, List, length, map, filter, IfOk, IfErr, OnOk, Some, OnSome, IsSomeAnd};
ghost use Rattle.std.specs.List.{All, slice_get};
ghost use Rattle.std.specs.Option.{IfSome};
ghost use Rattle.common_laws.specs.Causes.{HasCause};
ghost use Rattle.common_laws.specs.Maps.{Contents};
ghost use Rattle.col_disk.specs.Moved.{Moved, NoName};
ghost use Rattle.col_value.specs.declared.row.Stamped.{Stamped};
ghost use Rattle.row_history.specs.History.{is_visible, visible};
ghost use Rattle.write_store.specs.Memory.{stamp, AreHeldRows};
ghost use Rattle.col_value.specs.Order.{IsRow};
ghost use Rattle.query_cover.specs.Seen.{placed};
ghost use Rattle.exec_scan.specs.Batches.{IsBatch, rows_at};
ghost use Rattle.exec_scan.specs.Counting.{Spends, SpendsUpto};
ghost use Rattle.exec_scan.specs.Opened.{IsOpening};
ghost use Rattle.col_disk.specs.Faults.{IsUnblamed};
ghost use Rattle.proj_store.specs.Reading.{BlamesRows};
ghost use Rattle.exec_scan.specs.Scanning.{AreLeft, AreOwn, AsksSame, BlamesContainerAt, Gives, HasOpenedAt, IsAtHand, IsScanOf, start, steps_left};

use crate::batch::{Batch, put_row};
use crate::opened::{Opened, open};
use crate::passing::next_needed;
use crate::reading::read_block;
use crate::shown::put_epoch;
use col_disk::{Disk, StoreFault};
use col_value::Value;
use container_blocks::{Steps, values_lie_between};
use pos_index::blocks_of;
use proj_store::ProjStore;
use row_bounds::Bound;
use std::alloc::{AllocError, Global};
use std::marker::Model;
use std::sync::ledger::Ledger;
use write_store::Held;

// How many rows in memory a batch has at most.
const ROWS: usize = 1024;

/// A scan of a projection at an epoch: which columns it reads, which bounds the rows have to lie in, whether insert epochs are told, and how
/// far it is.
#[derive(Drop)]
pub struct Scan {
    epoch: u64,
    places: Vec<Option<usize>>,
    bounds: Vec<Bound>,
    stamps: bool,
    container: usize,
    block: usize,
    opened: Option<Opened>,
    taken: usize,
}

impl Model for Scan {
    ghost use Rattle.exec_scan.specs.Scanning.{Place};

    ghost Value = { Place };

    ghost view = { λ s. record { epoch = s.epoch; places = s.places.items; bounds = s.bounds.items; stamps = s.stamps; container = s.container; block = s.block; opened = s.opened; taken = s.taken } };
}

fn is_visible(epoch: u64, row: &Held) -> bool
    ensures { result ≡ is_visible epoch (stamp row.now) }
{
    row.inserted.ins <= epoch
        && match row.del {
            Some(del) => del > epoch,
            None => true,
        }
}

/// Appends the values of a row and where they begin, if it is shown.
fn put_shown(
    alloc: Global,
    values: &mut Vec<Value>,
    starts: &mut Vec<usize>,
    shown: bool,
    row: &[Value],
    places: &[Option<usize>],
) -> Result<(), AllocError>
    requires row { IsRow row.now }
    requires batch { IsBatch (length places.now) values.old.items starts.old.items }
    ensures rows { OnOk result (rows_at (length places.now) values.new.items starts.new.items ≡ rows_at (length places.now) values.old.items starts.old.items ++ (if shown then placed places.now row.now ∷ [] else [])) }
    ensures batch { OnOk result (IsBatch (length places.now) values.new.items starts.new.items) }
{
    if shown {
        starts.push(values.len())?;
        put_row(alloc, values, row, places)?;
        return Ok(());
    }
    Ok(())
}

/// The visible ones of some rows in memory, made for the table's columns, and their insert epochs.
fn from_memory(
    alloc: Global,
    epoch: u64,
    rows: &[Held],
    places: &[Option<usize>],
) -> Result<Batch, AllocError>
    requires { AreHeldRows rows.now }
    ensures rows { IfOk result (λ b. b.rows ≡ map (placed places.now) (visible epoch (map stamp rows.now))) }
    ensures inserted { IfOk result (λ b. b.inserted ≡ map (λ a. a.ins) (filter (is_visible epoch) (map stamp rows.now))) }
{
    let mut values = Vec::new(alloc);
    let mut starts = Vec::new(alloc);
    let mut inserted = Vec::new(alloc);
    for row in rows {
        let shown = is_visible(epoch, row);
        put_epoch(&mut inserted, shown, row.inserted.ins)?;
        put_shown(
            alloc,
            &mut values,
            &mut starts,
            shown,
            row.inserted.row.as_slice(),
            places,
        )?;
    }
    Ok(Batch::of(places.len(), values, starts, inserted))
}

/// The container at hand: it is opened where that wasn't done.
fn at_hand<D: Disk>(
    alloc: Global,
    store: &ProjStore,
    container: usize,
    opened: Option<Opened>,
    places: &[Option<usize>],
    disk: &mut D,
) -> Result<Opened, StoreFault>
    requires there { container < length store.now.stored.entry.containers }
    requires own { AreOwn store.now.stored.entry places.now }
    requires opened { IfSome opened (λ o. IsSomeAnd (slice_get store.now.stored.entry.containers container) (λ k. IsOpening k.rows places.now o)) }
    ensures opening { IfOk result (λ o. IsSomeAnd (slice_get store.now.stored.entry.containers container) (λ k. IsOpening k.rows places.now o)) }
    ensures held { IfOk result (λ o. IfSome opened (HasOpenedAt store.now.stored container places.now (D.holds disk.old)) → HasOpenedAt store.now.stored container places.now (D.holds disk.old) o) }
    ensures blamed { IfErr result (BlamesContainerAt store.now.stored.entry container (D.holds disk.old)) }
    ensures kept { D.holds disk.new ≡ D.holds disk.old }
    ensures moved { Moved ⟦<D as Disk>⟧ NoName NoName disk.old disk.new }
    ensures cause { HasCause StoreFault.Disk (D.faults disk.old) (D.faults disk.new) result }
{
    match opened {
        Some(opened) => Ok(opened),
        None => {
            let shape = store.entry();
            let entry = &shape.containers.as_slice()[container];
            open(
                alloc,
                disk,
                store.indexes(),
                entry,
                shape,
                store.vector(container),
                store.fresh_marks(container),
                places,
            )
        },
    }
}

impl Scan {
    /// A scan from the beginning. For each column of the table `places` has its place in the projection, if it is needed. Rows that lie out
    /// of the bounds may be passed over. The insert epochs are told where `stamps` says so.
    pub fn new(epoch: u64, places: Vec<Option<usize>>, bounds: Vec<Bound>, stamps: bool) -> Scan
        ensures { result ≡ start epoch places.items bounds.items stamps }
    {
        Scan {
            epoch,
            places,
            bounds,
            stamps,
            container: 0,
            block: 0,
            opened: None,
            taken: 0,
        }
    }

    /// The next rows that are visible, perhaps none; None where no row is left. Blocks of rows that lie out of the bounds, as far as the
    /// indexes tell that, are passed over unread. A file of the projection is blamed only where it stores no rows. Each block that is read of
    /// a file is a step: those of the needed columns and of the epochs of a block that isn't passed over, and no others.
    pub fn next<D: Disk, L: Ledger>(
        &mut self,
        alloc: Global,
        store: &ProjStore,
        disk: &mut D,
        steps: &mut Steps<L>,
    ) -> Result<Option<Batch>, StoreFault>
        requires { IsScanOf store.now.stored.entry self.old }
        ensures scan { IfOk result (λ o. IsScanOf store.now.stored.entry self.new) }
        ensures gives { IfOk result (λ o. (m : Contents) → D.holds disk.old ≡ Some m → (left : List Stamped) → AreLeft m store.now.stored self.old left → Gives m store.now.stored self.old self.new left o) }
        ensures same { IfOk result (λ o. AsksSame self.old self.new) }
        ensures fewer { IfOk result (λ o. OnSome o (steps_left store.now.stored.entry (length store.now.stored.unsaved) self.new < steps_left store.now.stored.entry (length store.now.stored.unsaved) self.old)) }
        ensures at_hand { IfOk result (λ o. IsAtHand (D.holds disk.old) store.now.stored self.old → IsAtHand (D.holds disk.new) store.now.stored self.new) }
        ensures unblamed { IfErr result (λ fault. (m : Contents) → D.holds disk.old ≡ Some m → (left : List Stamped) → AreLeft m store.now.stored self.old left → IsUnblamed fault) }
        ensures blamed { IfErr result (λ fault. IsAtHand (D.holds disk.old) store.now.stored self.old → BlamesRows store.now.stored.entry (D.holds disk.old) fault) }
        ensures steps { IfOk result (λ o. Spends (D.holds disk.old) store.now.stored self.old self.new steps.old steps.new) }
        ensures at_most { SpendsUpto (D.holds disk.old) store.now.stored self.old steps.old steps.new }
        ensures kept { D.holds disk.new ≡ D.holds disk.old }
        ensures moved { Moved ⟦<D as Disk>⟧ NoName NoName disk.old disk.new }
        ensures cause { HasCause StoreFault.Disk (D.faults disk.old) (D.faults disk.new) result }
    {
        if self.container < store.entry().containers.as_slice().len() {
            return match self.next_block(alloc, store, disk, steps) {
                Ok(batch) => Ok(Some(batch)),
                Err(fault) => Err(fault),
            };
        }
        let rows = store.unsaved();
        if self.taken >= rows.len() {
            return Ok(None);
        }
        let upto = rows.len().min(self.taken.saturating_add(ROWS));
        match from_memory(
            alloc,
            self.epoch,
            &rows[self.taken..upto],
            self.places.as_slice(),
        ) {
            Ok(batch) => {
                self.taken = upto;
                Ok(Some(batch))
            },
            Err(AllocError) => Err(StoreFault::Memory),
        }
    }

    /// The visible rows of the next block of the container at hand that can't be passed over; none behind its last one, where the scan goes on
    /// to the next container.
    fn next_block<D: Disk, L: Ledger>(
        &mut self,
        alloc: Global,
        store: &ProjStore,
        disk: &mut D,
        steps: &mut Steps<L>,
    ) -> Result<Batch, StoreFault>
        requires there { self.old.container < length store.now.stored.entry.containers }
        requires scan { IsScanOf store.now.stored.entry self.old }
        ensures scan { IfOk result (λ b. IsScanOf store.now.stored.entry self.new) }
        ensures gives { IfOk result (λ b. (m : Contents) → D.holds disk.old ≡ Some m → (left : List Stamped) → AreLeft m store.now.stored self.old left → Gives m store.now.stored self.old self.new left (Some b)) }
        ensures same { IfOk result (λ b. AsksSame self.old self.new) }
        ensures fewer { IfOk result (λ b. steps_left store.now.stored.entry (length store.now.stored.unsaved) self.new < steps_left store.now.stored.entry (length store.now.stored.unsaved) self.old) }
        ensures at_hand { IfOk result (λ b. IsAtHand (D.holds disk.old) store.now.stored self.old → IsAtHand (D.holds disk.new) store.now.stored self.new) }
        ensures unblamed { IfErr result (λ fault. (m : Contents) → D.holds disk.old ≡ Some m → (left : List Stamped) → AreLeft m store.now.stored self.old left → IsUnblamed fault) }
        ensures blamed { IfErr result (λ fault. IsAtHand (D.holds disk.old) store.now.stored self.old → BlamesRows store.now.stored.entry (D.holds disk.old) fault) }
        ensures steps { IfOk result (λ b. Spends (D.holds disk.old) store.now.stored self.old self.new steps.old steps.new) }
        ensures at_most { SpendsUpto (D.holds disk.old) store.now.stored self.old steps.old steps.new }
        ensures kept { D.holds disk.new ≡ D.holds disk.old }
        ensures moved { Moved ⟦<D as Disk>⟧ NoName NoName disk.old disk.new }
        ensures cause { HasCause StoreFault.Disk (D.faults disk.old) (D.faults disk.new) result }
    {
        values_lie_between();
        let opened = self.opened.take();
        let opened = match at_hand(
            alloc,
            store,
            self.container,
            opened,
            self.places.as_slice(),
            disk,
        ) {
            Ok(opened) => opened,
            Err(fault) => return Err(fault),
        };
        let shape = store.entry();
        let entry = &shape.containers.as_slice()[self.container];
        let count = blocks_of(entry.rows) as usize;
        let block = next_needed(self.bounds.as_slice(), &opened, self.block, count);
        if block >= count {
            self.container += 1;
            self.block = 0;
            return Ok(Batch::empty(alloc));
        }
        let batch = match read_block(
            alloc,
            disk,
            entry,
            shape,
            &opened,
            self.places.as_slice(),
            self.bounds.as_slice(),
            block,
            self.epoch,
            self.stamps,
            steps,
        ) {
            Ok(batch) => batch,
            Err(fault) => return Err(fault),
        };
        self.opened = Some(opened);
        self.block = block + 1;
        Ok(batch)
    }
}
