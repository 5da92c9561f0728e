//! The projections of a table.

ghost use Rattle.std.specs.Prelude.{◌≡◌, ◌≤◌, ◌<◌, ◌∷◌, [], true, Some, length, slice_set, IfErr, IfOk, IfSome, OnOk, OnErr};
ghost use Rattle.std.specs.List.{All, AllZip, insert, remove};
ghost use Rattle.common_laws.specs.Causes.{HasCause};
ghost use Rattle.common_laws.specs.Maps.{Contents};
ghost use Rattle.col_disk.specs.Moved.{Moved, NoName};
ghost use Rattle.col_value.specs.Order.{IsRow};
ghost use Rattle.sound_laws.specs.Moves.{change_at};
ghost use Rattle.table_store.specs.Held.{projections_of};
ghost use Rattle.table_store.specs.Creating.{bare};
ghost use Rattle.table_store.specs.Changing.{all_applied, all_coming, is_at, with_coming, AreWholeAt, CanApply, IsReady};
ghost use Rattle.col_disk.specs.Faults.{IsUnblamed};
ghost use Rattle.table_store.specs.Faults.{BlamesParts, IsReadable};

mod columns;

use crate::part::{ReadyPart, apply_part, can_take, prepare_part, with_coming};
use catalog_types::Projection;
use col_disk::{Disk, StoreFault};
use col_value::{Asked, List, Row};
use proj_store::ProjStore;
use std::alloc::{AllocError, Global};
use std::marker::Model;

/// The projections of a table, in the catalogue's order.
#[derive(Drop)]
pub struct Parts {
    projections: Vec<ProjStore>,
}

impl Model for Parts {
    ghost use Rattle.std.specs.Prelude.{List};
    ghost use Rattle.proj_store.specs.Loaded.{Loaded};

    ghost Value = { List Loaded };

    ghost view = { λ t. t.projections.items };
}

/// What a commit does to the projections of a table, and which one of them takes the rows of the table themselves.
#[derive(Drop)]
pub struct ReadyTable {
    pub parts: List<Option<ReadyPart>>,
    pub taker: Option<usize>,
}

impl Parts {
    /// These projections. It takes no memory.
    pub fn new(projections: Vec<ProjStore>) -> Parts
        ensures { result ≡ projections.items }
    {
        Parts { projections }
    }

    /// The one projection of an entry without containers, without rows in memory.
    pub fn bare(alloc: Global, entry: Projection) -> Result<Parts, AllocError>
        requires none { entry.containers ≡ [] }
        requires sort { All (λ i. i < length entry.columns) entry.sort }
        ensures { IfOk result (λ t. projections_of t ≡ bare entry ∷ []) }
    {
        let mut projections = Vec::with_capacity(alloc, 1)?;
        projections.push(ProjStore::bare(alloc, entry))?;
        Ok(Parts { projections })
    }

    /// The projections.
    pub fn as_slice(&self) -> &[ProjStore]
        ensures { result.now ≡ self.now }
    {
        self.projections.as_slice()
    }

    /// The projection at a place is another one from now on. It takes no memory.
    pub fn replace(&mut self, place: usize, projection: ProjStore)
        requires { place < length self.old }
        ensures { self.new ≡ slice_set self.old place projection }
    {
        self.projections[place] = projection;
    }

    /// A projection takes its place.
    pub fn insert(&mut self, place: usize, projection: ProjStore) -> Result<(), AllocError>
        requires { place ≤ length self.old }
        ensures put { OnOk result (self.new ≡ insert self.old place projection) }
        ensures same { OnErr result (self.new ≡ self.old) }
    {
        match self.projections.insert(place, projection) {
            Ok(()) => Ok(()),
            Err(_) => Err(AllocError),
        }
    }

    /// The projection at a place goes. It takes no memory.
    pub fn remove(&mut self, place: usize)
        requires { place < length self.old }
        ensures { self.new ≡ remove self.old place }
    {
        self.projections.remove(place);
    }

    /// Makes ready what a commit of these rows and deletes of the table does to each projection; nothing changes but the room. The rows
    /// are copied for each but the one that takes them.
    pub fn prepare<D: Disk>(
        &mut self,
        alloc: Global,
        disk: &mut D,
        rows: &[Row],
        deletes: &[Asked],
    ) -> Result<ReadyTable, StoreFault>
        requires { All IsRow rows.now }
        ensures prepared { IfOk result (λ v. (m : Contents) → D.holds disk.old ≡ Some m → AllZip (IsReady m rows.now deletes.now) (projections_of self.old) (all_coming v.taker rows.now v.parts)) }
        ensures ready { IfOk result (λ v. AllZip CanApply (all_coming v.taker rows.now v.parts) self.new) }
        ensures stored { projections_of self.new ≡ projections_of self.old }
        ensures unblamed { IfErr result (λ fault. (m : Contents) → D.holds disk.old ≡ Some m → All (IsReadable m) (projections_of self.old) → IsUnblamed fault) }
        ensures blamed { IfErr result (BlamesParts (projections_of self.old) (D.holds disk.old)) }
        ensures kept { D.holds disk.new ≡ D.holds disk.old }
        ensures moved { Moved ⟦<D as Disk>⟧ NoName NoName disk.old disk.new }
        ensures cause { HasCause StoreFault.Disk (D.faults disk.old) (D.faults disk.new) result }
    {
        let taker = taker_of(self.projections.as_slice(), rows);
        let stores = self.projections.as_mut_slice();
        let ready = match prepare_each(alloc, disk, stores, rows, deletes, taker) {
            Ok(ready) => ready,
            Err(fault) => return Err(fault),
        };
        Ok(ReadyTable {
            parts: List::new(ready),
            taker,
        })
    }

    /// Does to each projection what was made ready, with these rows of the table, at an epoch. It takes no memory.
    pub fn apply(&mut self, ready: ReadyTable, rows: Vec<Row>, epoch: u64)
        requires valid { All IsRow rows.items }
        requires room { AllZip CanApply (all_coming ready.taker rows.items ready.parts) self.old }
        ensures { projections_of self.new ≡ all_applied epoch (all_coming ready.taker rows.items ready.parts) (projections_of self.old) }
    {
        let ReadyTable { parts, taker } = ready;
        let parts = all_coming(parts.into_vec(), taker, rows);
        apply_each(self.projections.as_mut_slice(), parts, epoch);
    }
}

/// The last projection that can take rows of the table themselves.
fn taker_of(stores: &[ProjStore], rows: &[Row]) -> Option<usize>
    ensures { IfSome result (AreWholeAt rows.now (projections_of stores.now)) }
{
    let mut place = stores.len();
    while place > 0 {
        place -= 1;
        if can_take(&stores[place], rows) {
            return Some(place);
        }
    }
    None
}

fn is_at(taker: Option<usize>, place: usize) -> bool
    ensures { result ≡ is_at taker place }
{
    match taker {
        Some(other) => other == place,
        None => false,
    }
}

fn prepare_each<D: Disk>(
    alloc: Global,
    disk: &mut D,
    stores: &mut [ProjStore],
    rows: &[Row],
    deletes: &[Asked],
    taker: Option<usize>,
) -> Result<Vec<Option<ReadyPart>>, StoreFault>
    requires valid { All IsRow rows.now }
    requires whole { IfSome taker (AreWholeAt rows.now (projections_of stores.old)) }
    ensures prepared { IfOk result (λ v. (m : Contents) → D.holds disk.old ≡ Some m → AllZip (IsReady m rows.now deletes.now) (projections_of stores.old) (all_coming taker rows.now v.items)) }
    ensures ready { IfOk result (λ v. AllZip CanApply (all_coming taker rows.now v.items) stores.new) }
    ensures stored { projections_of stores.new ≡ projections_of stores.old }
    ensures unblamed { IfErr result (λ fault. (m : Contents) → D.holds disk.old ≡ Some m → All (IsReadable m) (projections_of stores.old) → IsUnblamed fault) }
    ensures blamed { IfErr result (BlamesParts (projections_of stores.old) (D.holds disk.old)) }
    ensures kept { D.holds disk.new ≡ D.holds disk.old }
    ensures moved { Moved ⟦<D as Disk>⟧ NoName NoName disk.old disk.new }
    ensures cause { HasCause StoreFault.Disk (D.faults disk.old) (D.faults disk.new) result }
{
    let mut ready = Vec::new(alloc);
    for i in 0..stores.len() {
        let takes = is_at(taker, i);
        let part = match prepare_part(alloc, disk, &mut stores[i], rows, deletes, takes) {
            Ok(part) => part,
            Err(fault) => return Err(fault),
        };
        match ready.push(part) {
            Ok(()) => {}
            Err(_) => return Err(StoreFault::Memory),
        }
    }
    Ok(ready)
}

fn put_coming(parts: &mut [Option<ReadyPart>], place: usize, rows: Vec<Row>)
    requires { All IsRow rows.items }
    ensures { parts.new ≡ change_at place (with_coming true rows.items) parts.old }
{
    if place < parts.len() {
        let part = std::mem::replace(&mut parts[place], None);
        parts[place] = with_coming(part, rows);
    }
}

/// What is ready for each projection, where the one that takes the rows has them.
fn all_coming(
    parts: Vec<Option<ReadyPart>>,
    taker: Option<usize>,
    rows: Vec<Row>,
) -> Vec<Option<ReadyPart>>
    requires { All IsRow rows.items }
    ensures { result.items ≡ all_coming taker rows.items parts.items }
{
    let mut parts = parts;
    match taker {
        Some(place) => put_coming(parts.as_mut_slice(), place, rows),
        None => {}
    }
    parts
}

fn apply_each(stores: &mut [ProjStore], ready: Vec<Option<ReadyPart>>, epoch: u64)
    requires { AllZip CanApply ready.items stores.old }
    ensures { projections_of stores.new ≡ all_applied epoch ready.items (projections_of stores.old) }
{
    let mut rest = ready;
    while let Some(part) = rest.pop() {
        apply_part(&mut stores[rest.len()], part, epoch);
    }
}
