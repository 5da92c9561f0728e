//! What a commit deletes.

ghost use Rattle.std.specs.Prelude.{◌≡◌, Some, length, map, IfOk, IfErr, OnOk};
ghost use Rattle.std.specs.List.{AllZip};
ghost use Rattle.common_laws.specs.Causes.{HasCause};
ghost use Rattle.common_laws.specs.Maps.{Contents};
ghost use Rattle.col_disk.specs.Moved.{Moved, NoName};
ghost use Rattle.wanted_rows.specs.Wanted.{need_in};
ghost use Rattle.proj_store.specs.Loaded.{beside_of, room_of};
ghost use Rattle.proj_store.specs.Sound.{IsSound};
ghost use Rattle.proj_store.specs.Reading.{BlamesRows};
ghost use Rattle.proj_store.specs.Marking.{with_marks, ArePlaces, HasRoom, PicksAll, Finds, IsPrepared, CanMark};

use super::ProjStore;
use crate::kept::Kept;
use crate::marking::{mark_all, reserve_all};
use crate::picks::pick_each;
use catalog_types::Projection;
use col_disk::{Disk, StoreFault};
use col_value::{Asked, List};
use std::alloc::{AllocError, Global};
use std::marker::Model;
use wanted_rows::{Wants, pick};
use write_store::Held;

/// Places of the rows that a commit deletes: of each container, and of the rows in memory.
#[derive(Drop)]
pub struct Marks {
    each: Vec<List<usize>>,
    unsaved: Vec<usize>,
}

impl Model for Marks {
    ghost use Rattle.proj_store.specs.Marking.{Places, places};

    ghost Value = { Places };

    ghost view = { λ r. places r.each.items r.unsaved.items };
}

/// Picks rows that are wanted: of the containers, and then of those in memory.
fn pick_all<D: Disk>(
    alloc: Global,
    disk: &mut D,
    entry: &Projection,
    kept: &[Kept],
    unsaved: &[Held],
    wants: &mut Wants,
) -> Result<Marks, StoreFault>
    requires { IsSound entry.now (map beside_of kept.now) }
    ensures picked { IfOk result (λ ready. PicksAll (D.holds disk.old) entry.now (map beside_of kept.now) unsaved.now ready (need_in wants.old) (need_in wants.new)) }
    ensures inside { IfOk result (λ ready. AllZip ArePlaces entry.now.containers ready.each) }
    ensures blamed { IfErr result (BlamesRows entry.now (D.holds disk.old)) }
    ensures kept { D.holds disk.new ≡ D.holds disk.old }
    ensures moved { Moved ⟦<D as Disk>⟧ NoName NoName disk.old disk.new }
    ensures cause { HasCause StoreFault.Disk (D.faults disk.old) (D.faults disk.new) result }
{
    let each = match pick_each(alloc, disk, entry, kept, wants) {
        Ok(each) => each,
        Err(fault) => return Err(fault),
    };
    match pick(alloc, unsaved, wants) {
        Ok(unsaved) => Ok(Marks { each, unsaved }),
        Err(AllocError) => Err(StoreFault::Memory),
    }
}

/// Picks these rows.
fn find_marks<D: Disk>(
    alloc: Global,
    disk: &mut D,
    entry: &Projection,
    kept: &[Kept],
    unsaved: &[Held],
    wanted: Vec<Asked>,
) -> Result<Marks, StoreFault>
    requires { IsSound entry.now (map beside_of kept.now) }
    ensures found { IfOk result (λ ready. Finds (D.holds disk.old) entry.now (map beside_of kept.now) unsaved.now wanted.items ready) }
    ensures inside { IfOk result (λ ready. AllZip ArePlaces entry.now.containers ready.each) }
    ensures blamed { IfErr result (BlamesRows entry.now (D.holds disk.old)) }
    ensures kept { D.holds disk.new ≡ D.holds disk.old }
    ensures moved { Moved ⟦<D as Disk>⟧ NoName NoName disk.old disk.new }
    ensures cause { HasCause StoreFault.Disk (D.faults disk.old) (D.faults disk.new) result }
{
    let mut wants = match Wants::new(alloc, wanted) {
        Ok(wants) => wants,
        Err(AllocError) => return Err(StoreFault::Memory),
    };
    match pick_all(alloc, disk, entry, kept, unsaved, &mut wants) {
        Ok(ready) => Ok(ready),
        Err(fault) => Err(fault),
    }
}

/// The same places, for whose marks there is room.
fn with_room(kept: &mut Vec<Kept>, ready: Marks) -> Result<Marks, AllocError>
    requires { length ready.each ≡ length kept.old.items }
    ensures same { IfOk result (λ r. r ≡ ready) }
    ensures beside { map beside_of kept.new.items ≡ map beside_of kept.old.items }
    ensures room { OnOk result (AllZip HasRoom ready.each (map room_of kept.new.items)) }
{
    match reserve_all(kept, ready.each.as_slice()) {
        Ok(()) => Ok(ready),
        Err(AllocError) => Err(AllocError),
    }
}

impl ProjStore {
    /// Finds the rows that a commit deletes, by their values and insert epochs, and makes room for their marks; nothing else changes.
    /// The places are distinct, none of them is deleted, and where what is wanted lies within the rows that aren't deleted, their rows
    /// are exactly that. `Damaged` names a file of a container that holds no rows.
    pub fn prepare_marks<D: Disk>(
        &mut self,
        alloc: Global,
        disk: &mut D,
        wanted: Vec<Asked>,
    ) -> Result<Marks, StoreFault>
        ensures prepared { IfOk result (λ ready. (m : Contents) → D.holds disk.old ≡ Some m → IsPrepared m self.old.stored wanted.items ready) }
        ensures ready { IfOk result (λ ready. CanMark ready self.new) }
        ensures stored { self.new.stored ≡ self.old.stored }
        ensures spare { self.new.spare ≡ self.old.spare }
        ensures blamed { IfErr result (BlamesRows self.old.stored.entry (D.holds disk.old)) }
        ensures kept { D.holds disk.new ≡ D.holds disk.old }
        ensures moved { Moved ⟦<D as Disk>⟧ NoName NoName disk.old disk.new }
        ensures cause { HasCause StoreFault.Disk (D.faults disk.old) (D.faults disk.new) result }
    {
        let (kept, unsaved) = (self.kept.as_slice(), self.unsaved.rows());
        let found = match find_marks(alloc, disk, &self.entry, kept, unsaved, wanted) {
            Ok(found) => found,
            Err(fault) => return Err(fault),
        };
        let ready = match with_room(&mut self.kept, found) {
            Ok(ready) => ready,
            Err(AllocError) => return Err(StoreFault::Memory),
        };
        Ok(ready)
    }

    /// The rows at the places that were prepared are deleted, by the epoch of a commit. It takes no memory.
    pub fn apply_marks(&mut self, ready: Marks, epoch: u64)
        requires { CanMark ready self.old }
        ensures stored { self.new.stored ≡ with_marks epoch ready self.old.stored }
        ensures spare { self.new.spare ≡ self.old.spare }
    {
        let Marks { each, unsaved } = ready;
        mark_all(&mut self.kept, each.as_slice(), epoch);
        self.unsaved.mark_each(unsaved.as_slice(), epoch);
    }
}
