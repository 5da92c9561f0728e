//! The steps of the mover.

ghost use Rattle.std.specs.Prelude.{◌≡◌, ◌≤◌, ◌<◌, ◌+◌, ◌++◌, ◌∷◌, ◌⊎◌, ℕ, List, [], false, filter, get_or, length, nat_le, None, Some, Contains, MatchOption, IfErr, IfNone, IfOk, IfSome, OnErr, OnOk, IsSomeAnd, IsTrue};
ghost use Rattle.std.specs.Bool.{OnFalse, OnTrue};
ghost use Rattle.std.specs.List.{All, slice_get};
ghost use Rattle.common_laws.specs.Causes.{HasCause};
ghost use Rattle.col_disk.specs.Faults.{IsUnblamed as IsUnblamedStore};
ghost use Rattle.col_disk.specs.Moved.{Moved, NoName};
ghost use Rattle.col_disk.specs.declared.disk.StoreFault.TheVariants.{Memory as no_memory};
ghost use Rattle.db_model.specs.Database.{Database};
ghost use Rattle.db_model.specs.Events.{is_not_named};
ghost use Rattle.db_model.specs.Numbers.{are_spent};
ghost use Rattle.db_model.specs.State.{State};
ghost use Rattle.store_core.specs.Events.{Does};
ghost use Rattle.store_core.specs.Named.{NamesHeld};
ghost use Rattle.store_core.specs.Running.{unworked, HasWork, IsState};
ghost use Rattle.mover_policy.specs.First.{projection_at};
ghost use Rattle.store_core.specs.Stepping.{all_stale, is_behind, is_less, stale_in, with_asked, Begins, BeginsAt, BeginsNext, BeginsRefresh, FinishesJob, FinishesRefresh, InstallsJob, IsLeastOf, IsStaleNamed, MergesNext, MoverStepsOf, NoneIsStale, RefreshesNamed, WaitsNot, WorksOver, WritesOneColumn};
ghost use Rattle.store_commit.specs.Seen.{Stands};
ghost use Rattle.store_core.specs.Jobs.{RefreshesAt, RisesAt};
ghost use Rattle.table_jobs.specs.Jobs.{DrawsAnew, DrawsMerged, HasReached, OfProjection};
ghost use Rattle.table_jobs.specs.Oldest.{HasFour};
ghost use Rattle.table_jobs.specs.Remaking.{IsMadeOver, IsWritten};
ghost use Rattle.table_jobs.specs.Working.{IsOfStore, IsWhole, StaysWhile};
ghost use Rattle.table_jobs.specs.declared.work.Work.TheVariants as going;
ghost use Rattle.table_store.specs.Moving.{IsFreshAt};

use super::Store;
use catalog_types::{Projection, Table};
use col_disk::{Disk, DiskFault, StoreFault};
use col_value::Name;
use mover_policy::{Merge, Place, projection_at};
use state_laws::{refreshed_states_are_sound, risen_states_are_sound};
use std::alloc::{AllocError, Global};
use table_jobs::{
    MergeWork, RefreshWork, Work, advance_work, begin_merge, begin_refresh, finish_merge,
    finish_refresh,
};

/// The names of those that aren't up to date join some.
fn add_stale(
    alloc: Global,
    out: &mut Vec<Name>,
    projections: &[Projection],
) -> Result<(), AllocError>
    ensures { OnOk result (out.new.items ≡ out.old.items ++ stale_in projections.now) }
{
    for projection in projections {
        if !projection.fresh {
            out.push(projection.name.copy(alloc)?)?;
        }
    }
    Ok(())
}

/// The names of all projections that aren't up to date.
fn all_stale(alloc: Global, tables: &[Table]) -> Result<Vec<Name>, AllocError>
    ensures { IfOk result (λ v. v.items ≡ all_stale tables.now) }
{
    let mut out = Vec::new(alloc);
    for table in tables {
        add_stale(alloc, &mut out, table.projections.as_slice())?;
    }
    Ok(out)
}

/// Whether a name is less than another, byte by byte.
fn is_less(name: &Name, other: &Name) -> bool
    ensures { result ≡ is_less name.now other.now }
{
    name.as_slice().cmp(&other.as_slice()).is_lt()
}

/// The place of the lesser of two of these names; of the first one where neither is.
fn lesser_of(names: &[Name], best: usize, place: usize) -> usize
    requires best { best < length names.now }
    requires place { place < length names.now }
    ensures within { result < length names.now }
    ensures least { (seen : List (List ℕ)) → All (λ m. is_less m (get_or names.now best []) ≡ false) seen → All (λ m. is_less m (get_or names.now result []) ≡ false) (seen ++ get_or names.now place [] ∷ []) }
{
    if is_less(&names[place], &names[best]) {
        place
    } else {
        best
    }
}

/// The place of the least of some names; there is none where there are no names.
fn least(names: &[Name]) -> Option<usize>
    ensures { MatchOption result (names.now ≡ []) (λ place. (place < length names.now) × IsLeastOf names.now (get_or names.now place [])) }
{
    if names.is_empty() {
        return None;
    }
    let mut best = 0;
    for place in 1..names.len() {
        best = lesser_of(names, best, place);
    }
    Some(best)
}

/// Whether a name is among some.
fn is_among(names: &[Name], name: &Name) -> bool
    ensures yes { OnTrue result (Contains names.now name.now) }
    ensures no { OnFalse result (All (λ n. n ≡ name.now → ⊥) names.now) }
{
    for place in 0..names.len() {
        if names[place] == *name {
            return true;
        }
    }
    false
}

/// Whether a projection isn't up to date and has this name.
fn is_stale_named(projection: &Projection, name: &Name) -> bool
    ensures yes { OnTrue result (IsStaleNamed name.now projection.now) }
    ensures no { OnFalse result (IsStaleNamed name.now projection.now → ⊥) }
{
    !projection.fresh && projection.name == *name
}

/// The place of a projection of this name among some, which isn't up to date.
fn stale_named(projections: &[Projection], name: &Name) -> Option<usize>
    ensures some { IfSome result (λ j. IsSomeAnd (slice_get projections.now j) (IsStaleNamed name.now)) }
    ensures none { IfNone result (All (λ p. IsStaleNamed name.now p → ⊥) projections.now) }
{
    for place in 0..projections.len() {
        if is_stale_named(&projections[place], name) {
            return Some(place);
        }
    }
    None
}

/// The same among those of some tables.
fn stale_place(tables: &[Table], name: &Name) -> Option<Place>
    ensures some { IfSome result (λ at. IsSomeAnd (slice_get tables.now at.table) (λ t. IsSomeAnd (slice_get t.projections at.place) (IsStaleNamed name.now))) }
    ensures none { IfNone result (NoneIsStale name.now tables.now) }
{
    for table in 0..tables.len() {
        match stale_named(tables[table].projections.as_slice(), name) {
            Some(place) => return Some(Place { table, place }),
            None => {}
        }
    }
    None
}

impl Store {
    /// START_REFRESH: all projections that aren't up to date wait for the mover. The disk isn't called.
    pub fn start_refresh(&mut self, alloc: Global) -> Result<(), AllocError>
        ensures asked { OnOk result (self.new ≡ with_asked (all_stale self.old.seen.catalogue.tables) self.old) }
        ensures kept { OnErr result (self.new ≡ self.old) }
    {
        let asked = all_stale(alloc, self.tables())?;
        self.mover.ask(asked);
        Ok(())
    }

    /// How many steps the job of the projection at a place has behind its begin: one for each column, one for the epochs, and the last one.
    fn steps_at(&self, at: Place) -> Option<usize>
        ensures fit { IfSome result (λ steps. (3 ≤ steps) × (steps ≤ 66)) }
        ensures are { IfSome result (λ steps. IsSomeAnd (projection_at self.now.seen.catalogue.tables at) (λ p. steps ≡ length p.columns + 2)) }
    {
        match projection_at(self.tables.root().tables.as_slice(), at) {
            Some(projection) => Some(projection.columns.as_slice().len() + 2),
            None => None,
        }
    }

    /// The job of the projection at a place begins.
    fn begin_at(&mut self, at: Place, refreshing: Option<Name>) -> Result<(), AllocError>
        ensures begun { OnOk result (Begins self.old self.new) }
        ensures which { OnOk result (BeginsAt at refreshing self.old self.new) }
        ensures same { OnErr result (self.new ≡ self.old) }
    {
        match self.steps_at(at) {
            Some(steps) => {
                self.mover.begin(steps, refreshing);
                Ok(())
            }
            None => Err(AllocError),
        }
    }

    /// The refresh of the projection that waits and has the least name begins, if one waits.
    fn begin_refresh(&mut self, alloc: Global) -> Result<(), AllocError>
        ensures begun { OnOk result (Begins self.old self.new) }
        ensures which { OnOk result (((self.old.mover.asked ≡ []) × (self.new ≡ self.old)) ⊎ BeginsRefresh self.old self.new) }
        ensures same { OnErr result (self.new ≡ self.old) }
    {
        let asked = self.mover.asked();
        let name = match least(asked) {
            Some(place) => asked[place].copy(alloc)?,
            None => return Ok(()),
        };
        match stale_place(self.tables.root().tables.as_slice(), &name) {
            Some(at) => self.begin_at(at, Some(name)),
            None => Err(AllocError),
        }
    }

    /// A job begins: the merge that comes next, or else a refresh, if one waits.
    fn begin_job(&mut self, alloc: Global) -> Result<(), AllocError>
        ensures begun { OnOk result (Begins self.old self.new) }
        ensures which { OnOk result (BeginsNext self.old self.new) }
        ensures same { OnErr result (self.new ≡ self.old) }
    {
        match self.next_merge() {
            Some(next) => self.begin_at(next.at, None),
            None => self.begin_refresh(alloc),
        }
    }

    /// Whether the job in flight has all steps left that one of the projection at a place has behind its begin.
    fn has_all_steps(&self, at: Place) -> bool {
        match self.steps_at(at) {
            Some(steps) => steps == self.mover.busy(),
            None => false,
        }
    }

    /// The work of the merge that comes next, where the job in flight has a step left for each column of it: the rows of its inputs are read and
    /// ordered. Where memory is short or a file is bad there is none, and the last step of the job finds what to tell.
    fn begin_merging<D: Disk>(
        &self,
        alloc: Global,
        disk: &mut D,
    ) -> Result<Option<Work>, StoreFault>
        ensures begun { IfOk result (λ work. (state : State) → IsState ⟦<D as Disk>⟧ self.now disk.old state → HasWork ⟦<D as Disk>⟧ work disk.new) }
        ensures failed { IfErr result (λ fault. fault ≡ StoreFault.Disk) }
        ensures kept { D.holds disk.new ≡ D.holds disk.old }
        ensures moved { Moved ⟦<D as Disk>⟧ NoName NoName disk.old disk.new }
        ensures cause { HasCause StoreFault.Disk (D.faults disk.old) (D.faults disk.new) result }
    {
        let next = match self.next_merge() {
            Some(next) => next,
            None => return Ok(None),
        };
        if !self.has_all_steps(next.at) {
            return Ok(None);
        }
        let at = next.at;
        match begin_merge(alloc, &self.tables, at.table, at.place, next.level, disk) {
            Ok(work) => Ok(Some(Work::Merge(work))),
            Err(StoreFault::Disk) => Err(StoreFault::Disk),
            Err(_) => Ok(None),
        }
    }

    /// The work of the refresh of the projection of a name, if it waits, where the job in flight has a step left for each column of it: the rows of
    /// its source are read and ordered. Where memory is short or a file is bad there is none, and the last step of the job finds what to tell.
    fn begin_refreshing<D: Disk>(
        &self,
        alloc: Global,
        name: &Name,
        disk: &mut D,
    ) -> Result<Option<Work>, StoreFault>
        ensures begun { IfOk result (λ work. (state : State) → IsState ⟦<D as Disk>⟧ self.now disk.old state → HasWork ⟦<D as Disk>⟧ work disk.new) }
        ensures failed { IfErr result (λ fault. fault ≡ StoreFault.Disk) }
        ensures kept { D.holds disk.new ≡ D.holds disk.old }
        ensures moved { Moved ⟦<D as Disk>⟧ NoName NoName disk.old disk.new }
        ensures cause { HasCause StoreFault.Disk (D.faults disk.old) (D.faults disk.new) result }
    {
        let at = match self.refreshed_place(name) {
            Some(at) => at,
            None => return Ok(None),
        };
        if !self.has_all_steps(at) {
            return Ok(None);
        }
        match begin_refresh(alloc, &self.tables, at.table, at.place, disk) {
            Ok(work) => Ok(Some(Work::Refresh(work))),
            Err(StoreFault::Disk) => Err(StoreFault::Disk),
            Err(_) => Ok(None),
        }
    }

    /// The work of the job in flight, which is the merge that comes next or the refresh of its projection. There is none where nothing is due, or
    /// not all steps of the job are left.
    fn begin_work<D: Disk>(&self, alloc: Global, disk: &mut D) -> Result<Option<Work>, StoreFault>
        ensures begun { IfOk result (λ work. (state : State) → IsState ⟦<D as Disk>⟧ self.now disk.old state → HasWork ⟦<D as Disk>⟧ work disk.new) }
        ensures failed { IfErr result (λ fault. fault ≡ StoreFault.Disk) }
        ensures kept { D.holds disk.new ≡ D.holds disk.old }
        ensures moved { Moved ⟦<D as Disk>⟧ NoName NoName disk.old disk.new }
        ensures cause { HasCause StoreFault.Disk (D.faults disk.old) (D.faults disk.new) result }
    {
        match self.mover.refreshing() {
            Some(name) => self.begin_refreshing(alloc, name, disk),
            None => self.begin_merging(alloc, disk),
        }
    }

    /// The work of the job in flight, which the mover has no more; it begins, if it didn't yet.
    fn next_work<D: Disk>(
        &mut self,
        alloc: Global,
        disk: &mut D,
    ) -> Result<Option<Work>, StoreFault>
        ensures begun { IfOk result (λ work. (state : State) → IsState ⟦<D as Disk>⟧ self.old disk.old state → HasWork ⟦<D as Disk>⟧ work disk.new) }
        ensures rest { self.new ≡ unworked self.old }
        ensures failed { IfErr result (λ fault. fault ≡ StoreFault.Disk) }
        ensures kept { D.holds disk.new ≡ D.holds disk.old }
        ensures moved { Moved ⟦<D as Disk>⟧ NoName NoName disk.old disk.new }
        ensures cause { HasCause StoreFault.Disk (D.faults disk.old) (D.faults disk.new) result }
    {
        match self.mover.take_work() {
            Some(work) => Ok(Some(work)),
            None => self.begin_work(alloc, disk),
        }
    }

    /// The work with the files of one column more. Where it isn't of the store any more, or memory is short, it is given up.
    fn advance_work<D: Disk>(
        &self,
        alloc: Global,
        work: Work,
        disk: &mut D,
    ) -> Result<Option<Work>, StoreFault>
        ensures goes_on { IfOk result (λ after. HasWork ⟦<D as Disk>⟧ (Some work) disk.old → HasWork ⟦<D as Disk>⟧ after disk.new) }
        ensures stays { (d : Database) → Stands ⟦<D as Disk>⟧ self.now.seen disk.old d → StaysWhile ⟦<D as Disk>⟧ self.now.seen disk.old disk.new d }
        ensures column { WritesOneColumn ⟦<D as Disk>⟧ self.now disk.old disk.new }
        ensures failed { IfErr result (λ fault. fault ≡ StoreFault.Disk) }
        ensures cause { HasCause StoreFault.Disk (D.faults disk.old) (D.faults disk.new) result }
    {
        if !work.is_of(&self.tables) {
            return Ok(None);
        }
        let mut work = work;
        match advance_work(alloc, &self.tables, &mut work, disk) {
            Ok(()) => Ok(Some(work)),
            Err(DiskFault::Memory) => Ok(None),
            Err(DiskFault::Failed) => Err(StoreFault::Disk),
        }
    }

    /// The files of one column more of what the job in flight makes.
    fn work_on<D: Disk>(&mut self, alloc: Global, disk: &mut D) -> Result<(), StoreFault>
        ensures works { (state : State) → IsState ⟦<D as Disk>⟧ self.old disk.old state → WorksOver ⟦<D as Disk>⟧ self.new disk.old disk.new result state }
        ensures rest { unworked self.new ≡ unworked self.old }
        ensures column { WritesOneColumn ⟦<D as Disk>⟧ self.old disk.old disk.new }
        ensures failed { IfErr result (λ fault. fault ≡ StoreFault.Disk) }
        ensures cause { HasCause StoreFault.Disk (D.faults disk.old) (D.faults disk.new) result }
    {
        let work = match self.next_work(alloc, disk) {
            Ok(Some(work)) => work,
            Ok(None) => return Ok(()),
            Err(fault) => return Err(fault),
        };
        match self.advance_work(alloc, work, disk) {
            Ok(Some(work)) => {
                self.mover.put_work(work);
                Ok(())
            }
            Ok(None) => Ok(()),
            Err(fault) => Err(fault),
        }
    }

    /// A step of the job in flight that isn't its last.
    fn work_step<D: Disk>(&mut self, alloc: Global, disk: &mut D) -> Result<(), StoreFault>
        ensures steps { (state : State) → IsState ⟦<D as Disk>⟧ self.old disk.old state → are_spent state ≡ false → 1 < self.old.mover.busy → MoverStepsOf ⟦<D as Disk>⟧ self.new disk.old disk.new result state }
        ensures works { WritesOneColumn ⟦<D as Disk>⟧ self.old disk.old disk.new }
        ensures named { IfErr result (NamesHeld ⟦<D as Disk>⟧ self.new disk.new) }
        ensures cause { HasCause StoreFault.Disk (D.faults disk.old) (D.faults disk.new) result }
    {
        match self.work_on(alloc, disk) {
            Ok(()) => {}
            Err(fault) => return Err(fault),
        }
        self.mover.go_on();
        Ok(())
    }

    /// Whether the work is a whole merge of the projection at a place, and of the store still.
    fn is_ready(&self, work: &MergeWork, at: Place) -> bool
        ensures over { IsTrue result → IsOfStore self.now.seen work.now }
        ensures whole { IsTrue result → IsWhole work.now }
        ensures place { IsTrue result → (work.now.table ≡ at.table) × (work.now.place ≡ at.place) }
    {
        work.is_at(at.table, at.place) && work.is_whole() && work.is_of(&self.tables)
    }

    /// A merge whose columns are written.
    fn merge_written<D: Disk>(
        &mut self,
        alloc: Global,
        work: &MergeWork,
        disk: &mut D,
    ) -> Result<(), StoreFault>
        requires over { IsOfStore self.old.seen work.now }
        requires whole { IsWhole work.now }
        requires free { self.old.mover.work ≡ None }
        ensures does { (state : State) → IsState ⟦<D as Disk>⟧ self.old disk.old state → HasWork ⟦<D as Disk>⟧ (Some (going.Merge work.now)) disk.old
            → Does ⟦<D as Disk>⟧ no_memory self.old self.new disk.old disk.new result state (RisesAt work.now.table work.now.place state) }
        ensures drawn { OnOk result (OfProjection work.now.table work.now.place self.old.seen.catalogue (DrawsMerged work.now.table work.now.place self.old.seen.catalogue self.new.seen.catalogue)) }
        ensures unblamed { IfErr result (λ fault. (state : State) → IsState ⟦<D as Disk>⟧ self.old disk.old state → HasWork ⟦<D as Disk>⟧ (Some (going.Merge work.now)) disk.old → IsUnblamedStore fault) }
        ensures named { IfErr result (NamesHeld ⟦<D as Disk>⟧ self.new disk.new) }
        ensures same { OnErr result (self.new ≡ unworked self.old) }
        ensures cause { HasCause StoreFault.Disk (D.faults disk.old) (D.faults disk.new) result }
    {
        risen_states_are_sound();
        self.mover.drop_work();
        finish_merge(alloc, &mut self.tables, work, disk)
    }

    /// The merge that comes next, out of this work, if that is whole.
    fn merge_out_of<D: Disk>(
        &mut self,
        alloc: Global,
        next: Merge,
        work: &MergeWork,
        disk: &mut D,
    ) -> Result<(), StoreFault>
        requires fresh { IsFreshAt self.old.seen.stores next.at.table next.at.place }
        requires four { OfProjection next.at.table next.at.place self.old.seen.catalogue (λ p. HasFour next.level p.containers) }
        requires free { self.old.mover.work ≡ None }
        ensures does { (state : State) → IsState ⟦<D as Disk>⟧ self.old disk.old state → HasWork ⟦<D as Disk>⟧ (Some (going.Merge work.now)) disk.old
            → Does ⟦<D as Disk>⟧ no_memory self.old self.new disk.old disk.new result state (RisesAt next.at.table next.at.place state) }
        ensures drawn { OnOk result (OfProjection next.at.table next.at.place self.old.seen.catalogue (DrawsMerged next.at.table next.at.place self.old.seen.catalogue self.new.seen.catalogue)) }
        ensures unblamed { IfErr result (λ fault. (state : State) → IsState ⟦<D as Disk>⟧ self.old disk.old state → HasWork ⟦<D as Disk>⟧ (Some (going.Merge work.now)) disk.old → IsUnblamedStore fault) }
        ensures named { IfErr result (NamesHeld ⟦<D as Disk>⟧ self.new disk.new) }
        ensures same { OnErr result (self.new ≡ unworked self.old) }
        ensures cause { HasCause StoreFault.Disk (D.faults disk.old) (D.faults disk.new) result }
    {
        if self.is_ready(work, next.at) {
            return self.merge_written(alloc, work, disk);
        }
        self.merge_one(alloc, next, disk)
    }

    /// The merge that comes next, out of the work of the job, if that is a whole one of it.
    fn merge_next<D: Disk>(
        &mut self,
        alloc: Global,
        next: Merge,
        disk: &mut D,
    ) -> Result<(), StoreFault>
        requires fresh { IsFreshAt self.old.seen.stores next.at.table next.at.place }
        requires four { OfProjection next.at.table next.at.place self.old.seen.catalogue (λ p. HasFour next.level p.containers) }
        ensures does { (state : State) → IsState ⟦<D as Disk>⟧ self.old disk.old state → Does ⟦<D as Disk>⟧ no_memory self.old self.new disk.old disk.new result state (RisesAt next.at.table next.at.place state) }
        ensures drawn { OnOk result (OfProjection next.at.table next.at.place self.old.seen.catalogue (DrawsMerged next.at.table next.at.place self.old.seen.catalogue self.new.seen.catalogue)) }
        ensures unblamed { IfErr result (λ fault. (state : State) → IsState ⟦<D as Disk>⟧ self.old disk.old state → IsUnblamedStore fault) }
        ensures named { IfErr result (NamesHeld ⟦<D as Disk>⟧ self.new disk.new) }
        ensures same { OnErr result (self.new ≡ unworked self.old) }
        ensures cause { HasCause StoreFault.Disk (D.faults disk.old) (D.faults disk.new) result }
    {
        match self.mover.take_work() {
            Some(Work::Merge(work)) => self.merge_out_of(alloc, next, &work, disk),
            Some(Work::Refresh(_)) | None => self.merge_one(alloc, next, disk),
        }
    }

    /// The merge that comes next, if there is one.
    fn merge_due<D: Disk>(&mut self, alloc: Global, disk: &mut D) -> Result<(), StoreFault>
        ensures merges { OnOk result (MergesNext self.old.seen.catalogue self.new.seen.catalogue) }
        ensures does { (state : State) → IsState ⟦<D as Disk>⟧ self.old disk.old state → Does ⟦<D as Disk>⟧ no_memory self.old self.new disk.old disk.new result state (InstallsJob state) }
        ensures unblamed { IfErr result (λ fault. (state : State) → IsState ⟦<D as Disk>⟧ self.old disk.old state → IsUnblamedStore fault) }
        ensures named { IfErr result (NamesHeld ⟦<D as Disk>⟧ self.new disk.new) }
        ensures same { OnErr result (self.new ≡ unworked self.old) }
        ensures cause { HasCause StoreFault.Disk (D.faults disk.old) (D.faults disk.new) result }
    {
        match self.next_merge() {
            Some(next) => self.merge_next(alloc, next, disk),
            None => Ok(()),
        }
    }

    /// The place of the projection that the job in flight refreshes.
    fn refreshed_place(&self, name: &Name) -> Option<Place>
        ensures waits { IfSome result (λ at. Contains self.now.mover.asked name.now) }
        ensures stale { IfSome result (λ at. OfProjection at.table at.place self.now.seen.catalogue (IsStaleNamed name.now)) }
        ensures none { IfNone result (WaitsNot name.now self.now) }
    {
        if !is_among(self.mover.asked(), name) {
            return None;
        }
        stale_place(self.tables.root().tables.as_slice(), name)
    }

    /// Whether the work is a written refresh of the projection at a place, and of the store still.
    fn is_remade(&self, work: &RefreshWork, at: Place) -> bool
        ensures over { IsTrue result → IsMadeOver self.now.seen work.now }
        ensures written { IsTrue result → IsWritten work.now }
        ensures place { IsTrue result → (work.now.table ≡ at.table) × (work.now.place ≡ at.place) }
    {
        work.is_at(at.table, at.place) && work.is_written() && work.is_of(&self.tables)
    }

    /// A refresh whose columns are written.
    fn refresh_written<D: Disk>(
        &mut self,
        alloc: Global,
        at: Place,
        work: &RefreshWork,
        disk: &mut D,
    ) -> Result<(), StoreFault>
        requires over { IsMadeOver self.old.seen work.now }
        requires written { IsWritten work.now }
        requires place { (work.now.table ≡ at.table) × (work.now.place ≡ at.place) }
        requires stale { OfProjection at.table at.place self.old.seen.catalogue (λ p. p.fresh ≡ false) }
        requires free { self.old.mover.work ≡ None }
        ensures does { (state : State) → IsState ⟦<D as Disk>⟧ self.old disk.old state → HasWork ⟦<D as Disk>⟧ (Some (going.Refresh work.now)) disk.old
            → Does ⟦<D as Disk>⟧ no_memory self.old self.new disk.old disk.new result state (RefreshesAt at.table at.place state) }
        ensures drawn { OnOk result (OfProjection at.table at.place self.old.seen.catalogue (DrawsAnew at.table at.place 2 self.old.seen.catalogue self.new.seen.catalogue)) }
        ensures reached { OnOk result (OfProjection at.table at.place self.new.seen.catalogue (HasReached self.new.seen.catalogue.last)) }
        ensures asked { OnOk result (OfProjection at.table at.place self.old.seen.catalogue (λ p. self.new.mover.asked ≡ filter (is_not_named p.name) self.old.mover.asked)) }
        ensures unblamed { IfErr result (λ fault. (state : State) → IsState ⟦<D as Disk>⟧ self.old disk.old state → HasWork ⟦<D as Disk>⟧ (Some (going.Refresh work.now)) disk.old → IsUnblamedStore fault) }
        ensures named { IfErr result (NamesHeld ⟦<D as Disk>⟧ self.new disk.new) }
        ensures same { OnErr result (self.new ≡ unworked self.old) }
        ensures cause { HasCause StoreFault.Disk (D.faults disk.old) (D.faults disk.new) result }
    {
        refreshed_states_are_sound();
        self.mover.drop_work();
        let asked = match self.asked_without(alloc, at) {
            Ok(asked) => asked,
            Err(AllocError) => return Err(StoreFault::Memory),
        };
        match finish_refresh(alloc, &mut self.tables, work, disk) {
            Ok(()) => {}
            Err(fault) => return Err(fault),
        }
        self.mover.ask(asked);
        Ok(())
    }

    /// The refresh of the projection at a place, out of this work, if that is written.
    fn refresh_out_of<D: Disk>(
        &mut self,
        alloc: Global,
        at: Place,
        work: &RefreshWork,
        disk: &mut D,
    ) -> Result<(), StoreFault>
        requires stale { OfProjection at.table at.place self.old.seen.catalogue (λ p. p.fresh ≡ false) }
        requires free { self.old.mover.work ≡ None }
        ensures does { (state : State) → IsState ⟦<D as Disk>⟧ self.old disk.old state → HasWork ⟦<D as Disk>⟧ (Some (going.Refresh work.now)) disk.old
            → Does ⟦<D as Disk>⟧ no_memory self.old self.new disk.old disk.new result state (RefreshesAt at.table at.place state) }
        ensures drawn { OnOk result (OfProjection at.table at.place self.old.seen.catalogue (DrawsAnew at.table at.place 2 self.old.seen.catalogue self.new.seen.catalogue)) }
        ensures reached { OnOk result (OfProjection at.table at.place self.new.seen.catalogue (HasReached self.new.seen.catalogue.last)) }
        ensures asked { OnOk result (OfProjection at.table at.place self.old.seen.catalogue (λ p. self.new.mover.asked ≡ filter (is_not_named p.name) self.old.mover.asked)) }
        ensures unblamed { IfErr result (λ fault. (state : State) → IsState ⟦<D as Disk>⟧ self.old disk.old state → HasWork ⟦<D as Disk>⟧ (Some (going.Refresh work.now)) disk.old → IsUnblamedStore fault) }
        ensures named { IfErr result (NamesHeld ⟦<D as Disk>⟧ self.new disk.new) }
        ensures same { OnErr result (self.new ≡ unworked self.old) }
        ensures cause { HasCause StoreFault.Disk (D.faults disk.old) (D.faults disk.new) result }
    {
        if self.is_remade(work, at) {
            return self.refresh_written(alloc, at, work, disk);
        }
        self.refresh_one(alloc, at.table, at.place, disk)
    }

    /// The refresh of the projection at a place, out of the work of the job, if that is a written one of it.
    fn refresh_at<D: Disk>(
        &mut self,
        alloc: Global,
        at: Place,
        disk: &mut D,
    ) -> Result<(), StoreFault>
        requires stale { OfProjection at.table at.place self.old.seen.catalogue (λ p. p.fresh ≡ false) }
        ensures does { (state : State) → IsState ⟦<D as Disk>⟧ self.old disk.old state → Does ⟦<D as Disk>⟧ no_memory self.old self.new disk.old disk.new result state (RefreshesAt at.table at.place state) }
        ensures drawn { OnOk result (OfProjection at.table at.place self.old.seen.catalogue (DrawsAnew at.table at.place 2 self.old.seen.catalogue self.new.seen.catalogue)) }
        ensures reached { OnOk result (OfProjection at.table at.place self.new.seen.catalogue (HasReached self.new.seen.catalogue.last)) }
        ensures asked { OnOk result (OfProjection at.table at.place self.old.seen.catalogue (λ p. self.new.mover.asked ≡ filter (is_not_named p.name) self.old.mover.asked)) }
        ensures unblamed { IfErr result (λ fault. (state : State) → IsState ⟦<D as Disk>⟧ self.old disk.old state → IsUnblamedStore fault) }
        ensures named { IfErr result (NamesHeld ⟦<D as Disk>⟧ self.new disk.new) }
        ensures same { OnErr result (self.new ≡ unworked self.old) }
        ensures cause { HasCause StoreFault.Disk (D.faults disk.old) (D.faults disk.new) result }
    {
        match self.mover.take_work() {
            Some(Work::Refresh(work)) => self.refresh_out_of(alloc, at, &work, disk),
            Some(Work::Merge(_)) | None => self.refresh_one(alloc, at.table, at.place, disk),
        }
    }

    /// The refresh of the projection of a name, if it waits.
    fn refresh_due<D: Disk>(
        &mut self,
        alloc: Global,
        name: &Name,
        disk: &mut D,
    ) -> Result<(), StoreFault>
        ensures refreshes { OnOk result (RefreshesNamed name.now self.old self.new) }
        ensures does { (state : State) → IsState ⟦<D as Disk>⟧ self.old disk.old state → Does ⟦<D as Disk>⟧ no_memory self.old self.new disk.old disk.new result state (InstallsJob state) }
        ensures unblamed { IfErr result (λ fault. (state : State) → IsState ⟦<D as Disk>⟧ self.old disk.old state → IsUnblamedStore fault) }
        ensures named { IfErr result (NamesHeld ⟦<D as Disk>⟧ self.new disk.new) }
        ensures same { OnErr result (self.new ≡ unworked self.old) }
        ensures cause { HasCause StoreFault.Disk (D.faults disk.old) (D.faults disk.new) result }
    {
        match self.refreshed_place(name) {
            Some(at) => self.refresh_at(alloc, at, disk),
            None => Ok(()),
        }
    }

    /// The projection that the job in flight refreshes, as a name of its own.
    fn refreshing(&self, alloc: Global) -> Result<Option<Name>, AllocError>
        ensures { IfOk result (λ name. name ≡ self.now.mover.refreshing) }
    {
        match self.mover.refreshing() {
            Some(name) => Ok(Some(name.copy(alloc)?)),
            None => Ok(None),
        }
    }

    /// What the job in flight is for: what it makes is there after a stop once this has answered Ok.
    fn install<D: Disk>(&mut self, alloc: Global, disk: &mut D) -> Result<(), StoreFault>
        ensures merges { OnOk result (self.old.mover.refreshing ≡ None → MergesNext self.old.seen.catalogue self.new.seen.catalogue) }
        ensures refreshes { OnOk result ((name : List ℕ) → self.old.mover.refreshing ≡ Some name → RefreshesNamed name self.old self.new) }
        ensures does { (state : State) → IsState ⟦<D as Disk>⟧ self.old disk.old state → Does ⟦<D as Disk>⟧ no_memory self.old self.new disk.old disk.new result state (InstallsJob state) }
        ensures unblamed { IfErr result (λ fault. (state : State) → IsState ⟦<D as Disk>⟧ self.old disk.old state → IsUnblamedStore fault) }
        ensures named { IfErr result (NamesHeld ⟦<D as Disk>⟧ self.new disk.new) }
        ensures same { OnErr result (self.new ≡ unworked self.old) }
        ensures cause { HasCause StoreFault.Disk (D.faults disk.old) (D.faults disk.new) result }
    {
        match self.refreshing(alloc) {
            Ok(Some(name)) => self.refresh_due(alloc, &name, disk),
            Ok(None) => self.merge_due(alloc, disk),
            Err(AllocError) => {
                self.mover.drop_work();
                Err(StoreFault::Memory)
            }
        }
    }

    /// The last step of the job in flight.
    fn finish<D: Disk>(&mut self, alloc: Global, disk: &mut D) -> Result<(), StoreFault>
        ensures merges { OnOk result (self.old.mover.refreshing ≡ None → MergesNext self.old.seen.catalogue self.new.seen.catalogue) }
        ensures refreshes { OnOk result ((name : List ℕ) → self.old.mover.refreshing ≡ Some name → FinishesRefresh name self.old self.new) }
        ensures does { (state : State) → IsState ⟦<D as Disk>⟧ self.old disk.old state → Does ⟦<D as Disk>⟧ no_memory self.old self.new disk.old disk.new result state (FinishesJob state) }
        ensures unblamed { IfErr result (λ fault. (state : State) → IsState ⟦<D as Disk>⟧ self.old disk.old state → IsUnblamedStore fault) }
        ensures named { IfErr result (NamesHeld ⟦<D as Disk>⟧ self.new disk.new) }
        ensures same { OnErr result (self.new ≡ unworked self.old) }
        ensures cause { HasCause StoreFault.Disk (D.faults disk.old) (D.faults disk.new) result }
    {
        match self.install(alloc, disk) {
            Ok(()) => {}
            Err(fault) => return Err(fault),
        }
        self.mover.drop_job();
        Ok(())
    }

    /// One step of the mover: where the numbers of files are spent nothing; else the job in flight goes on, or the projection that comes
    /// first of those that are behind is moved out, or a job begins. A step of a job that isn't its last writes the files of one column at most, under
    /// numbers that weren't drawn.
    pub fn step_mover<D: Disk>(&mut self, alloc: Global, disk: &mut D) -> Result<(), StoreFault>
        ensures begins { OnOk result (nat_le 1152921504606846976 self.old.seen.catalogue.next ≡ false → self.old.mover.busy ≡ 0 → is_behind self.old ≡ false → BeginsNext self.old self.new) }
        ensures merges { OnOk result (nat_le 1152921504606846976 self.old.seen.catalogue.next ≡ false → self.old.mover.busy ≡ 1 → self.old.mover.refreshing ≡ None → MergesNext self.old.seen.catalogue self.new.seen.catalogue) }
        ensures refreshes { OnOk result (nat_le 1152921504606846976 self.old.seen.catalogue.next ≡ false → self.old.mover.busy ≡ 1 → (name : List ℕ) → self.old.mover.refreshing ≡ Some name → FinishesRefresh name self.old self.new) }
        ensures works { 1 < self.old.mover.busy → WritesOneColumn ⟦<D as Disk>⟧ self.old disk.old disk.new }
        ensures steps { (state : State) → IsState ⟦<D as Disk>⟧ self.old disk.old state → MoverStepsOf ⟦<D as Disk>⟧ self.new disk.old disk.new result state }
        ensures named { IfErr result (NamesHeld ⟦<D as Disk>⟧ self.new disk.new) }
        ensures cause { HasCause StoreFault.Disk (D.faults disk.old) (D.faults disk.new) result }
    {
        if self.are_spent() {
            return Ok(());
        }
        let busy = self.mover.busy();
        if busy == 0 {
            return self.move_or_begin(alloc, disk);
        }
        if busy == 1 {
            return self.finish(alloc, disk);
        }
        self.work_step(alloc, disk)
    }

    /// The same where no job is in flight and numbers are left.
    fn move_or_begin<D: Disk>(&mut self, alloc: Global, disk: &mut D) -> Result<(), StoreFault>
        ensures begins { OnOk result (is_behind self.old ≡ false → BeginsNext self.old self.new) }
        ensures steps { (state : State) → IsState ⟦<D as Disk>⟧ self.old disk.old state → are_spent state ≡ false → state.busy ≡ 0 → MoverStepsOf ⟦<D as Disk>⟧ self.new disk.old disk.new result state }
        ensures named { IfErr result (NamesHeld ⟦<D as Disk>⟧ self.new disk.new) }
        ensures cause { HasCause StoreFault.Disk (D.faults disk.old) (D.faults disk.new) result }
    {
        match self.move_first(alloc, disk) {
            Ok(true) => Ok(()),
            Ok(false) => match self.begin_job(alloc) {
                Ok(()) => Ok(()),
                Err(AllocError) => Err(StoreFault::Memory),
            },
            Err(fault) => Err(fault),
        }
    }
}
