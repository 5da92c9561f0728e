//! The jobs of MERGEOUT, PURGE_TABLE and REFRESH.

ghost use Rattle.std.specs.Prelude.{◌≡◌, ◌≤◌, ◌↔◌, ℕ, IsTrue, IsFalse, true, false, filter, length, List, MatchOption, IfErr, IfOk, IfSome, OnOk, OnErr, IsSomeAnd};
ghost use Rattle.std.specs.List.{slice_get, All};
ghost use Rattle.common_laws.specs.Causes.{HasCause};
ghost use Rattle.col_disk.specs.Faults.{IsUnblamed as IsUnblamedStore};
ghost use Rattle.col_disk.specs.declared.disk.StoreFault.TheVariants.{Memory as no_memory};
ghost use Rattle.db_model.specs.Events.{is_not_named};
ghost use Rattle.db_model.specs.State.{State};
ghost use Rattle.mover_policy.specs.First.{all_projections};
ghost use Rattle.mover_policy.specs.Merging.{IsNext};
ghost use Rattle.table_jobs.specs.Blamed.{BlamesMerge, BlamesPurge};
ghost use Rattle.table_jobs.specs.Jobs.{DrawsAnew, DrawsMerged, HasReached, OfProjection};
ghost use Rattle.table_jobs.specs.Oldest.{HasFour};
ghost use Rattle.table_jobs.specs.Purged.{IsKeptWholeAt, OthersStay};
ghost use Rattle.table_store.specs.Held.{projections_of};
ghost use Rattle.table_store.specs.Moving.{IsFreshAt};
ghost use Rattle.store_core.specs.Jobs.{ArePurged, is_of, stale_place, RaisesAllOf, RefreshesAllOf, RefreshesAt, RisesAt};
ghost use Rattle.store_core.specs.Events.{Does};
ghost use Rattle.store_core.specs.Named.{NamesHeld};
ghost use Rattle.store_core.specs.Running.{unworked, IsState};
ghost use Rattle.store_core.specs.Stepping.{NoneIsDue};

use super::Store;
use catalog_types::Table;
use col_disk::{Disk, StoreFault};
use col_value::Name;
use mover_policy::{Merge, Place, next_merge, next_stale, projection_at};
use proj_store::ProjStore;
use state_laws::{refreshed_states_are_sound, risen_states_are_sound};
use std::alloc::{AllocError, Global};
use table_jobs::{has_gone, merge, purge, refresh};

// A table has no more projections.
const MOST_OF_TABLE: usize = 16;

/// The place of the first projection of a table that isn't up to date.
fn stale_in(tables: &[Table], table: usize) -> Option<usize>
    ensures { result ≡ stale_place table tables.now }
{
    match tables.get(table) {
        Some(t) => next_stale(t.projections.as_slice()),
        None => None,
    }
}

/// Whether the projection at a place is up to date.
fn is_fresh_in(projections: &[ProjStore], place: usize) -> bool
    ensures { IsTrue result ↔ IsSomeAnd (slice_get (projections_of projections.now) place) (λ p. p.entry.fresh ≡ true) }
{
    match projections.get(place) {
        Some(p) => p.entry().fresh,
        None => false,
    }
}

impl Store {
    /// No table has more projections than a catalogue's may have.
    fn places_fit(&self)
        ensures { All (λ t. length t.projections ≤ 16) self.now.seen.catalogue.tables }
    {
        let _root = self.tables.root();
    }

    /// The merge that comes next.
    pub(crate) fn next_merge(&self) -> Option<Merge>
        ensures fresh { IfSome result (λ m. IsFreshAt self.now.seen.stores m.at.table m.at.place) }
        ensures four { IfSome result (λ m. OfProjection m.at.table m.at.place self.now.seen.catalogue (λ p. HasFour m.level p.containers)) }
        ensures next { MatchOption result (NoneIsDue self.now.seen.catalogue.tables) (IsNext self.now.seen.catalogue.tables) }
    {
        next_merge(self.tables.root().tables.as_slice())
    }

    /// Whether the projection at a place is up to date.
    fn is_fresh(&self, table: usize, place: usize) -> bool
        ensures { IsTrue result ↔ IsFreshAt self.now.seen.stores table place }
    {
        match self.tables.tables().get(table) {
            Some(projections) => is_fresh_in(projections.as_slice(), place),
            None => false,
        }
    }

    /// Whether the projection at a place is up to date and has rows that a purge takes away.
    fn is_purged(&self, table: usize, place: usize) -> bool
        ensures fresh { IsTrue result → IsFreshAt self.now.seen.stores table place }
        ensures whole { IsFalse result → IsFreshAt self.now.seen.stores table place → IsKeptWholeAt self.now.seen.catalogue.ahm table place self.now.seen.stores }
    {
        self.is_fresh(table, place) && has_gone(&self.tables, table, place)
    }

    /// No table has a projection at place 16 or behind it.
    fn none_beyond(&self)
        ensures { (i j : ℕ) → 16 ≤ j → IsFreshAt self.now.seen.stores i j → ⊥ }
    {
        let _root = self.tables.root();
    }

    /// The place of the first projection of a table that isn't up to date; it has no containers.
    fn next_stale(&self, table: usize) -> Option<usize>
        ensures first { result ≡ stale_place table self.now.seen.catalogue.tables }
        ensures stale { IfSome result (λ j. OfProjection table j self.now.seen.catalogue (λ p. p.fresh ≡ false)) }
        ensures empty { IfSome result (λ j. OfProjection table j self.now.seen.catalogue (λ p. length p.containers ≡ 0)) }
    {
        stale_in(self.tables.root().tables.as_slice(), table)
    }

    /// One merge: what it makes is there after a stop once this has answered Ok.
    pub(crate) fn merge_one<D: Disk>(
        &mut self,
        alloc: Global,
        next: Merge,
        disk: &mut D,
    ) -> Result<(), StoreFault>
        requires fresh { IsFreshAt self.old.seen.stores next.at.table next.at.place }
        requires four { OfProjection next.at.table next.at.place self.old.seen.catalogue (λ p. HasFour next.level p.containers) }
        ensures does { (state : State) → IsState ⟦<D as Disk>⟧ self.old disk.old state → Does ⟦<D as Disk>⟧ no_memory self.old self.new disk.old disk.new result state (RisesAt next.at.table next.at.place state) }
        ensures drawn { OnOk result (OfProjection next.at.table next.at.place self.old.seen.catalogue (DrawsMerged next.at.table next.at.place self.old.seen.catalogue self.new.seen.catalogue)) }
        ensures unblamed { IfErr result (λ fault. (state : State) → IsState ⟦<D as Disk>⟧ self.old disk.old state → IsUnblamedStore fault) }
        ensures blamed { IfErr result (λ fault. OfProjection next.at.table next.at.place self.old.seen.catalogue (BlamesMerge (D.holds disk.old) fault)) }
        ensures named { IfErr result (NamesHeld ⟦<D as Disk>⟧ self.new disk.new) }
        ensures same { OnErr result (self.new ≡ unworked self.old) }
        ensures cause { HasCause StoreFault.Disk (D.faults disk.old) (D.faults disk.new) result }
    {
        risen_states_are_sound();
        self.mover.drop_work();
        merge(
            alloc,
            &mut self.tables,
            next.at.table,
            next.at.place,
            next.level,
            disk,
        )
    }

    /// The purge of one projection.
    fn purge_one<D: Disk>(
        &mut self,
        alloc: Global,
        table: usize,
        place: usize,
        disk: &mut D,
    ) -> Result<(), StoreFault>
        requires { IsFreshAt self.old.seen.stores table place }
        ensures does { (state : State) → IsState ⟦<D as Disk>⟧ self.old disk.old state → Does ⟦<D as Disk>⟧ no_memory self.old self.new disk.old disk.new result state (RisesAt table place state) }
        ensures drawn { OnOk result (OfProjection table place self.old.seen.catalogue (DrawsAnew table place 1 self.old.seen.catalogue self.new.seen.catalogue)) }
        ensures unblamed { IfErr result (λ fault. (state : State) → IsState ⟦<D as Disk>⟧ self.old disk.old state → IsUnblamedStore fault) }
        ensures blamed { IfErr result (λ fault. OfProjection table place self.old.seen.catalogue (BlamesPurge (D.holds disk.old) fault)) }
        ensures named { IfErr result (NamesHeld ⟦<D as Disk>⟧ self.new disk.new) }
        ensures whole { OnOk result ((state : State) → IsState ⟦<D as Disk>⟧ self.old disk.old state → IsKeptWholeAt self.new.seen.catalogue.ahm table place self.new.seen.stores) }
        ensures others { OnOk result (OthersStay table place self.old.seen.stores self.new.seen.stores) }
        ensures mark { OnOk result (self.new.seen.catalogue.ahm ≡ self.old.seen.catalogue.ahm) }
        ensures same { OnErr result (self.new ≡ unworked self.old) }
        ensures cause { HasCause StoreFault.Disk (D.faults disk.old) (D.faults disk.new) result }
    {
        risen_states_are_sound();
        self.mover.drop_work();
        purge(alloc, &mut self.tables, table, place, disk)
    }

    /// The refresh of one projection.
    pub(crate) fn refresh_one<D: Disk>(
        &mut self,
        alloc: Global,
        table: usize,
        place: usize,
        disk: &mut D,
    ) -> Result<(), StoreFault>
        requires { OfProjection table place self.old.seen.catalogue (λ p. p.fresh ≡ false) }
        ensures does { (state : State) → IsState ⟦<D as Disk>⟧ self.old disk.old state → Does ⟦<D as Disk>⟧ no_memory self.old self.new disk.old disk.new result state (RefreshesAt table place state) }
        ensures drawn { OnOk result (OfProjection table place self.old.seen.catalogue (DrawsAnew table place 2 self.old.seen.catalogue self.new.seen.catalogue)) }
        ensures reached { OnOk result (OfProjection table place self.new.seen.catalogue (HasReached self.new.seen.catalogue.last)) }
        ensures asked { OnOk result (OfProjection table place self.old.seen.catalogue (λ p. self.new.mover.asked ≡ filter (is_not_named p.name) self.old.mover.asked)) }
        ensures unblamed { IfErr result (λ fault. (state : State) → IsState ⟦<D as Disk>⟧ self.old disk.old state → IsUnblamedStore fault) }
        ensures named { IfErr result (NamesHeld ⟦<D as Disk>⟧ self.new disk.new) }
        ensures same { OnErr result (self.new ≡ unworked self.old) }
        ensures cause { HasCause StoreFault.Disk (D.faults disk.old) (D.faults disk.new) result }
    {
        refreshed_states_are_sound();
        self.mover.drop_work();
        let asked = match self.asked_without(alloc, Place { table, place }) {
            Ok(asked) => asked,
            Err(AllocError) => return Err(StoreFault::Memory),
        };
        match refresh(alloc, &mut self.tables, table, place, disk) {
            Ok(()) => {}
            Err(fault) => return Err(fault),
        }
        self.mover.ask(asked);
        Ok(())
    }

    /// The names of the projections that wait for the mover, but for that of the one at a place.
    pub(crate) fn asked_without(&self, alloc: Global, at: Place) -> Result<Vec<Name>, AllocError>
        ensures { IfOk result (λ v. OfProjection at.table at.place self.now.seen.catalogue (λ p. v.items ≡ filter (is_not_named p.name) self.now.mover.asked)) }
    {
        match projection_at(self.tables.root().tables.as_slice(), at) {
            Some(p) => self.mover.asked_but(alloc, p.name.as_slice()),
            None => Err(AllocError),
        }
    }

    /// MERGEOUT: as long as some up-to-date projection has four containers of a level, these give way to one, up to a merge that would draw
    /// where the numbers of files are spent. Answers whether it stopped there; where it didn't, no such projection is left. Where memory is
    /// short, some merges may have been done before; over a state no file is blamed.
    pub fn merge_all<D: Disk>(&mut self, alloc: Global, disk: &mut D) -> Result<bool, StoreFault>
        ensures left { IfOk result (λ stopped. stopped ≡ false → NoneIsDue self.new.seen.catalogue.tables) }
        ensures jobs { (state : State) → IsState ⟦<D as Disk>⟧ self.old disk.old state → RaisesAllOf ⟦<D as Disk>⟧ (λ s. true) self.new disk.old disk.new result state }
        ensures named { IfErr result (NamesHeld ⟦<D as Disk>⟧ self.new disk.new) }
        ensures cause { HasCause StoreFault.Disk (D.faults disk.old) (D.faults disk.new) result }
    {
        self.projections_fit();
        self.mover.drop_job();
        for _ in 0..u64::MAX {
            let next = match self.next_merge() {
                Some(next) => next,
                None => return Ok(false),
            };
            if self.are_spent() {
                return Ok(true);
            }
            match self.merge_one(alloc, next, disk) {
                Ok(()) => {}
                Err(fault) => return Err(fault),
            }
        }
        Err(StoreFault::Memory)
    }

    /// PURGE_TABLE of the table at a place, which has this name: each of its up-to-date projections that has rows deleted up to the ancient
    /// history mark is written without these, up to one that would draw where the numbers of files are spent. Answers whether it stopped there; where
    /// it didn't, none has such a row.
    pub fn purge<D: Disk>(
        &mut self,
        alloc: Global,
        table: usize,
        disk: &mut D,
    ) -> Result<bool, StoreFault>
        ensures jobs { (state : State) (name : List ℕ) → IsState ⟦<D as Disk>⟧ self.old disk.old state → IsSomeAnd (slice_get self.old.seen.catalogue.tables table) (λ t. t.name ≡ name)
            → RaisesAllOf ⟦<D as Disk>⟧ (is_of name state) self.new disk.old disk.new result state }
        ensures left { IfOk result (λ stopped. stopped ≡ false → (state : State) (name : List ℕ) → IsState ⟦<D as Disk>⟧ self.old disk.old state → IsSomeAnd (slice_get self.old.seen.catalogue.tables table) (λ t. t.name ≡ name) → ArePurged table self.new) }
        ensures named { IfErr result (NamesHeld ⟦<D as Disk>⟧ self.new disk.new) }
        ensures cause { HasCause StoreFault.Disk (D.faults disk.old) (D.faults disk.new) result }
    {
        self.mover.drop_job();
        for place in 0..MOST_OF_TABLE {
            if !self.is_purged(table, place) {
                continue;
            }
            if self.are_spent() {
                return Ok(true);
            }
            match self.purge_one(alloc, table, place, disk) {
                Ok(()) => {}
                Err(fault) => return Err(fault),
            }
        }
        self.none_beyond();
        Ok(false)
    }

    /// REFRESH of the table at a place, which has this name: each of its projections that isn't up to date gets the table's rows.
    pub fn refresh<D: Disk>(
        &mut self,
        alloc: Global,
        table: usize,
        disk: &mut D,
    ) -> Result<bool, StoreFault>
        ensures jobs { (state : State) (name : List ℕ) → IsState ⟦<D as Disk>⟧ self.old disk.old state → IsSomeAnd (slice_get self.old.seen.catalogue.tables table) (λ t. t.name ≡ name)
            → RefreshesAllOf ⟦<D as Disk>⟧ name self.new disk.old disk.new result state }
        ensures named { IfErr result (NamesHeld ⟦<D as Disk>⟧ self.new disk.new) }
        ensures cause { HasCause StoreFault.Disk (D.faults disk.old) (D.faults disk.new) result }
    {
        self.places_fit();
        self.mover.drop_job();
        for _ in 0..MOST_OF_TABLE {
            let place = match self.next_stale(table) {
                Some(place) => place,
                None => return Ok(false),
            };
            if self.are_spent() {
                return Ok(true);
            }
            match self.refresh_one(alloc, table, place, disk) {
                Ok(()) => {}
                Err(fault) => return Err(fault),
            }
        }
        Ok(false)
    }
}
