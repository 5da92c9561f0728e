//! The store, and its events.

ghost use Rattle.std.specs.Prelude.{◌≡◌, ◌≤◌, ◌<◌, ℕ, Bool, [], true, false, not, filter, None, Some, List as Items, length, IfOk, IfErr, IfSome, OnOk, OnErr, IsErrOf, IsSomeAnd};
ghost use Rattle.std.specs.Bool.{OnTrue};
ghost use Rattle.std.specs.List.{All, slice_get, slice_index_or};
ghost use Rattle.common_laws.specs.Causes.{HasCause};
ghost use Rattle.common_laws.specs.Maps.{Contents};
ghost use Rattle.col_disk.specs.Moved.{Leaves, Moved, NoName};
ghost use Rattle.col_disk.specs.declared.disk.DiskFault.TheVariants.{Memory};
ghost use Rattle.col_disk.specs.declared.disk.StoreFault.TheVariants.{Memory as no_memory};
ghost use Rattle.col_value.specs.Order.{IsRow};
ghost use Rattle.db_model.specs.Database.{Database};
ghost use Rattle.db_model.specs.State.{State, opened_with};
ghost use Rattle.db_model.specs.Events.{changes_committed, changes_dropped, rows_pending, table_created, table_dropped};
ghost use Rattle.db_model.specs.Numbers.{IsDrawn};
ghost use Rattle.db_model.specs.Printing.{IsListing};
ghost use Rattle.db_model.specs.Views.{bound_in, inputs};
ghost use Rattle.query_laws.specs.Bounded.{IsBoundedQuery};
ghost use Rattle.sql_bound.specs.Outputs.{IsSumTooGreat};
ghost use Rattle.sql_tree.specs.declared.query.Query.{Query};
ghost use Rattle.db_model.specs.Refusals.{locked, table_created_refusal, table_dropped_refusal};
ghost use Rattle.db_model.specs.Sound.{RowFits};
ghost use Rattle.sound_laws.specs.Moves.{moved_at};
ghost use Rattle.table_store.specs.Moving.{IsFreshAt};
ghost use Rattle.folder_model.specs.Reopening.{Reopens};
ghost use Rattle.store_opening.specs.Opening.{BlamesOpening, IsLeftAlone, IsOpening, IsStartOf, IsStill, WhereBlamed};
ghost use Rattle.store_core.specs.Named.{NamesHeld, NamesRead};
ghost use Rattle.store_core.specs.Running.{unworked, IsState, frame_of};
ghost use Rattle.store_core.specs.Stepping.{is_behind};
ghost use Rattle.store_core.specs.Waiting.{has_name};
ghost use Rattle.store_core.specs.Sessions.{with_current, with_own, with_pending};
ghost use Rattle.store_query.specs.Faults.{BlamesRead, IsUnblamed};
ghost use Rattle.table_store.specs.Faults.{BlamesStored, BlamesVectors, BlamesVectorsAt};
ghost use Rattle.store_core.specs.Asking.{IsAsked};
ghost use Rattle.store_core.specs.Events.{Does, MovesFirstOf};
ghost use Rattle.store_core.specs.Moving.{MovedBehind};
ghost use Rattle.table_store.specs.Drawing.{DrawsJob};
ghost use Rattle.col_disk.specs.Faults.{IsUnblamed as IsUnblamedStore};

use catalog_types::Table;
use col_disk::{Disk, DiskFault, StoreFault};
use col_value::{Column, List, Name, Row, WideRow};
use mover_policy::first_behind;
use sql_bound::BoundQuery;
use sql_tree::At;
use state_laws::{
    a_new_table_is_sound, an_event_may_draw, commits_of_a_session_are_sound, tables_may_be_dropped,
};
use statement_plan::Frame;
use std::alloc::{AllocError, Global};
use std::marker::Model;
use store_opening::open;
use store_query::uncounted::select;
use store_query::{SelectFault, bound_queries_read_their_tables};
use table_store::TableStore;
use txn_core::Txns;

mod adding;
mod changing;
mod history;
mod jobs;
mod loading;
mod looking;
mod marking;
mod mover;
mod moving;
mod rooting;
mod shaping;
mod stepping;

use mover::Mover;

/// The tables of a folder, what the eight sessions have changed and not committed, the current one of these, and what the mover has to do.
#[derive(Drop)]
pub struct Store {
    tables: TableStore,
    txns: Txns,
    current: usize,
    mover: Mover,
}

impl Model for Store {
    ghost use Rattle.std.specs.Prelude.{◌≤◌};
    ghost use Rattle.store_core.specs.Running.{Running, running};

    ghost Value = { Running };

    ghost view = { λ s. running s.tables s.txns s.current s.mover };

    ghost invariant = { λ s. (1 ≤ s.current) × (s.current ≤ 8) };
}

/// The place of the table of a name, among some.
fn place_in(tables: &[Table], name: &[u8]) -> Option<usize>
    ensures { IfSome result (λ i. IsSomeAnd (slice_get tables.now i) (λ t. t.name ≡ name.now)) }
{
    for i in 0..tables.len() {
        if tables[i].name.as_slice() == name {
            return Some(i);
        }
    }
    None
}

impl Store {
    /// The tables of a folder, over which nothing is pending; session 1 is the current one. `Damaged` names a file that keeps the folder from
    /// opening, and then no file was removed.
    pub fn open<D: Disk>(alloc: Global, disk: &mut D) -> Result<Store, StoreFault>
        ensures opened { IfOk result (λ s. (m : Contents) (d : Database) → D.holds disk.old ≡ Some m → Reopens m d → (parts : ℕ) × IsStartOf m s.seen.catalogue.next parts × IsState ⟦<D as Disk>⟧ s disk.new (opened_with s.seen.catalogue.next parts d)) }
        ensures any_moment { (m : Contents) (d : Database) → D.holds disk.old ≡ Some m → Reopens m d → Leaves ⟦<D as Disk>⟧ (IsStill ⟦<D as Disk>⟧ disk.old d) disk.old disk.new }
        ensures opens { IfOk result (λ s. (m : Contents) → D.holds disk.old ≡ Some m → IsOpening m) }
        ensures blamed { IfErr result (BlamesOpening (D.holds disk.old)) }
        ensures untouched { IfErr result (WhereBlamed (IsLeftAlone ⟦<D as Disk>⟧ disk.old disk.new)) }
        ensures cause { HasCause StoreFault.Disk (D.faults disk.old) (D.faults disk.new) result }
    {
        let txns = match Txns::new(alloc) {
            Ok(txns) => txns,
            Err(AllocError) => return Err(StoreFault::Memory),
        };
        match open(alloc, disk) {
            Ok(tables) => Ok(Store {
                tables,
                txns,
                current: 1,
                mover: Mover::idle(alloc),
            }),
            Err(fault) => Err(fault),
        }
    }

    /// What a statement is planned by: the tables without their rows, the epochs and what the sessions have changed. It takes no memory.
    pub fn frame(&self) -> Frame<'_>
        ensures { result ≡ frame_of self.now }
    {
        let root = self.tables.root();
        Frame::new(
            root.tables.as_slice(),
            self.tables.last(),
            root.ahm,
            root.next,
            &self.txns,
            self.current,
        )
    }

    /// The newest closed epoch. It takes no memory.
    pub fn last(&self) -> u64
        ensures { result ≡ self.now.seen.catalogue.last }
    {
        self.tables.last()
    }

    /// The place of the table of a name. It takes no memory.
    pub fn place_of(&self, name: &[u8]) -> Option<usize>
        ensures { IfSome result (λ i. IsSomeAnd (slice_get self.now.seen.catalogue.tables i) (λ t. t.name ≡ name.now)) }
    {
        place_in(self.tables.root().tables.as_slice(), name)
    }

    /// CREATE TABLE: a table without rows, which is there after a stop once this has answered Ok.
    pub fn create_table<D: Disk>(
        &mut self,
        alloc: Global,
        name: Name,
        columns: List<Column>,
        disk: &mut D,
    ) -> Result<(), DiskFault>
        ensures does { (state : State) → IsState ⟦<D as Disk>⟧ self.old disk.old state → table_created_refusal state name columns ≡ None
            → Does ⟦<D as Disk>⟧ Memory self.old self.new disk.old disk.new result state (IsDrawn state (table_created name columns state)) }
        ensures same { OnErr result (self.new ≡ unworked self.old) }
        ensures cause { HasCause DiskFault.Failed (D.faults disk.old) (D.faults disk.new) result }
    {
        a_new_table_is_sound();
        an_event_may_draw();
        self.mover.drop_work();
        self.tables.create_table(alloc, name, columns, disk)
    }

    /// DROP TABLE of the table at a place, which has this name; it is gone after a stop once this has answered Ok.
    pub fn drop_table<D: Disk>(
        &mut self,
        alloc: Global,
        table: usize,
        name: &[u8],
        disk: &mut D,
    ) -> Result<(), DiskFault>
        requires { IsSomeAnd (slice_get self.old.seen.catalogue.tables table) (λ t. t.name ≡ name.now) }
        ensures does { (state : State) → IsState ⟦<D as Disk>⟧ self.old disk.old state → table_dropped_refusal state name.now ≡ None
            → Does ⟦<D as Disk>⟧ Memory self.old self.new disk.old disk.new result state (IsDrawn state (table_dropped name.now state)) }
        ensures same { OnErr result (self.new ≡ unworked self.old) }
        ensures cause { HasCause DiskFault.Failed (D.faults disk.old) (D.faults disk.new) result }
    {
        tables_may_be_dropped();
        an_event_may_draw();
        self.mover.drop_work();
        let asked = match self.asked_beside(alloc, table) {
            Ok(asked) => asked,
            Err(AllocError) => return Err(DiskFault::Memory),
        };
        match self.tables.drop_table(alloc, table, disk) {
            Ok(()) => {}
            Err(fault) => return Err(fault),
        }
        self.txns.forget(self.current, name);
        self.mover.ask(asked);
        self.mover.drop_job();
        Ok(())
    }

    /// The names of the projections that wait for the mover, but for those of the table at a place.
    fn asked_beside(&self, alloc: Global, table: usize) -> Result<Vec<Name>, AllocError>
        ensures { IfOk result (λ v. IsSomeAnd (slice_get self.now.seen.catalogue.tables table) (λ t. v.items ≡ filter (λ n. not (has_name n t.projections)) self.now.mover.asked)) }
    {
        match self.tables().get(table) {
            Some(table) => self.mover.asked_beside(alloc, table.projections.as_slice()),
            None => Err(AllocError),
        }
    }

    /// Rows join the current session's pending rows of the table of a name. The disk isn't called.
    pub fn insert(&mut self, alloc: Global, name: &[u8], rows: Vec<Row>) -> Result<(), AllocError>
        requires { All IsRow rows.items }
        ensures pending { OnOk result (self.new ≡ with_pending name.now rows.items self.old) }
        ensures kept { OnErr result (self.new ≡ self.old) }
    {
        self.txns.insert(alloc, self.current, name, rows)
    }

    /// COMMIT: the current session's changes are those of the next epoch, if it has any. Nothing is written.
    pub fn commit<D: Disk>(&mut self, alloc: Global, disk: &mut D) -> Result<(), StoreFault>
        ensures does { (state : State) → IsState ⟦<D as Disk>⟧ self.old disk.old state
            → Does ⟦<D as Disk>⟧ no_memory self.old self.new disk.old disk.new result state (λ new. new ≡ changes_committed state) }
        ensures unblamed { IfErr result (λ fault. (state : State) → IsState ⟦<D as Disk>⟧ self.old disk.old state → IsUnblamedStore fault) }
        ensures blamed { IfErr result (BlamesStored self.old.seen.stores (D.holds disk.old)) }
        ensures named { IfErr result (NamesHeld ⟦<D as Disk>⟧ self.new disk.new) }
        ensures same { OnErr result (self.new ≡ unworked self.old) }
        ensures cause { HasCause StoreFault.Disk (D.faults disk.old) (D.faults disk.new) result }
    {
        commits_of_a_session_are_sound();
        if !self.txns.session(self.current).has_changes() {
            self.txns.take(alloc, self.current);
            return Ok(());
        }
        let mut changes = self.txns.take(alloc, self.current);
        match self.tables.commit(alloc, &mut changes, disk) {
            Ok(()) => Ok(()),
            Err(fault) => {
                self.txns.put(self.current, changes);
                self.mover.drop_work();
                Err(fault)
            }
        }
    }

    /// ROLLBACK: the current session's changes are dropped. It takes no memory, and the disk isn't called.
    pub fn roll_back(&mut self, alloc: Global)
        ensures { self.new ≡ with_own [] self.old }
    {
        self.txns.take(alloc, self.current);
    }

    /// Another session is the current one. It takes no memory, and the disk isn't called.
    pub fn use_session(&mut self, session: u8)
        requires first { 1 ≤ session }
        requires last { session ≤ 8 }
        ensures { self.new ≡ with_current session self.old }
    {
        self.current = usize::from(session);
    }

    /// A projection that is up to date is moved out: all its data in memory goes to disk, and is there after a stop once this has answered
    /// Ok.
    pub fn move_out<D: Disk>(
        &mut self,
        alloc: Global,
        table: usize,
        place: usize,
        disk: &mut D,
    ) -> Result<(), StoreFault>
        requires { IsFreshAt self.old.seen.stores table place }
        ensures does { (state : State) → IsState ⟦<D as Disk>⟧ self.old disk.old state
            → Does ⟦<D as Disk>⟧ no_memory self.old self.new disk.old disk.new result state (IsDrawn state (record state { database = moved_at table place state.database })) }
        ensures job { OnOk result (DrawsJob table place self.old.seen.catalogue self.new.seen.catalogue) }
        ensures unblamed { IfErr result (λ fault. (state : State) → IsState ⟦<D as Disk>⟧ self.old disk.old state → IsUnblamedStore fault) }
        ensures blamed { IfErr result (λ fault. (m : Contents) → D.holds disk.new ≡ Some m → BlamesVectorsAt self.old.seen.stores table place m fault) }
        ensures named { IfErr result (NamesHeld ⟦<D as Disk>⟧ self.new disk.new) }
        ensures same { OnErr result (self.new ≡ unworked self.old) }
        ensures cause { HasCause StoreFault.Disk (D.faults disk.old) (D.faults disk.new) result }
    {
        an_event_may_draw();
        self.mover.drop_work();
        self.tables.move_out(alloc, table, place, disk)
    }

    /// The projection that comes first of those that are behind is moved out. Answers whether there was one.
    pub fn move_first<D: Disk>(&mut self, alloc: Global, disk: &mut D) -> Result<bool, StoreFault>
        ensures does { (state : State) → IsState ⟦<D as Disk>⟧ self.old disk.old state → MovesFirstOf ⟦<D as Disk>⟧ no_memory self.old self.new disk.old disk.new result state }
        ensures job { IfOk result (λ moved. OnTrue moved (MovedBehind self.old.seen.catalogue self.new.seen.catalogue)) }
        ensures behind { IfOk result (λ moved. moved ≡ is_behind self.old) }
        ensures stays { IfOk result (λ moved. moved ≡ false → self.new ≡ self.old) }
        ensures unblamed { IfErr result (λ fault. (state : State) → IsState ⟦<D as Disk>⟧ self.old disk.old state → IsUnblamedStore fault) }
        ensures blamed { IfErr result (λ fault. (m : Contents) → D.holds disk.new ≡ Some m → BlamesVectors self.old.seen.stores m fault) }
        ensures named { IfErr result (NamesHeld ⟦<D as Disk>⟧ self.new disk.new) }
        ensures same { OnErr result (self.new ≡ unworked self.old) }
        ensures cause { HasCause StoreFault.Disk (D.faults disk.old) (D.faults disk.new) result }
    {
        let at = match first_behind(self.tables.root().tables.as_slice(), self.tables.last()) {
            Some(at) => at,
            None => return Ok(false),
        };
        match self.move_out(alloc, at.table, at.place, disk) {
            Ok(()) => Ok(true),
            Err(fault) => Err(fault),
        }
    }

    /// The rows that a SELECT prints, in their order, by its bound tree. `SumOutOfRange` comes exactly where in some group the magnitudes of
    /// the values of one SUM add to more than 2^127 - 1; no file is blamed over a state. Nothing is written.
    pub fn select<D: Disk>(
        &self,
        alloc: Global,
        at: At,
        query: &BoundQuery,
        disk: &mut D,
    ) -> Result<Vec<WideRow>, SelectFault>
        requires bounded { IsBoundedQuery query.now }
        ensures listed { IfOk result (λ v. (state : State) (q : Query) → IsState ⟦<D as Disk>⟧ self.now disk.old state → IsAsked state at q query.now → IsListing state at q v.items) }
        ensures in_range { OnOk result ((state : State) (q : Query) → IsState ⟦<D as Disk>⟧ self.now disk.old state → IsAsked state at q query.now → IsSumTooGreat (bound_in state q) (inputs at state q) → ⊥) }
        ensures great { IsErrOf result SelectFault.SumOutOfRange → (state : State) (q : Query) → IsState ⟦<D as Disk>⟧ self.now disk.old state → IsAsked state at q query.now → IsSumTooGreat (bound_in state q) (inputs at state q) }
        ensures unblamed { IfErr result (λ fault. (state : State) (q : Query) → IsState ⟦<D as Disk>⟧ self.now disk.old state → IsAsked state at q query.now → IsUnblamed fault) }
        ensures blamed { IfErr result (BlamesRead self.now.seen.stores (D.holds disk.old)) }
        ensures named { IfErr result (NamesRead ⟦<D as Disk>⟧ self.now disk.new) }
        ensures kept { D.holds disk.new ≡ D.holds disk.old }
        ensures moved { Moved ⟦<D as Disk>⟧ NoName NoName disk.old disk.new }
        ensures cause { HasCause SelectFault.Disk (D.faults disk.old) (D.faults disk.new) result }
    {
        bound_queries_read_their_tables();
        select(
            alloc,
            &self.tables,
            self.txns.session(self.current),
            at,
            query,
            disk,
        )
    }
}
