//! Statements that call no disk.

ghost use Rattle.std.specs.Prelude.{◌≡◌, ◌≤◌, None};
ghost use Rattle.std.specs.List.{All};
ghost use Rattle.col_value.specs.Order.{IsRow};
ghost use Rattle.db_model.specs.Loading.{Files as LoadFiles};
ghost use Rattle.db_model.specs.Refusals.{query_refusal_in, rows_inserted_refusal};
ghost use Rattle.db_model.specs.State.{State};
ghost use Rattle.db_model.specs.Views.{bound_in};
ghost use Rattle.sql_binding.specs.Inserts.{inserted_rows};
ghost use Rattle.sql_tree.specs.declared.statement.Function.{Function};
ghost use Rattle.sql_tree.specs.declared.statement.Statement.{Statement};
ghost use Rattle.store_core.specs.Running.{IsState};
ghost use Rattle.store_step.specs.Arms.{Holds};

use crate::answer::Answer;
use crate::answering::printed;
use col_disk::Disk;
use col_value::Row;
use folder_model::last_good_is_reached;
use sql_bound::BoundQuery;
use sql_tree::{Insert, Query};
use state_laws::inserted_rows_fit;
use statement_text::{
    epoch_text, explain, insert_text, lge_text, mark_text, rollback_text, start_refresh_text,
};
use std::alloc::{AllocError, Global};
use store_core::{
    Store, pending_rows_stand, refreshes_may_be_asked_for, rollbacks_stand, sessions_stand,
};

/// An INSERT that isn't refused.
pub fn insert_rows<D: Disk>(
    alloc: Global,
    store: &mut Store,
    insert: &Insert,
    rows: Vec<Row>,
) -> Result<Answer, AllocError>
    requires { All IsRow rows.items }
    ensures { (files : LoadFiles) (disk : D) (state : State) → IsState ⟦<D as Disk>⟧ store.old disk state → rows.items ≡ inserted_rows insert.now → rows_inserted_refusal state insert.now ≡ None
        → Holds ⟦<D as Disk>⟧ files (Statement.Insert insert.now) store.new disk result state }
{
    pending_rows_stand::<D>();
    inserted_rows_fit();
    let text = match insert_text(alloc, insert.rows.as_slice().len()) {
        Ok(text) => text,
        Err(AllocError) => return Err(AllocError),
    };
    match store.insert(alloc, insert.table.as_slice(), rows) {
        Ok(()) => Ok(printed(text)),
        Err(AllocError) => Err(AllocError),
    }
}

/// ROLLBACK.
pub fn roll_back<D: Disk>(alloc: Global, store: &mut Store) -> Result<Answer, AllocError>
    ensures { (files : LoadFiles) (disk : D) (state : State) → IsState ⟦<D as Disk>⟧ store.old disk state → Holds ⟦<D as Disk>⟧ files Statement.Rollback store.new disk result state }
{
    rollbacks_stand::<D>();
    let text = match rollback_text(alloc) {
        Ok(text) => text,
        Err(AllocError) => return Err(AllocError),
    };
    store.roll_back(alloc);
    Ok(printed(text))
}

/// START_REFRESH.
pub fn start_refresh<D: Disk>(alloc: Global, store: &mut Store) -> Result<Answer, AllocError>
    ensures { (files : LoadFiles) (disk : D) (state : State) → IsState ⟦<D as Disk>⟧ store.old disk state → Holds ⟦<D as Disk>⟧ files (Statement.Call Function.StartRefresh) store.new disk result state }
{
    refreshes_may_be_asked_for::<D>();
    let text = match start_refresh_text(alloc) {
        Ok(text) => text,
        Err(AllocError) => return Err(AllocError),
    };
    match store.start_refresh(alloc) {
        Ok(()) => Ok(printed(text)),
        Err(AllocError) => Err(AllocError),
    }
}

/// `\session n`.
pub fn use_session<D: Disk>(
    alloc: Global,
    store: &mut Store,
    session: u8,
) -> Result<Answer, AllocError>
    requires first { 1 ≤ session }
    requires last { session ≤ 8 }
    ensures { (files : LoadFiles) (disk : D) (state : State) → IsState ⟦<D as Disk>⟧ store.old disk state → Holds ⟦<D as Disk>⟧ files (Statement.Session session) store.new disk result state }
{
    sessions_stand::<D>();
    store.use_session(session);
    Ok(printed(Vec::new(alloc)))
}

/// An EXPLAIN that isn't refused, by its bound tree.
pub fn explain_query<D: Disk>(
    alloc: Global,
    store: &Store,
    query: &Query,
    bound: &BoundQuery,
) -> Result<Answer, AllocError>
    ensures { (files : LoadFiles) (disk : D) (state : State) → IsState ⟦<D as Disk>⟧ store.now disk state → bound.now ≡ bound_in state query.now → query_refusal_in state query.now ≡ None
        → Holds ⟦<D as Disk>⟧ files (Statement.Explain query.now) store.now disk result state }
{
    match explain(alloc, query, bound, store.tables()) {
        Ok(text) => Ok(printed(text)),
        Err(AllocError) => Err(AllocError),
    }
}

/// GET_LAST_GOOD_EPOCH.
pub fn last_good_epoch<D: Disk>(alloc: Global, store: &Store) -> Result<Answer, AllocError>
    ensures { (files : LoadFiles) (disk : D) (state : State) → IsState ⟦<D as Disk>⟧ store.now disk state → Holds ⟦<D as Disk>⟧ files (Statement.Call Function.Lge) store.now disk result state }
{
    last_good_is_reached();
    match lge_text(alloc, store.last_good()) {
        Ok(text) => Ok(printed(text)),
        Err(AllocError) => Err(AllocError),
    }
}

/// GET_AHM_EPOCH.
pub fn ahm_epoch<D: Disk>(alloc: Global, store: &Store) -> Result<Answer, AllocError>
    ensures { (files : LoadFiles) (disk : D) (state : State) → IsState ⟦<D as Disk>⟧ store.now disk state → Holds ⟦<D as Disk>⟧ files (Statement.Call Function.Ahm) store.now disk result state }
{
    match mark_text(alloc, store.mark()) {
        Ok(text) => Ok(printed(text)),
        Err(AllocError) => Err(AllocError),
    }
}

/// GET_CURRENT_EPOCH.
pub fn current_epoch<D: Disk>(alloc: Global, store: &Store) -> Result<Answer, AllocError>
    ensures { (files : LoadFiles) (disk : D) (state : State) → IsState ⟦<D as Disk>⟧ store.now disk state → Holds ⟦<D as Disk>⟧ files (Statement.Call Function.Current) store.now disk result state }
{
    match epoch_text(alloc, store.last()) {
        Ok(text) => Ok(printed(text)),
        Err(AllocError) => Err(AllocError),
    }
}
