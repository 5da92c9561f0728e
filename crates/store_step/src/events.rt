//! Statements that call the disk.

ghost use Rattle.std.specs.Prelude.{◌≡◌, None, Some, IfErr};
ghost use Rattle.common_laws.specs.Causes.{HasCause};
ghost use Rattle.db_model.specs.Loading.{Files as LoadFiles};
ghost use Rattle.db_model.specs.Refusals.{table_created_refusal, table_dropped_refusal};
ghost use Rattle.db_model.specs.Refusing.{commit_refusal};
ghost use Rattle.db_model.specs.State.{State};
ghost use Rattle.query_laws.specs.Bounded.{IsBoundedQuery};
ghost use Rattle.sql_tree.specs.declared.statement.Statement.{Statement};
ghost use Rattle.statement_plan.specs.Places.{table_place};
ghost use Rattle.statement_plan.specs.Planned.{select_refusal, IsBoundIn};
ghost use Rattle.store_core.specs.Named.{NamesHeld};
ghost use Rattle.store_core.specs.Running.{frame_of, IsState};
ghost use Rattle.store_step.specs.Arms.{Answers};

use crate::answer::Answer;
use crate::answering::{in_store, on_disk, printed, selected};
use col_disk::{Disk, StoreFault};
use col_value::{Column, List, Name};
use folder_model::{every_image_reopens, moving_files_reopen, other_files_move};
use sql_bound::BoundQuery;
use sql_tree::{At, Query};
use state_laws::{
    a_new_table_is_sound, an_event_may_draw, commits_of_a_session_are_sound, tables_may_be_dropped,
};
use statement_text::{commit_text, table_created_text, table_dropped_text};
use std::alloc::{AllocError, Global};
use store_core::Store;

/// CREATE TABLE that isn't refused.
pub fn create_table<D: Disk>(
    alloc: Global,
    store: &mut Store,
    name: Name,
    columns: List<Column>,
    disk: &mut D,
) -> Result<Answer, StoreFault>
    ensures answers { (files : LoadFiles) (state : State) → IsState ⟦<D as Disk>⟧ store.old disk.old state → table_created_refusal state name columns ≡ None
        → Answers ⟦<D as Disk>⟧ files (Statement.CreateTable name columns) store.new disk.old disk.new result state }
    ensures named { IfErr result (NamesHeld ⟦<D as Disk>⟧ store.new disk.new) }
    ensures cause { HasCause StoreFault.Disk (D.faults disk.old) (D.faults disk.new) result }
{
    every_image_reopens::<D>();
    a_new_table_is_sound();
    an_event_may_draw();
    let text = match table_created_text(alloc) {
        Ok(text) => text,
        Err(AllocError) => return Err(StoreFault::Memory),
    };
    on_disk(
        printed(text),
        store.create_table(alloc, name, columns, disk),
    )
}

/// DROP TABLE, that isn't refused, of the table at a place.
pub fn drop_table<D: Disk>(
    alloc: Global,
    store: &mut Store,
    name: &[u8],
    place: usize,
    disk: &mut D,
) -> Result<Answer, StoreFault>
    requires { table_place name.now (frame_of store.old).database.tables ≡ Some place }
    ensures answers { (files : LoadFiles) (state : State) → IsState ⟦<D as Disk>⟧ store.old disk.old state → table_dropped_refusal state name.now ≡ None
        → Answers ⟦<D as Disk>⟧ files (Statement.DropTable name.now) store.new disk.old disk.new result state }
    ensures named { IfErr result (NamesHeld ⟦<D as Disk>⟧ store.new disk.new) }
    ensures cause { HasCause StoreFault.Disk (D.faults disk.old) (D.faults disk.new) result }
{
    every_image_reopens::<D>();
    tables_may_be_dropped();
    an_event_may_draw();
    let text = match table_dropped_text(alloc) {
        Ok(text) => text,
        Err(AllocError) => return Err(StoreFault::Memory),
    };
    on_disk(printed(text), store.drop_table(alloc, place, name, disk))
}

/// COMMIT that isn't refused.
pub fn commit<D: Disk>(alloc: Global, store: &mut Store, disk: &mut D) -> Result<Answer, StoreFault>
    ensures answers { (files : LoadFiles) (state : State) → IsState ⟦<D as Disk>⟧ store.old disk.old state → commit_refusal state ≡ None
        → Answers ⟦<D as Disk>⟧ files Statement.Commit store.new disk.old disk.new result state }
    ensures named { IfErr result (NamesHeld ⟦<D as Disk>⟧ store.new disk.new) }
    ensures cause { HasCause StoreFault.Disk (D.faults disk.old) (D.faults disk.new) result }
{
    every_image_reopens::<D>();
    commits_of_a_session_are_sound();
    let text = match commit_text(alloc, store.has_changes(), store.last()) {
        Ok(text) => text,
        Err(AllocError) => return Err(StoreFault::Memory),
    };
    in_store(printed(text), store.commit(alloc, disk))
}

/// A SELECT that isn't refused for what it says, by its bound tree.
pub fn select<D: Disk>(
    alloc: Global,
    store: &Store,
    at: At,
    query: &Query,
    bound: &BoundQuery,
    disk: &mut D,
) -> Result<Answer, StoreFault>
    requires { IsBoundedQuery bound.now }
    ensures answers { (files : LoadFiles) (state : State) → IsState ⟦<D as Disk>⟧ store.now disk.old state → IsBoundIn state query.now bound.now → select_refusal state at query.now ≡ None
        → Answers ⟦<D as Disk>⟧ files (Statement.Select at query.now) store.now disk.old disk.new result state }
    ensures named { IfErr result (NamesHeld ⟦<D as Disk>⟧ store.now disk.new) }
    ensures cause { HasCause StoreFault.Disk (D.faults disk.old) (D.faults disk.new) result }
{
    other_files_move::<D>();
    moving_files_reopen::<D>();
    let _ = query;
    selected(alloc, store.select(alloc, at, bound, disk))
}
