//! MERGEOUT, PURGE_TABLE and REFRESH.

ghost use Rattle.std.specs.Prelude.{◌≡◌, None, Some, IfErr};
ghost use Rattle.common_laws.specs.Causes.{HasCause};
ghost use Rattle.db_model.specs.Loading.{Files as LoadFiles};
ghost use Rattle.db_model.specs.Refusals.{unknown_table_refusal};
ghost use Rattle.db_model.specs.State.{State};
ghost use Rattle.sql_tree.specs.declared.statement.Function.{Function};
ghost use Rattle.sql_tree.specs.declared.statement.Statement.{Statement};
ghost use Rattle.statement_plan.specs.Places.{table_place};
ghost use Rattle.store_core.specs.Named.{NamesHeld};
ghost use Rattle.store_core.specs.Running.{frame_of, IsState};
ghost use Rattle.store_step.specs.Arms.{Answers};
ghost use Rattle.store_step.specs.Works.{WhereDone, Works};

use crate::answer::Answer;
use crate::answering::{in_moveout, printed, refused};
use col_disk::{Disk, StoreFault};
use folder_model::every_image_reopens;
use sql_tree::Refusal;
use statement_text::{mergeout_text, purge_text, refresh_text};
use std::alloc::{AllocError, Global};
use store_core::Store;

/// DO_TM_TASK('mergeout').
pub fn mergeout<D: Disk>(
    alloc: Global,
    store: &mut Store,
    disk: &mut D,
) -> Result<Answer, StoreFault>
    ensures answers { (files : LoadFiles) (state : State) → IsState ⟦<D as Disk>⟧ store.old disk.old state
        → Answers ⟦<D as Disk>⟧ files (Statement.Call Function.Mergeout) store.new disk.old disk.new result state }
    ensures works { WhereDone ⟦<D as Disk>⟧ store.old disk.old result (Works (Statement.Call Function.Mergeout) store.old store.new) }
    ensures named { IfErr result (NamesHeld ⟦<D as Disk>⟧ store.new disk.new) }
    ensures cause { HasCause StoreFault.Disk (D.faults disk.old) (D.faults disk.new) result }
{
    every_image_reopens::<D>();
    let text = match mergeout_text(alloc) {
        Ok(text) => text,
        Err(AllocError) => return Err(StoreFault::Memory),
    };
    let stopped = match refused(alloc, Refusal::NumbersSpent) {
        Ok(stopped) => stopped,
        Err(AllocError) => return Err(StoreFault::Memory),
    };
    in_moveout(printed(text), stopped, store.merge_all(alloc, disk))
}

/// PURGE_TABLE of the table at a place.
pub fn purge_table<D: Disk>(
    alloc: Global,
    store: &mut Store,
    name: &[u8],
    place: usize,
    disk: &mut D,
) -> Result<Answer, StoreFault>
    requires { table_place name.now (frame_of store.old).database.tables ≡ Some place }
    ensures answers { (files : LoadFiles) (state : State) → IsState ⟦<D as Disk>⟧ store.old disk.old state → unknown_table_refusal state name.now ≡ None
        → Answers ⟦<D as Disk>⟧ files (Statement.Call (Function.Purge name.now)) store.new disk.old disk.new result state }
    ensures works { WhereDone ⟦<D as Disk>⟧ store.old disk.old result (Works (Statement.Call (Function.Purge name.now)) store.old store.new) }
    ensures named { IfErr result (NamesHeld ⟦<D as Disk>⟧ store.new disk.new) }
    ensures cause { HasCause StoreFault.Disk (D.faults disk.old) (D.faults disk.new) result }
{
    every_image_reopens::<D>();
    let text = match purge_text(alloc) {
        Ok(text) => text,
        Err(AllocError) => return Err(StoreFault::Memory),
    };
    let stopped = match refused(alloc, Refusal::NumbersSpent) {
        Ok(stopped) => stopped,
        Err(AllocError) => return Err(StoreFault::Memory),
    };
    in_moveout(printed(text), stopped, store.purge(alloc, place, disk))
}

/// REFRESH of the table at a place.
pub fn refresh_table<D: Disk>(
    alloc: Global,
    store: &mut Store,
    name: &[u8],
    place: usize,
    disk: &mut D,
) -> Result<Answer, StoreFault>
    requires { table_place name.now (frame_of store.old).database.tables ≡ Some place }
    ensures answers { (files : LoadFiles) (state : State) → IsState ⟦<D as Disk>⟧ store.old disk.old state → unknown_table_refusal state name.now ≡ None
        → Answers ⟦<D as Disk>⟧ files (Statement.Call (Function.Refresh name.now)) store.new disk.old disk.new result state }
    ensures named { IfErr result (NamesHeld ⟦<D as Disk>⟧ store.new disk.new) }
    ensures cause { HasCause StoreFault.Disk (D.faults disk.old) (D.faults disk.new) result }
{
    every_image_reopens::<D>();
    let text = match refresh_text(alloc) {
        Ok(text) => text,
        Err(AllocError) => return Err(StoreFault::Memory),
    };
    let stopped = match refused(alloc, Refusal::NumbersSpent) {
        Ok(stopped) => stopped,
        Err(AllocError) => return Err(StoreFault::Memory),
    };
    in_moveout(printed(text), stopped, store.refresh(alloc, place, disk))
}
