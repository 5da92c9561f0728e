//! DELETE and UPDATE.

ghost use Rattle.std.specs.Prelude.{◌≡◌, ◌<◌, ◌+◌, ◌++◌, [], true, length, map, None, IfOk, IfErr, OnOk, OnErr, IsSomeAnd};
ghost use Rattle.std.specs.List.{All, slice_get};
ghost use Rattle.common_laws.specs.Causes.{HasCause};
ghost use Rattle.catalog_types.specs.declared.catalogue.Table.{Table as Kept};
ghost use Rattle.col_value.specs.Order.{IsRow};
ghost use Rattle.db_model.specs.Events.{set_row};
ghost use Rattle.db_model.specs.Loading.{Files as LoadFiles};
ghost use Rattle.db_model.specs.Refusals.{all_pairs, pairs_refusal, rows_deleted_refusal};
ghost use Rattle.db_model.specs.State.{State};
ghost use Rattle.db_model.specs.Views.{columns_found};
ghost use Rattle.name_binder.specs.Refusing.{RefusesBy};
ghost use Rattle.sql_binding.specs.Changes.{update_refusal};
ghost use Rattle.sql_bound.specs.Bounds.{is_narrow};
ghost use Rattle.sql_tree.specs.declared.statement.Statement.{Statement};
ghost use Rattle.statement_plan.specs.declared.plans.Plan.{Plan};
ghost use Rattle.statement_plan.specs.Planned.{IsPlanned};
ghost use Rattle.store_core.specs.Named.{NamesHeld};
ghost use Rattle.store_core.specs.Running.{frame_of, IsState};
ghost use Rattle.store_core.specs.Sessions.{with_marked};
ghost use Rattle.store_step.specs.Arms.{Answers, Holds};
ghost use Rattle.store_step.specs.Matches.{DeleteMatches, UpdateMatches};
ghost use Rattle.store_step.specs.Texts.{Says};

use crate::answer::Answer;
use crate::answering::{in_memory, printed, refused};
use change_binder::BoundUpdate;
use change_laws::{deletes_are_sound, updates_are_sound};
use col_disk::{Disk, StoreFault};
use col_value::{Asked, Row};
use folder_model::{every_image_reopens, moving_files_reopen, other_files_move};
use name_binder::BindFault;
use row_setting::{set_rows, settings_see_a_bag};
use sql_bound::{BoundQuery, Expr};
use sql_tree::{Delete, Update};
use statement_plan::change_refusal;
use statement_text::{deleted_text, updated_text};
use std::alloc::{AllocError, Global};
use store_core::{
    Matched, Store, changed_rows_stand, frames_are_of_the_state, matches_are_the_matched_rows,
};

/// These rows of a table are pending from now on, and these committed ones are pending deletes, too. The text was made before.
fn change(
    alloc: Global,
    store: &mut Store,
    name: &[u8],
    rows: Vec<Row>,
    deletes: Vec<Asked>,
    text: Vec<u8>,
) -> Result<Answer, AllocError>
    requires { All IsRow rows.items }
    ensures done { IfOk result (λ a. (store.new ≡ with_marked name.now rows.items deletes.items store.old) × Says text.items a) }
    ensures kept { OnErr result (store.new ≡ store.old) }
{
    match store.change_rows(alloc, name, rows, deletes) {
        Ok(()) => Ok(printed(text)),
        Err(AllocError) => Err(AllocError),
    }
}

/// The matched rows become pending deletes, or leave the pending rows.
fn delete_matched<D: Disk>(
    alloc: Global,
    store: &mut Store,
    delete: &Delete,
    keep: &[Expr],
    matched: Matched,
) -> Result<Answer, AllocError>
    requires { All (λ e. is_narrow [] e ≡ true) keep.now }
    ensures { (files : LoadFiles) (disk : D) (state : State) → IsState ⟦<D as Disk>⟧ store.old disk state → rows_deleted_refusal state delete.now ≡ None
        → DeleteMatches state delete.now keep.now matched.committed.items matched.pending.items → Holds ⟦<D as Disk>⟧ files (Statement.Delete delete.now) store.new disk result state }
{
    deletes_are_sound();
    matches_are_the_matched_rows();
    changed_rows_stand::<D>();
    let name = delete.table.as_slice();
    let text = match deleted_text(alloc, matched.count()) {
        Ok(text) => text,
        Err(AllocError) => return Err(AllocError),
    };
    match store.rows_left(alloc, name, keep) {
        Ok(left) => change(alloc, store, name, left, matched.committed, text),
        Err(AllocError) => Err(AllocError),
    }
}

/// DELETE that isn't refused, of the table at a place, by its bound tree.
pub fn delete_rows<D: Disk>(
    alloc: Global,
    store: &mut Store,
    delete: &Delete,
    place: usize,
    bound: &BoundQuery,
    disk: &mut D,
) -> Result<Answer, StoreFault>
    requires { IsPlanned (frame_of store.old) (Statement.Delete delete.now) (Plan.Delete place bound.now) }
    ensures answers { (files : LoadFiles) (state : State) → IsState ⟦<D as Disk>⟧ store.old disk.old state
        → Answers ⟦<D as Disk>⟧ files (Statement.Delete delete.now) store.new disk.old disk.new result state }
    ensures named { IfErr result (NamesHeld ⟦<D as Disk>⟧ store.new disk.new) }
    ensures cause { HasCause StoreFault.Disk (D.faults disk.old) (D.faults disk.new) result }
{
    every_image_reopens::<D>();
    other_files_move::<D>();
    moving_files_reopen::<D>();
    frames_are_of_the_state::<D>();
    let keep = bound.keep.as_slice();
    let matched = match store.matches(alloc, place, keep, disk) {
        Ok(matched) => matched,
        Err(fault) => return Err(fault),
    };
    in_memory(delete_matched::<D>(alloc, store, delete, keep, matched))
}

/// What an UPDATE makes of the rows that match in the table at a place, or why it is refused for what it sets.
fn made_rows(
    alloc: Global,
    store: &Store,
    place: usize,
    sets: &[(usize, Expr)],
    matched: &Matched,
) -> Result<Vec<Row>, BindFault>
    requires narrow { All (λ s. is_narrow [] s.1 ≡ true) sets.now }
    requires places { IsSomeAnd (slice_get store.now.seen.catalogue.tables place) (λ t. All (λ s. s.0 < length t.columns) sets.now) }
    requires committed { All (λ a. IsRow a.row) matched.now.committed.items }
    requires pending { All IsRow matched.now.pending.items }
    ensures made { IfOk result (λ v. v.items ≡ map (set_row sets.now) (map (λ a. a.row) matched.now.committed.items ++ matched.now.pending.items)) }
    ensures valid { IfOk result (λ v. All IsRow v.items) }
    ensures accepted { OnOk result ((t : Kept) → slice_get store.now.seen.catalogue.tables place ≡ Some t → pairs_refusal (all_pairs sets.now (map (λ a. a.row) matched.now.committed.items ++ matched.now.pending.items) t.columns) ≡ None) }
    ensures refused { IfErr result (λ fault. (t : Kept) → slice_get store.now.seen.catalogue.tables place ≡ Some t → RefusesBy (pairs_refusal (all_pairs sets.now (map (λ a. a.row) matched.now.committed.items ++ matched.now.pending.items) t.columns)) fault) }
{
    let Some(table) = store.tables().get(place) else {
        return Err(BindFault::Memory);
    };
    let old = match matched.rows(alloc) {
        Ok(old) => old,
        Err(AllocError) => return Err(BindFault::Memory),
    };
    set_rows(alloc, table.columns.as_slice(), sets, old.as_slice())
}

/// The matched rows are replaced by what an UPDATE makes of them, or it is refused: the limit on rows, then the lock, then what it sets.
fn update_matched<D: Disk>(
    alloc: Global,
    store: &mut Store,
    update: &Update,
    place: usize,
    bound: &BoundUpdate,
    matched: Matched,
) -> Result<Answer, AllocError>
    requires planned { IsPlanned (frame_of store.old) (Statement.Update update.now) (Plan.Update place bound.now) }
    requires committed { All (λ a. IsRow a.row) matched.committed.items }
    requires pending { All IsRow matched.pending.items }
    ensures { (files : LoadFiles) (disk : D) (state : State) → IsState ⟦<D as Disk>⟧ store.old disk state → update_refusal (columns_found state.database.tables update.now.table) update.now ≡ None
        → UpdateMatches state update.now place bound.now.rows.keep bound.now.assigned.columns matched.committed.items matched.pending.items → Holds ⟦<D as Disk>⟧ files (Statement.Update update.now) store.new disk result state }
{
    updates_are_sound();
    settings_see_a_bag();
    matches_are_the_matched_rows();
    changed_rows_stand::<D>();
    frames_are_of_the_state::<D>();
    let name = update.table.as_slice();
    let mut left = match store.rows_left(alloc, name, bound.rows.keep.as_slice()) {
        Ok(left) => left,
        Err(AllocError) => return Err(AllocError),
    };
    let text = match updated_text(alloc, matched.count()) {
        Ok(text) => text,
        Err(AllocError) => return Err(AllocError),
    };
    match change_refusal(&store.frame(), name, left.len() + matched.count()) {
        Some(refusal) => return refused(alloc, refusal),
        None => {}
    }
    let sets = bound.assigned.columns.as_slice();
    let mut made = match made_rows(alloc, store, place, sets, &matched) {
        Ok(made) => made,
        Err(BindFault::Refused(refusal)) => return refused(alloc, refusal),
        Err(BindFault::Memory) => return Err(AllocError),
    };
    match left.append(&mut made) {
        Ok(()) => change(alloc, store, name, left, matched.committed, text),
        Err(AllocError) => Err(AllocError),
    }
}

/// UPDATE, of the table at a place, by its bound trees.
pub fn update_rows<D: Disk>(
    alloc: Global,
    store: &mut Store,
    update: &Update,
    place: usize,
    bound: &BoundUpdate,
    disk: &mut D,
) -> Result<Answer, StoreFault>
    requires { IsPlanned (frame_of store.old) (Statement.Update update.now) (Plan.Update place bound.now) }
    ensures answers { (files : LoadFiles) (state : State) → IsState ⟦<D as Disk>⟧ store.old disk.old state
        → Answers ⟦<D as Disk>⟧ files (Statement.Update update.now) store.new disk.old disk.new result state }
    ensures named { IfErr result (NamesHeld ⟦<D as Disk>⟧ store.new disk.new) }
    ensures cause { HasCause StoreFault.Disk (D.faults disk.old) (D.faults disk.new) result }
{
    every_image_reopens::<D>();
    other_files_move::<D>();
    moving_files_reopen::<D>();
    frames_are_of_the_state::<D>();
    let matched = match store.matches(alloc, place, bound.rows.keep.as_slice(), disk) {
        Ok(matched) => matched,
        Err(fault) => return Err(fault),
    };
    in_memory(update_matched::<D>(alloc, store, update, place, bound, matched))
}
