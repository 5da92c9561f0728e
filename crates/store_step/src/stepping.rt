//! A statement text, read, planned, done and printed.

ghost use Rattle.std.specs.Prelude.{ℕ, ◌≡◌, ◌≤◌, false, true, List as Items, None, Some, IfErr, IfOk, IsErrOf};
ghost use Rattle.common_laws.specs.Causes.{HasCause, Rose};
ghost use Rattle.db_model.specs.Loading.{Files as LoadFiles};
ghost use Rattle.db_model.specs.State.{State};
ghost use Rattle.name_binder.specs.Refusing.{RefusesBy};
ghost use Rattle.sql_tree.specs.Spells.{Spells};
ghost use Rattle.sql_words.specs.Symbols.{symbols_of};
ghost use Rattle.sql_tree.specs.declared.statement.Statement.{Statement as AStatement};
ghost use Rattle.statement_plan.specs.Planned.{early_call_refusal, early_refusal, IsCallOn, IsPlainCall, IsPlanned};
ghost use Rattle.store_core.specs.Named.{NamesHeld};
ghost use Rattle.store_core.specs.Running.{frame_of, IsState};
ghost use Rattle.store_step.specs.Arms.{Answers};
ghost use Rattle.store_step.specs.Faults.{NamesStepped};
ghost use Rattle.store_step.specs.Forms.{is_copy, is_of_schema};
ghost use Rattle.store_step.specs.Steps.{Steps};
ghost use Rattle.store_step.specs.Texts.{HasRange};
ghost use Rattle.store_step.specs.Works.{WhereDone, Works, WorksOf};

use crate::answer::{Answer, StepFault};
use crate::answering::{in_memory, of_text, refused, unplanned};
use crate::changing::{delete_rows, update_rows};
use crate::events::{commit, create_table, drop_table, select};
use crate::holding::{
    ahm_epoch, current_epoch, explain_query, insert_rows, last_good_epoch, roll_back,
    start_refresh, use_session,
};
use crate::jobs::{mergeout, purge_table, refresh_table};
use crate::loading::copy;
use crate::marking::set_mark;
use crate::moving::{moveout, step_mover};
use crate::reading::{Reading, read_statement};
use crate::shaping::{add_column, create_projection, drop_projection};
use col_disk::{Disk, StoreFault};
use col_io::Files;
use folder_model::{every_image_reopens, last_good_is_reached};
use name_binder::BindFault;
use sql_reader::one_reading;
use sql_tree::{Function, Refusal, Statement};
use statement_plan::{Plan, early_refusals_stand, make_plan};
use std::alloc::{AllocError, Global};
use store_core::{Store, frames_are_of_the_state};

/// A function that is of no table and isn't refused for what it says.
fn call<D: Disk>(
    alloc: Global,
    store: &mut Store,
    function: &Function,
    disk: &mut D,
) -> Result<Answer, StoreFault>
    requires plain { IsPlainCall function.now }
    ensures answers { (files : LoadFiles) (state : State) → IsState ⟦<D as Disk>⟧ store.old disk.old state → early_call_refusal state function.now ≡ None
        → Answers ⟦<D as Disk>⟧ files (AStatement.Call function.now) store.new disk.old disk.new result state }
    ensures works { WhereDone ⟦<D as Disk>⟧ store.old disk.old result (Works (AStatement.Call function.now) store.old store.new) }
    ensures named { IfErr result (NamesHeld ⟦<D as Disk>⟧ store.new disk.new) }
    ensures cause { HasCause StoreFault.Disk (D.faults disk.old) (D.faults disk.new) result }
{
    every_image_reopens::<D>();
    last_good_is_reached();
    match function {
        Function::Lge => in_memory(last_good_epoch::<D>(alloc, store)),
        Function::Ahm => in_memory(ahm_epoch::<D>(alloc, store)),
        Function::Current => in_memory(current_epoch::<D>(alloc, store)),
        Function::MakeAhmNow => {
            let mark = u128::from(store.last_good());
            set_mark(alloc, store, mark, disk)
        }
        Function::SetAhm(mark) => set_mark(alloc, store, *mark, disk),
        Function::Moveout => moveout(alloc, store, disk),
        Function::Mergeout => mergeout(alloc, store, disk),
        Function::StartRefresh => in_memory(start_refresh::<D>(alloc, store)),
        _ => unreachable!(),
    }
}

/// A function of the table at a place that isn't refused for what it says.
fn call_on<D: Disk>(
    alloc: Global,
    store: &mut Store,
    function: &Function,
    place: usize,
    disk: &mut D,
) -> Result<Answer, StoreFault>
    requires { IsCallOn (frame_of store.old) function.now place }
    ensures answers { (files : LoadFiles) (state : State) → IsState ⟦<D as Disk>⟧ store.old disk.old state → early_call_refusal state function.now ≡ None
        → Answers ⟦<D as Disk>⟧ files (AStatement.Call function.now) store.new disk.old disk.new result state }
    ensures works { WhereDone ⟦<D as Disk>⟧ store.old disk.old result (Works (AStatement.Call function.now) store.old store.new) }
    ensures named { IfErr result (NamesHeld ⟦<D as Disk>⟧ store.new disk.new) }
    ensures cause { HasCause StoreFault.Disk (D.faults disk.old) (D.faults disk.new) result }
{
    match function {
        Function::Purge(name) => purge_table(alloc, store, name.as_slice(), place, disk),
        Function::Refresh(name) => refresh_table(alloc, store, name.as_slice(), place, disk),
        _ => unreachable!(),
    }
}

/// Does what a statement does that makes or drops a table or a projection, or adds a column, and isn't refused for what it says.
fn change_schema<D: Disk>(
    alloc: Global,
    store: &mut Store,
    statement: Statement,
    plan: Plan,
    disk: &mut D,
) -> Result<Answer, StoreFault>
    requires schema { is_of_schema statement ≡ true }
    requires planned { IsPlanned (frame_of store.old) statement plan }
    ensures answers { (files : LoadFiles) (state : State) → IsState ⟦<D as Disk>⟧ store.old disk.old state
        → Answers ⟦<D as Disk>⟧ files statement store.new disk.old disk.new result state }
    ensures works { WhereDone ⟦<D as Disk>⟧ store.old disk.old result (Works statement store.old store.new) }
    ensures named { IfErr result (NamesHeld ⟦<D as Disk>⟧ store.new disk.new) }
    ensures cause { HasCause StoreFault.Disk (D.faults disk.old) (D.faults disk.new) result }
{
    frames_are_of_the_state::<D>();
    match (statement, plan) {
        (Statement::CreateTable(name, columns), _) => {
            create_table(alloc, store, name, columns, disk)
        }
        (Statement::DropTable(name), Plan::DropTable(place)) => {
            drop_table(alloc, store, name.as_slice(), place, disk)
        }
        (Statement::CreateProjection(projection), Plan::CreateProjection(place, shape)) => {
            create_projection(alloc, store, projection, place, shape, disk)
        }
        (Statement::DropProjection(name), Plan::DropProjection(table, place)) => {
            drop_projection(alloc, store, name.as_slice(), table, place, disk)
        }
        (Statement::AddColumn(add), Plan::AddColumn(place, default)) => {
            add_column(alloc, store, &add, place, &default, disk)
        }
        _ => unreachable!(),
    }
}

/// Does what a statement does that isn't refused for what it says and looks at no load file, and answers what it prints.
fn perform<D: Disk>(
    alloc: Global,
    store: &mut Store,
    statement: Statement,
    plan: Plan,
    disk: &mut D,
) -> Result<Answer, StoreFault>
    requires file { is_copy statement ≡ false }
    requires range { HasRange statement }
    requires planned { IsPlanned (frame_of store.old) statement plan }
    ensures answers { (files : LoadFiles) (state : State) → IsState ⟦<D as Disk>⟧ store.old disk.old state
        → Answers ⟦<D as Disk>⟧ files statement store.new disk.old disk.new result state }
    ensures works { WhereDone ⟦<D as Disk>⟧ store.old disk.old result (Works statement store.old store.new) }
    ensures named { IfErr result (NamesHeld ⟦<D as Disk>⟧ store.new disk.new) }
    ensures cause { HasCause StoreFault.Disk (D.faults disk.old) (D.faults disk.new) result }
{
    every_image_reopens::<D>();
    frames_are_of_the_state::<D>();
    match (statement, plan) {
        (Statement::Insert(insert), Plan::Insert(rows)) => {
            in_memory(insert_rows::<D>(alloc, store, &insert, rows))
        }
        (Statement::Delete(delete), Plan::Delete(place, bound)) => {
            delete_rows(alloc, store, &delete, place, &bound, disk)
        }
        (Statement::Update(update), Plan::Update(place, bound)) => {
            update_rows(alloc, store, &update, place, &bound, disk)
        }
        (Statement::Commit, _) => commit(alloc, store, disk),
        (Statement::Rollback, _) => in_memory(roll_back::<D>(alloc, store)),
        (Statement::Select(at, query), Plan::Select(bound)) => {
            select(alloc, store, at, &query, &bound, disk)
        }
        (Statement::Explain(query), Plan::Explain(bound)) => {
            in_memory(explain_query::<D>(alloc, store, &query, &bound))
        }
        (Statement::Call(function), Plan::CallOn(place)) => {
            call_on(alloc, store, &function, place, disk)
        }
        (Statement::Call(function), Plan::Call) => call(alloc, store, &function, disk),
        (Statement::Session(number), _) => in_memory(use_session::<D>(alloc, store, number)),
        (Statement::Step, _) => step_mover(alloc, store, disk),
        (statement, plan) => change_schema(alloc, store, statement, plan, disk),
    }
}

/// What a statement does by the tables of the store, or why it is refused before a row is looked at.
fn plan(alloc: Global, store: &Store, statement: &Statement) -> Result<Plan, BindFault>
    ensures planned { IfOk result (IsPlanned (frame_of store.now) statement.now) }
    ensures refused { IfErr result (RefusesBy (early_refusal (frame_of store.now) statement.now)) }
{
    make_plan(alloc, &store.frame(), statement)
}

/// Runs a statement that looks at no load file.
fn answer<D: Disk>(
    alloc: Global,
    store: &mut Store,
    statement: Statement,
    disk: &mut D,
) -> Result<Answer, StoreFault>
    requires file { is_copy statement ≡ false }
    requires range { HasRange statement }
    ensures answers { (files : LoadFiles) (state : State) → IsState ⟦<D as Disk>⟧ store.old disk.old state
        → Answers ⟦<D as Disk>⟧ files statement store.new disk.old disk.new result state }
    ensures works { WhereDone ⟦<D as Disk>⟧ store.old disk.old result (Works statement store.old store.new) }
    ensures named { IfErr result (NamesHeld ⟦<D as Disk>⟧ store.new disk.new) }
    ensures cause { HasCause StoreFault.Disk (D.faults disk.old) (D.faults disk.new) result }
{
    every_image_reopens::<D>();
    frames_are_of_the_state::<D>();
    early_refusals_stand();
    match plan(alloc, store, &statement) {
        Ok(plan) => perform(alloc, store, statement, plan, disk),
        Err(fault) => in_memory(unplanned(alloc, fault)),
    }
}

/// Runs a statement.
fn run<F: Files, D: Disk>(
    alloc: Global,
    store: &mut Store,
    statement: Statement,
    files: &mut F,
    disk: &mut D,
) -> Result<Answer, StepFault>
    requires { HasRange statement }
    ensures steps { (text : Items ℕ) (there : LoadFiles) (state : State) → Spells (symbols_of text) statement → F.content files.old ≡ Some there → IsState ⟦<D as Disk>⟧ store.old disk.old state
        → Steps ⟦<D as Disk>⟧ there text store.new disk.old disk.new result state }
    ensures works { WhereDone ⟦<D as Disk>⟧ store.old disk.old result (Works statement store.old store.new) }
    ensures content { F.content files.new ≡ F.content files.old }
    ensures read { HasCause StepFault.Read (F.faults files.old) (F.faults files.new) result }
    ensures named { IfErr result (NamesStepped ⟦<D as Disk>⟧ store.new disk.new) }
    ensures cause { HasCause StepFault.Disk (D.faults disk.old) (D.faults disk.new) result }
{
    match statement {
        Statement::Copy(table, file) => copy(alloc, store, &table, &file, files, disk),
        statement => of_text(answer(alloc, store, statement, disk)),
    }
}

/// Runs one statement text, without its `;`, and answers what it prints. The text is whole before the statement takes effect.
pub fn step<F: Files, D: Disk>(
    alloc: Global,
    store: &mut Store,
    text: &[u8],
    files: &mut F,
    disk: &mut D,
) -> Result<Answer, StepFault>
    ensures steps { (there : LoadFiles) (state : State) → F.content files.old ≡ Some there → IsState ⟦<D as Disk>⟧ store.old disk.old state
        → Steps ⟦<D as Disk>⟧ there text.now store.new disk.old disk.new result state }
    ensures works { WhereDone ⟦<D as Disk>⟧ store.old disk.old result (WorksOf text.now store.old store.new) }
    ensures content { F.content files.new ≡ F.content files.old }
    ensures files_later { F.faults files.old ≤ F.faults files.new }
    ensures read { IsErrOf result StepFault.Read → Rose (F.faults files.old) (F.faults files.new) }
    ensures named { IfErr result (NamesStepped ⟦<D as Disk>⟧ store.new disk.new) }
    ensures cause { HasCause StepFault.Disk (D.faults disk.old) (D.faults disk.new) result }
{
    every_image_reopens::<D>();
    one_reading();
    match read_statement(alloc, text) {
        Ok(Reading::Says(statement)) => run(alloc, store, statement, files, disk),
        Ok(Reading::Wrong(place)) => of_text(in_memory(refused(alloc, Refusal::Syntax(place)))),
        Err(AllocError) => Err(StepFault::Memory),
    }
}
