//! The plan of a statement.

ghost use Rattle.std.specs.Prelude.{◌≡◌, true, IfErr, IfOk};
ghost use Rattle.name_binder.specs.Refusing.{RefusesBy};
ghost use Rattle.sql_tree.specs.declared.statement.Statement.{Statement as AStatement};
ghost use Rattle.statement_plan.specs.Planned.{early_call_refusal, early_refusal, IsPlanned};

use crate::adding::plan_addition;
use crate::changing::{plan_delete, plan_update};
use crate::creating::plan_table;
use crate::dropping::{known_table, plan_drop, plan_projection_drop};
use crate::frame::Frame;
use crate::inserting::plan_insert;
use crate::loading::loadable_table;
use crate::plans::Plan;
use crate::projecting::plan_projection;
use crate::querying::{plan_query, plan_select};
use name_binder::BindFault;
use sql_tree::{Function, Statement};
use std::alloc::Global;

/// The plan of a function, or why it is refused by what it says.
fn plan_call(alloc: Global, frame: &Frame<'_>, function: &Function) -> Result<Plan, BindFault>
    ensures planned { IfOk result (IsPlanned frame.now (AStatement.Call function.now)) }
    ensures refused { IfErr result (RefusesBy (early_call_refusal frame.now function.now)) }
{
    match function {
        Function::MakeAhmNow => match frame.marking_now() {
            Some(refusal) => Err(BindFault::Refused(refusal)),
            None => Ok(Plan::Call),
        },
        Function::SetAhm(mark) => match frame.marking(*mark) {
            Some(refusal) => Err(BindFault::Refused(refusal)),
            None => Ok(Plan::Call),
        },
        Function::Purge(table) => match known_table(alloc, frame, table) {
            Ok(place) => Ok(Plan::CallOn(place)),
            Err(fault) => Err(fault),
        },
        Function::Refresh(table) => match known_table(alloc, frame, table) {
            Ok(place) => Ok(Plan::CallOn(place)),
            Err(fault) => Err(fault),
        },
        Function::Lge
        | Function::Ahm
        | Function::Current
        | Function::Moveout
        | Function::Mergeout
        | Function::StartRefresh => Ok(Plan::Call),
    }
}

/// What a statement does, or why it is refused whatever the rows are.
pub fn make_plan(alloc: Global, frame: &Frame<'_>, statement: &Statement) -> Result<Plan, BindFault>
    ensures planned { IfOk result (IsPlanned frame.now statement.now) }
    ensures refused { IfErr result (RefusesBy (early_refusal frame.now statement.now)) }
{
    match statement {
        Statement::CreateTable(name, columns) => plan_table(alloc, frame, name, columns.as_slice()),
        Statement::CreateProjection(projection) => plan_projection(alloc, frame, projection),
        Statement::DropTable(name) => match plan_drop(alloc, frame, name) {
            Ok(place) => Ok(Plan::DropTable(place)),
            Err(fault) => Err(fault),
        },
        Statement::DropProjection(name) => plan_projection_drop(alloc, frame, name),
        Statement::Insert(insert) => match plan_insert(alloc, frame, insert) {
            Ok(rows) => Ok(Plan::Insert(rows)),
            Err(fault) => Err(fault),
        },
        Statement::Delete(delete) => plan_delete(alloc, frame, delete),
        Statement::Update(update) => plan_update(alloc, frame, update),
        Statement::Copy(table, _) => match loadable_table(alloc, frame, table) {
            Ok(place) => Ok(Plan::Copy(place)),
            Err(fault) => Err(fault),
        },
        Statement::AddColumn(add) => plan_addition(alloc, frame, add),
        Statement::Commit => match frame.committing() {
            Some(refusal) => Err(BindFault::Refused(refusal)),
            None => Ok(Plan::Commit),
        },
        Statement::Rollback => Ok(Plan::Rollback),
        Statement::Select(at, query) => match plan_select(alloc, frame, *at, query) {
            Ok(bound) => Ok(Plan::Select(bound)),
            Err(fault) => Err(fault),
        },
        Statement::Explain(query) => match plan_query(alloc, frame, query) {
            Ok(bound) => Ok(Plan::Explain(bound)),
            Err(fault) => Err(fault),
        },
        Statement::Call(function) => plan_call(alloc, frame, function),
        Statement::Session(number) => Ok(Plan::Session(*number)),
        Statement::Step => Ok(Plan::Step),
    }
}
