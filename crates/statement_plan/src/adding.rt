//! The columns that are added to tables.

ghost use Rattle.std.specs.Prelude.{◌≡◌, IfErr, IfOk, None, OnOk};
ghost use Rattle.change_binder.specs.Answers.{IsBoundDefault};
ghost use Rattle.name_binder.specs.Refusing.{RefusesBy};
ghost use Rattle.sql_tree.specs.declared.statement.Statement.{Statement};
ghost use Rattle.statement_plan.specs.Adding.{addition_refusal_behind};
ghost use Rattle.statement_plan.specs.Planned.{early_refusal, IsPlanned};

use crate::creating::column_limit;
use crate::frame::Frame;
use crate::plans::Plan;
use change_binder::{bind_default, check_addition};
use col_value::Value;
use name_binder::{BindFault, Naming};
use sql_tree::AddColumn;
use std::alloc::Global;

/// The default of a new column that has its table and a name and kind of its own, or why a table of so many columns can't get it.
fn default_of(
    alloc: Global,
    frame: &Frame<'_>,
    columns: usize,
    add: &AddColumn,
) -> Result<Value, BindFault>
    ensures bound { IfOk result (IsBoundDefault add.now) }
    ensures free { OnOk result (addition_refusal_behind frame.now columns add.now ≡ None) }
    ensures refused { IfErr result (RefusesBy (addition_refusal_behind frame.now columns add.now)) }
{
    if let Some(limit) = column_limit(columns, &add.column) {
        return Err(BindFault::Refused(limit));
    }
    if let Some(held) = frame.held(add.table.as_slice()) {
        return Err(BindFault::Refused(held));
    }
    let default = bind_default(alloc, add)?;
    match frame.spent() {
        Some(refusal) => Err(BindFault::Refused(refusal)),
        None => Ok(default),
    }
}

/// What an ALTER TABLE does, or why it is refused.
pub fn plan_addition(alloc: Global, frame: &Frame<'_>, add: &AddColumn) -> Result<Plan, BindFault>
    ensures planned { IfOk result (IsPlanned frame.now (Statement.AddColumn add.now)) }
    ensures refused { IfErr result (RefusesBy (early_refusal frame.now (Statement.AddColumn add.now))) }
{
    let name = add.table.as_slice();
    let Some(table) = frame.found(name) else {
        return Err(Naming::UnknownTable.refuse(alloc, name));
    };
    check_addition(alloc, table.columns(), add)?;
    let default = default_of(alloc, frame, table.columns().len(), add)?;
    Ok(Plan::AddColumn(table.table(), default))
}
