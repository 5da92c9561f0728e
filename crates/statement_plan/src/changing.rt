//! The rows that DELETE and UPDATE change.

ghost use Rattle.std.specs.Prelude.{◌≡◌, true, IfErr, IfOk};
ghost use Rattle.std.specs.Option.{option_map_or};
ghost use Rattle.name_binder.specs.Refusing.{RefusesBy};
ghost use Rattle.db_model.specs.Refusals.{locked};
ghost use Rattle.db_model.specs.Refusing.{rows_limit};
ghost use Rattle.sql_binding.specs.Firsts.{first_of};
ghost use Rattle.sql_tree.specs.declared.statement.Statement.{Statement};
ghost use Rattle.statement_plan.specs.Planned.{early_refusal, IsPlanned};

use crate::frame::{Frame, MOST_ROWS};
use crate::plans::Plan;
use change_binder::{bind_delete, bind_update};
use name_binder::{BindFault, Found};
use sql_tree::{Delete, Refusal, Update, Which};
use std::alloc::Global;

/// The place of a table that was found.
fn place_of(found: &Option<Found<'_>>) -> usize
    ensures { result ≡ option_map_or (λ t. t.0) found.now 0 }
{
    match found {
        Some(table) => table.table(),
        None => 0,
    }
}

/// What a DELETE does, or why it is refused whatever the rows are; the lock is looked at last.
pub fn plan_delete(alloc: Global, frame: &Frame<'_>, delete: &Delete) -> Result<Plan, BindFault>
    ensures planned { IfOk result (IsPlanned frame.now (Statement.Delete delete.now)) }
    ensures refused { IfErr result (RefusesBy (early_refusal frame.now (Statement.Delete delete.now))) }
{
    let name = delete.table.as_slice();
    let found = frame.found(name);
    match bind_delete(alloc, delete, &found) {
        Ok(bound) => match frame.locked(name, true) {
            Some(refusal) => Err(BindFault::Refused(refusal)),
            None => Ok(Plan::Delete(place_of(&found), bound)),
        },
        Err(fault) => Err(fault),
    }
}

/// What an UPDATE does, or why it is refused whatever the rows are: the limit on rows, the lock and the values that it sets are looked at
/// over its rows.
pub fn plan_update(alloc: Global, frame: &Frame<'_>, update: &Update) -> Result<Plan, BindFault>
    ensures planned { IfOk result (IsPlanned frame.now (Statement.Update update.now)) }
    ensures refused { IfErr result (RefusesBy (early_refusal frame.now (Statement.Update update.now))) }
{
    let found = frame.found(update.table.as_slice());
    match bind_update(alloc, update, &found) {
        Ok(bound) => Ok(Plan::Update(place_of(&found), bound)),
        Err(fault) => Err(fault),
    }
}

/// Why an UPDATE can't leave so many pending rows in the table of a name: the limit on rows, and then the lock.
pub fn change_refusal(frame: &Frame<'_>, name: &[u8], rows: usize) -> Option<Refusal>
    ensures { result ≡ first_of (rows_limit rows) (locked frame.now name.now true) }
{
    if rows > MOST_ROWS {
        Some(Refusal::Limit(Which::Rows, 16_777_216))
    } else {
        frame.locked(name, true)
    }
}
