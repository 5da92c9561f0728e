//! The tables and projections that are dropped.

ghost use Rattle.std.specs.Prelude.{◌≡◌, IfErr, IfOk, None, Some, option_map};
ghost use Rattle.db_model.specs.Refusals.{table_dropped_refusal, unknown_table_refusal};
ghost use Rattle.db_model.specs.Views.{table_found};
ghost use Rattle.name_binder.specs.Refusing.{RefusesBy};
ghost use Rattle.sql_tree.specs.declared.statement.Statement.{Statement};
ghost use Rattle.statement_plan.specs.Planned.{early_refusal, IsPlanned};

use crate::frame::Frame;
use crate::plans::Plan;
use crate::refusing::{last_super, unknown_projection};
use col_value::Name;
use name_binder::{BindFault, Naming};
use std::alloc::Global;

/// The place of a table that has to be there.
pub fn known_table(alloc: Global, frame: &Frame<'_>, name: &Name) -> Result<usize, BindFault>
    ensures planned { IfOk result (λ place. (option_map (λ e. e.0) (table_found name.now frame.now.database.tables) ≡ Some place) × (unknown_table_refusal frame.now name.now ≡ None)) }
    ensures refused { IfErr result (RefusesBy (unknown_table_refusal frame.now name.now)) }
{
    match frame.found(name.as_slice()) {
        Some(found) => Ok(found.table()),
        None => Err(Naming::UnknownTable.refuse(alloc, name.as_slice())),
    }
}

/// The place of a table that is dropped.
pub fn plan_drop(alloc: Global, frame: &Frame<'_>, name: &Name) -> Result<usize, BindFault>
    ensures planned { IfOk result (λ place. (option_map (λ e. e.0) (table_found name.now frame.now.database.tables) ≡ Some place) × (table_dropped_refusal frame.now name.now ≡ None)) }
    ensures refused { IfErr result (RefusesBy (table_dropped_refusal frame.now name.now)) }
{
    let place = known_table(alloc, frame, name)?;
    match frame.locked(name.as_slice(), true) {
        Some(refusal) => return Err(BindFault::Refused(refusal)),
        None => {}
    }
    match frame.spent() {
        Some(refusal) => Err(BindFault::Refused(refusal)),
        None => Ok(place),
    }
}

/// What a DROP PROJECTION does, or why it is refused.
#[tactic(auto, using(crate::proofs::Owners::dropped_unknown, crate::proofs::Owners::owner_has))]
pub fn plan_projection_drop(
    alloc: Global,
    frame: &Frame<'_>,
    name: &Name,
) -> Result<Plan, BindFault>
    ensures planned { IfOk result (IsPlanned frame.now (Statement.DropProjection name.now)) }
    ensures refused { IfErr result (RefusesBy (early_refusal frame.now (Statement.DropProjection name.now))) }
{
    let Some(owner) = frame.owner(name.as_slice()) else {
        return Err(unknown_projection(alloc, name));
    };
    if owner.is_last_super(name.as_slice()) {
        return Err(last_super(alloc, name));
    }
    if let Some(refusal) = frame.spent() {
        return Err(BindFault::Refused(refusal));
    }
    match owner.projection(name.as_slice()) {
        Some(place) => Ok(Plan::DropProjection(owner.place(), place)),
        None => unreachable!(),
    }
}
