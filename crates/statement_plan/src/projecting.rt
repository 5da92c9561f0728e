//! New projections.

ghost use Rattle.std.specs.Prelude.{◌≡◌, IfErr, IfOk, OnOk, None, Some, option_map};
ghost use Rattle.sql_binding.specs.Projections.{bound_projection, projection_form_over};
ghost use Rattle.sql_tree.specs.declared.refusal.Refusal.{Refusal};
ghost use Rattle.sql_tree.specs.declared.statement.Statement.{Statement};
ghost use Rattle.db_model.specs.Refusing.{if_taken};
ghost use Rattle.db_model.specs.Refusals.{projection_refusal_over};
ghost use Rattle.name_binder.specs.Refusing.{RefusesBy};
ghost use Rattle.statement_plan.specs.Planned.{early_refusal, IsPlanned};
ghost use Rattle.statement_plan.specs.Projecting.{before_limits, is_limit, refusal_behind_names, refusal_on};

use crate::frame::Frame;
use crate::placed::Placed;
use crate::plans::Plan;
use change_binder::{
    ProjectionShape, bind_projection, check_projection_form, check_projection_names,
};
use col_value::Name;
use name_binder::{BindFault, Naming};
use sql_tree::{NewProjection, Refusal};
use std::alloc::Global;

fn is_limit(refusal: &Refusal) -> bool
    ensures { result ≡ is_limit refusal.now }
{
    match refusal {
        Refusal::Limit(_, _) => true,
        _ => false,
    }
}

/// The refusal of a projection for what it is: the limit on projections comes before the one on its name.
fn before_limits(found: Refusal, other: Option<Refusal>) -> Refusal
    ensures { result ≡ before_limits found other }
{
    if is_limit(&found) {
        match other {
            Some(other) => other,
            None => found,
        }
    } else {
        found
    }
}

/// Refuses a new projection of this table for what it is.
fn check_form(
    alloc: Global,
    projection: &NewProjection,
    table: &Placed<'_>,
) -> Result<(), BindFault>
    ensures ok { OnOk result (projection_refusal_over projection.now table.now.1 ≡ None) }
    ensures refused { IfErr result (RefusesBy (projection_refusal_over projection.now table.now.1)) }
{
    let limit = table.limit();
    match check_projection_form(alloc, projection, &Some(table.found())) {
        Ok(()) => match limit {
            Some(limit) => Err(BindFault::Refused(limit)),
            None => Ok(()),
        },
        Err(BindFault::Refused(refusal)) => Err(BindFault::Refused(before_limits(refusal, limit))),
        Err(BindFault::Memory) => Err(BindFault::Memory),
    }
}

/// Refuses a name that is taken.
fn check_free(alloc: Global, frame: &Frame<'_>, name: &Name) -> Result<(), BindFault>
    ensures ok { OnOk result (option_map Refusal.Exists (if_taken frame.now.database.tables name.now) ≡ None) }
    ensures refused { IfErr result (RefusesBy (option_map Refusal.Exists (if_taken frame.now.database.tables name.now))) }
{
    if frame.is_taken(name.as_slice()) {
        return Err(Naming::Exists.refuse(alloc, name.as_slice()));
    }
    Ok(())
}

/// Refuses a new projection of this table whose columns are there.
fn check_behind_names(
    alloc: Global,
    frame: &Frame<'_>,
    projection: &NewProjection,
    table: &Placed<'_>,
) -> Result<(), BindFault>
    ensures ok { OnOk result (refusal_behind_names frame.now projection.now table.now.1 ≡ None) }
    ensures refused { IfErr result (RefusesBy (refusal_behind_names frame.now projection.now table.now.1)) }
{
    check_free(alloc, frame, &projection.name)?;
    check_form(alloc, projection, table)?;
    match frame.spent() {
        Some(refusal) => Err(BindFault::Refused(refusal)),
        None => Ok(()),
    }
}

/// The shape of a new projection of this table.
fn shape_on(
    alloc: Global,
    frame: &Frame<'_>,
    projection: &NewProjection,
    table: &Placed<'_>,
) -> Result<ProjectionShape, BindFault>
    ensures bound { IfOk result (λ s. (bound_projection table.now.1.columns projection.now ≡ (s.columns, s.sort)) × (refusal_on frame.now projection.now table.now.1 ≡ None)) }
    ensures refused { IfErr result (RefusesBy (refusal_on frame.now projection.now table.now.1)) }
{
    let found = Some(table.found());
    check_projection_names(alloc, projection, &found)?;
    check_behind_names(alloc, frame, projection, table)?;
    bind_projection(alloc, projection, &found)
}

/// What a CREATE PROJECTION does, or why it is refused.
pub fn plan_projection(
    alloc: Global,
    frame: &Frame<'_>,
    projection: &NewProjection,
) -> Result<Plan, BindFault>
    ensures planned { IfOk result (IsPlanned frame.now (Statement.CreateProjection projection.now)) }
    ensures refused { IfErr result (RefusesBy (early_refusal frame.now (Statement.CreateProjection projection.now))) }
{
    let Some(table) = frame.table(projection.table.as_slice()) else {
        return Err(Naming::UnknownTable.refuse(alloc, projection.table.as_slice()));
    };
    match shape_on(alloc, frame, projection, &table) {
        Ok(shape) => Ok(Plan::CreateProjection(table.place(), shape)),
        Err(fault) => Err(fault),
    }
}
