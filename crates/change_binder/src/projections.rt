ghost use Rattle.std.specs.Prelude.{◌≡◌, IfOk, IfErr, OnOk, option_map, None, Some};
ghost use Rattle.sql_tree.specs.declared.refusal.Refusal.{Refusal};
ghost use Rattle.name_binder.specs.Refusing.{RefusesBy};
ghost use Rattle.sql_binding.specs.Firsts.{refused_where};
ghost use Rattle.sql_binding.specs.Projections.{projection_refusal, projection_name_refusal, projection_form_over, is_bad_projection, bad_encoding, name_limit, bound_projection};
ghost use Rattle.change_binder.specs.Answers.{IsBoundProjection, columns_in};

use crate::shapes::{bad_encoding, bound_parts, bound_sort, is_bad_projection, lacking_name};
use col_value::{Column, Encoding, List};
use name_binder::{BindFault, Found, Naming};
use sql_tree::{NewProjection, Refusal, Which};
use std::alloc::{AllocError, Global};

/// The columns of a new projection by their places in the table, each with its encoding, and the places among them by which it is
/// sorted.
#[derive(Debug, Drop)]
pub struct ProjectionShape {
    pub columns: List<(usize, Encoding)>,
    pub sort: List<usize>,
}

/// The shape of a new projection, whose table was found, or was not, and whose name is free.
pub fn bind_projection(
    alloc: Global,
    projection: &NewProjection,
    found: &Option<Found<'_>>,
) -> Result<ProjectionShape, BindFault>
    ensures bound { IfOk result (IsBoundProjection (columns_in found.now) projection.now) }
    ensures refused { IfErr result (RefusesBy (projection_refusal (columns_in found.now) projection.now)) }
{
    let Some(table) = found else {
        return Err(Naming::UnknownTable.refuse(alloc, projection.table.as_slice()));
    };
    check_column_names(alloc, projection, table.columns())?;
    check_form(alloc, projection, table.columns())?;
    Ok(bound_projection(alloc, projection, table.columns())?)
}

/// Refuses a new projection for its table and its columns, before its own name is looked for.
pub fn check_projection_names(
    alloc: Global,
    projection: &NewProjection,
    found: &Option<Found<'_>>,
) -> Result<(), BindFault>
    ensures ok { OnOk result (projection_name_refusal (columns_in found.now) projection.now ≡ None) }
    ensures refused { IfErr result (RefusesBy (projection_name_refusal (columns_in found.now) projection.now)) }
{
    match found {
        None => Err(Naming::UnknownTable.refuse(alloc, projection.table.as_slice())),
        Some(table) => check_column_names(alloc, projection, table.columns()),
    }
}

/// Refuses a new projection for what it is, behind its own name; where its table isn't there nothing is refused.
pub fn check_projection_form(
    alloc: Global,
    projection: &NewProjection,
    found: &Option<Found<'_>>,
) -> Result<(), BindFault>
    ensures ok { OnOk result (projection_form_over (columns_in found.now) projection.now ≡ None) }
    ensures refused { IfErr result (RefusesBy (projection_form_over (columns_in found.now) projection.now)) }
{
    match found {
        None => Ok(()),
        Some(table) => check_form(alloc, projection, table.columns()),
    }
}

/// Refuses a column that the table lacks.
fn check_column_names(
    alloc: Global,
    projection: &NewProjection,
    columns: &[Column],
) -> Result<(), BindFault>
    ensures ok { OnOk result (projection_name_refusal (Some columns.now) projection.now ≡ None) }
    ensures refused { IfErr result (RefusesBy (projection_name_refusal (Some columns.now) projection.now)) }
{
    match lacking_name(columns, projection) {
        None => Ok(()),
        Some(name) => Err(Naming::UnknownColumn.refuse(alloc, name)),
    }
}

fn check_form(
    alloc: Global,
    projection: &NewProjection,
    columns: &[Column],
) -> Result<(), BindFault>
    ensures ok { OnOk result (projection_form_over (Some columns.now) projection.now ≡ None) }
    ensures refused { IfErr result (RefusesBy (projection_form_over (Some columns.now) projection.now)) }
{
    check_lists(alloc, projection)?;
    check_encodings(alloc, projection, columns)?;
    check_name(projection)
}

/// Refuses lists that differ, a column that stands twice, and a sort column that is none of them.
fn check_lists(alloc: Global, projection: &NewProjection) -> Result<(), BindFault>
    ensures ok { OnOk result (refused_where (is_bad_projection projection.now) (Refusal.BadProjection projection.now.name) ≡ None) }
    ensures refused { IfErr result (RefusesBy (refused_where (is_bad_projection projection.now) (Refusal.BadProjection projection.now.name))) }
{
    if is_bad_projection(alloc, projection)? {
        return Err(Naming::BadProjection.refuse(alloc, projection.name.as_slice()));
    }
    Ok(())
}

/// Refuses DELTAVAL on a column that is neither of numbers nor of dates.
fn check_encodings(
    alloc: Global,
    projection: &NewProjection,
    columns: &[Column],
) -> Result<(), BindFault>
    ensures ok { OnOk result (bad_encoding columns.now projection.now ≡ None) }
    ensures refused { IfErr result (RefusesBy (option_map Refusal.BadEncoding (bad_encoding columns.now projection.now))) }
{
    match bad_encoding(columns, projection.parts.as_slice()) {
        None => Ok(()),
        Some(name) => Err(Naming::BadEncoding.refuse(alloc, name)),
    }
}

/// Refuses a name of more than 120 bytes.
fn check_name(projection: &NewProjection) -> Result<(), BindFault>
    ensures ok { OnOk result (name_limit projection.now.name ≡ None) }
    ensures refused { IfErr result (RefusesBy (name_limit projection.now.name)) }
{
    if projection.name.as_slice().len() > 120 {
        return Err(BindFault::Refused(Refusal::Limit(Which::Name, 120)));
    }
    Ok(())
}

fn bound_projection(
    alloc: Global,
    projection: &NewProjection,
    columns: &[Column],
) -> Result<ProjectionShape, AllocError>
    ensures { IfOk result (λ s. (s.columns, s.sort) ≡ bound_projection columns.now projection.now) }
{
    Ok(ProjectionShape {
        columns: bound_parts(alloc, columns, projection.parts.as_slice())?,
        sort: bound_sort(alloc, projection)?,
    })
}
