//! New tables.

ghost use Rattle.std.specs.Prelude.{◌≡◌, [], IfErr, IfOk};
ghost use Rattle.std.specs.Option.{option_copied};
ghost use Rattle.db_model.specs.Database.{super_name};
ghost use Rattle.db_model.specs.Refusing as rule;
ghost use Rattle.sql_binding.specs.Projections as binding;
ghost use Rattle.db_model.specs.Refusals.{table_created_refusal};
ghost use Rattle.name_binder.specs.Refusing.{RefusesBy};
ghost use Rattle.sql_tree.specs.declared.statement.Statement.{Statement};
ghost use Rattle.statement_plan.specs.Planned.{early_refusal, IsPlanned};

use crate::frame::Frame;
use crate::plans::Plan;
use col_value::{ColType, Column, Name};
use name_binder::BindFault;
use sql_tree::{Refusal, Which};
use std::alloc::{AllocError, Global};
use std::collections::BTreeSet;

/// What the projection of all columns of a table is called.
fn projection_name(alloc: Global, name: &Name) -> Result<Name, AllocError>
    ensures { IfOk result (λ n. n ≡ super_name name.now) }
{
    let mut bytes = Vec::from_slice(alloc, name.as_slice())?;
    bytes.extend_from_slice(b"_super")?;
    Ok(Name::new(bytes))
}

/// The first column whose name stands before it.
fn repeated<'a>(alloc: Global, columns: &'a [Column]) -> Result<Option<&'a Name>, AllocError>
    ensures { IfOk result (λ o. option_copied o ≡ rule.repeated_behind [] columns.now) }
{
    let mut seen: BTreeSet<Name> = BTreeSet::new(alloc);
    for column in columns {
        let is_new = seen.insert(column.name.copy(alloc)?)?;
        if !is_new {
            return Ok(Some(&column.name));
        }
    }
    Ok(None)
}

/// The first name of a new table that is taken or stands twice.
fn taken_name(
    alloc: Global,
    frame: &Frame<'_>,
    name: &Name,
    columns: &[Column],
) -> Result<Option<Name>, AllocError>
    ensures { IfOk result (λ o. o ≡ rule.taken_name frame.now.database.tables name.now columns.now) }
{
    if frame.is_taken(name.as_slice()) {
        return Ok(Some(name.copy(alloc)?));
    }
    let projection = projection_name(alloc, name)?;
    if frame.is_taken(projection.as_slice()) {
        return Ok(Some(projection));
    }
    match repeated(alloc, columns)? {
        Some(column) => Ok(Some(column.copy(alloc)?)),
        None => Ok(None),
    }
}

fn name_limit(name: &Name) -> Option<Refusal>
    ensures { result ≡ binding.name_limit name.now }
{
    if name.as_slice().len() > 120 {
        Some(Refusal::Limit(Which::Name, 120))
    } else {
        None
    }
}

fn is_wrong_width(kind: ColType) -> bool
    ensures { result ≡ rule.is_wrong_width kind }
{
    match kind {
        ColType::Varchar(width) => width < 1 || width > 65_000,
        _ => false,
    }
}

/// The first limit that a new column of a table passes, at its place from 0.
pub(crate) fn column_limit(place: usize, column: &Column) -> Option<Refusal>
    ensures { result ≡ rule.column_limit (place, column.now) }
{
    if place >= 64 {
        return Some(Refusal::Limit(Which::Columns, 64));
    }
    if column.name.as_slice().len() > 120 {
        return Some(Refusal::Limit(Which::Name, 120));
    }
    if is_wrong_width(column.kind) {
        return Some(Refusal::Limit(Which::Length, 65_000));
    }
    None
}

/// The first limit that the columns of a new table pass.
fn columns_limit(columns: &[Column]) -> Option<Refusal>
    ensures { result ≡ rule.columns_limit columns.now }
{
    for (place, column) in columns.iter().enumerate() {
        let limit = column_limit(place, column);
        if limit.is_some() {
            return limit;
        }
    }
    None
}

/// The first limit that a new table passes.
fn create_limit(frame: &Frame<'_>, name: &Name, columns: &[Column]) -> Option<Refusal>
    ensures { result ≡ rule.create_limit frame.now.database.tables name.now columns.now }
{
    if frame.count() >= 1024 {
        return Some(Refusal::Limit(Which::Tables, 1024));
    }
    let limit = name_limit(name);
    if limit.is_some() {
        return limit;
    }
    columns_limit(columns)
}

/// Why a new table is refused.
fn create_refusal(
    alloc: Global,
    frame: &Frame<'_>,
    name: &Name,
    columns: &[Column],
) -> Result<Option<Refusal>, AllocError>
    ensures { IfOk result (λ r. r ≡ table_created_refusal frame.now name.now columns.now) }
{
    match taken_name(alloc, frame, name, columns)? {
        Some(taken) => return Ok(Some(Refusal::Exists(taken))),
        None => {}
    }
    match create_limit(frame, name, columns) {
        Some(limit) => Ok(Some(limit)),
        None => Ok(frame.spent()),
    }
}

/// What a CREATE TABLE does, or why it is refused.
pub fn plan_table(
    alloc: Global,
    frame: &Frame<'_>,
    name: &Name,
    columns: &[Column],
) -> Result<Plan, BindFault>
    ensures planned { IfOk result (IsPlanned frame.now (Statement.CreateTable name.now columns.now)) }
    ensures refused { IfErr result (RefusesBy (early_refusal frame.now (Statement.CreateTable name.now columns.now))) }
{
    match create_refusal(alloc, frame, name, columns) {
        Ok(Some(refusal)) => Err(BindFault::Refused(refusal)),
        Ok(None) => Ok(Plan::CreateTable),
        Err(AllocError) => Err(BindFault::Memory),
    }
}
