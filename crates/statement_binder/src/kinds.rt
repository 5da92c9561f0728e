ghost use Rattle.std.specs.Prelude.{◌≡◌, map, IfOk, option_and_then};
ghost use Rattle.std.specs.List.{slice_index_or};
ghost use Rattle.sql_bound.specs.declared.expr.Kind.{Kind};
ghost use Rattle.sql_bound.specs.Kinds.{kind_of, kind_of_column, kind_over, kind_of_aggregate, kind_where, is_of};
ghost use Rattle.sql_binding.specs.Queries.{kind_or_null};

use col_value::ColType;
use expr_check::{Places, kind_of};
use name_binder::SeenColumn;
use sql_bound::{Aggregate, Expr, Kind};
use sql_tree::AggKind;
use std::alloc::{AllocError, Global};

/// The kinds of the columns in sight.
pub fn column_kinds(alloc: Global, seen: &[SeenColumn<'_>]) -> Result<Vec<Kind>, AllocError>
    ensures { IfOk result (λ v. v.items ≡ map (λ s. kind_of_column s.column.kind) seen.now) }
{
    let mut out = Vec::with_capacity(alloc, seen.len())?;
    for column in seen {
        out.push(kind_of_column(column.kind()))?;
    }
    Ok(out)
}

fn kind_of_column(kind: ColType) -> Kind
    ensures { result ≡ kind_of_column kind }
{
    match kind {
        ColType::Integer => Kind::Number,
        ColType::Varchar(_) => Kind::Text,
        ColType::Boolean => Kind::Truth,
        ColType::Date => Kind::Date,
    }
}

/// The kinds of the GROUP BY columns.
pub(crate) fn key_kinds(
    alloc: Global,
    columns: &[Kind],
    keys: &[usize],
) -> Result<Vec<Kind>, AllocError>
    ensures { IfOk result (λ v. v.items ≡ map (λ k. slice_index_or columns.now k Kind.Null) keys.now) }
{
    let mut out = Vec::with_capacity(alloc, keys.len())?;
    for key in keys {
        out.push(kind_at(columns, *key))?;
    }
    Ok(out)
}

fn kind_at(columns: &[Kind], i: usize) -> Kind
    ensures { result ≡ slice_index_or columns.now i Kind.Null }
{
    columns.get(i).copied().unwrap_or(Kind::Null)
}

/// The kinds of the aggregates over rows; one that is not typed counts as NULL.
pub(crate) fn aggregate_kinds(
    alloc: Global,
    rows: &Places<'_>,
    aggs: &[Aggregate],
) -> Result<Vec<Kind>, AllocError>
    ensures { IfOk result (λ v. v.items ≡ map (λ a. kind_or_null (kind_of_aggregate rows.now a)) aggs.now) }
{
    let mut out = Vec::with_capacity(alloc, aggs.len())?;
    for aggregate in aggs {
        out.push(kind_of_aggregate(rows, aggregate).unwrap_or(Kind::Null))?;
    }
    Ok(out)
}

/// The kind of an aggregate over rows, or None where it is not typed.
pub(crate) fn kind_of_aggregate(rows: &Places<'_>, aggregate: &Aggregate) -> Option<Kind>
    ensures { result ≡ kind_of_aggregate rows.now aggregate.now }
{
    kind_over(aggregate.kind, kind_of_arg(rows, &aggregate.arg))
}

fn kind_of_arg(rows: &Places<'_>, arg: &Option<Expr>) -> Option<Kind>
    ensures { result ≡ option_and_then (kind_of rows.now) arg.now }
{
    match arg {
        None => None,
        Some(e) => kind_of(e, rows),
    }
}

/// The kind of an aggregate whose argument is of this kind.
fn kind_over(kind: AggKind, arg: Option<Kind>) -> Option<Kind>
    ensures { result ≡ kind_over kind arg }
{
    match kind {
        AggKind::CountAll => Some(Kind::Number),
        AggKind::Count => number_where(arg.is_some()),
        AggKind::Sum => number_where(is_number(arg)),
        AggKind::Min => arg,
        AggKind::Max => arg,
    }
}

fn number_where(right: bool) -> Option<Kind>
    ensures { result ≡ kind_where right Kind.Number }
{
    if right { Some(Kind::Number) } else { None }
}

/// Whether it is typed, and a number or NULL.
fn is_number(kind: Option<Kind>) -> bool
    ensures { result ≡ is_of Kind.Number kind }
{
    match kind {
        None => false,
        Some(Kind::Null) => true,
        Some(Kind::Truth) => false,
        Some(Kind::Number) => true,
        Some(Kind::Date) => false,
        Some(Kind::Text) => false,
    }
}
