ghost use Rattle.std.specs.Prelude.{◌≡◌, [], map, IfOk};
ghost use Rattle.std.specs.List.{list_all, slice_index_or};
ghost use Rattle.sql_bound.specs.declared.expr.Kind.{Kind};
ghost use Rattle.sql_bound.specs.Bounds.{is_narrow};
ghost use Rattle.sql_bound.specs.Kinds.{is_of};
ghost use Rattle.sql_binding.specs.Changes.{bound_setting, is_typed_setting};
ghost use Rattle.statement_binder.specs.Scopes.{scope_of};

use crate::naming_query::column_named;
use col_value::List;
use expr_check::{Places, is_narrow, kind_of};
use name_binder::place_of;
use sql_bound::{Expr, Kind};
use sql_tree::Setting;
use statement_binder::{Scope, bind_row};
use std::alloc::{AllocError, Global};

/// The columns that are set, by their places, each with its new value.
pub(crate) fn bind_settings(
    alloc: Global,
    scope: Scope<'_>,
    settings: &[Setting],
) -> Result<List<(usize, Expr)>, AllocError>
    ensures { IfOk result (λ l. l ≡ map (bound_setting (scope_of scope.entry)) settings.now) }
{
    let mut out = Vec::with_capacity(alloc, settings.len())?;
    for setting in settings {
        out.push(bind_setting(alloc, scope, setting)?)?;
    }
    Ok(List::new(out))
}

fn bind_setting(
    alloc: Global,
    scope: Scope<'_>,
    setting: &Setting,
) -> Result<(usize, Expr), AllocError>
    ensures { IfOk result (λ s. s ≡ bound_setting (scope_of scope.entry) setting.now) }
{
    let column = column_named(alloc, &setting.column)?;
    let place = place_of(scope.seen, scope.last, &column);
    Ok((place, bind_row(alloc, scope, &setting.tree)?))
}

/// Whether each value is of its column's kind.
pub(crate) fn are_typed_settings(columns: &[Kind], settings: &[(usize, Expr)]) -> bool
    ensures { result ≡ list_all (is_typed_setting (record { columns = columns.now; keys = []; aggs = [] })) settings.now }
{
    for setting in settings {
        if !is_typed_setting(columns, setting) {
            return false;
        }
    }
    true
}

fn is_typed_setting(columns: &[Kind], setting: &(usize, Expr)) -> bool
    ensures { result ≡ is_typed_setting (record { columns = columns.now; keys = []; aggs = [] }) setting.now }
{
    let places = Places::new(columns, &[], &[]);
    let want = kind_at(columns, setting.0);
    is_of(want, kind_of(&setting.1, &places))
}

fn kind_at(columns: &[Kind], i: usize) -> Kind
    ensures { result ≡ slice_index_or columns.now i Kind.Null }
{
    columns.get(i).copied().unwrap_or(Kind::Null)
}

/// Whether it is typed, and of a kind that fits there.
fn is_of(want: Kind, kind: Option<Kind>) -> bool
    ensures { result ≡ is_of want kind }
{
    match kind {
        None => false,
        Some(kind) => kind == Kind::Null || want == Kind::Null || kind == want,
    }
}

/// Whether each value has static bounds that a result holds.
pub(crate) fn are_narrow_settings(settings: &[(usize, Expr)]) -> bool
    ensures { result ≡ list_all (λ a. is_narrow [] a.1) settings.now }
{
    for setting in settings {
        if !is_narrow(&setting.1, &[]) {
            return false;
        }
    }
    true
}
