ghost use Rattle.std.specs.Prelude.{◌≡◌, ◌∷◌, [], IfOk, IfErr, OnOk, option_map, not, None, Some};
ghost use Rattle.sql_tree.specs.declared.refusal.Refusal.{Refusal};
ghost use Rattle.name_binder.specs.Refusing.{RefusesBy};
ghost use Rattle.sql_binding.specs.Firsts.{refused_where};
ghost use Rattle.sql_binding.specs.Queries.{bound_in, columns_of, row_kinds, unknown_table};
ghost use Rattle.sql_binding.specs.Sight.{sight};
ghost use Rattle.sql_binding.specs.Changes.{update_refusal, bound_update, update_name_refusal, update_tree_refusal, update_sight, naming_query, is_typed_update, is_narrow_update, set_twice_behind, update_query};
ghost use Rattle.change_binder.specs.Answers.{IsBoundUpdate, columns_in, parts_of_update, assigned_in, changes_in, settings_refusal};

use crate::naming_query::naming_query;
use crate::repeated::set_twice;
use crate::settings::{are_narrow_settings, are_typed_settings, bind_settings};
use crate::whole_table::{one_table, query_over, there};
use name_binder::{
    BindFault, Found, Naming, SeenColumn, check_columns, check_tables, check_twice, output_names,
    sight,
};
use sql_bound::{Assigned, BoundQuery};
use sql_tree::{Items, Query, Refusal, Setting, Update};
use statement_binder::{Scope, bind_named, column_kinds, is_narrow_query, is_typed_query};
use std::alloc::{AllocError, Global};

/// The bound tree of an UPDATE: the rows that it changes, and what it sets.
#[derive(Debug, Drop)]
pub struct BoundUpdate {
    pub rows: BoundQuery,
    pub assigned: Assigned,
}

/// The bound tree of an UPDATE, whose table was found, or was not.
pub fn bind_update(
    alloc: Global,
    update: &Update,
    found: &Option<Found<'_>>,
) -> Result<BoundUpdate, BindFault>
    ensures bound { IfOk result (IsBoundUpdate found.now update.now) }
    ensures refused { IfErr result (RefusesBy (update_refusal (columns_in found.now) update.now)) }
{
    let Some(table) = found else {
        return Err(Naming::UnknownTable.refuse(alloc, update.table.as_slice()));
    };
    check_update_names(alloc, update, table)?;
    bind_over(alloc, update, table)
}

/// Refuses an UPDATE in which a name isn't there, or fits twice.
fn check_update_names(alloc: Global, update: &Update, table: &Found<'_>) -> Result<(), BindFault>
    ensures ok { OnOk result (update_name_refusal table.now.1 update.now ≡ None) }
    ensures refused { IfErr result (RefusesBy (update_name_refusal table.now.1 update.now)) }
{
    let query = naming_query(alloc, update)?;
    check_naming(alloc, &query, table, update)
}

/// The same; `query` names what the UPDATE names.
fn check_naming(
    alloc: Global,
    query: &Query,
    table: &Found<'_>,
    update: &Update,
) -> Result<(), BindFault>
    requires { query.now ≡ naming_query update.now }
    ensures ok { OnOk result (update_name_refusal table.now.1 update.now ≡ None) }
    ensures refused { IfErr result (RefusesBy (update_name_refusal table.now.1 update.now)) }
{
    check_update_tables(alloc, query, table)?;
    let tables = one_table(alloc, table)?;
    check_update_sight(alloc, tables.as_slice(), query, update)
}

fn check_update_tables(alloc: Global, query: &Query, table: &Found<'_>) -> Result<(), BindFault>
    ensures ok { OnOk result (unknown_table (Some table.now.1 ∷ []) query.now ≡ None) }
    ensures refused { IfErr result (RefusesBy (option_map Refusal.UnknownTable (unknown_table (Some table.now.1 ∷ []) query.now))) }
{
    let found = there(alloc, table)?;
    check_tables(alloc, found.as_slice(), query)
}

/// Refuses a name that no column of these tables fits, or two, and a column that is set twice.
fn check_update_sight(
    alloc: Global,
    tables: &[Found<'_>],
    query: &Query,
    update: &Update,
) -> Result<(), BindFault>
    ensures ok { OnOk result (settings_refusal (sight query.now.sources (columns_of tables.now)) query.now update.now ≡ None) }
    ensures refused { IfErr result (RefusesBy (settings_refusal (sight query.now.sources (columns_of tables.now)) query.now update.now)) }
{
    let seen = sight(alloc, query.sources.as_slice(), tables)?;
    check_update_columns(alloc, seen.as_slice(), query, update)
}

fn check_update_columns(
    alloc: Global,
    seen: &[SeenColumn<'_>],
    query: &Query,
    update: &Update,
) -> Result<(), BindFault>
    ensures ok { OnOk result (settings_refusal seen.now query.now update.now ≡ None) }
    ensures refused { IfErr result (RefusesBy (settings_refusal seen.now query.now update.now)) }
{
    let outputs = output_names(alloc, seen, &query.items)?;
    check_columns(alloc, seen, outputs.as_slice(), query)?;
    check_twice(alloc, seen, outputs.as_slice(), query)?;
    check_set_twice(alloc, update.settings.as_slice())
}

/// Refuses a column that is set twice.
fn check_set_twice(alloc: Global, settings: &[Setting]) -> Result<(), BindFault>
    ensures ok { OnOk result (set_twice_behind [] settings.now ≡ None) }
    ensures refused { IfErr result (RefusesBy (option_map Refusal.Ambiguous (set_twice_behind [] settings.now))) }
{
    match set_twice(settings) {
        None => Ok(()),
        Some(name) => Err(Naming::Ambiguous.refuse(alloc, name)),
    }
}

/// The bound tree of an UPDATE whose names are right.
fn bind_over(alloc: Global, update: &Update, table: &Found<'_>) -> Result<BoundUpdate, BindFault>
    ensures ok { OnOk result (update_tree_refusal (row_kinds (update_sight table.now.1 update.now)) (bound_update 0 table.now.1 update.now) ≡ None) }
    ensures bound { IfOk result (λ b. parts_of_update b ≡ bound_update table.now.0 table.now.1 update.now) }
    ensures refused { IfErr result (RefusesBy (update_tree_refusal (row_kinds (update_sight table.now.1 update.now)) (bound_update 0 table.now.1 update.now))) }
{
    let query = query_over(alloc, &update.table, Items::Star, &update.keep)?;
    bind_changes(alloc, &query, table, update)
}

/// The same; `query` gives the rows that it changes.
fn bind_changes(
    alloc: Global,
    query: &Query,
    table: &Found<'_>,
    update: &Update,
) -> Result<BoundUpdate, BindFault>
    requires { query.now ≡ update_query update.now }
    ensures ok { OnOk result (update_tree_refusal (row_kinds (update_sight table.now.1 update.now)) (bound_update 0 table.now.1 update.now) ≡ None) }
    ensures bound { IfOk result (λ b. parts_of_update b ≡ bound_update table.now.0 table.now.1 update.now) }
    ensures refused { IfErr result (RefusesBy (update_tree_refusal (row_kinds (update_sight table.now.1 update.now)) (bound_update 0 table.now.1 update.now))) }
{
    let tables = one_table(alloc, table)?;
    bind_tables(alloc, tables.as_slice(), query, update)
}

/// The bound tree of an UPDATE over these tables; `query` gives the rows that it changes.
fn bind_tables(
    alloc: Global,
    tables: &[Found<'_>],
    query: &Query,
    update: &Update,
) -> Result<BoundUpdate, BindFault>
    requires { query.now ≡ update_query update.now }
    ensures ok { OnOk result (update_tree_refusal (row_kinds (sight query.now.sources (columns_of tables.now))) (changes_in tables.now (sight query.now.sources (columns_of tables.now)) query.now update.now) ≡ None) }
    ensures bound { IfOk result (λ b. parts_of_update b ≡ changes_in tables.now (sight query.now.sources (columns_of tables.now)) query.now update.now) }
    ensures refused { IfErr result (RefusesBy (update_tree_refusal (row_kinds (sight query.now.sources (columns_of tables.now))) (changes_in tables.now (sight query.now.sources (columns_of tables.now)) query.now update.now))) }
{
    let seen = sight(alloc, query.sources.as_slice(), tables)?;
    bind_seen(alloc, seen.as_slice(), tables, query, update)
}

/// The bound tree of an UPDATE over these columns in sight; `query` gives the rows that it changes.
fn bind_seen<'x>(
    alloc: Global,
    seen: &'x [SeenColumn<'x>],
    tables: &[Found<'_>],
    query: &Query,
    update: &Update,
) -> Result<BoundUpdate, BindFault>
    requires { query.now ≡ update_query update.now }
    ensures ok { OnOk result (update_tree_refusal (row_kinds seen.now) (changes_in tables.now seen.now query.now update.now) ≡ None) }
    ensures bound { IfOk result (λ b. parts_of_update b ≡ changes_in tables.now seen.now query.now update.now) }
    ensures refused { IfErr result (RefusesBy (update_tree_refusal (row_kinds seen.now) (changes_in tables.now seen.now query.now update.now))) }
{
    let bound = bind_parts(alloc, seen, tables, query, update)?;
    check_update_trees(alloc, seen, &bound)?;
    Ok(bound)
}

fn bind_parts<'x>(
    alloc: Global,
    seen: &'x [SeenColumn<'x>],
    tables: &[Found<'_>],
    query: &Query,
    update: &Update,
) -> Result<BoundUpdate, AllocError>
    requires { query.now ≡ update_query update.now }
    ensures { IfOk result (λ b. parts_of_update b ≡ changes_in tables.now seen.now query.now update.now) }
{
    let assigned = bind_assigned(alloc, seen, update)?;
    let rows = bind_rows(alloc, seen, tables, query, update)?;
    Ok(BoundUpdate { rows, assigned })
}

/// The rows that an UPDATE changes.
#[tactic(auto, using(crate::proofs::Changing::no_key))]
fn bind_rows<'x>(
    alloc: Global,
    seen: &'x [SeenColumn<'x>],
    tables: &[Found<'_>],
    query: &Query,
    update: &Update,
) -> Result<BoundQuery, AllocError>
    requires { query.now ≡ update_query update.now }
    ensures { IfOk result (λ b. b ≡ bound_in tables.now seen.now query.now) }
{
    let _ = update;
    let outputs = output_names(alloc, seen, &query.items)?;
    bind_named(alloc, seen, outputs.as_slice(), tables, query)
}

fn bind_assigned(
    alloc: Global,
    seen: &[SeenColumn<'_>],
    update: &Update,
) -> Result<Assigned, AllocError>
    ensures { IfOk result (λ a. a ≡ assigned_in seen.now update.now) }
{
    let scope = Scope {
        seen,
        last: 1,
        keys: &[],
    };
    Ok(Assigned {
        columns: bind_settings(alloc, scope, update.settings.as_slice())?,
    })
}

/// Refuses an UPDATE of which an expression isn't typed, or too wide.
fn check_update_trees(
    alloc: Global,
    seen: &[SeenColumn<'_>],
    bound: &BoundUpdate,
) -> Result<(), BindFault>
    ensures ok { OnOk result (update_tree_refusal (row_kinds seen.now) (parts_of_update bound.now) ≡ None) }
    ensures refused { IfErr result (RefusesBy (update_tree_refusal (row_kinds seen.now) (parts_of_update bound.now))) }
{
    check_update_types(alloc, seen, bound)?;
    check_update_bounds(alloc, bound)
}

fn check_update_types(
    alloc: Global,
    seen: &[SeenColumn<'_>],
    bound: &BoundUpdate,
) -> Result<(), BindFault>
    ensures ok { OnOk result (refused_where (not (is_typed_update (row_kinds seen.now) (parts_of_update bound.now))) Refusal.TypeMismatch ≡ None) }
    ensures refused { IfErr result (RefusesBy (refused_where (not (is_typed_update (row_kinds seen.now) (parts_of_update bound.now))) Refusal.TypeMismatch)) }
{
    let columns = column_kinds(alloc, seen)?;
    let typed = is_typed_query(alloc, seen, &bound.rows)?;
    if are_typed_settings(columns.as_slice(), bound.assigned.columns.as_slice()) && typed {
        Ok(())
    } else {
        Err(BindFault::Refused(Refusal::TypeMismatch))
    }
}

fn check_update_bounds(alloc: Global, bound: &BoundUpdate) -> Result<(), BindFault>
    ensures ok { OnOk result (refused_where (not (is_narrow_update (parts_of_update bound.now))) Refusal.TooWide ≡ None) }
    ensures refused { IfErr result (RefusesBy (refused_where (not (is_narrow_update (parts_of_update bound.now))) Refusal.TooWide)) }
{
    let narrow = is_narrow_query(alloc, &bound.rows)?;
    if are_narrow_settings(bound.assigned.columns.as_slice()) && narrow {
        Ok(())
    } else {
        Err(BindFault::Refused(Refusal::TooWide))
    }
}
