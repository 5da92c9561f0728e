ghost use Rattle.std.specs.Prelude.{◌≡◌, length, IfOk, IfErr, OnOk, option_map, Some, None};
ghost use Rattle.sql_binding.specs.Firsts.{all_there};
ghost use Rattle.std.specs.List.{All};
ghost use Rattle.sql_tree.specs.declared.refusal.Refusal.{Refusal};
ghost use Rattle.sql_binding.specs.Outputs.{output_names, unknown_key};
ghost use Rattle.sql_binding.specs.Queries.{name_refusal, unknown_table, unknown_column, ambiguous_name, columns_of};
ghost use Rattle.name_binder.specs.Looks.{looks, first_before_order};
ghost use Rattle.name_binder.specs.Refusing.{RefusesBy, refusal_named};
ghost use Rattle.name_binder.specs.Tables.{columns_found};

use crate::keys::{first_twice, first_unknown};
use crate::look::Look;
use crate::sources::tables_found;
use crate::walk::first_before_order;
use crate::{BindFault, Found, Naming, SeenColumn};
use col_value::Name;
use sql_tree::Query;
use std::alloc::Global;

/// Refuses a query in which a table or a qualifier names nothing.
#[tactic(auto, using(crate::proofs::Parts::tables_before_order))]
pub fn check_tables(
    alloc: Global,
    found: &[Option<Found<'_>>],
    query: &Query,
) -> Result<(), BindFault>
    ensures ok { OnOk result (unknown_table (columns_found found.now) query.now ≡ None) }
    ensures refused { IfErr result (RefusesBy (option_map Refusal.UnknownTable (unknown_table (columns_found found.now) query.now))) }
{
    let look = Look::Tables(found, query.sources.as_slice());
    check_before_order(alloc, Naming::UnknownTable, look, query)
}

/// Refuses what is found before ORDER BY.
fn check_before_order(
    alloc: Global,
    naming: Naming,
    look: Look<'_>,
    query: &Query,
) -> Result<(), BindFault>
    ensures ok { OnOk result (first_before_order (looks look.entry) query.now ≡ None) }
    ensures refused { IfErr result (RefusesBy (option_map (refusal_named naming) (first_before_order (looks look.entry) query.now))) }
{
    match first_before_order(look, query) {
        None => Ok(()),
        Some(name) => Err(naming.refuse(alloc, name)),
    }
}

/// Refuses a key of ORDER BY, where there is one to refuse.
fn check_key(alloc: Global, naming: Naming, key: Option<Name>) -> Result<(), BindFault>
    ensures ok { OnOk result (key ≡ None) }
    ensures refused { IfErr result (RefusesBy (option_map (refusal_named naming) key)) }
{
    match key {
        None => Ok(()),
        Some(name) => Err(naming.refuse(alloc, name.as_slice())),
    }
}

/// The tables of a query's FROM items, one for each in order; refuses a query in which a table or a qualifier names nothing.
#[tactic(auto, using(crate::proofs::Theres::found_all))]
pub fn find_tables<'a>(
    alloc: Global,
    query: &Query,
    found: &[Option<Found<'a>>],
) -> Result<Vec<Found<'a>>, BindFault>
    requires { length found.now ≡ length query.now.sources }
    ensures named { OnOk result (unknown_table (columns_found found.now) query.now ≡ None) }
    ensures all { IfOk result (λ v. all_there found.now ≡ Some v.items) }
    ensures columns { IfOk result (λ v. all_there (columns_found found.now) ≡ Some (columns_of v.items)) }
    ensures refused { IfErr result (RefusesBy (option_map Refusal.UnknownTable (unknown_table (columns_found found.now) query.now))) }
{
    check_tables(alloc, found, query)?;
    Ok(tables_found(alloc, found)?)
}

/// Refuses a query in which a column or a key of ORDER BY names nothing, or fits twice; `outputs` are the names of its output
/// columns.
pub fn check_names(
    alloc: Global,
    seen: &[SeenColumn<'_>],
    outputs: &[Option<Name>],
    query: &Query,
) -> Result<(), BindFault>
    requires { outputs.now ≡ output_names seen.now query.now.items }
    ensures ok { OnOk result (name_refusal seen.now query.now ≡ None) }
    ensures keys { OnOk result (All (λ k. unknown_key outputs.now k.key ≡ None) query.now.order) }
    ensures refused { IfErr result (RefusesBy (name_refusal seen.now query.now)) }
{
    check_columns(alloc, seen, outputs, query)?;
    check_twice(alloc, seen, outputs, query)?;
    Ok(())
}

/// Refuses a column or a key that names nothing.
pub fn check_columns(
    alloc: Global,
    seen: &[SeenColumn<'_>],
    outputs: &[Option<Name>],
    query: &Query,
) -> Result<(), BindFault>
    requires { outputs.now ≡ output_names seen.now query.now.items }
    ensures ok { OnOk result (unknown_column seen.now query.now ≡ None) }
    ensures refused { IfErr result (RefusesBy (option_map Refusal.UnknownColumn (unknown_column seen.now query.now))) }
{
    let naming = Naming::UnknownColumn;
    check_before_order(alloc, naming, Look::Columns(seen, query), query)?;
    let key = first_unknown(alloc, outputs, query.order.as_slice())?;
    check_key(alloc, naming, key)
}

/// Refuses a name that fits twice.
pub fn check_twice(
    alloc: Global,
    seen: &[SeenColumn<'_>],
    outputs: &[Option<Name>],
    query: &Query,
) -> Result<(), BindFault>
    requires { outputs.now ≡ output_names seen.now query.now.items }
    ensures ok { OnOk result (ambiguous_name seen.now query.now ≡ None) }
    ensures refused { IfErr result (RefusesBy (option_map Refusal.Ambiguous (ambiguous_name seen.now query.now))) }
{
    let naming = Naming::Ambiguous;
    check_before_order(alloc, naming, Look::Twice(seen, query), query)?;
    let key = first_twice(alloc, outputs, query.order.as_slice())?;
    check_key(alloc, naming, key)
}
