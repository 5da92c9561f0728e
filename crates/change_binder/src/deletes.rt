ghost use Rattle.std.specs.Prelude.{IfOk, IfErr};
ghost use Rattle.name_binder.specs.Refusing.{RefusesBy};
ghost use Rattle.sql_binding.specs.Changes.{delete_refusal};
ghost use Rattle.change_binder.specs.Answers.{IsBoundDelete, columns_in};

use crate::whole_table::{one_found, query_over};
use name_binder::{BindFault, Found};
use sql_bound::BoundQuery;
use sql_tree::{Delete, Items};
use statement_binder::bind_query;
use std::alloc::Global;

/// The bound tree of a DELETE, whose table was found, or was not: its rows are those that are to go.
#[tactic(auto, using(crate::proofs::Deleting::delete_bound, crate::proofs::Deleting::delete_refused))]
pub fn bind_delete(
    alloc: Global,
    delete: &Delete,
    found: &Option<Found<'_>>,
) -> Result<BoundQuery, BindFault>
    ensures bound { IfOk result (IsBoundDelete found.now delete.now) }
    ensures refused { IfErr result (RefusesBy (delete_refusal (columns_in found.now) delete.now)) }
{
    let all = one_found(alloc, found)?;
    let query = query_over(alloc, &delete.table, Items::Star, &delete.keep)?;
    bind_query(alloc, &query, all.as_slice())
}
