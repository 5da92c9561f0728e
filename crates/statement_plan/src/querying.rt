//! The bound tree of a query.

ghost use Rattle.std.specs.Prelude.{◌≡◌, map, IfErr, IfOk, None};
ghost use Rattle.db_model.specs.Refusals.{query_refusal_in};
ghost use Rattle.name_binder.specs.Refusing.{RefusesBy};
ghost use Rattle.statement_plan.specs.Planned.{IsBoundIn, select_refusal};
ghost use Rattle.statement_plan.specs.Querying.{found_of};

use crate::frame::Frame;
use name_binder::{BindFault, Found};
use sql_bound::BoundQuery;
use sql_tree::{At, Query, Source};
use statement_binder::bind_query;
use std::alloc::{AllocError, Global};

/// The tables of a query's FROM items, where they are there.
fn tables_of<'a>(
    alloc: Global,
    frame: &Frame<'a>,
    sources: &[Source],
) -> Result<Vec<Option<Found<'a>>>, AllocError>
    ensures { IfOk result (λ v. v.items ≡ map (found_of frame.now) sources.now) }
{
    let mut found = Vec::with_capacity(alloc, sources.len())?;
    for source in sources {
        found.push(frame.found(source.table.as_slice()))?;
    }
    Ok(found)
}

/// The bound tree of a query, or why it is refused whatever the rows are.
pub fn plan_query(alloc: Global, frame: &Frame<'_>, query: &Query) -> Result<BoundQuery, BindFault>
    ensures bound { IfOk result (λ b. IsBoundIn frame.now query.now b × (query_refusal_in frame.now query.now ≡ None)) }
    ensures refused { IfErr result (RefusesBy (query_refusal_in frame.now query.now)) }
{
    let found = match tables_of(alloc, frame, query.sources.as_slice()) {
        Ok(found) => found,
        Err(AllocError) => return Err(BindFault::Memory),
    };
    bind_query(alloc, query, found.as_slice())
}

/// The bound tree of a SELECT, or why it is refused whatever the rows are; the epoch is looked at last.
pub fn plan_select(
    alloc: Global,
    frame: &Frame<'_>,
    at: At,
    query: &Query,
) -> Result<BoundQuery, BindFault>
    ensures bound { IfOk result (λ b. IsBoundIn frame.now query.now b × (select_refusal frame.now at query.now ≡ None)) }
    ensures refused { IfErr result (RefusesBy (select_refusal frame.now at query.now)) }
{
    match plan_query(alloc, frame, query) {
        Ok(bound) => match frame.reading(at) {
            Some(refusal) => Err(BindFault::Refused(refusal)),
            None => Ok(bound),
        },
        Err(fault) => Err(fault),
    }
}
