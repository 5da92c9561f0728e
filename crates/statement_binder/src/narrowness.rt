ghost use Rattle.std.specs.Prelude.{◌≡◌, [], true, map, IfOk};
ghost use Rattle.std.specs.List.{list_all};
ghost use Rattle.std.specs.Option.{option_map_or};
ghost use Rattle.sql_bound.specs.Bounds.{is_narrow, bound_of_aggregate};
ghost use Rattle.expr_check.specs.Capped.{capped};
ghost use Rattle.sql_binding.specs.Queries.{is_narrow_aggregate, is_narrow_query};

use crate::bounds::bound_of_aggregate;
use expr_check::is_narrow;
use sql_bound::{Aggregate, BoundQuery, Expr};
use std::alloc::{AllocError, Global};

/// Whether each number in a query has a static bound that a result holds.
#[tactic(auto, using(crate::proofs::Exact::exact_bounds))]
pub fn is_narrow_query(alloc: Global, query: &BoundQuery) -> Result<bool, AllocError>
    ensures { IfOk result (λ n. n ≡ is_narrow_query query.now) }
{
    if !are_narrow(query.keep.as_slice(), &[]) {
        return Ok(false);
    }
    if !are_narrow_aggregates(query.aggs.as_slice()) {
        return Ok(false);
    }
    let bounds = bounds_of(alloc, query.aggs.as_slice())?;
    Ok(
        are_narrow(query.items.as_slice(), bounds.as_slice())
            && is_narrow_or_none(&query.having, bounds.as_slice()),
    )
}

/// Whether the expressions are narrow, where the aggregates have these bounds.
pub fn are_narrow(expressions: &[Expr], aggs: &[u128]) -> bool
    ensures { result ≡ list_all (is_narrow aggs.now) expressions.now }
{
    for expression in expressions {
        if !is_narrow(expression, aggs) {
            return false;
        }
    }
    true
}

fn are_narrow_aggregates(aggs: &[Aggregate]) -> bool
    ensures { result ≡ list_all is_narrow_aggregate aggs.now }
{
    for aggregate in aggs {
        if !is_narrow_or_none(&aggregate.arg, &[]) {
            return false;
        }
    }
    true
}

fn is_narrow_or_none(e: &Option<Expr>, aggs: &[u128]) -> bool
    ensures { result ≡ option_map_or (is_narrow aggs.now) e.now true }
{
    match e {
        None => true,
        Some(e) => is_narrow(e, aggs),
    }
}

/// The bounds of the aggregates, each counted up to 2^128 - 1.
fn bounds_of(alloc: Global, aggs: &[Aggregate]) -> Result<Vec<u128>, AllocError>
    ensures { IfOk result (λ v. v.items ≡ map (λ a. capped (bound_of_aggregate a)) aggs.now) }
{
    let mut out = Vec::with_capacity(alloc, aggs.len())?;
    for aggregate in aggs {
        out.push(bound_of_aggregate(aggregate))?;
    }
    Ok(out)
}
