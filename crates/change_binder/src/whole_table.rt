ghost use Rattle.std.specs.Prelude.{◌≡◌, ◌∷◌, [], IfOk, Some};
ghost use Rattle.sql_binding.specs.Changes.{source_of, query_over};

use col_value::{List, Name};
use name_binder::Found;
use sql_tree::{Items, Query, Source, Tree};
use std::alloc::{AllocError, Global};

/// The query over one table that has these items and this condition.
pub(crate) fn query_over(
    alloc: Global,
    table: &Name,
    items: Items,
    keep: &Option<Tree>,
) -> Result<Query, AllocError>
    ensures { IfOk result (λ q. q ≡ query_over table.now items keep.now) }
{
    let sources = one_source(alloc, table)?;
    let keep = copy_condition(alloc, keep)?;
    Ok(Query {
        items,
        sources,
        keep,
        group: List::new(Vec::new(alloc)),
        having: None,
        order: List::new(Vec::new(alloc)),
        limit: None,
    })
}

fn one_source(alloc: Global, table: &Name) -> Result<List<Source>, AllocError>
    ensures { IfOk result (λ l. l ≡ source_of table.now ∷ []) }
{
    let mut out = Vec::with_capacity(alloc, 1)?;
    out.push(Source {
        table: table.copy(alloc)?,
        alias: None,
        on: None,
    })?;
    Ok(List::new(out))
}

fn copy_condition(alloc: Global, keep: &Option<Tree>) -> Result<Option<Tree>, AllocError>
    ensures { IfOk result (λ k. k ≡ keep.now) }
{
    match keep {
        None => Ok(None),
        Some(tree) => Ok(Some(tree.copy(alloc)?)),
    }
}

/// The tables of the query: the one.
pub(crate) fn one_table<'a>(alloc: Global, table: &Found<'a>) -> Result<Vec<Found<'a>>, AllocError>
    ensures { IfOk result (λ v. v.items ≡ table.now ∷ []) }
{
    let mut out = Vec::with_capacity(alloc, 1)?;
    out.push(table.again())?;
    Ok(out)
}

/// What was found of the tables of the query.
pub(crate) fn one_found<'a>(
    alloc: Global,
    found: &Option<Found<'a>>,
) -> Result<Vec<Option<Found<'a>>>, AllocError>
    ensures { IfOk result (λ v. v.items ≡ found.now ∷ []) }
{
    let mut out = Vec::with_capacity(alloc, 1)?;
    match found {
        None => out.push(None)?,
        Some(table) => out.push(Some(table.again()))?,
    }
    Ok(out)
}

/// The table of the query, as one that was found.
pub(crate) fn there<'a>(
    alloc: Global,
    table: &Found<'a>,
) -> Result<Vec<Option<Found<'a>>>, AllocError>
    ensures { IfOk result (λ v. v.items ≡ Some table.now ∷ []) }
{
    let mut out = Vec::with_capacity(alloc, 1)?;
    out.push(Some(table.again()))?;
    Ok(out)
}
