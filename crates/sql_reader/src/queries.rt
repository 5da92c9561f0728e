ghost use Rattle.sql_phrases.specs.Gives.{Gives};
ghost use Rattle.sql_phrases.specs.Readers.{queries, selects, epochs, selects_at, explains};
ghost use Rattle.sql_reader.specs.Parts.{keeps, shapes};

use crate::calls::calls;
use crate::clauses::{group_by, having, limit, order_by, where_clause};
use crate::items::select_list;
use crate::sources::sources;
use col_value::List;
use sql_phrases::{Stop, Tokens};
use sql_tree::{At, ColRef, Query, SortKey, Source, Statement, Tree};
use sql_words::Key;
use std::alloc::Global;

/// The rows that a query keeps.
#[derive(Drop)]
pub struct Kept {
    sources: List<Source>,
    keep: Option<Tree>,
}

/// `FROM sources [WHERE expr]`
#[tactic(auto, unfolding(sql_phrases::specs::Readings::mark, sql_phrases::specs::Readings::both, sql_phrases::specs::Readings::nothing, crate::specs::Parts::keeps))]
fn keeps(alloc: Global, tokens: &mut Tokens<'_>) -> Result<Kept, Stop>
    ensures { Gives result tokens.new (keeps tokens.old) }
{
    tokens.key(Key::From)?;
    let sources = sources(alloc, tokens)?;
    match where_clause(alloc, tokens) {
        Ok(keep) => Ok(Kept { sources, keep }),
        Err(stop) => {
            drop(sources);
            Err(stop)
        }
    }
}

/// What a query makes of the rows that it keeps.
#[derive(Drop)]
pub struct Shape {
    group: List<ColRef>,
    having: Option<Tree>,
    order: List<SortKey>,
    limit: Option<u128>,
}

/// `[GROUP BY ..] [HAVING ..] [ORDER BY ..] [LIMIT ..]`
#[tactic(auto, unfolding(sql_phrases::specs::Readings::both, sql_phrases::specs::Readings::nothing, crate::specs::Parts::shapes))]
fn shapes(alloc: Global, tokens: &mut Tokens<'_>, windowed: bool) -> Result<Shape, Stop>
    ensures { Gives result tokens.new (shapes windowed tokens.old) }
{
    let group = group_by(alloc, tokens, windowed)?;
    let having = match having(alloc, tokens, windowed) {
        Ok(having) => having,
        Err(stop) => {
            drop(group);
            return Err(stop);
        }
    };
    let order = match order_by(alloc, tokens) {
        Ok(order) => order,
        Err(stop) => {
            drop(group);
            drop(having);
            return Err(stop);
        }
    };
    match limit(tokens) {
        Ok(limit) => Ok(Shape {
            group,
            having,
            order,
            limit,
        }),
        Err(stop) => {
            drop(group);
            drop(having);
            drop(order);
            Err(stop)
        }
    }
}

/// What stands behind SELECT in a query.
#[tactic(auto, using(crate::proofs::Sequels::queries_by_parts), unfolding(sql_phrases::specs::Readings::both, sql_phrases::specs::Readings::nothing))]
fn query(alloc: Global, tokens: &mut Tokens<'_>) -> Result<Query, Stop>
    ensures { Gives result tokens.new (queries tokens.old) }
{
    let items = select_list(alloc, tokens)?;
    let kept = match keeps(alloc, tokens) {
        Ok(kept) => kept,
        Err(stop) => {
            drop(items);
            return Err(stop);
        }
    };
    match shapes(alloc, tokens, items.is_windowed()) {
        Ok(shape) => Ok(Query {
            items,
            sources: kept.sources,
            keep: kept.keep,
            group: shape.group,
            having: shape.having,
            order: shape.order,
            limit: shape.limit,
        }),
        Err(stop) => {
            drop(items);
            drop(kept);
            Err(stop)
        }
    }
}

/// `SELECT (function | query)`
#[tactic(auto, unfolding(sql_phrases::specs::Readings::choose, sql_phrases::specs::Readings::mark, sql_phrases::specs::Readings::both, sql_phrases::specs::Readings::nothing, sql_phrases::specs::Readers::selects))]
pub fn selects(alloc: Global, tokens: &mut Tokens<'_>) -> Result<Statement, Stop>
    ensures { Gives result tokens.new (selects tokens.old) }
{
    tokens.key(Key::Select)?;
    if tokens.begins_call() {
        let function = calls(alloc, tokens)?;
        return Ok(Statement::Call(function));
    }
    let query = query(alloc, tokens)?;
    Ok(Statement::Select(At::View, query))
}

/// `int | LATEST`
#[tactic(auto, unfolding(sql_phrases::specs::Readings::choose, sql_phrases::specs::Readings::mark, sql_phrases::specs::Readings::both, sql_phrases::specs::Readings::nothing, sql_phrases::specs::Readers::epochs))]
fn epochs(tokens: &mut Tokens<'_>) -> Result<At, Stop>
    ensures { Gives result tokens.new (epochs tokens.old) }
{
    if tokens.begins_number() {
        let epoch = tokens.number()?;
        return Ok(At::Epoch(epoch));
    }
    tokens.key(Key::Latest)?;
    Ok(At::Latest)
}

/// `AT EPOCH (int | LATEST) SELECT query`
#[tactic(auto, unfolding(sql_phrases::specs::Readings::mark, sql_phrases::specs::Readings::both, sql_phrases::specs::Readings::nothing, sql_phrases::specs::Readers::selects_at))]
pub fn selects_at(alloc: Global, tokens: &mut Tokens<'_>) -> Result<Statement, Stop>
    ensures { Gives result tokens.new (selects_at tokens.old) }
{
    tokens.key(Key::At)?;
    tokens.key(Key::Epoch)?;
    let at = epochs(tokens)?;
    tokens.key(Key::Select)?;
    let query = query(alloc, tokens)?;
    Ok(Statement::Select(at, query))
}

/// `EXPLAIN SELECT query`
#[tactic(auto, unfolding(sql_phrases::specs::Readings::mark, sql_phrases::specs::Readings::both, sql_phrases::specs::Readings::nothing, sql_phrases::specs::Readers::explains))]
pub fn explains(alloc: Global, tokens: &mut Tokens<'_>) -> Result<Statement, Stop>
    ensures { Gives result tokens.new (explains tokens.old) }
{
    tokens.key(Key::Explain)?;
    tokens.key(Key::Select)?;
    let query = query(alloc, tokens)?;
    Ok(Statement::Explain(query))
}
