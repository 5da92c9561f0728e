ghost use Rattle.sql_phrases.specs.Gives.{Gives};
ghost use Rattle.sql_phrases.specs.Readers.{base, over_from, expr, grouped_expr, item_tally, tally_expr};

use crate::chains::{conjunction_rest, over, over_rest};
use crate::predicates::tail;
use crate::primaries::tallied;
use crate::sums::{product_rest, sum_rest};
use sql_phrases::{Stop, Tokens};
use sql_tree::{ItemTree, Part, Tally, Tree};
use std::alloc::Global;

/// So many parentheses of an expression may nest.
const DEEPEST: u32 = 32;

/// An expression without aggregates.
#[tactic(auto, unfolding(sql_phrases::specs::Readings::both, sql_phrases::specs::Readings::nothing, sql_phrases::specs::Readers::expr))]
pub fn expr(alloc: Global, tokens: &mut Tokens<'_>) -> Result<Tree, Stop>
    ensures { Gives result tokens.new (expr tokens.old) }
{
    let part = over(alloc, tokens, false, DEEPEST)?;
    Ok(part.tree)
}

/// An expression that may hold aggregates.
#[tactic(auto, unfolding(sql_phrases::specs::Readings::both, sql_phrases::specs::Readings::nothing, sql_phrases::specs::Readers::grouped_expr))]
pub fn grouped_expr(alloc: Global, tokens: &mut Tokens<'_>) -> Result<Tree, Stop>
    ensures { Gives result tokens.new (grouped_expr tokens.old) }
{
    let part = over(alloc, tokens, true, DEEPEST)?;
    Ok(part.tree)
}

/// What stands in an expression behind its first unary.
#[tactic(auto, unfolding(sql_phrases::specs::Readings::both, sql_phrases::specs::Readers::over_from))]
fn over_from(
    alloc: Global,
    tokens: &mut Tokens<'_>,
    grouped: bool,
    depth: u32,
    first: Part,
) -> Result<Part, Stop>
    ensures { Gives result tokens.new (over_from (base grouped depth) first tokens.old) }
{
    let product = product_rest(alloc, tokens, grouped, depth, first)?;
    let sum = sum_rest(alloc, tokens, grouped, depth, product)?;
    let test = tail(alloc, tokens, grouped, depth, sum)?;
    let conjunction = conjunction_rest(alloc, tokens, grouped, depth, test)?;
    over_rest(alloc, tokens, grouped, depth, conjunction)
}

/// A COUNT or SUM with which an item begins.
#[tactic(auto, unfolding(sql_phrases::specs::Readers::item_tally))]
pub fn item_tally(alloc: Global, tokens: &mut Tokens<'_>) -> Result<Tally, Stop>
    ensures { Gives result tokens.new (item_tally tokens.old) }
{
    tallied(alloc, tokens, DEEPEST)
}

/// What stands in an item behind the COUNT or SUM with which it begins, where it is no window.
#[tactic(auto, unfolding(sql_phrases::specs::Readings::both, sql_phrases::specs::Readings::nothing, sql_phrases::specs::Readers::tally_expr))]
pub fn tally_expr(alloc: Global, tokens: &mut Tokens<'_>, tally: Tally) -> Result<ItemTree, Stop>
    ensures { Gives result tokens.new (tally_expr tally tokens.old) }
{
    let first = tally.aggregate(alloc)?;
    let part = over_from(alloc, tokens, true, DEEPEST, first)?;
    Ok(ItemTree::Plain(part.tree))
}
