ghost use Rattle.std.specs.Prelude.{false};
ghost use Rattle.sql_phrases.specs.Gives.{Gives};
ghost use Rattle.sql_phrases.specs.Readers.{base, over, inside, counted, summing, tallied, argument, aggregate};
ghost use Rattle.sql_expr.specs.Levels.{leaf_of};

use crate::chains::over;
use crate::leaves::{atom, closed};
use sql_phrases::{Stop, Tokens};
use sql_tree::{AggKind, Part, Tally};
use sql_words::{Key, Sign};
use std::alloc::Global;

/// `( expr )`
#[cycle(read)]
#[tactic(auto, unfolding(sql_phrases::specs::Readings::mark, sql_phrases::specs::Readings::both, sql_phrases::specs::Readings::nothing, sql_phrases::specs::Readers::inside))]
fn parenthesis(
    alloc: Global,
    tokens: &mut Tokens<'_>,
    grouped: bool,
    depth: u32,
) -> Result<Part, Stop>
    ensures { Gives result tokens.new (inside (over (base grouped depth)) tokens.old) }
{
    tokens.sign(Sign::Open)?;
    let part = over(alloc, tokens, grouped, depth)?;
    closed(tokens, part)
}

/// `( * ) | ( expr )`, of COUNT
#[cycle(read)]
#[tactic(auto, unfolding(sql_phrases::specs::Readings::choose, sql_phrases::specs::Readings::mark, sql_phrases::specs::Readings::both, sql_phrases::specs::Readings::nothing, sql_phrases::specs::Readers::counted, sql_phrases::specs::Readers::inside))]
fn counted(alloc: Global, tokens: &mut Tokens<'_>, depth: u32) -> Result<Tally, Stop>
    ensures { Gives result tokens.new (counted (over (base false depth)) tokens.old) }
{
    tokens.sign(Sign::Open)?;
    if tokens.begins_sign(Sign::Star) {
        tokens.sign(Sign::Star)?;
        tokens.sign(Sign::Close)?;
        return Ok(Tally::All);
    }
    let part = over(alloc, tokens, false, depth)?;
    let part = closed(tokens, part)?;
    Ok(Tally::Count(part))
}

/// `( expr )`, of SUM
#[cycle(read)]
#[tactic(auto, unfolding(sql_phrases::specs::Readings::both, sql_phrases::specs::Readings::nothing, sql_phrases::specs::Readers::summing))]
fn summing(alloc: Global, tokens: &mut Tokens<'_>, depth: u32) -> Result<Tally, Stop>
    ensures { Gives result tokens.new (summing (over (base false depth)) tokens.old) }
{
    let part = parenthesis(alloc, tokens, false, depth)?;
    Ok(Tally::Sum(part))
}

/// `COUNT ( * ) | (COUNT | SUM) ( expr )`
#[cycle(read)]
#[tactic(auto, unfolding(sql_phrases::specs::Readings::choose, sql_phrases::specs::Readings::mark, sql_phrases::specs::Readings::both, sql_phrases::specs::Readers::tallied))]
pub fn tallied(alloc: Global, tokens: &mut Tokens<'_>, depth: u32) -> Result<Tally, Stop>
    ensures { Gives result tokens.new (tallied (over (base false depth)) tokens.old) }
{
    if tokens.begins_key(Key::Count) {
        tokens.key(Key::Count)?;
        return counted(alloc, tokens, depth);
    }
    tokens.key(Key::Sum)?;
    summing(alloc, tokens, depth)
}

/// `( expr )`, of MIN and MAX
#[cycle(read)]
#[tactic(auto, unfolding(sql_phrases::specs::Readings::both, sql_phrases::specs::Readings::nothing, sql_phrases::specs::Readers::argument))]
fn argument(alloc: Global, tokens: &mut Tokens<'_>, depth: u32, kind: AggKind) -> Result<Part, Stop>
    ensures { Gives result tokens.new (argument kind (over (base false depth)) tokens.old) }
{
    let part = parenthesis(alloc, tokens, false, depth)?;
    Ok(part.aggregated(alloc, kind)?)
}

/// `COUNT ( * ) | (COUNT | SUM | MIN | MAX) ( expr )`
#[cycle(read)]
#[tactic(auto, unfolding(sql_phrases::specs::Readings::choose, sql_phrases::specs::Readings::mark, sql_phrases::specs::Readings::both, sql_phrases::specs::Readings::nothing, sql_phrases::specs::Readers::aggregate))]
fn aggregate(alloc: Global, tokens: &mut Tokens<'_>, depth: u32) -> Result<Part, Stop>
    ensures { Gives result tokens.new (aggregate (over (base false depth)) tokens.old) }
{
    if tokens.begins_tally() {
        let tally = tallied(alloc, tokens, depth)?;
        return Ok(tally.aggregate(alloc)?);
    }
    if tokens.begins_key(Key::Min) {
        tokens.key(Key::Min)?;
        return argument(alloc, tokens, depth, AggKind::Min);
    }
    tokens.key(Key::Max)?;
    argument(alloc, tokens, depth, AggKind::Max)
}

/// What stands where no parenthesis does: an aggregate, where they may stand, a column or a literal.
#[cycle(read)]
#[tactic(auto, unfolding(sql_phrases::specs::Readings::choose, sql_phrases::specs::Readers::leaf))]
fn leaf(alloc: Global, tokens: &mut Tokens<'_>, grouped: bool, depth: u32) -> Result<Part, Stop>
    ensures { Gives result tokens.new (leaf_of grouped depth tokens.old) }
{
    if grouped {
        if tokens.begins_aggregate() {
            return aggregate(alloc, tokens, depth);
        }
        return atom(alloc, tokens);
    }
    atom(alloc, tokens)
}

/// A leaf, or an expression in parentheses, where so many more may nest.
#[cycle(read)]
#[tactic(auto, using(crate::proofs::Deep::base_flat, crate::proofs::Deep::base_deep), unfolding(sql_phrases::specs::Readings::choose))]
pub fn primary(
    alloc: Global,
    tokens: &mut Tokens<'_>,
    grouped: bool,
    depth: u32,
) -> Result<Part, Stop>
    ensures { Gives result tokens.new (base grouped depth tokens.old) }
{
    if depth == 0 {
        return leaf(alloc, tokens, grouped, depth);
    }
    if tokens.begins_sign(Sign::Open) {
        return parenthesis(alloc, tokens, grouped, depth - 1);
    }
    leaf(alloc, tokens, grouped, depth)
}
