ghost use Rattle.sql_phrases.specs.Gives.{Gives};
ghost use Rattle.sql_phrases.specs.Readings.{many};
ghost use Rattle.sql_words.specs.declared.token.Key.TheVariants.{And, Or};
ghost use Rattle.sql_tree.specs.Makers.{chained};
ghost use Rattle.sql_tree.specs.declared.tree.Tree as trees;
ghost use Rattle.sql_phrases.specs.Readers.{base, word_rest, negation, conjunction, over};
ghost use Rattle.sql_expr.specs.Levels.{goes_on, next_part};

use crate::level::Level;
use crate::predicates::negation;
use crate::sums::{sum, unary};
use col_value::List;
use sql_phrases::{Stop, Tokens};
use sql_tree::Part;
use sql_words::{Key, Sign};
use std::alloc::Global;

/// One more part of a chain, behind what stands before it
#[cycle(read)]
#[tactic(auto, unfolding(sql_phrases::specs::Readings::mark, sql_phrases::specs::Readings::both))]
fn next_part(
    alloc: Global,
    tokens: &mut Tokens<'_>,
    grouped: bool,
    depth: u32,
    level: Level,
) -> Result<Part, Stop>
    ensures { Gives result tokens.new (next_part level (base grouped depth) tokens.old) }
{
    match level {
        Level::Factors => {
            tokens.sign(Sign::Star)?;
            unary(alloc, tokens, grouped, depth)
        }
        Level::Choices => {
            tokens.sign(Sign::Comma)?;
            sum(alloc, tokens, grouped, depth)
        }
        Level::Conjuncts => {
            tokens.key(Key::And)?;
            negation(alloc, tokens, grouped, depth)
        }
        Level::Disjuncts => {
            tokens.key(Key::Or)?;
            conjunction(alloc, tokens, grouped, depth)
        }
    }
}

/// The parts of a chain behind its first one.
#[cycle(read)]
pub fn more(
    alloc: Global,
    tokens: &mut Tokens<'_>,
    grouped: bool,
    depth: u32,
    level: Level,
) -> Result<List<Part>, Stop>
    ensures { Gives result tokens.new (many (goes_on level) (next_part level (base grouped depth)) tokens.old) }
{
    let mut parts = Vec::new(alloc);
    while level.goes_on(tokens) {
        let part = match next_part(alloc, tokens, grouped, depth, level) {
            Ok(part) => part,
            Err(stop) => return Err(stop),
        };
        parts.push(part)?;
    }
    Ok(List::new(parts))
}

/// `{AND neg}`, behind the first part of a chain
#[cycle(read)]
#[tactic(auto, unfolding(sql_phrases::specs::Readings::both, sql_phrases::specs::Readings::nothing, sql_phrases::specs::Readers::word_rest))]
pub fn conjunction_rest(
    alloc: Global,
    tokens: &mut Tokens<'_>,
    grouped: bool,
    depth: u32,
    first: Part,
) -> Result<Part, Stop>
    ensures { Gives result tokens.new (word_rest And (negation (base grouped depth)) (chained trees.And) first tokens.old) }
{
    match more(alloc, tokens, grouped, depth, Level::Conjuncts) {
        Ok(others) => Ok(first.and(alloc, others)?),
        Err(stop) => {
            drop(first);
            Err(stop)
        }
    }
}

/// `neg {AND neg}`
#[cycle(read)]
#[tactic(auto, unfolding(sql_phrases::specs::Readings::both, sql_phrases::specs::Readers::conjunction, sql_phrases::specs::Readers::by_word))]
fn conjunction(
    alloc: Global,
    tokens: &mut Tokens<'_>,
    grouped: bool,
    depth: u32,
) -> Result<Part, Stop>
    ensures { Gives result tokens.new (conjunction (base grouped depth) tokens.old) }
{
    let first = negation(alloc, tokens, grouped, depth)?;
    conjunction_rest(alloc, tokens, grouped, depth, first)
}

/// `{OR conj}`, behind the first part of a chain
#[cycle(read)]
#[tactic(auto, unfolding(sql_phrases::specs::Readings::both, sql_phrases::specs::Readings::nothing, sql_phrases::specs::Readers::word_rest))]
pub fn over_rest(
    alloc: Global,
    tokens: &mut Tokens<'_>,
    grouped: bool,
    depth: u32,
    first: Part,
) -> Result<Part, Stop>
    ensures { Gives result tokens.new (word_rest Or (conjunction (base grouped depth)) (chained trees.Or) first tokens.old) }
{
    match more(alloc, tokens, grouped, depth, Level::Disjuncts) {
        Ok(others) => Ok(first.or(alloc, others)?),
        Err(stop) => {
            drop(first);
            Err(stop)
        }
    }
}

/// `conj {OR conj}`
#[cycle(read)]
#[tactic(auto, unfolding(sql_phrases::specs::Readings::both, sql_phrases::specs::Readers::over, sql_phrases::specs::Readers::by_word))]
pub fn over(alloc: Global, tokens: &mut Tokens<'_>, grouped: bool, depth: u32) -> Result<Part, Stop>
    ensures { Gives result tokens.new (over (base grouped depth) tokens.old) }
{
    let first = conjunction(alloc, tokens, grouped, depth)?;
    over_rest(alloc, tokens, grouped, depth, first)
}
