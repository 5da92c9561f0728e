ghost use Rattle.sql_phrases.specs.Gives.{Gives};
ghost use Rattle.sql_words.specs.declared.token.Sign.TheVariants.{Comma};
ghost use Rattle.sql_tree.specs.Makers.{one_of};
ghost use Rattle.sql_phrases.specs.Readers.{base, by_glyph, sum, comparison, betweens, among, ranged, tail, predicate, negation};
ghost use Rattle.sql_expr.specs.Levels.{upper};

use crate::chains::more;
use crate::leaves::{closed, null_test};
use crate::level::Level;
use crate::sums::sum;
use sql_phrases::{Stop, Tokens};
use sql_tree::Part;
use sql_words::{Key, Sign};
use std::alloc::Global;

/// `cmp sum`, behind its part
#[cycle(read)]
#[tactic(auto, unfolding(sql_phrases::specs::Readings::both, sql_phrases::specs::Readings::nothing, sql_phrases::specs::Readers::comparison))]
fn comparison(
    alloc: Global,
    tokens: &mut Tokens<'_>,
    grouped: bool,
    depth: u32,
    part: Part,
) -> Result<Part, Stop>
    ensures { Gives result tokens.new (comparison (base grouped depth) part tokens.old) }
{
    let cmp = match tokens.cmp() {
        Ok(cmp) => cmp,
        Err(stop) => {
            drop(part);
            return Err(stop);
        }
    };
    match sum(alloc, tokens, grouped, depth) {
        Ok(other) => Ok(part.compared(alloc, cmp, other)?),
        Err(stop) => {
            drop(part);
            Err(stop)
        }
    }
}

/// `AND sum`, behind `part BETWEEN low`
#[cycle(read)]
#[tactic(auto, unfolding(sql_phrases::specs::Readings::mark, sql_phrases::specs::Readings::both, sql_phrases::specs::Readings::nothing))]
fn upper(
    alloc: Global,
    tokens: &mut Tokens<'_>,
    grouped: bool,
    depth: u32,
    part: Part,
    low: Part,
) -> Result<Part, Stop>
    ensures { Gives result tokens.new (upper (base grouped depth) part low tokens.old) }
{
    if let Err(stop) = tokens.key(Key::And) {
        drop(part);
        drop(low);
        return Err(stop);
    }
    match sum(alloc, tokens, grouped, depth) {
        Ok(high) => Ok(part.between(alloc, low, high)?),
        Err(stop) => {
            drop(part);
            drop(low);
            Err(stop)
        }
    }
}

/// `BETWEEN sum AND sum`, behind its part
#[cycle(read)]
#[tactic(auto, unfolding(sql_phrases::specs::Readings::mark, sql_phrases::specs::Readings::both, sql_phrases::specs::Readers::betweens))]
fn betweens(
    alloc: Global,
    tokens: &mut Tokens<'_>,
    grouped: bool,
    depth: u32,
    part: Part,
) -> Result<Part, Stop>
    ensures { Gives result tokens.new (betweens (base grouped depth) part tokens.old) }
{
    if let Err(stop) = tokens.key(Key::Between) {
        drop(part);
        return Err(stop);
    }
    match sum(alloc, tokens, grouped, depth) {
        Ok(low) => upper(alloc, tokens, grouped, depth, part, low),
        Err(stop) => {
            drop(part);
            Err(stop)
        }
    }
}

/// `sum {, sum}`, behind `part IN (`
#[cycle(read)]
#[tactic(auto, unfolding(sql_phrases::specs::Readings::both, sql_phrases::specs::Readings::nothing, sql_phrases::specs::Readers::glyph_rest, sql_phrases::specs::Readers::by_glyph))]
fn choices(
    alloc: Global,
    tokens: &mut Tokens<'_>,
    grouped: bool,
    depth: u32,
    part: Part,
) -> Result<Part, Stop>
    ensures { Gives result tokens.new (by_glyph Comma (sum (base grouped depth)) (one_of part) tokens.old) }
{
    let first = match sum(alloc, tokens, grouped, depth) {
        Ok(first) => first,
        Err(stop) => {
            drop(part);
            return Err(stop);
        }
    };
    match more(alloc, tokens, grouped, depth, Level::Choices) {
        Ok(others) => Ok(part.one_of(alloc, first, others)?),
        Err(stop) => {
            drop(part);
            drop(first);
            Err(stop)
        }
    }
}

/// `IN ( sum {, sum} )`, behind its part
#[cycle(read)]
#[tactic(auto, unfolding(sql_phrases::specs::Readings::mark, sql_phrases::specs::Readings::both, sql_phrases::specs::Readings::nothing, sql_phrases::specs::Readers::among, sql_phrases::specs::Readers::inside))]
fn among(
    alloc: Global,
    tokens: &mut Tokens<'_>,
    grouped: bool,
    depth: u32,
    part: Part,
) -> Result<Part, Stop>
    ensures { Gives result tokens.new (among (base grouped depth) part tokens.old) }
{
    if let Err(stop) = tokens.key(Key::In) {
        drop(part);
        return Err(stop);
    }
    if let Err(stop) = tokens.sign(Sign::Open) {
        drop(part);
        return Err(stop);
    }
    let test = choices(alloc, tokens, grouped, depth, part)?;
    closed(tokens, test)
}

/// `[BETWEEN sum AND sum | IN ( sum {, sum} )]`, behind its part, which may hold none of either
#[cycle(read)]
#[tactic(auto, unfolding(sql_phrases::specs::Readings::refuse, sql_phrases::specs::Readings::stop, sql_phrases::specs::Readings::choose, sql_phrases::specs::Readings::nothing, sql_phrases::specs::Readers::ranged))]
fn ranged(
    alloc: Global,
    tokens: &mut Tokens<'_>,
    grouped: bool,
    depth: u32,
    part: Part,
) -> Result<Part, Stop>
    ensures { Gives result tokens.new (ranged (base grouped depth) part part.holds tokens.old) }
{
    if tokens.begins_key(Key::Between) {
        if part.holds {
            drop(part);
            return Err(Stop::Here);
        }
        return betweens(alloc, tokens, grouped, depth, part);
    }
    if tokens.begins_key(Key::In) {
        if part.holds {
            drop(part);
            return Err(Stop::Here);
        }
        return among(alloc, tokens, grouped, depth, part);
    }
    Ok(part)
}

/// `[cmp sum | IS [NOT] NULL | BETWEEN sum AND sum | IN ( sum {, sum} )]`, behind its part
#[cycle(read)]
#[tactic(auto, unfolding(sql_phrases::specs::Readings::choose, sql_phrases::specs::Readers::tail))]
pub fn tail(
    alloc: Global,
    tokens: &mut Tokens<'_>,
    grouped: bool,
    depth: u32,
    part: Part,
) -> Result<Part, Stop>
    ensures { Gives result tokens.new (tail (base grouped depth) part tokens.old) }
{
    if tokens.begins_cmp() {
        return comparison(alloc, tokens, grouped, depth, part);
    }
    if tokens.begins_key(Key::Is) {
        return null_test(alloc, tokens, part);
    }
    ranged(alloc, tokens, grouped, depth, part)
}

/// `sum [cmp sum | IS [NOT] NULL | BETWEEN sum AND sum | IN ( sum {, sum} )]`
#[cycle(read)]
#[tactic(auto, unfolding(sql_phrases::specs::Readings::both, sql_phrases::specs::Readers::predicate))]
fn predicate(
    alloc: Global,
    tokens: &mut Tokens<'_>,
    grouped: bool,
    depth: u32,
) -> Result<Part, Stop>
    ensures { Gives result tokens.new (predicate (base grouped depth) tokens.old) }
{
    let part = sum(alloc, tokens, grouped, depth)?;
    tail(alloc, tokens, grouped, depth, part)
}

/// `[NOT] test`
#[cycle(read)]
#[tactic(auto, unfolding(sql_phrases::specs::Readings::choose, sql_phrases::specs::Readings::mark, sql_phrases::specs::Readings::both, sql_phrases::specs::Readings::nothing, sql_phrases::specs::Readers::negation))]
pub fn negation(
    alloc: Global,
    tokens: &mut Tokens<'_>,
    grouped: bool,
    depth: u32,
) -> Result<Part, Stop>
    ensures { Gives result tokens.new (negation (base grouped depth) tokens.old) }
{
    if tokens.begins_key(Key::Not) {
        tokens.key(Key::Not)?;
        let part = predicate(alloc, tokens, grouped, depth)?;
        return Ok(part.denied(alloc)?);
    }
    predicate(alloc, tokens, grouped, depth)
}
