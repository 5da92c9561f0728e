ghost use Rattle.sql_phrases.specs.Gives.{Gives};
ghost use Rattle.sql_phrases.specs.Readings.{many};
ghost use Rattle.sql_phrases.specs.Classes.{in_set, signed_classes};
ghost use Rattle.sql_words.specs.declared.token.Sign.TheVariants.{Star};
ghost use Rattle.sql_tree.specs.Makers.{chained};
ghost use Rattle.sql_tree.specs.declared.tree.Tree as trees;
ghost use Rattle.sql_phrases.specs.Readers.{base, glyph_rest, unary, product, signed, sum_rest, sum};

use crate::chains::more;
use crate::level::Level;
use crate::primaries::primary;
use col_value::List;
use sql_phrases::{Stop, Tokens};
use sql_tree::{Addend, Part};
use sql_words::Sign;
use std::alloc::Global;

/// `[-] primary`
#[cycle(read)]
#[tactic(auto, unfolding(sql_phrases::specs::Readings::choose, sql_phrases::specs::Readings::mark, sql_phrases::specs::Readings::both, sql_phrases::specs::Readings::nothing, sql_phrases::specs::Readers::unary))]
pub fn unary(
    alloc: Global,
    tokens: &mut Tokens<'_>,
    grouped: bool,
    depth: u32,
) -> Result<Part, Stop>
    ensures { Gives result tokens.new (unary (base grouped depth) tokens.old) }
{
    if tokens.begins_sign(Sign::Minus) {
        tokens.sign(Sign::Minus)?;
        let part = primary(alloc, tokens, grouped, depth)?;
        return Ok(part.negated(alloc)?);
    }
    primary(alloc, tokens, grouped, depth)
}

/// `{* unary}`, behind the first part of a chain
#[cycle(read)]
#[tactic(auto, unfolding(sql_phrases::specs::Readings::both, sql_phrases::specs::Readings::nothing, sql_phrases::specs::Readers::glyph_rest))]
pub fn product_rest(
    alloc: Global,
    tokens: &mut Tokens<'_>,
    grouped: bool,
    depth: u32,
    first: Part,
) -> Result<Part, Stop>
    ensures { Gives result tokens.new (glyph_rest Star (unary (base grouped depth)) (chained trees.Product) first tokens.old) }
{
    match more(alloc, tokens, grouped, depth, Level::Factors) {
        Ok(others) => Ok(first.times(alloc, others)?),
        Err(stop) => {
            drop(first);
            Err(stop)
        }
    }
}

/// `unary {* unary}`
#[cycle(read)]
#[tactic(auto, unfolding(sql_phrases::specs::Readings::both, sql_phrases::specs::Readers::product, sql_phrases::specs::Readers::by_glyph))]
fn product(alloc: Global, tokens: &mut Tokens<'_>, grouped: bool, depth: u32) -> Result<Part, Stop>
    ensures { Gives result tokens.new (product (base grouped depth) tokens.old) }
{
    let first = unary(alloc, tokens, grouped, depth)?;
    product_rest(alloc, tokens, grouped, depth, first)
}

/// `(+ | -) product`
#[cycle(read)]
#[tactic(auto, unfolding(sql_phrases::specs::Readings::choose, sql_phrases::specs::Readings::mark, sql_phrases::specs::Readings::both, sql_phrases::specs::Readings::nothing, sql_phrases::specs::Readers::signed))]
fn signed(alloc: Global, tokens: &mut Tokens<'_>, grouped: bool, depth: u32) -> Result<Addend, Stop>
    ensures { Gives result tokens.new (signed (base grouped depth) tokens.old) }
{
    if tokens.begins_sign(Sign::Plus) {
        tokens.sign(Sign::Plus)?;
        let part = product(alloc, tokens, grouped, depth)?;
        return Ok(Addend { minus: false, part });
    }
    tokens.sign(Sign::Minus)?;
    let part = product(alloc, tokens, grouped, depth)?;
    Ok(Addend { minus: true, part })
}

/// The parts of a sum behind its first one.
#[cycle(read)]
fn addends(
    alloc: Global,
    tokens: &mut Tokens<'_>,
    grouped: bool,
    depth: u32,
) -> Result<List<Addend>, Stop>
    ensures { Gives result tokens.new (many (in_set signed_classes) (signed (base grouped depth)) tokens.old) }
{
    let mut addends = Vec::new(alloc);
    while tokens.begins_signed() {
        let addend = match signed(alloc, tokens, grouped, depth) {
            Ok(addend) => addend,
            Err(stop) => return Err(stop),
        };
        addends.push(addend)?;
    }
    Ok(List::new(addends))
}

/// `{(+ | -) product}`, behind the first part of a sum
#[cycle(read)]
#[tactic(auto, unfolding(sql_phrases::specs::Readings::both, sql_phrases::specs::Readings::nothing, sql_phrases::specs::Readers::sum_rest))]
pub fn sum_rest(
    alloc: Global,
    tokens: &mut Tokens<'_>,
    grouped: bool,
    depth: u32,
    first: Part,
) -> Result<Part, Stop>
    ensures { Gives result tokens.new (sum_rest (base grouped depth) first tokens.old) }
{
    match addends(alloc, tokens, grouped, depth) {
        Ok(others) => Ok(first.plus(alloc, others)?),
        Err(stop) => {
            drop(first);
            Err(stop)
        }
    }
}

/// `product {(+ | -) product}`
#[cycle(read)]
#[tactic(auto, unfolding(sql_phrases::specs::Readings::both, sql_phrases::specs::Readers::sum))]
pub fn sum(alloc: Global, tokens: &mut Tokens<'_>, grouped: bool, depth: u32) -> Result<Part, Stop>
    ensures { Gives result tokens.new (sum (base grouped depth) tokens.old) }
{
    let first = product(alloc, tokens, grouped, depth)?;
    sum_rest(alloc, tokens, grouped, depth, first)
}
