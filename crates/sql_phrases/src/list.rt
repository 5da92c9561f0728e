ghost use Rattle.std.specs.Prelude.{[], ◌∷◌};
ghost use Rattle.sql_words.specs.declared.token.Sign.{Sign as ASign};
ghost use Rattle.sql_phrases.specs.Readings.{Shortens, joined, many};
ghost use Rattle.sql_phrases.specs.Classes.{is_sign};
ghost use Rattle.sql_phrases.specs.Gives.{Gives};
ghost use Rattle.sql_phrases.specs.Readers.{Reads, glyph, listed};

use crate::{Stop, Tokens};
use col_value::List;
use sql_words::Sign;
use std::alloc::Global;

/// A production that lists are made of, under a name of its own: `struct ColumnName;` is one.
pub trait Spelled {
    type Value: Drop;

    /// What it reads from the front of a list.
    ghost reads: { Reads Self.Value };

    fn read(alloc: Global, tokens: &mut Tokens<'_>) -> Result<Self::Value, Stop>
        ensures { Gives result tokens.new (reads tokens.old) };

    /// It reads at least one token.
    ghost shortens: { Shortens reads };
}

/// `, S`
#[tactic(auto, unfolding(crate::specs::Readings::mark, crate::specs::Readings::both))]
fn next<S: Spelled>(alloc: Global, tokens: &mut Tokens<'_>) -> Result<S::Value, Stop>
    ensures { Gives result tokens.new (glyph ASign.Comma S.reads tokens.old) }
{
    tokens.sign(Sign::Comma)?;
    S::read(alloc, tokens)
}

/// `first {, S}` behind its first one
fn more<S: Spelled>(
    alloc: Global,
    tokens: &mut Tokens<'_>,
    first: S::Value,
) -> Result<List<S::Value>, Stop>
    ensures { Gives result tokens.new (joined (first ∷ []) (many (is_sign ASign.Comma) (glyph ASign.Comma S.reads) tokens.old)) }
{
    let mut found = Vec::new(alloc);
    found.push(first)?;
    while tokens.begins_sign(Sign::Comma) {
        let value = match next::<S>(alloc, tokens) {
            Ok(value) => value,
            Err(stop) => return Err(stop),
        };
        found.push(value)?;
    }
    Ok(List::new(found))
}

/// `S {, S}`
#[tactic(auto, unfolding(crate::specs::Readings::both, crate::specs::Readings::nothing, crate::specs::Readers::listed))]
pub fn listed<S: Spelled>(alloc: Global, tokens: &mut Tokens<'_>) -> Result<List<S::Value>, Stop>
    ensures { Gives result tokens.new (listed S.reads tokens.old) }
{
    let first = S::read(alloc, tokens)?;
    more::<S>(alloc, tokens, first)
}
