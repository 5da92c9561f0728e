ghost use Rattle.sql_phrases.specs.Gives.{Gives};
ghost use Rattle.sql_words.specs.declared.token.Sign.TheVariants.{Close};
ghost use Rattle.sql_phrases.specs.Readings.{nothing};
ghost use Rattle.sql_phrases.specs.Readers.{glyph, inside, listed};

use col_value::List;
use sql_phrases::{Spelled, Stop, Tokens, listed};
use sql_words::Sign;
use std::alloc::Global;

/// `)`, behind what stands between the parentheses
#[tactic(auto, unfolding(sql_phrases::specs::Readings::mark, sql_phrases::specs::Readings::both, sql_phrases::specs::Readings::nothing))]
pub fn closed<T: Drop>(tokens: &mut Tokens<'_>, value: T) -> Result<T, Stop>
    ensures { Gives result tokens.new (glyph Close (nothing value) tokens.old) }
{
    match tokens.sign(Sign::Close) {
        Ok(()) => Ok(value),
        Err(stop) => {
            drop(value);
            Err(stop)
        }
    }
}

/// `( S {, S} )`
#[tactic(auto, unfolding(sql_phrases::specs::Readings::mark, sql_phrases::specs::Readings::both, sql_phrases::specs::Readings::nothing, sql_phrases::specs::Readers::inside))]
pub fn inside<S: Spelled>(alloc: Global, tokens: &mut Tokens<'_>) -> Result<List<S::Value>, Stop>
    ensures { Gives result tokens.new (inside (listed S.reads) tokens.old) }
{
    tokens.sign(Sign::Open)?;
    let values = listed::<S>(alloc, tokens)?;
    closed(tokens, values)
}
