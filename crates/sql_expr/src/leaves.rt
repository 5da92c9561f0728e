ghost use Rattle.sql_phrases.specs.Gives.{Gives};
ghost use Rattle.sql_words.specs.declared.token.Key.TheVariants.{Not, Null};
ghost use Rattle.sql_words.specs.declared.token.Sign.TheVariants.{Close};
ghost use Rattle.sql_tree.specs.Makers.{denied, is_null};
ghost use Rattle.sql_phrases.specs.Readings.{nothing};
ghost use Rattle.sql_phrases.specs.Readers.{word, glyph, named_constant, date_constant, a_constant, literal, qualified, reference, atom, null_test};

use col_value::{Name, Wide};
use sql_phrases::{Stop, Tokens};
use sql_tree::{ColRef, Part};
use sql_words::{Key, Sign};
use std::alloc::Global;

/// `TRUE | FALSE | NULL`
#[tactic(auto, unfolding(sql_phrases::specs::Readings::choose, sql_phrases::specs::Readings::mark, sql_phrases::specs::Readings::both, sql_phrases::specs::Readings::nothing, sql_phrases::specs::Readers::named_constant))]
fn named_constant(tokens: &mut Tokens<'_>) -> Result<Wide, Stop>
    ensures { Gives result tokens.new (named_constant tokens.old) }
{
    if tokens.begins_key(Key::True) {
        tokens.key(Key::True)?;
        return Ok(Wide::Bool(true));
    }
    if tokens.begins_key(Key::False) {
        tokens.key(Key::False)?;
        return Ok(Wide::Bool(false));
    }
    tokens.key(Key::Null)?;
    Ok(Wide::Null)
}

/// `DATE text`, whose text says a day
#[tactic(auto, unfolding(sql_phrases::specs::Readings::mark, sql_phrases::specs::Readings::both, sql_phrases::specs::Readings::nothing, sql_phrases::specs::Readers::date_constant))]
fn date_constant(alloc: Global, tokens: &mut Tokens<'_>) -> Result<Wide, Stop>
    ensures { Gives result tokens.new (date_constant tokens.old) }
{
    tokens.key(Key::Date)?;
    let day = tokens.date(alloc)?;
    Ok(Wide::Date(day))
}

/// `int | text | DATE text | TRUE | FALSE | NULL`
#[tactic(auto, unfolding(sql_phrases::specs::Readings::choose, sql_phrases::specs::Readings::both, sql_phrases::specs::Readings::nothing, sql_phrases::specs::Readers::a_constant))]
fn constant(alloc: Global, tokens: &mut Tokens<'_>) -> Result<Wide, Stop>
    ensures { Gives result tokens.new (a_constant tokens.old) }
{
    if tokens.begins_number() {
        let number = tokens.number()?;
        return Ok(Wide::Int(number as i128));
    }
    if tokens.begins_text() {
        let text = tokens.text(alloc)?;
        return Ok(Wide::Text(text));
    }
    if tokens.begins_key(Key::Date) {
        return date_constant(alloc, tokens);
    }
    named_constant(tokens)
}

/// `[-] int | text | DATE text | TRUE | FALSE | NULL`
#[tactic(auto, unfolding(sql_phrases::specs::Readings::choose, sql_phrases::specs::Readings::mark, sql_phrases::specs::Readings::both, sql_phrases::specs::Readings::nothing, sql_phrases::specs::Readers::literal))]
pub fn literal(alloc: Global, tokens: &mut Tokens<'_>) -> Result<Wide, Stop>
    ensures { Gives result tokens.new (literal tokens.old) }
{
    if tokens.begins_sign(Sign::Minus) {
        tokens.sign(Sign::Minus)?;
        let number = tokens.number()?;
        return Ok(Wide::Int(-(number as i128)));
    }
    constant(alloc, tokens)
}

/// `[. name]`, behind the first name of a column
#[tactic(auto, unfolding(sql_phrases::specs::Readings::choose, sql_phrases::specs::Readings::mark, sql_phrases::specs::Readings::both, sql_phrases::specs::Readings::nothing, sql_phrases::specs::Readers::qualified))]
fn qualified(alloc: Global, tokens: &mut Tokens<'_>, first: Name) -> Result<ColRef, Stop>
    ensures { Gives result tokens.new (qualified first tokens.old) }
{
    if tokens.begins_sign(Sign::Dot) {
        tokens.sign(Sign::Dot)?;
        let name = tokens.name(alloc)?;
        return Ok(ColRef {
            qualifier: Some(first),
            name,
        });
    }
    Ok(ColRef {
        qualifier: None,
        name: first,
    })
}

/// `name [. name]`
#[tactic(auto, unfolding(sql_phrases::specs::Readings::both, sql_phrases::specs::Readers::reference))]
pub fn reference(alloc: Global, tokens: &mut Tokens<'_>) -> Result<ColRef, Stop>
    ensures { Gives result tokens.new (reference tokens.old) }
{
    let first = tokens.name(alloc)?;
    qualified(alloc, tokens, first)
}

/// A column or a literal.
#[tactic(auto, unfolding(sql_phrases::specs::Readings::choose, sql_phrases::specs::Readings::both, sql_phrases::specs::Readings::nothing, sql_phrases::specs::Readers::atom))]
pub fn atom(alloc: Global, tokens: &mut Tokens<'_>) -> Result<Part, Stop>
    ensures { Gives result tokens.new (atom tokens.old) }
{
    if tokens.begins_name() {
        let column = reference(alloc, tokens)?;
        return Ok(Part::column(column));
    }
    let value = constant(alloc, tokens)?;
    Ok(Part::constant(value))
}

/// `NULL`, behind `part IS`
#[tactic(auto, unfolding(sql_phrases::specs::Readings::mark, sql_phrases::specs::Readings::both, sql_phrases::specs::Readings::nothing))]
fn null(alloc: Global, tokens: &mut Tokens<'_>, part: Part) -> Result<Part, Stop>
    ensures { Gives result tokens.new (word Null (nothing (is_null part)) tokens.old) }
{
    match tokens.key(Key::Null) {
        Ok(()) => Ok(part.is_null(alloc)?),
        Err(stop) => {
            drop(part);
            Err(stop)
        }
    }
}

/// `NOT NULL`, behind `part IS`
#[tactic(auto, unfolding(sql_phrases::specs::Readings::mark, sql_phrases::specs::Readings::both, sql_phrases::specs::Readings::nothing))]
fn not_null(alloc: Global, tokens: &mut Tokens<'_>, part: Part) -> Result<Part, Stop>
    ensures { Gives result tokens.new (word Not (word Null (nothing (denied (is_null part)))) tokens.old) }
{
    if let Err(stop) = tokens.key(Key::Not) {
        drop(part);
        return Err(stop);
    }
    if let Err(stop) = tokens.key(Key::Null) {
        drop(part);
        return Err(stop);
    }
    let test = part.is_null(alloc)?;
    Ok(test.denied(alloc)?)
}

/// `IS [NOT] NULL`, behind its part
#[tactic(auto, unfolding(sql_phrases::specs::Readings::choose, sql_phrases::specs::Readings::mark, sql_phrases::specs::Readings::both, sql_phrases::specs::Readings::nothing, sql_phrases::specs::Readers::null_test))]
pub fn null_test(alloc: Global, tokens: &mut Tokens<'_>, part: Part) -> Result<Part, Stop>
    ensures { Gives result tokens.new (null_test part tokens.old) }
{
    if let Err(stop) = tokens.key(Key::Is) {
        drop(part);
        return Err(stop);
    }
    if tokens.begins_key(Key::Not) {
        return not_null(alloc, tokens, part);
    }
    null(alloc, tokens, part)
}

/// `)`, behind its part
#[tactic(auto, unfolding(sql_phrases::specs::Readings::mark, sql_phrases::specs::Readings::both, sql_phrases::specs::Readings::nothing))]
pub fn closed(tokens: &mut Tokens<'_>, part: Part) -> Result<Part, Stop>
    ensures { Gives result tokens.new (glyph Close (nothing part) tokens.old) }
{
    match tokens.sign(Sign::Close) {
        Ok(()) => Ok(part),
        Err(stop) => {
            drop(part);
            Err(stop)
        }
    }
}
