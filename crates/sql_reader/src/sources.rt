ghost use Rattle.std.specs.Prelude.{[], ◌∷◌};
ghost use Rattle.sql_phrases.specs.Readings.{joined, many};
ghost use Rattle.sql_phrases.specs.Classes.{in_set, source_classes};
ghost use Rattle.sql_phrases.specs.Gives.{Gives};
ghost use Rattle.sql_phrases.specs.Readers.{from_item, joins, next_source, sources};

use crate::clauses::alias;
use col_value::List;
use sql_expr::expr;
use sql_phrases::{Stop, Tokens};
use sql_tree::Source;
use sql_words::{Key, Sign};
use std::alloc::Global;

/// `name [AS name]`
#[tactic(auto, unfolding(sql_phrases::specs::Readings::both, sql_phrases::specs::Readings::nothing, sql_phrases::specs::Readers::from_item))]
fn from_item(alloc: Global, tokens: &mut Tokens<'_>) -> Result<Source, Stop>
    ensures { Gives result tokens.new (from_item tokens.old) }
{
    let table = tokens.name(alloc)?;
    match alias(alloc, tokens) {
        Ok(alias) => Ok(Source {
            table,
            alias,
            on: None,
        }),
        Err(stop) => {
            drop(table);
            Err(stop)
        }
    }
}

/// `source ON expr`
#[tactic(auto, unfolding(sql_phrases::specs::Readings::mark, sql_phrases::specs::Readings::both, sql_phrases::specs::Readings::nothing, sql_phrases::specs::Readers::joins))]
fn joins(alloc: Global, tokens: &mut Tokens<'_>) -> Result<Source, Stop>
    ensures { Gives result tokens.new (joins tokens.old) }
{
    let source = from_item(alloc, tokens)?;
    if let Err(stop) = tokens.key(Key::On) {
        drop(source);
        return Err(stop);
    }
    match expr(alloc, tokens) {
        Ok(condition) => {
            let Source { table, alias, on } = source;
            drop(on);
            Ok(Source {
                table,
                alias,
                on: Some(condition),
            })
        }
        Err(stop) => {
            drop(source);
            Err(stop)
        }
    }
}

/// `, source | [INNER] JOIN source ON expr`
#[tactic(auto, unfolding(sql_phrases::specs::Readings::choose, sql_phrases::specs::Readings::mark, sql_phrases::specs::Readings::both, sql_phrases::specs::Readers::next_source))]
fn next_source(alloc: Global, tokens: &mut Tokens<'_>) -> Result<Source, Stop>
    ensures { Gives result tokens.new (next_source tokens.old) }
{
    if tokens.begins_sign(Sign::Comma) {
        tokens.sign(Sign::Comma)?;
        return from_item(alloc, tokens);
    }
    if tokens.begins_key(Key::Inner) {
        tokens.key(Key::Inner)?;
        tokens.key(Key::Join)?;
        return joins(alloc, tokens);
    }
    tokens.key(Key::Join)?;
    joins(alloc, tokens)
}

/// What stands behind the first source.
fn more_sources(alloc: Global, tokens: &mut Tokens<'_>, first: Source) -> Result<List<Source>, Stop>
    ensures { Gives result tokens.new (joined (first ∷ []) (many (in_set source_classes) next_source tokens.old)) }
{
    let mut found = Vec::new(alloc);
    found.push(first)?;
    while tokens.begins_source() {
        let source = match next_source(alloc, tokens) {
            Ok(source) => source,
            Err(stop) => return Err(stop),
        };
        found.push(source)?;
    }
    Ok(List::new(found))
}

/// `source {, source | [INNER] JOIN source ON expr}`
#[tactic(auto, unfolding(sql_phrases::specs::Readings::both, sql_phrases::specs::Readings::nothing, sql_phrases::specs::Readers::sources))]
pub fn sources(alloc: Global, tokens: &mut Tokens<'_>) -> Result<List<Source>, Stop>
    ensures { Gives result tokens.new (sources tokens.old) }
{
    let first = from_item(alloc, tokens)?;
    more_sources(alloc, tokens, first)
}
