ghost use Rattle.sql_phrases.specs.Gives.{Gives};
ghost use Rattle.sql_phrases.specs.Readers.{alias, where_clause, group_by, having, key_name, descending, order_key, order_by, limit, reference};

use col_value::{List, Name};
use sql_expr::{expr, grouped_expr, reference};
use sql_phrases::{Spelled, Stop, Tokens, listed};
use sql_tree::{ColRef, KeyRef, SortKey, Tree};
use sql_words::Key;
use std::alloc::Global;

/// `[AS name]`
#[tactic(auto, unfolding(sql_phrases::specs::Readings::choose, sql_phrases::specs::Readings::mark, sql_phrases::specs::Readings::both, sql_phrases::specs::Readings::nothing, sql_phrases::specs::Readers::alias))]
pub fn alias(alloc: Global, tokens: &mut Tokens<'_>) -> Result<Option<Name>, Stop>
    ensures { Gives result tokens.new (alias tokens.old) }
{
    if !tokens.begins_key(Key::As) {
        return Ok(None);
    }
    tokens.key(Key::As)?;
    let name = tokens.name(alloc)?;
    Ok(Some(name))
}

/// `[WHERE expr]`
#[tactic(auto, unfolding(sql_phrases::specs::Readings::choose, sql_phrases::specs::Readings::mark, sql_phrases::specs::Readings::both, sql_phrases::specs::Readings::nothing, sql_phrases::specs::Readers::where_clause))]
pub fn where_clause(alloc: Global, tokens: &mut Tokens<'_>) -> Result<Option<Tree>, Stop>
    ensures { Gives result tokens.new (where_clause tokens.old) }
{
    if !tokens.begins_key(Key::Where) {
        return Ok(None);
    }
    tokens.key(Key::Where)?;
    let condition = expr(alloc, tokens)?;
    Ok(Some(condition))
}

/// `name [. name]`
pub struct Reference;

impl Spelled for Reference {
    ghost use Rattle.sql_phrases.specs.Readers.{reference};
    ghost use Rattle.sql_phrases.proofs.Goods.{good_shortens};
    ghost use Rattle.sql_phrases.proofs.GoodExpressions.{good_reference};

    type Value = ColRef;

    ghost reads = { reference };

    ghost shortens = { good_shortens good_reference };

    fn read(alloc: Global, tokens: &mut Tokens<'_>) -> Result<ColRef, Stop> {
        reference(alloc, tokens)
    }
}

/// `[GROUP BY colref {, colref}]`, which doesn't stand in a query with windows
#[tactic(auto, unfolding(sql_phrases::specs::Readings::choose, sql_phrases::specs::Readings::mark, sql_phrases::specs::Readings::both, sql_phrases::specs::Readings::nothing, sql_phrases::specs::Readers::group_by))]
pub fn group_by(
    alloc: Global,
    tokens: &mut Tokens<'_>,
    windowed: bool,
) -> Result<List<ColRef>, Stop>
    ensures { Gives result tokens.new (group_by windowed tokens.old) }
{
    if windowed {
        return Ok(List::new(Vec::new(alloc)));
    }
    if !tokens.begins_key(Key::Group) {
        return Ok(List::new(Vec::new(alloc)));
    }
    tokens.key(Key::Group)?;
    tokens.key(Key::By)?;
    listed::<Reference>(alloc, tokens)
}

/// `[HAVING gexpr]`, which doesn't stand in a query with windows
#[tactic(auto, unfolding(sql_phrases::specs::Readings::choose, sql_phrases::specs::Readings::mark, sql_phrases::specs::Readings::both, sql_phrases::specs::Readings::nothing, sql_phrases::specs::Readers::having))]
pub fn having(alloc: Global, tokens: &mut Tokens<'_>, windowed: bool) -> Result<Option<Tree>, Stop>
    ensures { Gives result tokens.new (having windowed tokens.old) }
{
    if windowed {
        return Ok(None);
    }
    if !tokens.begins_key(Key::Having) {
        return Ok(None);
    }
    tokens.key(Key::Having)?;
    let condition = grouped_expr(alloc, tokens)?;
    Ok(Some(condition))
}

/// `int | name`
#[tactic(auto, unfolding(sql_phrases::specs::Readings::choose, sql_phrases::specs::Readings::both, sql_phrases::specs::Readings::nothing, sql_phrases::specs::Readers::key_name))]
fn key_name(alloc: Global, tokens: &mut Tokens<'_>) -> Result<KeyRef, Stop>
    ensures { Gives result tokens.new (key_name tokens.old) }
{
    if tokens.begins_number() {
        let number = tokens.number()?;
        return Ok(KeyRef::Number(number as i128));
    }
    let name = tokens.name(alloc)?;
    Ok(KeyRef::Name(name))
}

/// `[ASC | DESC]`, whether it is DESC
#[tactic(auto, unfolding(sql_phrases::specs::Readings::choose, sql_phrases::specs::Readings::mark, sql_phrases::specs::Readings::both, sql_phrases::specs::Readings::nothing, sql_phrases::specs::Readers::descending))]
pub fn descending(tokens: &mut Tokens<'_>) -> Result<bool, Stop>
    ensures { Gives result tokens.new (descending tokens.old) }
{
    if tokens.begins_key(Key::Asc) {
        tokens.key(Key::Asc)?;
        return Ok(false);
    }
    if tokens.begins_key(Key::Desc) {
        tokens.key(Key::Desc)?;
        return Ok(true);
    }
    Ok(false)
}

/// `(int | name) [ASC | DESC]`
struct OrderKey;

impl Spelled for OrderKey {
    ghost use Rattle.sql_phrases.specs.Readers.{order_key};
    ghost use Rattle.sql_phrases.proofs.Goods.{good_shortens};
    ghost use Rattle.sql_phrases.proofs.GoodQueries.{good_order_key};

    type Value = SortKey;

    ghost reads = { order_key };

    ghost shortens = { good_shortens good_order_key };

    #[tactic(auto, unfolding(sql_phrases::specs::Readings::both, sql_phrases::specs::Readings::nothing, sql_phrases::specs::Readers::order_key))]
    fn read(alloc: Global, tokens: &mut Tokens<'_>) -> Result<SortKey, Stop> {
        let key = key_name(alloc, tokens)?;
        match descending(tokens) {
            Ok(descending) => Ok(SortKey { key, descending }),
            Err(stop) => {
                drop(key);
                Err(stop)
            }
        }
    }
}

/// `[ORDER BY key {, key}]`
#[tactic(auto, unfolding(sql_phrases::specs::Readings::choose, sql_phrases::specs::Readings::mark, sql_phrases::specs::Readings::both, sql_phrases::specs::Readings::nothing, sql_phrases::specs::Readers::order_by))]
pub fn order_by(alloc: Global, tokens: &mut Tokens<'_>) -> Result<List<SortKey>, Stop>
    ensures { Gives result tokens.new (order_by tokens.old) }
{
    if !tokens.begins_key(Key::Order) {
        return Ok(List::new(Vec::new(alloc)));
    }
    tokens.key(Key::Order)?;
    tokens.key(Key::By)?;
    listed::<OrderKey>(alloc, tokens)
}

/// `[LIMIT int]`
#[tactic(auto, unfolding(sql_phrases::specs::Readings::choose, sql_phrases::specs::Readings::mark, sql_phrases::specs::Readings::both, sql_phrases::specs::Readings::nothing, sql_phrases::specs::Readers::limit))]
pub fn limit(tokens: &mut Tokens<'_>) -> Result<Option<u128>, Stop>
    ensures { Gives result tokens.new (limit tokens.old) }
{
    if !tokens.begins_key(Key::Limit) {
        return Ok(None);
    }
    tokens.key(Key::Limit)?;
    let number = tokens.number()?;
    Ok(Some(number))
}
