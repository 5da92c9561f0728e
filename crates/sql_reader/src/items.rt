ghost use Rattle.std.specs.Prelude.{[], ◌∷◌};
ghost use Rattle.sql_words.specs.declared.token.Sign.TheVariants.{Comma};
ghost use Rattle.sql_tree.specs.declared.query.ListMode.TheVariants as modes;
ghost use Rattle.sql_tree.specs.Modes.{after_item};
ghost use Rattle.sql_phrases.specs.Readings.{joined, turns};
ghost use Rattle.sql_phrases.specs.Classes.{is_sign};
ghost use Rattle.sql_phrases.specs.Gives.{Gives};
ghost use Rattle.sql_phrases.specs.Readers.{ranked, tally_item, plain_item, item_tree, select_item, next_item, items, select_list};

use crate::clauses::alias;
use crate::windows::{ranked_window, tally_window, windows};
use col_value::List;
use sql_expr::{expr, grouped_expr, item_tally, tally_expr};
use sql_phrases::{Stop, Tokens};
use sql_tree::{Item, ItemTree, Items, ListMode};
use sql_words::{Key, Sign};
use std::alloc::Global;

/// A window that begins with ROW_NUMBER or RANK.
#[tactic(auto, unfolding(sql_phrases::specs::Readings::both, sql_phrases::specs::Readings::nothing, sql_phrases::specs::Readers::ranked))]
fn ranked(alloc: Global, tokens: &mut Tokens<'_>) -> Result<ItemTree, Stop>
    ensures { Gives result tokens.new (ranked tokens.old) }
{
    let window = ranked_window(alloc, tokens)?;
    Ok(ItemTree::Window(window))
}

/// What begins with COUNT or SUM: a window where OVER stands behind that, else an expression.
#[tactic(auto, unfolding(sql_phrases::specs::Readings::choose, sql_phrases::specs::Readings::both, sql_phrases::specs::Readers::tally_item))]
fn tally_item(alloc: Global, tokens: &mut Tokens<'_>) -> Result<ItemTree, Stop>
    ensures { Gives result tokens.new (tally_item tokens.old) }
{
    let tally = item_tally(alloc, tokens)?;
    if tokens.begins_key(Key::Over) {
        return tally_window(alloc, tokens, tally);
    }
    tally_expr(alloc, tokens, tally)
}

/// `gexpr`
#[tactic(auto, unfolding(sql_phrases::specs::Readings::both, sql_phrases::specs::Readings::nothing, sql_phrases::specs::Readers::plain_item))]
fn plain_item(alloc: Global, tokens: &mut Tokens<'_>) -> Result<ItemTree, Stop>
    ensures { Gives result tokens.new (plain_item tokens.old) }
{
    let tree = grouped_expr(alloc, tokens)?;
    Ok(ItemTree::Plain(tree))
}

/// `gexpr | window`
#[tactic(auto, unfolding(sql_phrases::specs::Readings::choose, sql_phrases::specs::Readers::item_tree))]
fn free_item(alloc: Global, tokens: &mut Tokens<'_>) -> Result<ItemTree, Stop>
    ensures { Gives result tokens.new (item_tree modes.Free tokens.old) }
{
    if tokens.begins_ranking() {
        return ranked(alloc, tokens);
    }
    if tokens.begins_tally() {
        return tally_item(alloc, tokens);
    }
    plain_item(alloc, tokens)
}

/// `expr | window`
#[tactic(auto, unfolding(sql_phrases::specs::Readings::choose, sql_phrases::specs::Readings::both, sql_phrases::specs::Readings::nothing, sql_phrases::specs::Readers::item_tree))]
fn windowed_item(alloc: Global, tokens: &mut Tokens<'_>) -> Result<ItemTree, Stop>
    ensures { Gives result tokens.new (item_tree modes.Windowed tokens.old) }
{
    if tokens.begins_window() {
        let window = windows(alloc, tokens)?;
        return Ok(ItemTree::Window(window));
    }
    let tree = expr(alloc, tokens)?;
    Ok(ItemTree::Plain(tree))
}

/// What an item is, in a mode of its list.
#[tactic(auto, unfolding(sql_phrases::specs::Readers::item_tree))]
fn item_tree(alloc: Global, tokens: &mut Tokens<'_>, mode: ListMode) -> Result<ItemTree, Stop>
    ensures { Gives result tokens.new (item_tree mode tokens.old) }
{
    match mode {
        ListMode::Free => free_item(alloc, tokens),
        ListMode::Grouped => plain_item(alloc, tokens),
        ListMode::Windowed => windowed_item(alloc, tokens),
    }
}

/// `(gexpr | window) [AS name]`
#[tactic(auto, unfolding(sql_phrases::specs::Readings::both, sql_phrases::specs::Readings::nothing, sql_phrases::specs::Readers::select_item))]
fn select_item(alloc: Global, tokens: &mut Tokens<'_>, mode: ListMode) -> Result<Item, Stop>
    ensures { Gives result tokens.new (select_item mode tokens.old) }
{
    let tree = item_tree(alloc, tokens, mode)?;
    match alias(alloc, tokens) {
        Ok(alias) => Ok(Item { tree, alias }),
        Err(stop) => {
            drop(tree);
            Err(stop)
        }
    }
}

/// `, item`
#[tactic(auto, unfolding(sql_phrases::specs::Readings::mark, sql_phrases::specs::Readings::both))]
fn next_item(alloc: Global, tokens: &mut Tokens<'_>, mode: ListMode) -> Result<Item, Stop>
    ensures { Gives result tokens.new (next_item mode tokens.old) }
{
    tokens.sign(Sign::Comma)?;
    select_item(alloc, tokens, mode)
}

/// What stands behind the first item.
fn more_items(alloc: Global, tokens: &mut Tokens<'_>, first: Item) -> Result<List<Item>, Stop>
    ensures { Gives result tokens.new (joined (first ∷ []) (turns (is_sign Comma) next_item after_item (after_item modes.Free first) tokens.old)) }
{
    let mut mode = ListMode::Free.after(&first);
    let mut found = Vec::new(alloc);
    found.push(first)?;
    while tokens.begins_sign(Sign::Comma) {
        let item = match next_item(alloc, tokens, mode) {
            Ok(item) => item,
            Err(stop) => return Err(stop),
        };
        mode = mode.after(&item);
        found.push(item)?;
    }
    Ok(List::new(found))
}

/// `item {, item}`
#[tactic(auto, unfolding(sql_phrases::specs::Readings::both, sql_phrases::specs::Readings::nothing, sql_phrases::specs::Readers::items))]
fn items(alloc: Global, tokens: &mut Tokens<'_>) -> Result<List<Item>, Stop>
    ensures { Gives result tokens.new (items tokens.old) }
{
    let first = select_item(alloc, tokens, ListMode::Free)?;
    more_items(alloc, tokens, first)
}

/// `* | item {, item}`
#[tactic(auto, unfolding(sql_phrases::specs::Readings::choose, sql_phrases::specs::Readings::mark, sql_phrases::specs::Readings::both, sql_phrases::specs::Readings::nothing, sql_phrases::specs::Readers::select_list))]
pub fn select_list(alloc: Global, tokens: &mut Tokens<'_>) -> Result<Items, Stop>
    ensures { Gives result tokens.new (select_list tokens.old) }
{
    if tokens.begins_sign(Sign::Star) {
        tokens.sign(Sign::Star)?;
        return Ok(Items::Star);
    }
    let items = items(alloc, tokens)?;
    Ok(Items::Listed(items))
}
