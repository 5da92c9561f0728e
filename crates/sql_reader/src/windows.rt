ghost use Rattle.sql_phrases.specs.Gives.{Gives};
ghost use Rattle.sql_phrases.specs.Readings.{both};
ghost use Rattle.sql_phrases.specs.Readers.{row_key, partition_by, row_order, parts_of, over_rows, bare_window, ranking, windows, tally_window};

use crate::clauses::{Reference, descending};
use crate::parentheses::closed;
use col_value::List;
use sql_expr::{item_tally, reference};
use sql_phrases::{Spelled, Stop, Tokens, listed};
use sql_tree::{ColRef, ItemTree, Tally, Window, WindowKey, WindowKind};
use sql_words::{Key, Sign};
use std::alloc::Global;

/// `colref [ASC | DESC]`
struct RowKey;

impl Spelled for RowKey {
    ghost use Rattle.sql_phrases.specs.Readers.{row_key};
    ghost use Rattle.sql_phrases.proofs.Goods.{good_shortens};
    ghost use Rattle.sql_phrases.proofs.GoodQueries.{good_row_key};

    type Value = WindowKey;

    ghost reads = { row_key };

    ghost shortens = { good_shortens good_row_key };

    #[tactic(auto, unfolding(sql_phrases::specs::Readings::both, sql_phrases::specs::Readings::nothing, sql_phrases::specs::Readers::row_key))]
    fn read(alloc: Global, tokens: &mut Tokens<'_>) -> Result<WindowKey, Stop> {
        let column = reference(alloc, tokens)?;
        match descending(tokens) {
            Ok(descending) => Ok(WindowKey { column, descending }),
            Err(stop) => {
                drop(column);
                Err(stop)
            }
        }
    }
}

/// `[PARTITION BY colref {, colref}]`
#[tactic(auto, unfolding(sql_phrases::specs::Readings::choose, sql_phrases::specs::Readings::mark, sql_phrases::specs::Readings::both, sql_phrases::specs::Readings::nothing, sql_phrases::specs::Readers::partition_by))]
fn partition_by(alloc: Global, tokens: &mut Tokens<'_>) -> Result<List<ColRef>, Stop>
    ensures { Gives result tokens.new (partition_by tokens.old) }
{
    if !tokens.begins_key(Key::Partition) {
        return Ok(List::new(Vec::new(alloc)));
    }
    tokens.key(Key::Partition)?;
    tokens.key(Key::By)?;
    listed::<Reference>(alloc, tokens)
}

/// `[ORDER BY colref [ASC | DESC] {, colref [ASC | DESC]}]`
#[tactic(auto, unfolding(sql_phrases::specs::Readings::choose, sql_phrases::specs::Readings::mark, sql_phrases::specs::Readings::both, sql_phrases::specs::Readings::nothing, sql_phrases::specs::Readers::row_order))]
fn row_order(alloc: Global, tokens: &mut Tokens<'_>) -> Result<List<WindowKey>, Stop>
    ensures { Gives result tokens.new (row_order tokens.old) }
{
    if !tokens.begins_key(Key::Order) {
        return Ok(List::new(Vec::new(alloc)));
    }
    tokens.key(Key::Order)?;
    tokens.key(Key::By)?;
    listed::<RowKey>(alloc, tokens)
}

/// `[PARTITION BY ..] [ORDER BY ..]`, of a window function over all rows
#[tactic(auto, unfolding(sql_phrases::specs::Readings::both, sql_phrases::specs::Readings::nothing, sql_phrases::specs::Readers::parts_of))]
fn parts_of(alloc: Global, tokens: &mut Tokens<'_>, window: Window) -> Result<Window, Stop>
    ensures { Gives result tokens.new (parts_of window tokens.old) }
{
    let partition = match partition_by(alloc, tokens) {
        Ok(partition) => partition,
        Err(stop) => {
            drop(window);
            return Err(stop);
        }
    };
    match row_order(alloc, tokens) {
        Ok(order) => Ok(window.over_parts(partition, order)),
        Err(stop) => {
            drop(window);
            drop(partition);
            Err(stop)
        }
    }
}

/// `OVER ( .. )`, behind its function
#[tactic(auto, unfolding(sql_phrases::specs::Readings::mark, sql_phrases::specs::Readings::both, sql_phrases::specs::Readings::nothing, sql_phrases::specs::Readers::inside, sql_phrases::specs::Readers::over_rows))]
fn over_rows(alloc: Global, tokens: &mut Tokens<'_>, window: Window) -> Result<Window, Stop>
    ensures { Gives result tokens.new (over_rows window tokens.old) }
{
    if let Err(stop) = tokens.key(Key::Over) {
        drop(window);
        return Err(stop);
    }
    if let Err(stop) = tokens.sign(Sign::Open) {
        drop(window);
        return Err(stop);
    }
    let window = parts_of(alloc, tokens, window)?;
    closed(tokens, window)
}

/// The name of a function without an argument, and `( )`
#[tactic(auto, unfolding(sql_phrases::specs::Readings::mark, sql_phrases::specs::Readings::both, sql_phrases::specs::Readings::nothing, sql_phrases::specs::Readers::bare_window))]
fn bare_window(
    alloc: Global,
    tokens: &mut Tokens<'_>,
    key: Key,
    kind: WindowKind,
) -> Result<Window, Stop>
    ensures { Gives result tokens.new (bare_window key kind tokens.old) }
{
    tokens.key(key)?;
    tokens.sign(Sign::Open)?;
    tokens.sign(Sign::Close)?;
    Ok(Window::over_all(alloc, kind, None))
}

/// `ROW_NUMBER ( ) | RANK ( )`
#[tactic(auto, unfolding(sql_phrases::specs::Readings::choose, sql_phrases::specs::Readers::ranking))]
fn ranking(alloc: Global, tokens: &mut Tokens<'_>) -> Result<Window, Stop>
    ensures { Gives result tokens.new (ranking tokens.old) }
{
    if tokens.begins_key(Key::RowNumber) {
        return bare_window(alloc, tokens, Key::RowNumber, WindowKind::RowNumber);
    }
    bare_window(alloc, tokens, Key::Rank, WindowKind::Rank)
}

/// `(ROW_NUMBER ( ) | RANK ( )) OVER ( .. )`
#[tactic(auto, unfolding(sql_phrases::specs::Readings::both))]
pub fn ranked_window(alloc: Global, tokens: &mut Tokens<'_>) -> Result<Window, Stop>
    ensures { Gives result tokens.new (both ranking over_rows tokens.old) }
{
    let window = ranking(alloc, tokens)?;
    over_rows(alloc, tokens, window)
}

/// `OVER ( .. )`, behind its COUNT or SUM
#[tactic(auto, unfolding(sql_phrases::specs::Readings::both, sql_phrases::specs::Readings::nothing, sql_phrases::specs::Readers::tally_window))]
pub fn tally_window(alloc: Global, tokens: &mut Tokens<'_>, tally: Tally) -> Result<ItemTree, Stop>
    ensures { Gives result tokens.new (tally_window tally tokens.old) }
{
    let window = over_rows(alloc, tokens, tally.window(alloc))?;
    Ok(ItemTree::Window(window))
}

/// `(ROW_NUMBER ( ) | RANK ( ) | COUNT ( * ) | (COUNT | SUM) ( expr )) OVER ( .. )`
#[tactic(auto, unfolding(sql_phrases::specs::Readings::choose, sql_phrases::specs::Readings::both, sql_phrases::specs::Readers::windows))]
pub fn windows(alloc: Global, tokens: &mut Tokens<'_>) -> Result<Window, Stop>
    ensures { Gives result tokens.new (windows tokens.old) }
{
    if tokens.begins_ranking() {
        return ranked_window(alloc, tokens);
    }
    let tally = item_tally(alloc, tokens)?;
    over_rows(alloc, tokens, tally.window(alloc))
}
