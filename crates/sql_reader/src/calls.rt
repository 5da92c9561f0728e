ghost use Rattle.sql_phrases.specs.Gives.{Gives};
ghost use Rattle.sql_phrases.specs.Readers.{bare, sets_ahm, tasks, purges, refreshes, calls};

use crate::parentheses::closed;
use sql_phrases::{Stop, Tokens};
use sql_tree::Function;
use sql_words::{Key, Sign};
use std::alloc::Global;

/// The name of a function, then `( )`.
#[tactic(auto, unfolding(sql_phrases::specs::Readings::mark, sql_phrases::specs::Readings::both, sql_phrases::specs::Readings::nothing, sql_phrases::specs::Readers::bare))]
fn bare(tokens: &mut Tokens<'_>, key: Key, function: Function) -> Result<Function, Stop>
    ensures { Gives result tokens.new (bare key function tokens.old) }
{
    if let Err(stop) = tokens.key(key) {
        drop(function);
        return Err(stop);
    }
    if let Err(stop) = tokens.sign(Sign::Open) {
        drop(function);
        return Err(stop);
    }
    closed(tokens, function)
}

/// `SET_AHM_EPOCH ( int )`
#[tactic(auto, unfolding(sql_phrases::specs::Readings::mark, sql_phrases::specs::Readings::both, sql_phrases::specs::Readings::nothing, sql_phrases::specs::Readers::inside, sql_phrases::specs::Readers::sets_ahm))]
fn sets_ahm(tokens: &mut Tokens<'_>) -> Result<Function, Stop>
    ensures { Gives result tokens.new (sets_ahm tokens.old) }
{
    tokens.key(Key::SetAhmEpoch)?;
    tokens.sign(Sign::Open)?;
    let epoch = tokens.number()?;
    tokens.sign(Sign::Close)?;
    Ok(Function::SetAhm(epoch))
}

/// `DO_TM_TASK ( text )`
#[tactic(auto, unfolding(sql_phrases::specs::Readings::mark, sql_phrases::specs::Readings::both, sql_phrases::specs::Readings::nothing, sql_phrases::specs::Readers::inside, sql_phrases::specs::Readers::tasks))]
fn tasks(alloc: Global, tokens: &mut Tokens<'_>) -> Result<Function, Stop>
    ensures { Gives result tokens.new (tasks tokens.old) }
{
    tokens.key(Key::DoTmTask)?;
    tokens.sign(Sign::Open)?;
    let task = tokens.task(alloc)?;
    closed(tokens, task)
}

/// `PURGE_TABLE ( text )`
#[tactic(auto, unfolding(sql_phrases::specs::Readings::mark, sql_phrases::specs::Readings::both, sql_phrases::specs::Readings::nothing, sql_phrases::specs::Readers::inside, sql_phrases::specs::Readers::purges))]
fn purges(alloc: Global, tokens: &mut Tokens<'_>) -> Result<Function, Stop>
    ensures { Gives result tokens.new (purges tokens.old) }
{
    tokens.key(Key::PurgeTable)?;
    tokens.sign(Sign::Open)?;
    let named = tokens.table(alloc)?;
    let table = closed(tokens, named)?;
    Ok(Function::Purge(table))
}

/// `REFRESH ( text )`
#[tactic(auto, unfolding(sql_phrases::specs::Readings::mark, sql_phrases::specs::Readings::both, sql_phrases::specs::Readings::nothing, sql_phrases::specs::Readers::inside, sql_phrases::specs::Readers::refreshes))]
fn refreshes(alloc: Global, tokens: &mut Tokens<'_>) -> Result<Function, Stop>
    ensures { Gives result tokens.new (refreshes tokens.old) }
{
    tokens.key(Key::Refresh)?;
    tokens.sign(Sign::Open)?;
    let named = tokens.table(alloc)?;
    let table = closed(tokens, named)?;
    Ok(Function::Refresh(table))
}

/// The call of a function.
#[tactic(auto, unfolding(sql_phrases::specs::Readings::choose, sql_phrases::specs::Readers::calls))]
pub fn calls(alloc: Global, tokens: &mut Tokens<'_>) -> Result<Function, Stop>
    ensures { Gives result tokens.new (calls tokens.old) }
{
    if tokens.begins_key(Key::GetLastGoodEpoch) {
        return bare(tokens, Key::GetLastGoodEpoch, Function::Lge);
    }
    if tokens.begins_key(Key::GetAhmEpoch) {
        return bare(tokens, Key::GetAhmEpoch, Function::Ahm);
    }
    if tokens.begins_key(Key::GetCurrentEpoch) {
        return bare(tokens, Key::GetCurrentEpoch, Function::Current);
    }
    if tokens.begins_key(Key::MakeAhmNow) {
        return bare(tokens, Key::MakeAhmNow, Function::MakeAhmNow);
    }
    if tokens.begins_key(Key::StartRefresh) {
        return bare(tokens, Key::StartRefresh, Function::StartRefresh);
    }
    if tokens.begins_key(Key::SetAhmEpoch) {
        return sets_ahm(tokens);
    }
    if tokens.begins_key(Key::DoTmTask) {
        return tasks(alloc, tokens);
    }
    if tokens.begins_key(Key::PurgeTable) {
        return purges(alloc, tokens);
    }
    refreshes(alloc, tokens)
}
