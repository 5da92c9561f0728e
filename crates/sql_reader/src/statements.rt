ghost use Rattle.sql_phrases.specs.Gives.{Gives};
ghost use Rattle.sql_phrases.specs.Readers.{sessions, controls, reads};

use crate::alterations::alters;
use crate::changes::{copies, deletes, inserts, updates};
use crate::creations::{creates, drops};
use crate::queries::{explains, selects, selects_at};
use sql_phrases::{Stop, Tokens};
use sql_tree::Statement;
use sql_words::{Back, Key};
use std::alloc::Global;

/// `\session int`
#[tactic(auto, unfolding(sql_phrases::specs::Readings::mark, sql_phrases::specs::Readings::both, sql_phrases::specs::Readings::nothing, sql_phrases::specs::Readers::sessions))]
fn sessions(tokens: &mut Tokens<'_>) -> Result<Statement, Stop>
    ensures { Gives result tokens.new (sessions tokens.old) }
{
    tokens.command(Back::Session)?;
    let number = tokens.session()?;
    Ok(Statement::Session(number))
}

/// `COMMIT | ROLLBACK | \session int | \step`
#[tactic(auto, unfolding(sql_phrases::specs::Readings::choose, sql_phrases::specs::Readings::mark, sql_phrases::specs::Readings::both, sql_phrases::specs::Readings::nothing, sql_phrases::specs::Readers::controls))]
fn controls(tokens: &mut Tokens<'_>) -> Result<Statement, Stop>
    ensures { Gives result tokens.new (controls tokens.old) }
{
    if tokens.begins_key(Key::Commit) {
        tokens.key(Key::Commit)?;
        return Ok(Statement::Commit);
    }
    if tokens.begins_key(Key::Rollback) {
        tokens.key(Key::Rollback)?;
        return Ok(Statement::Rollback);
    }
    if tokens.begins_back(Back::Session) {
        return sessions(tokens);
    }
    tokens.command(Back::Step)?;
    Ok(Statement::Step)
}

/// A statement.
#[tactic(auto, unfolding(sql_phrases::specs::Readings::choose, sql_phrases::specs::Readers::reads))]
pub fn statement(alloc: Global, tokens: &mut Tokens<'_>) -> Result<Statement, Stop>
    ensures { Gives result tokens.new (reads tokens.old) }
{
    if tokens.begins_key(Key::Create) {
        return creates(alloc, tokens);
    }
    if tokens.begins_key(Key::Alter) {
        return alters(alloc, tokens);
    }
    if tokens.begins_key(Key::Drop) {
        return drops(alloc, tokens);
    }
    if tokens.begins_key(Key::Insert) {
        return inserts(alloc, tokens);
    }
    if tokens.begins_key(Key::Delete) {
        return deletes(alloc, tokens);
    }
    if tokens.begins_key(Key::Update) {
        return updates(alloc, tokens);
    }
    if tokens.begins_key(Key::Copy) {
        return copies(alloc, tokens);
    }
    if tokens.begins_key(Key::Select) {
        return selects(alloc, tokens);
    }
    if tokens.begins_key(Key::At) {
        return selects_at(alloc, tokens);
    }
    if tokens.begins_key(Key::Explain) {
        return explains(alloc, tokens);
    }
    controls(tokens)
}
