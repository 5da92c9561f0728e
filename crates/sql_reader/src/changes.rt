ghost use Rattle.sql_phrases.specs.Gives.{Gives};
ghost use Rattle.sql_phrases.specs.Readers.{literal, tuple, inserts, deletes, sets, updates, copies};

use crate::clauses::where_clause;
use crate::parentheses::inside;
use col_value::{Wide, WideRow};
use sql_expr::{expr, literal};
use sql_phrases::{Spelled, Stop, Tokens, listed};
use sql_tree::{Delete, Insert, Setting, Statement, Update};
use sql_words::{Key, Sign};
use std::alloc::Global;

/// `[-] int | text | DATE text | TRUE | FALSE | NULL`
struct Literal;

impl Spelled for Literal {
    ghost use Rattle.sql_phrases.specs.Readers.{literal};
    ghost use Rattle.sql_phrases.proofs.Goods.{good_shortens};
    ghost use Rattle.sql_phrases.proofs.GoodExpressions.{good_literal};

    type Value = Wide;

    ghost reads = { literal };

    ghost shortens = { good_shortens good_literal };

    fn read(alloc: Global, tokens: &mut Tokens<'_>) -> Result<Wide, Stop> {
        literal(alloc, tokens)
    }
}

/// `( literal {, literal} )`
struct Tuple;

impl Spelled for Tuple {
    ghost use Rattle.sql_phrases.specs.Readers.{tuple};
    ghost use Rattle.sql_phrases.proofs.Goods.{good_shortens};
    ghost use Rattle.sql_phrases.proofs.GoodStatements.{good_tuple};

    type Value = WideRow;

    ghost reads = { tuple };

    ghost shortens = { good_shortens good_tuple };

    #[tactic(auto, unfolding(sql_phrases::specs::Readers::tuple))]
    fn read(alloc: Global, tokens: &mut Tokens<'_>) -> Result<WideRow, Stop> {
        inside::<Literal>(alloc, tokens)
    }
}

/// `INSERT INTO name VALUES tuple {, tuple}`
#[tactic(auto, unfolding(sql_phrases::specs::Readings::mark, sql_phrases::specs::Readings::both, sql_phrases::specs::Readings::nothing, sql_phrases::specs::Readers::inserts))]
pub fn inserts(alloc: Global, tokens: &mut Tokens<'_>) -> Result<Statement, Stop>
    ensures { Gives result tokens.new (inserts tokens.old) }
{
    tokens.key(Key::Insert)?;
    tokens.key(Key::Into)?;
    let table = tokens.name(alloc)?;
    if let Err(stop) = tokens.key(Key::Values) {
        drop(table);
        return Err(stop);
    }
    match listed::<Tuple>(alloc, tokens) {
        Ok(rows) => Ok(Statement::Insert(Insert { table, rows })),
        Err(stop) => {
            drop(table);
            Err(stop)
        }
    }
}

/// `DELETE FROM name [WHERE expr]`
#[tactic(auto, unfolding(sql_phrases::specs::Readings::mark, sql_phrases::specs::Readings::both, sql_phrases::specs::Readings::nothing, sql_phrases::specs::Readers::deletes))]
pub fn deletes(alloc: Global, tokens: &mut Tokens<'_>) -> Result<Statement, Stop>
    ensures { Gives result tokens.new (deletes tokens.old) }
{
    tokens.key(Key::Delete)?;
    tokens.key(Key::From)?;
    let table = tokens.name(alloc)?;
    match where_clause(alloc, tokens) {
        Ok(keep) => Ok(Statement::Delete(Delete { table, keep })),
        Err(stop) => {
            drop(table);
            Err(stop)
        }
    }
}

/// `name = expr`
struct Assignment;

impl Spelled for Assignment {
    ghost use Rattle.sql_phrases.specs.Readers.{sets};
    ghost use Rattle.sql_phrases.proofs.Goods.{good_shortens};
    ghost use Rattle.sql_phrases.proofs.GoodStatements.{good_sets};

    type Value = Setting;

    ghost reads = { sets };

    ghost shortens = { good_shortens good_sets };

    #[tactic(auto, unfolding(sql_phrases::specs::Readings::mark, sql_phrases::specs::Readings::both, sql_phrases::specs::Readings::nothing, sql_phrases::specs::Readers::sets))]
    fn read(alloc: Global, tokens: &mut Tokens<'_>) -> Result<Setting, Stop> {
        let column = tokens.name(alloc)?;
        if let Err(stop) = tokens.sign(Sign::Equal) {
            drop(column);
            return Err(stop);
        }
        match expr(alloc, tokens) {
            Ok(tree) => Ok(Setting { column, tree }),
            Err(stop) => {
                drop(column);
                Err(stop)
            }
        }
    }
}

/// `UPDATE name SET name = expr {, name = expr} [WHERE expr]`
#[tactic(auto, unfolding(sql_phrases::specs::Readings::mark, sql_phrases::specs::Readings::both, sql_phrases::specs::Readings::nothing, sql_phrases::specs::Readers::updates))]
pub fn updates(alloc: Global, tokens: &mut Tokens<'_>) -> Result<Statement, Stop>
    ensures { Gives result tokens.new (updates tokens.old) }
{
    tokens.key(Key::Update)?;
    let table = tokens.name(alloc)?;
    if let Err(stop) = tokens.key(Key::Set) {
        drop(table);
        return Err(stop);
    }
    let settings = match listed::<Assignment>(alloc, tokens) {
        Ok(settings) => settings,
        Err(stop) => {
            drop(table);
            return Err(stop);
        }
    };
    match where_clause(alloc, tokens) {
        Ok(keep) => Ok(Statement::Update(Update {
            table,
            settings,
            keep,
        })),
        Err(stop) => {
            drop(table);
            drop(settings);
            Err(stop)
        }
    }
}

/// `COPY name FROM text`
#[tactic(auto, unfolding(sql_phrases::specs::Readings::mark, sql_phrases::specs::Readings::both, sql_phrases::specs::Readings::nothing, sql_phrases::specs::Readers::copies))]
pub fn copies(alloc: Global, tokens: &mut Tokens<'_>) -> Result<Statement, Stop>
    ensures { Gives result tokens.new (copies tokens.old) }
{
    tokens.key(Key::Copy)?;
    let table = tokens.name(alloc)?;
    if let Err(stop) = tokens.key(Key::From) {
        drop(table);
        return Err(stop);
    }
    match tokens.text(alloc) {
        Ok(path) => Ok(Statement::Copy(table, path)),
        Err(stop) => {
            drop(table);
            Err(stop)
        }
    }
}
