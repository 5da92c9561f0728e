ghost use Rattle.sql_phrases.specs.Gives.{Gives};
ghost use Rattle.sql_words.specs.declared.token.Key.TheVariants.{Default};
ghost use Rattle.sql_phrases.specs.Readings.{both, nothing};
ghost use Rattle.sql_phrases.specs.Readers.{word, literal, alters};
ghost use Rattle.sql_reader.specs.Parts.{adds};

use crate::creations::ColumnForm;
use col_value::{Column, Wide};
use sql_expr::literal;
use sql_phrases::{Spelled, Stop, Tokens};
use sql_tree::{AddColumn, Statement};
use sql_words::Key;
use std::alloc::Global;

/// `DEFAULT literal`
#[tactic(auto, unfolding(sql_phrases::specs::Readings::mark, sql_phrases::specs::Readings::both))]
fn default(alloc: Global, tokens: &mut Tokens<'_>) -> Result<Wide, Stop>
    ensures { Gives result tokens.new (word Default literal tokens.old) }
{
    tokens.key(Key::Default)?;
    literal(alloc, tokens)
}

/// A column that is added to a table, and what each of its rows gets there.
#[derive(Drop)]
pub struct Added {
    column: Column,
    default: Wide,
}

/// `ADD COLUMN column DEFAULT literal`
#[tactic(auto, unfolding(sql_phrases::specs::Readings::mark, sql_phrases::specs::Readings::both, sql_phrases::specs::Readings::nothing, crate::specs::Parts::adds))]
fn adds(alloc: Global, tokens: &mut Tokens<'_>) -> Result<Added, Stop>
    ensures { Gives result tokens.new (adds tokens.old) }
{
    tokens.key(Key::Add)?;
    tokens.key(Key::Column)?;
    let column = ColumnForm::read(alloc, tokens)?;
    match default(alloc, tokens) {
        Ok(default) => Ok(Added { column, default }),
        Err(stop) => {
            drop(column);
            Err(stop)
        }
    }
}

/// `ALTER TABLE name ADD COLUMN column DEFAULT literal`
#[tactic(auto, using(crate::proofs::Sequels::alters_by_parts), unfolding(sql_phrases::specs::Readings::mark, sql_phrases::specs::Readings::both, sql_phrases::specs::Readings::nothing))]
pub fn alters(alloc: Global, tokens: &mut Tokens<'_>) -> Result<Statement, Stop>
    ensures { Gives result tokens.new (alters tokens.old) }
{
    tokens.key(Key::Alter)?;
    tokens.key(Key::Table)?;
    let table = tokens.name(alloc)?;
    match adds(alloc, tokens) {
        Ok(added) => Ok(Statement::AddColumn(AddColumn {
            table,
            column: added.column,
            default: added.default,
        })),
        Err(stop) => {
            drop(table);
            Err(stop)
        }
    }
}
