ghost use Rattle.sql_phrases.specs.Gives.{Gives};
ghost use Rattle.sql_words.specs.declared.token.Key.TheVariants.{Varchar};
ghost use Rattle.col_value.specs.declared.kinds.ColType.TheVariants as kinds;
ghost use Rattle.sql_tree.specs.Symbols.{width_of};
ghost use Rattle.sql_phrases.specs.Readings.{one, both, nothing};
ghost use Rattle.sql_phrases.specs.Readers.{word, inside, kind, not_null, new_column, creates_table, encoding_name, encoded, new_part, sorted_by, creates_projection, creates, drops};
ghost use Rattle.sql_reader.specs.Parts.{projects};

use crate::parentheses::inside;
use col_value::{ColType, Column, Encoding, List, Name};
use sql_phrases::{Spelled, Stop, Tokens, listed};
use sql_tree::{NewPart, NewProjection, Statement};
use sql_words::{Key, Sign};
use std::alloc::Global;

/// `VARCHAR ( int )`
#[tactic(auto, unfolding(sql_phrases::specs::Readings::mark, sql_phrases::specs::Readings::both, sql_phrases::specs::Readings::nothing, sql_phrases::specs::Readers::inside))]
fn varchar(tokens: &mut Tokens<'_>) -> Result<ColType, Stop>
    ensures { Gives result tokens.new (word Varchar (both (inside (one width_of)) (λ n. nothing (kinds.Varchar n))) tokens.old) }
{
    tokens.key(Key::Varchar)?;
    tokens.sign(Sign::Open)?;
    let width = tokens.width()?;
    tokens.sign(Sign::Close)?;
    Ok(ColType::Varchar(width))
}

/// `INTEGER | INT | BIGINT | BOOLEAN | VARCHAR ( int ) | DATE`
#[tactic(auto, unfolding(sql_phrases::specs::Readings::choose, sql_phrases::specs::Readings::mark, sql_phrases::specs::Readings::both, sql_phrases::specs::Readings::nothing, sql_phrases::specs::Readers::kind))]
fn kind(tokens: &mut Tokens<'_>) -> Result<ColType, Stop>
    ensures { Gives result tokens.new (kind tokens.old) }
{
    if tokens.begins_key(Key::Integer) {
        tokens.key(Key::Integer)?;
        return Ok(ColType::Integer);
    }
    if tokens.begins_key(Key::Int) {
        tokens.key(Key::Int)?;
        return Ok(ColType::Integer);
    }
    if tokens.begins_key(Key::Bigint) {
        tokens.key(Key::Bigint)?;
        return Ok(ColType::Integer);
    }
    if tokens.begins_key(Key::Boolean) {
        tokens.key(Key::Boolean)?;
        return Ok(ColType::Boolean);
    }
    if tokens.begins_key(Key::Varchar) {
        return varchar(tokens);
    }
    tokens.key(Key::Date)?;
    Ok(ColType::Date)
}

/// `[NOT NULL]`
#[tactic(auto, unfolding(sql_phrases::specs::Readings::choose, sql_phrases::specs::Readings::mark, sql_phrases::specs::Readings::both, sql_phrases::specs::Readings::nothing, sql_phrases::specs::Readers::not_null))]
fn not_null(tokens: &mut Tokens<'_>) -> Result<bool, Stop>
    ensures { Gives result tokens.new (not_null tokens.old) }
{
    if !tokens.begins_key(Key::Not) {
        return Ok(false);
    }
    tokens.key(Key::Not)?;
    tokens.key(Key::Null)?;
    Ok(true)
}

/// `name type [NOT NULL]`
pub struct ColumnForm;

impl Spelled for ColumnForm {
    ghost use Rattle.sql_phrases.specs.Readers.{new_column};
    ghost use Rattle.sql_phrases.proofs.Goods.{good_shortens};
    ghost use Rattle.sql_phrases.proofs.GoodStatements.{good_new_column};

    type Value = Column;

    ghost reads = { new_column };

    ghost shortens = { good_shortens good_new_column };

    #[tactic(auto, unfolding(sql_phrases::specs::Readings::both, sql_phrases::specs::Readings::nothing, sql_phrases::specs::Readers::new_column))]
    fn read(alloc: Global, tokens: &mut Tokens<'_>) -> Result<Column, Stop> {
        let name = tokens.name(alloc)?;
        let kind = match kind(tokens) {
            Ok(kind) => kind,
            Err(stop) => {
                drop(name);
                return Err(stop);
            }
        };
        match not_null(tokens) {
            Ok(not_null) => Ok(Column {
                name,
                kind,
                not_null,
            }),
            Err(stop) => {
                drop(name);
                Err(stop)
            }
        }
    }
}

/// `TABLE name ( column {, column} )`
#[tactic(auto, unfolding(sql_phrases::specs::Readings::mark, sql_phrases::specs::Readings::both, sql_phrases::specs::Readings::nothing, sql_phrases::specs::Readers::creates_table))]
fn creates_table(alloc: Global, tokens: &mut Tokens<'_>) -> Result<Statement, Stop>
    ensures { Gives result tokens.new (creates_table tokens.old) }
{
    tokens.key(Key::Table)?;
    let table = tokens.name(alloc)?;
    match inside::<ColumnForm>(alloc, tokens) {
        Ok(columns) => Ok(Statement::CreateTable(table, columns)),
        Err(stop) => {
            drop(table);
            Err(stop)
        }
    }
}

/// `AUTO | RLE | DELTAVAL | BLOCK_DICT | PLAIN`
#[tactic(auto, unfolding(sql_phrases::specs::Readings::choose, sql_phrases::specs::Readings::mark, sql_phrases::specs::Readings::both, sql_phrases::specs::Readings::nothing, sql_phrases::specs::Readers::encoding_name))]
fn encoding_name(tokens: &mut Tokens<'_>) -> Result<Encoding, Stop>
    ensures { Gives result tokens.new (encoding_name tokens.old) }
{
    if tokens.begins_key(Key::Auto) {
        tokens.key(Key::Auto)?;
        return Ok(Encoding::Auto);
    }
    if tokens.begins_key(Key::Rle) {
        tokens.key(Key::Rle)?;
        return Ok(Encoding::Rle);
    }
    if tokens.begins_key(Key::Deltaval) {
        tokens.key(Key::Deltaval)?;
        return Ok(Encoding::DeltaVal);
    }
    if tokens.begins_key(Key::BlockDict) {
        tokens.key(Key::BlockDict)?;
        return Ok(Encoding::BlockDict);
    }
    tokens.key(Key::Plain)?;
    Ok(Encoding::Plain)
}

/// `[ENCODING (AUTO | RLE | DELTAVAL | BLOCK_DICT | PLAIN)]`
#[tactic(auto, unfolding(sql_phrases::specs::Readings::choose, sql_phrases::specs::Readings::mark, sql_phrases::specs::Readings::both, sql_phrases::specs::Readings::nothing, sql_phrases::specs::Readers::encoded))]
fn encoded(tokens: &mut Tokens<'_>) -> Result<Encoding, Stop>
    ensures { Gives result tokens.new (encoded tokens.old) }
{
    if !tokens.begins_key(Key::Encoding) {
        return Ok(Encoding::Auto);
    }
    tokens.key(Key::Encoding)?;
    encoding_name(tokens)
}

/// `name [ENCODING encoding]`
struct Part;

impl Spelled for Part {
    ghost use Rattle.sql_phrases.specs.Readers.{new_part};
    ghost use Rattle.sql_phrases.proofs.Goods.{good_shortens};
    ghost use Rattle.sql_phrases.proofs.GoodStatements.{good_new_part};

    type Value = NewPart;

    ghost reads = { new_part };

    ghost shortens = { good_shortens good_new_part };

    #[tactic(auto, unfolding(sql_phrases::specs::Readings::both, sql_phrases::specs::Readings::nothing, sql_phrases::specs::Readers::new_part))]
    fn read(alloc: Global, tokens: &mut Tokens<'_>) -> Result<NewPart, Stop> {
        let name = tokens.name(alloc)?;
        match encoded(tokens) {
            Ok(encoding) => Ok(NewPart { name, encoding }),
            Err(stop) => {
                drop(name);
                Err(stop)
            }
        }
    }
}

/// A name alone.
struct Bare;

impl Spelled for Bare {
    ghost use Rattle.sql_tree.specs.Symbols.{name_of};
    ghost use Rattle.sql_phrases.specs.Readings.{one};
    ghost use Rattle.sql_phrases.proofs.Goods.{good_shortens};
    ghost use Rattle.sql_phrases.proofs.Picks.{good_name};

    type Value = Name;

    ghost reads = { one name_of };

    ghost shortens = { good_shortens good_name };

    fn read(alloc: Global, tokens: &mut Tokens<'_>) -> Result<Name, Stop> {
        tokens.name(alloc)
    }
}

/// `[ORDER BY name {, name}]`
#[tactic(auto, unfolding(sql_phrases::specs::Readings::choose, sql_phrases::specs::Readings::mark, sql_phrases::specs::Readings::both, sql_phrases::specs::Readings::nothing, sql_phrases::specs::Readers::sorted_by))]
fn sorted_by(alloc: Global, tokens: &mut Tokens<'_>) -> Result<Option<List<Name>>, Stop>
    ensures { Gives result tokens.new (sorted_by tokens.old) }
{
    if !tokens.begins_key(Key::Order) {
        return Ok(None);
    }
    tokens.key(Key::Order)?;
    tokens.key(Key::By)?;
    let names = listed::<Bare>(alloc, tokens)?;
    Ok(Some(names))
}

/// What a projection takes of a table.
#[derive(Drop)]
pub struct Selection {
    selected: List<Name>,
    table: Name,
    sort: Option<List<Name>>,
}

/// `AS SELECT name {, name} FROM name [ORDER BY name {, name}]`
#[tactic(auto, unfolding(sql_phrases::specs::Readings::mark, sql_phrases::specs::Readings::both, sql_phrases::specs::Readings::nothing, crate::specs::Parts::projects))]
fn projects(alloc: Global, tokens: &mut Tokens<'_>) -> Result<Selection, Stop>
    ensures { Gives result tokens.new (projects tokens.old) }
{
    tokens.key(Key::As)?;
    tokens.key(Key::Select)?;
    let selected = listed::<Bare>(alloc, tokens)?;
    if let Err(stop) = tokens.key(Key::From) {
        drop(selected);
        return Err(stop);
    }
    let table = match tokens.name(alloc) {
        Ok(table) => table,
        Err(stop) => {
            drop(selected);
            return Err(stop);
        }
    };
    match sorted_by(alloc, tokens) {
        Ok(sort) => Ok(Selection {
            selected,
            table,
            sort,
        }),
        Err(stop) => {
            drop(selected);
            drop(table);
            Err(stop)
        }
    }
}

/// `PROJECTION name ( part {, part} ) AS SELECT name {, name} FROM name [ORDER BY name {, name}]`
#[tactic(auto, using(crate::proofs::Sequels::projection_by_parts), unfolding(sql_phrases::specs::Readings::mark, sql_phrases::specs::Readings::both, sql_phrases::specs::Readings::nothing))]
fn creates_projection(alloc: Global, tokens: &mut Tokens<'_>) -> Result<Statement, Stop>
    ensures { Gives result tokens.new (creates_projection tokens.old) }
{
    tokens.key(Key::Projection)?;
    let name = tokens.name(alloc)?;
    let parts = match inside::<Part>(alloc, tokens) {
        Ok(parts) => parts,
        Err(stop) => {
            drop(name);
            return Err(stop);
        }
    };
    match projects(alloc, tokens) {
        Ok(of) => Ok(Statement::CreateProjection(NewProjection {
            name,
            parts,
            selected: of.selected,
            table: of.table,
            sort: of.sort,
        })),
        Err(stop) => {
            drop(name);
            drop(parts);
            Err(stop)
        }
    }
}

/// `CREATE (TABLE .. | PROJECTION ..)`
#[tactic(auto, unfolding(sql_phrases::specs::Readings::choose, sql_phrases::specs::Readings::mark, sql_phrases::specs::Readings::both, sql_phrases::specs::Readers::creates))]
pub fn creates(alloc: Global, tokens: &mut Tokens<'_>) -> Result<Statement, Stop>
    ensures { Gives result tokens.new (creates tokens.old) }
{
    tokens.key(Key::Create)?;
    if tokens.begins_key(Key::Table) {
        return creates_table(alloc, tokens);
    }
    creates_projection(alloc, tokens)
}

/// `DROP (TABLE | PROJECTION) name`
#[tactic(auto, unfolding(sql_phrases::specs::Readings::choose, sql_phrases::specs::Readings::mark, sql_phrases::specs::Readings::both, sql_phrases::specs::Readings::nothing, sql_phrases::specs::Readers::drops))]
pub fn drops(alloc: Global, tokens: &mut Tokens<'_>) -> Result<Statement, Stop>
    ensures { Gives result tokens.new (drops tokens.old) }
{
    tokens.key(Key::Drop)?;
    if tokens.begins_key(Key::Table) {
        tokens.key(Key::Table)?;
        let table = tokens.name(alloc)?;
        return Ok(Statement::DropTable(table));
    }
    tokens.key(Key::Projection)?;
    let projection = tokens.name(alloc)?;
    Ok(Statement::DropProjection(projection))
}
