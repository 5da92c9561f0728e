use crate::{At, Query, Tree};
use col_value::{Column, Encoding, List, Name, Text, Wide, WideRow};

/// `INSERT INTO table VALUES rows`. The rows have the literals as they stand.
#[derive(Debug, Drop)]
pub struct Insert {
    pub table: Name,
    pub rows: List<WideRow>,
}

/// `DELETE FROM table WHERE keep`.
#[derive(Debug, Drop)]
pub struct Delete {
    pub table: Name,
    pub keep: Option<Tree>,
}

/// `column = tree` behind SET.
#[derive(Debug, Drop)]
pub struct Setting {
    pub column: Name,
    pub tree: Tree,
}

/// `UPDATE table SET settings WHERE keep`.
#[derive(Debug, Drop)]
pub struct Update {
    pub table: Name,
    pub settings: List<Setting>,
    pub keep: Option<Tree>,
}

/// `ALTER TABLE table ADD COLUMN column DEFAULT default`. The default is the literal as it stands.
#[derive(Debug, Drop)]
pub struct AddColumn {
    pub table: Name,
    pub column: Column,
    pub default: Wide,
}

/// A column of a new projection.
#[derive(Debug, Drop)]
pub struct NewPart {
    pub name: Name,
    pub encoding: Encoding,
}

/// `CREATE PROJECTION name (parts) AS SELECT selected FROM table ORDER BY sort`.
#[derive(Debug, Drop)]
pub struct NewProjection {
    pub name: Name,
    pub parts: List<NewPart>,
    pub selected: List<Name>,
    pub table: Name,
    pub sort: Option<List<Name>>,
}

/// A function that a SELECT without FROM calls.
#[derive(Debug, Drop)]
pub enum Function {
    /// GET_LAST_GOOD_EPOCH
    Lge,
    /// GET_AHM_EPOCH
    Ahm,
    /// GET_CURRENT_EPOCH
    Current,
    /// MAKE_AHM_NOW
    MakeAhmNow,
    /// SET_AHM_EPOCH
    SetAhm(u128),
    /// DO_TM_TASK('moveout')
    Moveout,
    /// DO_TM_TASK('mergeout')
    Mergeout,
    /// PURGE_TABLE
    Purge(Name),
    /// REFRESH
    Refresh(Name),
    /// START_REFRESH
    StartRefresh,
}

/// A statement. A `Session` has a number from 1 to 8.
#[derive(Debug, Drop)]
pub enum Statement {
    CreateTable(Name, List<Column>),
    CreateProjection(NewProjection),
    DropTable(Name),
    DropProjection(Name),
    Insert(Insert),
    Delete(Delete),
    Update(Update),
    Copy(Name, Text),
    AddColumn(AddColumn),
    Commit,
    Rollback,
    Select(At, Query),
    Explain(Query),
    Call(Function),
    Session(u8),
    Step,
}
