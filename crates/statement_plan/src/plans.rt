//! What a statement does.

use change_binder::{BoundUpdate, ProjectionShape};
use col_value::{Row, Value};
use sql_bound::BoundQuery;

/// What a statement does that isn't refused before a row is looked at. The first number is the place of its table among all tables.
#[derive(Drop)]
pub enum Plan {
    CreateTable,
    CreateProjection(usize, ProjectionShape),
    DropTable(usize),
    /// The second number is the place of the projection in the table.
    DropProjection(usize, usize),
    Insert(Vec<Row>),
    Delete(usize, BoundQuery),
    Update(usize, BoundUpdate),
    Copy(usize),
    /// What each row has in the new column.
    AddColumn(usize, Value),
    Commit,
    Rollback,
    Select(BoundQuery),
    Explain(BoundQuery),
    Call,
    /// A function of one table.
    CallOn(usize),
    Session(u8),
    Step,
}
