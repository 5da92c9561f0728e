//! The changes of a session in one table.

ghost use Rattle.std.specs.Prelude.{◌≡◌, ◌++◌, true, IfOk, OnOk, OnErr};
ghost use Rattle.std.specs.List.{All};
ghost use Rattle.col_value.specs.Order.{IsRow};
ghost use Rattle.db_model.specs.State.{joined};
ghost use Rattle.db_model.specs.Events.{untouched};
ghost use Rattle.txn_core.specs.Marking.{emptied, marked};

use col_value::{Asked, Name, Row};
use std::alloc::{AllocError, Global};
use std::marker::Model;

/// What a session has changed in a table since its last COMMIT or ROLLBACK, and whether it holds the table against others.
#[derive(Drop)]
pub struct Changes {
    table: Name,
    exclusive: bool,
    rows: Vec<Row>,
    deletes: Vec<Asked>,
}

impl Model for Changes {
    ghost use Rattle.std.specs.List.{All};
    ghost use Rattle.col_value.specs.Order.{IsRow};
    ghost use Rattle.db_model.specs.State as state;

    ghost Value = { state.Changes };

    ghost view = { λ c. record { table = c.table; exclusive = c.exclusive; rows = c.rows.items; deletes = c.deletes.items } };

    ghost invariant = { λ c. All IsRow c.rows.items };
}

fn copied_rows(alloc: Global, rows: &[Row]) -> Result<Vec<Row>, AllocError>
    ensures { IfOk result (λ v. v.items ≡ rows.now) }
{
    let mut out = Vec::with_capacity(alloc, rows.len())?;
    for row in rows {
        out.push(row.copy(alloc)?)?;
    }
    Ok(out)
}

fn copied(alloc: Global, asked: &Asked) -> Result<Asked, AllocError>
    ensures { IfOk result (λ a. a ≡ asked.now) }
{
    Ok(Asked {
        row: asked.row.copy(alloc)?,
        ins: asked.ins,
    })
}

fn copied_deletes(alloc: Global, deletes: &[Asked]) -> Result<Vec<Asked>, AllocError>
    ensures { IfOk result (λ v. v.items ≡ deletes.now) }
{
    let mut out = Vec::with_capacity(alloc, deletes.len())?;
    for asked in deletes {
        out.push(copied(alloc, asked)?)?;
    }
    Ok(out)
}

impl Changes {
    /// None yet in the table of this name.
    pub(crate) fn untouched(alloc: Global, table: &[u8]) -> Result<Changes, AllocError>
        ensures { IfOk result (λ c. c ≡ untouched table.now) }
    {
        let table = Name::new(Vec::from_slice(alloc, table)?);
        Ok(Changes {
            table,
            exclusive: false,
            rows: Vec::new(alloc),
            deletes: Vec::new(alloc),
        })
    }

    /// The same changes once more.
    pub(crate) fn copy(&self, alloc: Global) -> Result<Changes, AllocError>
        ensures { IfOk result (λ c. c ≡ self.now) }
    {
        Ok(Changes {
            table: self.table.copy(alloc)?,
            exclusive: self.exclusive,
            rows: copied_rows(alloc, self.rows.as_slice())?,
            deletes: copied_deletes(alloc, self.deletes.as_slice())?,
        })
    }

    /// The name of the table.
    pub fn table(&self) -> &[u8]
        ensures { result.now ≡ self.now.table }
    {
        self.table.as_slice()
    }

    /// Whether no other session may change the table, too.
    pub fn is_exclusive(&self) -> bool
        ensures { result ≡ self.now.exclusive }
    {
        self.exclusive
    }

    /// The pending rows.
    pub fn rows(&self) -> &[Row]
        ensures rows { result.now ≡ self.now.rows }
        ensures valid { All IsRow result.now }
    {
        self.rows.as_slice()
    }

    /// The committed rows that are to be deleted.
    pub fn deletes(&self) -> &[Asked]
        ensures { result.now ≡ self.now.deletes }
    {
        self.deletes.as_slice()
    }

    /// The pending rows are given up and handed over. It takes no memory.
    pub(crate) fn take_rows(&mut self, alloc: Global) -> Vec<Row>
        ensures rows { result.items ≡ self.old.rows }
        ensures valid { All IsRow result.items }
        ensures left { self.new ≡ emptied self.old }
    {
        std::mem::replace(&mut self.rows, Vec::new(alloc))
    }

    /// Rows join the pending ones.
    pub(crate) fn join(&mut self, mut rows: Vec<Row>) -> Result<(), AllocError>
        requires { All IsRow rows.items }
        ensures joined { OnOk result (self.new ≡ joined self.old rows.items) }
        ensures kept { OnErr result (self.new ≡ self.old) }
    {
        self.rows.append(&mut rows)
    }

    /// These are the pending rows from now on, these deletes join the others, and the table is held against all.
    pub(crate) fn mark(&mut self, rows: Vec<Row>, mut deletes: Vec<Asked>) -> Result<(), AllocError>
        requires { All IsRow rows.items }
        ensures marked { OnOk result (self.new ≡ marked rows.items deletes.items self.old) }
        ensures kept { OnErr result (self.new ≡ self.old) }
    {
        self.deletes.append(&mut deletes)?;
        self.rows = rows;
        self.exclusive = true;
        Ok(())
    }
}
