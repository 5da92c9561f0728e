//! The changes of one session.

ghost use Rattle.std.specs.Prelude.{◌≡◌, [], filter, is_some, IfOk, IfSome, IfNone, OnOk, OnErr};
ghost use Rattle.std.specs.List.{All};
ghost use Rattle.std.specs.Option.{option_copied};
ghost use Rattle.col_value.specs.Order.{IsRow};
ghost use Rattle.db_model.specs.State.{has_changes, pending_rows, with_rows};
ghost use Rattle.db_model.specs.Locks.{changes_on, excludes};
ghost use Rattle.db_model.specs.Events.{change_of, is_not_named};
ghost use Rattle.txn_core.specs.Marking.{marked, without_rows};
ghost use Rattle.txn_core.specs.Places.{StandsAt, StandsNowhere};

use crate::changes::Changes;
use col_value::{Asked, Row};
use std::alloc::{AllocError, Global};
use std::marker::Model;

/// What a session has changed since its last COMMIT or ROLLBACK, table by table.
#[derive(Drop)]
pub struct Session {
    changes: Vec<Changes>,
}

impl Model for Session {
    ghost use Rattle.std.specs.Prelude.{List};
    ghost use Rattle.db_model.specs.State.{Changes as Changed};

    ghost Value = { List Changed };

    ghost view = { λ s. s.changes.items };
}

fn copied(alloc: Global, changes: &[Changes]) -> Result<Vec<Changes>, AllocError>
    ensures { IfOk result (λ v. v.items ≡ changes.now) }
{
    let mut out = Vec::with_capacity(alloc, changes.len())?;
    for change in changes {
        out.push(change.copy(alloc)?)?;
    }
    Ok(out)
}

impl Session {
    /// No changes. It takes no memory.
    pub(crate) fn new(alloc: Global) -> Session
        ensures { result ≡ [] }
    {
        Session {
            changes: Vec::new(alloc),
        }
    }

    /// The changes, table by table.
    pub fn changes(&self) -> &[Changes]
        ensures { result.now ≡ self.now }
    {
        self.changes.as_slice()
    }

    /// Whether rows or deletes are pending.
    pub fn has_changes(&self) -> bool
        ensures { result ≡ has_changes self.now }
    {
        for changes in self.changes.as_slice() {
            if !changes.rows().is_empty() || !changes.deletes().is_empty() {
                return true;
            }
        }
        false
    }

    fn place_of(&self, table: &[u8]) -> Option<usize>
        ensures found { IfSome result (StandsAt table.now self.now) }
        ensures none { IfNone result (StandsNowhere table.now self.now) }
    {
        for (place, changes) in self.changes.as_slice().iter().enumerate() {
            if changes.table() == table {
                return Some(place);
            }
        }
        None
    }

    /// The changes in the table of a name; None exactly where the session doesn't hold it.
    pub fn on(&self, table: &[u8]) -> Option<&Changes>
        ensures { option_copied result ≡ changes_on table.now self.now }
    {
        match self.place_of(table) {
            Some(place) => Some(&self.changes[place]),
            None => None,
        }
    }

    /// Whether it holds the table, in some mode.
    pub fn holds(&self, table: &[u8]) -> bool
        ensures { result ≡ is_some (changes_on table.now self.now) }
    {
        self.on(table).is_some()
    }

    /// Whether it keeps another session from a table that is wanted in mode X, or in mode I.
    pub fn excludes(&self, table: &[u8], want: bool) -> bool
        ensures { result ≡ excludes table.now want self.now }
    {
        match self.on(table) {
            Some(changes) => changes.is_exclusive() || want,
            None => false,
        }
    }

    /// The same changes once more, with rows more among the pending ones of a table. What is copied is what was pending.
    pub fn with_rows(
        &self,
        alloc: Global,
        table: &[u8],
        rows: Vec<Row>,
    ) -> Result<Session, AllocError>
        requires { All IsRow rows.items }
        ensures { IfOk result (λ s. s ≡ with_rows table.now rows.items self.now) }
    {
        let mut session = Session {
            changes: copied(alloc, self.changes.as_slice())?,
        };
        session.insert(alloc, table, rows)?;
        Ok(session)
    }

    /// Rows join the pending rows of a table.
    pub(crate) fn insert(
        &mut self,
        alloc: Global,
        table: &[u8],
        rows: Vec<Row>,
    ) -> Result<(), AllocError>
        requires { All IsRow rows.items }
        ensures pending { OnOk result (self.new ≡ with_rows table.now rows.items self.old) }
        ensures kept { OnErr result (self.new ≡ self.old) }
    {
        match self.place_of(table) {
            Some(place) => self.changes[place].join(rows),
            None => {
                let mut changes = Changes::untouched(alloc, table)?;
                changes.join(rows)?;
                self.changes.push(changes)?;
                Ok(())
            }
        }
    }

    /// These are the pending rows of a table from now on, these deletes join the others, and the table is held in mode X.
    pub(crate) fn mark(
        &mut self,
        alloc: Global,
        table: &[u8],
        rows: Vec<Row>,
        deletes: Vec<Asked>,
    ) -> Result<(), AllocError>
        requires { All IsRow rows.items }
        ensures marked { OnOk result (self.new ≡ change_of table.now (marked rows.items deletes.items) self.old) }
        ensures kept { OnErr result (self.new ≡ self.old) }
    {
        match self.place_of(table) {
            Some(place) => self.changes[place].mark(rows, deletes),
            None => {
                let mut changes = Changes::untouched(alloc, table)?;
                changes.mark(rows, deletes)?;
                self.changes.push(changes)?;
                Ok(())
            }
        }
    }

    /// The pending rows of a table are given up and handed over; all else stays. It takes no memory.
    pub fn take_rows(&mut self, alloc: Global, table: &[u8]) -> Vec<Row>
        ensures rows { result.items ≡ pending_rows table.now self.old }
        ensures valid { All IsRow result.items }
        ensures left { self.new ≡ without_rows table.now self.old }
    {
        match self.place_of(table) {
            Some(place) => self.changes[place].take_rows(alloc),
            None => Vec::new(alloc),
        }
    }

    /// The changes in a table are dropped. It takes no memory.
    pub(crate) fn forget(&mut self, table: &[u8])
        ensures { self.new ≡ filter (λ c. is_not_named table.now c.table) self.old }
    {
        self.changes.retain(|changes| changes.table() != table);
    }
}
