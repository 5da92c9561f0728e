//! The eight sessions.

ghost use Rattle.std.specs.Prelude.{◌≡◌, ◌≤◌, ◌-◌, [], filter, slice_set, IfOk, IfSome, OnOk, OnErr};
ghost use Rattle.std.specs.List.{All, slice_index_or};
ghost use Rattle.col_value.specs.Order.{IsRow};
ghost use Rattle.db_model.specs.State.{idle_sessions, with_rows};
ghost use Rattle.db_model.specs.Events.{change_of, is_not_named};
ghost use Rattle.txn_core.specs.Marking.{marked, excluder, holder};

use crate::session::Session;
use col_value::{Asked, Row};
use std::alloc::{AllocError, Global};
use std::marker::Model;

// How many sessions there are.
const SESSIONS: usize = 8;

/// The changes of the eight sessions, which are numbered from 1.
#[derive(Drop)]
pub struct Txns {
    sessions: Vec<Session>,
}

impl Model for Txns {
    ghost use Rattle.std.specs.Prelude.{◌≡◌, List, length};
    ghost use Rattle.db_model.specs.State.{Changes};

    ghost Value = { List (List Changes) };

    ghost view = { λ t. t.sessions.items };

    ghost invariant = { λ t. length t.sessions.items ≡ 8 };
}

impl Txns {
    /// Nothing is pending.
    pub fn new(alloc: Global) -> Result<Txns, AllocError>
        ensures { IfOk result (λ t. t ≡ idle_sessions) }
    {
        let mut sessions = Vec::with_capacity(alloc, SESSIONS)?;
        for _ in 0..SESSIONS {
            sessions.push(Session::new(alloc))?;
        }
        Ok(Txns { sessions })
    }

    /// A session's changes.
    pub fn session(&self, session: usize) -> &Session
        requires first { 1 ≤ session }
        requires last { session ≤ 8 }
        ensures { result.now ≡ slice_index_or self.now (session - 1) [] }
    {
        &self.sessions[session - 1]
    }

    /// The least other session that keeps this one from a table that it wants in mode X, or in mode I. It takes no memory.
    pub fn conflict(&self, session: usize, table: &[u8], want: bool) -> Option<usize>
        ensures holder { result ≡ excluder self.now session table.now want }
        ensures session { IfSome result (λ h. (1 ≤ h) × (h ≤ 8)) }
    {
        for (place, other) in self.sessions.as_slice().iter().enumerate() {
            if place + 1 != session && other.excludes(table, want) {
                return Some(place + 1);
            }
        }
        None
    }

    /// The least session that holds a table in some mode. It takes no memory.
    pub fn holder(&self, table: &[u8]) -> Option<usize>
        ensures holder { result ≡ holder self.now table.now }
        ensures session { IfSome result (λ h. (1 ≤ h) × (h ≤ 8)) }
    {
        for (place, session) in self.sessions.as_slice().iter().enumerate() {
            if session.holds(table) {
                return Some(place + 1);
            }
        }
        None
    }

    /// Rows join a session's pending rows of a table.
    pub fn insert(
        &mut self,
        alloc: Global,
        session: usize,
        table: &[u8],
        rows: Vec<Row>,
    ) -> Result<(), AllocError>
        requires first { 1 ≤ session }
        requires last { session ≤ 8 }
        requires rows { All IsRow rows.items }
        ensures pending { OnOk result (self.new ≡ slice_set self.old (session - 1) (with_rows table.now rows.items (slice_index_or self.old (session - 1) []))) }
        ensures kept { OnErr result (self.new ≡ self.old) }
    {
        self.sessions[session - 1].insert(alloc, table, rows)
    }

    /// These are a session's pending rows of a table from now on, these deletes join the others, and the session holds the table in mode X.
    pub fn mark(
        &mut self,
        alloc: Global,
        session: usize,
        table: &[u8],
        rows: Vec<Row>,
        deletes: Vec<Asked>,
    ) -> Result<(), AllocError>
        requires first { 1 ≤ session }
        requires last { session ≤ 8 }
        requires rows { All IsRow rows.items }
        ensures marked { OnOk result (self.new ≡ slice_set self.old (session - 1) (change_of table.now (marked rows.items deletes.items) (slice_index_or self.old (session - 1) []))) }
        ensures kept { OnErr result (self.new ≡ self.old) }
    {
        self.sessions[session - 1].mark(alloc, table, rows, deletes)
    }

    /// A session's changes are given up and handed over; it holds no table. It takes no memory.
    pub fn take(&mut self, alloc: Global, session: usize) -> Session
        requires first { 1 ≤ session }
        requires last { session ≤ 8 }
        ensures taken { result ≡ slice_index_or self.old (session - 1) [] }
        ensures left { self.new ≡ slice_set self.old (session - 1) [] }
    {
        std::mem::replace(&mut self.sessions[session - 1], Session::new(alloc))
    }

    /// These are a session's changes from now on. It takes no memory.
    pub fn put(&mut self, session: usize, changes: Session)
        requires first { 1 ≤ session }
        requires last { session ≤ 8 }
        ensures { self.new ≡ slice_set self.old (session - 1) changes }
    {
        self.sessions[session - 1] = changes;
    }

    /// A session's changes in a table are dropped. It takes no memory.
    pub fn forget(&mut self, session: usize, table: &[u8])
        requires first { 1 ≤ session }
        requires last { session ≤ 8 }
        ensures { self.new ≡ slice_set self.old (session - 1) (filter (λ c. is_not_named table.now c.table) (slice_index_or self.old (session - 1) [])) }
    {
        self.sessions[session - 1].forget(table);
    }
}
