//! What refusals look at.

ghost use Rattle.std.specs.Prelude.{◌≡◌, ◌≤◌, ◌&&◌, ◌||◌, bytes_eq, length, map, nat_le, not, option_map};
ghost use Rattle.std.specs.List.{list_any};
ghost use Rattle.db_model.specs.Database.{is_taken};
ghost use Rattle.db_model.specs.Events.{rows_pending};
ghost use Rattle.db_model.specs.Locks.{holder};
ghost use Rattle.db_model.specs.State.{has_changes, is_empty, pending_rows};
ghost use Rattle.db_model.specs.Epochs.{last_good};
ghost use Rattle.db_model.specs.Numbers.{spent_refusal};
ghost use Rattle.db_model.specs.Refusing.{commit_refusal, epoch_refusal};
ghost use Rattle.db_model.specs.Refusals.{joining_limit, locked, mark_refusal, raise_refusal};
ghost use Rattle.db_model.specs.Views.{table_found};
ghost use Rattle.folder_model.specs.Projections.{shape_of};
ghost use Rattle.sql_binding.specs.Firsts.{first_of, refused_where};
ghost use Rattle.sql_tree.specs.declared.refusal.Refusal.{Refusal};
ghost use Rattle.statement_plan.specs.Bare.{bare_state, bare_table};
ghost use Rattle.statement_plan.specs.Places.{owner_found};

use crate::placed::{Placed, is_projection, owner_of, same, table_named};
use crate::reached::last_good;
use catalog_types::Table;
use col_value::Row;
use name_binder::Found;
use sql_tree::{At, Refusal, Which};
use std::marker::Model;
use txn_core::{Session, Txns};

// No event draws a number where the next one has reached this.
const SPENT: u64 = 1 << 60;

// The greatest epoch that can be closed.
const MOST_EPOCHS: u64 = 9_223_372_036_854_775_807;

// The most rows that a session may have pending in a table.
pub(crate) const MOST_ROWS: usize = 16_777_216;

/// The tables of a catalogue, the newest closed epoch, the ancient history mark, the next number, what the sessions have changed and
/// which one is current, from 1 to 8.
#[derive(Drop)]
pub struct Frame<'a> {
    tables: &'a [Table],
    last: u64,
    mark: u64,
    next: u64,
    txns: &'a Txns,
    current: usize,
}

impl<'a> Model for Frame<'a> {
    ghost use Rattle.std.specs.Prelude.{◌≤◌};
    ghost use Rattle.db_model.specs.State.{State};
    ghost use Rattle.statement_plan.specs.Bare.{bare_state};

    ghost Value = { State };

    ghost view = { λ f. bare_state f.tables.now f.last f.mark f.next f.txns.now f.current };

    ghost invariant = { λ f. (1 ≤ f.current) × (f.current ≤ 8) };
}

fn is_called(table: &Table, name: &[u8]) -> bool
    ensures { result ≡ (bytes_eq table.now.name name.now || list_any (λ s. bytes_eq s.name name.now) (map shape_of table.now.projections)) }
{
    same(table.name.as_slice(), name) || is_projection(table.projections.as_slice(), name)
}

/// Whether a table or a projection is called so.
fn is_taken(tables: &[Table], name: &[u8]) -> bool
    ensures { result ≡ is_taken name.now (map bare_table tables.now) }
{
    for table in tables {
        if is_called(table, name) {
            return true;
        }
    }
    false
}

/// How many rows a session has pending in a table.
fn waiting(session: &Session, name: &[u8]) -> usize
    ensures { result ≡ length (pending_rows name.now session.now) }
{
    for changes in session.changes() {
        if same(changes.table(), name) {
            return changes.rows().len();
        }
    }
    0
}

/// Whether a session with these rows more has something to commit.
fn has_some(session: &Session, rows: &[Row]) -> bool
    ensures { result ≡ (not (is_empty rows.now) || has_changes session.now) }
{
    !rows.is_empty() || session.has_changes()
}

/// Where there is something to commit and the greatest epoch is closed, the refusal.
fn closing(changes: bool, last: u64) -> Option<Refusal>
    ensures { result ≡ refused_where (changes && nat_le 9223372036854775807 last) Refusal.EpochsSpent }
{
    if changes && last >= MOST_EPOCHS {
        Some(Refusal::EpochsSpent)
    } else {
        None
    }
}

impl<'a> Frame<'a> {
    /// The frame of a state. It takes no memory.
    pub fn new(
        tables: &'a [Table],
        last: u64,
        mark: u64,
        next: u64,
        txns: &'a Txns,
        current: usize,
    ) -> Frame<'a>
        requires first { 1 ≤ current }
        requires last { current ≤ 8 }
        ensures { result ≡ bare_state tables.now last mark next txns.now current }
    {
        Frame {
            tables,
            last,
            mark,
            next,
            txns,
            current,
        }
    }

    /// The place of the table of a name, and its columns.
    pub(crate) fn found(&self, name: &[u8]) -> Option<Found<'a>>
        ensures { result ≡ option_map (λ e. (e.0, e.1.columns)) (table_found name.now self.now.database.tables) }
    {
        match self.table(name) {
            Some(table) => Some(table.found()),
            None => None,
        }
    }

    /// The table of a name, at its place.
    pub(crate) fn table(&self, name: &[u8]) -> Option<Placed<'a>>
        ensures { result ≡ table_found name.now self.now.database.tables }
    {
        table_named(self.tables, name)
    }

    /// The table that has the projection of a name, at its place.
    pub(crate) fn owner(&self, name: &[u8]) -> Option<Placed<'a>>
        ensures { result ≡ owner_found name.now self.now.database.tables }
    {
        owner_of(self.tables, name)
    }

    /// Whether a table or a projection is called so.
    pub(crate) fn is_taken(&self, name: &[u8]) -> bool
        ensures { result ≡ is_taken name.now self.now.database.tables }
    {
        is_taken(self.tables, name)
    }

    /// How many tables there are.
    pub(crate) fn count(&self) -> usize
        ensures { result ≡ length self.now.database.tables }
    {
        self.tables.len()
    }

    /// Where no numbers are left, the refusal of what would draw one.
    pub(crate) fn spent(&self) -> Option<Refusal>
        ensures { result ≡ spent_refusal self.now }
    {
        if self.next >= SPENT {
            Some(Refusal::NumbersSpent)
        } else {
            None
        }
    }

    /// Where another session keeps this one from a table, the refusal.
    pub(crate) fn locked(&self, name: &[u8], want: bool) -> Option<Refusal>
        ensures { result ≡ locked self.now name.now want }
    {
        match self.txns.conflict(self.current, name, want) {
            Some(holder) => Some(Refusal::Locked(holder as u8)),
            None => None,
        }
    }

    /// Where a session holds a table, the current one among them, the refusal of what needs it free.
    pub(crate) fn held(&self, name: &[u8]) -> Option<Refusal>
        ensures { result ≡ option_map Refusal.Locked (holder self.now name.now) }
    {
        match self.txns.holder(name) {
            Some(holder) => Some(Refusal::Locked(holder as u8)),
            None => None,
        }
    }

    /// Where so many rows more are too many for the current session on one table, the refusal.
    pub(crate) fn joining(&self, name: &[u8], more: usize) -> Option<Refusal>
        ensures { result ≡ joining_limit self.now name.now more }
    {
        let waiting = waiting(self.txns.session(self.current), name);
        if waiting > MOST_ROWS || more > MOST_ROWS - waiting {
            Some(Refusal::Limit(Which::Rows, 16_777_216))
        } else {
            None
        }
    }

    /// Where the current session has something to commit and the greatest epoch is closed, the refusal.
    pub(crate) fn committing(&self) -> Option<Refusal>
        ensures { result ≡ commit_refusal self.now }
    {
        closing(self.txns.session(self.current).has_changes(), self.last)
    }

    /// Where the current session, with these rows more pending, has something to commit and the greatest epoch is closed, the refusal.
    pub(crate) fn loading(&self, name: &[u8], rows: &[Row]) -> Option<Refusal>
        ensures { length self.now.sessions ≡ 8 → result ≡ commit_refusal (rows_pending name.now rows.now self.now) }
    {
        let _ = name;
        closing(has_some(self.txns.session(self.current), rows), self.last)
    }

    /// The last good epoch.
    fn last_good(&self) -> u64
        ensures { result ≡ last_good self.now.database }
    {
        last_good(self.tables, self.last)
    }

    /// Where the ancient history mark would rise to an epoch, and no numbers are left, the refusal.
    fn raising(&self, mark: u128) -> Option<Refusal>
        ensures { result ≡ raise_refusal mark self.now }
    {
        if u128::from(self.mark) < mark && self.next >= SPENT {
            Some(Refusal::NumbersSpent)
        } else {
            None
        }
    }

    /// Why the ancient history mark can't be set to the last good epoch.
    pub(crate) fn marking_now(&self) -> Option<Refusal>
        ensures { result ≡ raise_refusal (last_good self.now.database) self.now }
    {
        self.raising(u128::from(self.last_good()))
    }

    /// Why the ancient history mark can't be set to an epoch: it would fall, or pass the last good epoch, or no numbers are left.
    pub(crate) fn marking(&self, mark: u128) -> Option<Refusal>
        ensures { result ≡ first_of (mark_refusal mark self.now.database) (raise_refusal mark self.now) }
    {
        let good = self.last_good();
        if mark < u128::from(self.mark) || mark > u128::from(good) {
            return Some(Refusal::BadMark(mark, self.mark, good));
        }
        self.raising(mark)
    }

    /// Why an epoch can't be read: it lies before the ancient history mark, or in the future.
    pub(crate) fn reading(&self, at: At) -> Option<Refusal>
        ensures { result ≡ epoch_refusal self.now.database.ahm self.now.database.last at }
    {
        match at {
            At::View => None,
            At::Latest => None,
            At::Epoch(epoch) => {
                if epoch < u128::from(self.mark) {
                    return Some(Refusal::EpochTooOld(epoch, self.mark));
                }
                if epoch > u128::from(self.last) {
                    return Some(Refusal::EpochInFuture(epoch, self.last));
                }
                None
            }
        }
    }
}
