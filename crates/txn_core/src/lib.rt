//! What the eight sessions have changed and not committed, and who holds a table.
//!
//! `Txns` is seen as the sessions of a state of db_model's `specs/State.antt`: for each session, from 1 to 8, its changes by table. Its
//! calls are what statements make of them (`rows_pending`, `rows_marked`, `changes_dropped` of `specs/Events.antt`), and `conflict` is that
//! of `specs/Locks.antt`. A call that wants memory changes nothing. A commit takes a session's pending rows table by table
//! (`without_rows` of `specs/Marking.antt`).
#![tactic(auto)]

mod changes;
mod session;
mod txns;

pub use changes::Changes;
pub use session::Session;
pub use txns::Txns;
