//! That an epoch of a database ahead, replayed by a session of one behind, brings that to the epoch.
//!
//! The definitions are `IsAt` and `Pends` of `specs/Replay.antt`: a state behind that tells what the one ahead does up to an epoch, and
//! the same with what the next epoch changed pending in some tables. The laws say how the one leads to the other, table by table, and
//! that behind the last epoch the state has caught up. There is no code.
#![tactic(auto)]

mod laws;

pub use laws::{a_catch_up_begins, a_catch_up_ends, an_epoch_is_committed, an_epoch_is_pending};
