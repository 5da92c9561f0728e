//! The program as one call over files, a sink and a disk.
//!
//! `run` does all that the program does: it reads its words and the script, opens the tables that the folder holds, runs the script's
//! statements in order, each with the mover's steps behind it, writes what each prints, and makes the end. A generated script runs over the
//! files that have its load. Its promise is the run theorem
//! (`RunEnds` and `RunLeaves` of `specs/Ends.antt`), over a folder that reopens to a database (`IsOpenable`): what was printed and what a crash
//! leaves when the run has ended or stopped, by its status, and that whatever a crash leaves at any moment of the run is what it would have
//! left before the opening had synced (`IsStill`), or reopens to the tables before or after an event of the run, cut at a closed epoch that is
//! no earlier than the last good one before it (`IsOnTheWay` of `specs/Runs.antt`). `Session` promises the same of the opening, of one statement (`Executed` and
//! `HasWorked` of `specs/Statements.antt`), of the mover's steps (`MovedOn`) and of the end, and says which answer halts it (`halts_by` of
//! `specs/Sessions.antt`). What the words ask for is `wanted` of `run_words`. Where they ask for an audit, `run` judges the folder in place of
//! running a script, and prints the verdict (`AuditEnds` of `specs/Audits.antt`). Which file status 6 names is said over any contents (`NamesFile` of
//! `specs/Blamed.antt`), and which one a call of a `Session` (`NamesInRun`).
#![tactic(auto)]

mod auditing;
mod faults;
mod program;
mod schema;
mod script;
mod session;

pub use faults::{Outcome, RunFault, Status};
pub use program::run;
pub use schema::Schema;
pub use session::Session;
