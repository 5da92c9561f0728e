//! The audit of a folder: the verdict of `IsVerdict` of `audit_model/specs/Verdicts.antt`, over any contents of the disk.
//!
//! `audit` opens the root as a run does, which makes one sync, and goes over what it lists in three passes: the files (`audit_files`), the
//! rows (`audit_rows`), and the projections of each table, two by two (`pairs`). It writes and removes nothing. That the verdict is Yes
//! exactly where the folder reopens is a law of `audit_model`.
#![tactic(auto)]

mod auditing;
mod columns;
mod comparing;
mod pairs;
mod supers;

pub use audit_model::{AuditFault, Verdict};
pub use auditing::audit;
