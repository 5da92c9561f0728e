//! Statement texts over a running store: each is read, planned, done and printed.
//!
//! Over a disk over which the store is a state of db_model, `step` makes a `Step` of it and answers its text (`Steps` of
//! `specs/Steps.antt`), `mover_step` makes a step of the mover, and `end` makes the end of a script. Each says what holds where memory was
//! short, and `step` what holds where a load file couldn't be read; and whatever a crash leaves at any moment of it reopens to the tables
//! before or after it, cut at one closed epoch that is no earlier than the last good one before it. No file is blamed over a state; over
//! other contents one is named that is bad then (`NamesStepped`). What a MERGEOUT and a PURGE_TABLE leave that weren't refused is
//! `Works` of `specs/Works.antt`. The forms that are served are those of `is_served`.
#![tactic(auto)]

mod answer;
mod answering;
mod changing;
mod events;
mod holding;
mod jobs;
mod loading;
mod marking;
mod moving;
mod reading;
mod shaping;
mod stepping;

pub use answer::{Answer, StepFault};
pub use moving::{end, mover_step};
pub use stepping::step;
pub use store_core::Store;
