//! The history of rows: which rows are seen at an epoch, which are retained from the ancient history mark on, what a cut at an
//! epoch leaves of them, and what a commit inserts and deletes.
//!
//! The definitions are `specs/History.antt`; the laws are the contracts here, and there is no code. Tables, projections, jobs
//! and scans speak of rows in these words.
#![tactic(auto)]

mod laws;

pub use laws::{
    deletes_stay_alike, inserts_stay_alike, rows_as_a_bag, rows_of_a_projection,
    rows_up_to_an_epoch,
};
