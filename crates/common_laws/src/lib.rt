//! What every crate of the store says of its calls, stated once.
//!
//! A fault has its cause in a count that rose; a sink or a file that tells its bytes takes a piece or a front
//! of it; two lists are one bag; a map in code is a finite map. The laws of these words stand in `proofs/`,
//! `pub`, and are cited from here.
#![tactic(auto)]

mod blob;
mod steps;

pub use blob::{Blob, rest_of};
pub use steps::Steps;
