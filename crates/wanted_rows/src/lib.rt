//! Wanted rows: which stored rows a delete takes.
//!
//! What is wanted is a bag of rows with their insert epochs, a `Wants`. For as long as rows are taken in the order in which they were
//! wanted, no row is hashed; when another one comes they are counted, and a row is found by its hash from then on (`Needs`). It also knows
//! for each column the least and the greatest value that was wanted at first, within which each wanted row lies (`Covers`,
//! `specs/Spans.antt`): so `may_have` and its like tell which rows needn't be read. `pick` goes once over rows that lie in any order and
//! picks distinct places of rows that aren't deleted, each for one that is wanted, until none of the others is wanted still (`Picks`,
//! `specs/Picked.antt`). A caller that has candidates, block by block, in a form of its own picks their places by `take`, or by `next` and
//! `take_next` where a row needn't be made (`PicksFrom`). So n rows cost n look-ups; where nothing is wanted any more (`is_done`), the rest
//! needn't be looked at. The laws go on from there: rows that are deleted at the places that were picked are those that were wanted.
#![tactic(auto)]

mod counts;
mod laws;
mod needs;
mod picking;
mod spans;
mod wants;

pub use laws::{picked_rows_go, wanted_rows_go};
pub use picking::pick;
pub use wants::Wants;
