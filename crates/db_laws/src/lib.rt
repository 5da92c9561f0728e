//! Laws of the definitions of `db_model`: what statements may do to a database that was opened, and what it is for two
//! databases to be alike.
#![tactic(auto)]

mod laws;

pub use laws::{alike_from_the_mark, cuts_at_an_epoch, last_good_never_falls, openings_are_sound};
