//! What an UPDATE makes of rows, or why it is refused for the values that it sets.
//!
//! `set_rows` answers the matched rows with their columns set (`set_row` of db_model's `specs/Events.antt`), or the refusal of a value that can't
//! be stored (`pairs_refusal` over `all_pairs` of `specs/Refusals.antt`): numbers out of range come before texts that are too long, and these
//! before a NULL that is refused. `settings_see_a_bag` says that the order of the matched rows changes neither.
#![tactic(auto)]

mod changing;
mod checking;
mod flaw;
mod flaws;
mod laws;
mod setting;

pub use laws::settings_see_a_bag;
pub use setting::set_rows;
