//! A valid catalogue stays valid: what an event changes in it is tested alone, and the rest by nothing.
//!
//! `IsNext` of `specs/Going.antt` is a catalogue that has some tables in the place of others; where the first is valid, so is the next
//! (`the_next_catalogue_is_valid`). What it asks of the new part is decided here, each by one pass over what it speaks of: a table that is
//! valid alone, names that are free, a place in the order, epochs and numbers that go on. `proofs/Forms.antt` has the law for a table
//! more, a table less, another in its place, and another mark. Where a projection gets another entry, that entry is what is new:
//! `IsEntryAfter` of `specs/Entries.antt` says what it keeps, `is_entry_after` decides it, and its table is valid by itself then
//! (`an_entry_keeps_its_table_valid`).
#![tactic(auto)]

mod among;
mod entries;
mod going;
mod laws;
mod names;
mod runs;
mod tables;

pub use entries::is_entry_after;
pub use going::{goes_on, have_reached};
pub use laws::{an_entry_keeps_its_table_valid, the_next_catalogue_is_valid};
pub use names::{is_free, joins};
pub use tables::valid_at;
