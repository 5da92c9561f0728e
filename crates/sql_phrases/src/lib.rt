//! Reading tokens by phrases: what each production of the grammar reads from the front of a list, and the
//! tokens that a reader takes.
//!
//! `specs/Readings.antt` has the words that readers on lists are made of, one for each word of a phrase, and
//! `specs/Readers.antt` the reader of each production. A reader in code promises `Gives` (specs/Gives.antt) of
//! the reader on lists. The proofs say once for all what follows from that: what is read is spelled, what is
//! spelled is read and has one value, and where a reader stops is the exact place of the refusal.
#![tactic(auto)]

mod leaves;
mod list;
mod stop;
mod texts;
mod tokens;

pub use list::{Spelled, listed};
pub use stop::Stop;
pub use tokens::Tokens;
