//! One text: what is printed, and why a statement is refused, leaves no choice.
//!
//! The laws are the contracts here, and there is no code. Over one state a statement text has one text, and a query has one over
//! all states that no statement tells apart (`specs/OneText.antt`). A script has one where it leaves the mover alone
//! (`specs/Scripts.antt`); the mover may do this or that, and draws numbers as the storage decides. They last over a script
//! (`specs/Lasting.antt`). Nor does it matter how often the mover steps in between, to a script that doesn't look at what it does (`specs/Movers.antt`).
#![tactic(auto)]

mod laws;

pub use laws::{
    a_query_has_one_text, a_script_has_one_text, a_short_script_has_one_text,
    a_statement_has_one_text, numbers_last, the_mover_changes_no_text,
};
