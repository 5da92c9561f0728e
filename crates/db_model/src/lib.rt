//! What the store stands for: plain tables whose rows carry epochs, and what each statement prints and does.
//!
//! The definitions are records and functions of `specs/`; no type of the engine stands in them, and there is no code.
//! The crates above are proved against `Step` and `Run`.
#![tactic(auto)]
