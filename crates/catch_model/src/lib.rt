//! When one folder has caught up with another, why it can't, and what an epoch of the other adds to it.
//!
//! The definitions are `IsCaughtUp` of `specs/Caught.antt`, `IsRefused` and `IsAccepted` of `specs/Refused.antt`, and `inserted_in` and
//! `deleted_in` of `specs/Added.antt`. They speak of two databases, the one behind and the one ahead, and of the tables of a name in both.
//! There is no code but the type of why a catch-up ends without Ok.
#![tactic(auto)]

mod fault;

pub use fault::LinkFault;
