//! The catch-up of two running stores: the one behind is brought up to the one ahead by its own commits.
//!
//! `Link::begin` reads what the store ahead tells from the later of the two ancient history marks on, but for what both hold in the same files, and
//! refuses where the store behind isn't an older state of it (`IsRefused` of catch_model). `Link::historical` replays that, epoch by epoch, and `Link::current` what came in the
//! meantime. What a `Link` tells is `Tells` of `specs/Linked.antt`; behind each call that answers Ok the store has caught up (`IsCaughtUp`).
#![tactic(auto)]

mod checks;
mod histories;
mod link;
mod replay;

pub use catch_model::LinkFault;
pub use link::Link;
pub use store_core::Store;
