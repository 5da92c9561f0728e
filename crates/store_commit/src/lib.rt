//! Committing the catalogue of a store.
//!
//! `Seen` of `specs/Seen.antt` is a store as its catalogue and its projections; over a disk it stands for a database (`Stands`). A piece
//! of work that makes another database of it, or nothing, is `Makes` of `specs/Making.antt`: what the store stands for then, and what a
//! crash may have left at each moment. `settle` commits a catalogue over a running store and removes what that leaves without use;
//! `settle_listed`, of an opening, lists the folder and removes what the catalogue doesn't list. For a disk of which nothing more is known than
//! that it is quiet on a root, `Replaces` of `specs/Replacing.antt` says the same of that.
#![tactic(auto)]

mod settling;

pub use settling::{settle, settle_listed, tidy};
