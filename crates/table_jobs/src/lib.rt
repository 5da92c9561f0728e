//! The jobs of MERGEOUT, PURGE_TABLE and REFRESH over the projections of a store, each from its first step to its last.
//!
//! A job writes its files under numbers that are free, and then `TableStore::install` makes its entry the projection's. What the store
//! stands for then is `MakesRise` of `specs/Jobs.antt` and, for a refresh, `Makes`: no row of a table changes.
//!
//! A merge or a refresh can be made step by step as `Work`: its begin reads the rows and orders them, each step makes the files of one column, and
//! its last step makes the entry the projection's. `specs/Going.antt` says what holds in between, beside rows and marks that come into memory.
#![tactic(auto)]

mod merging;
mod purging;
mod refreshing;
mod remaking;
mod work;
mod working;

pub use merging::merge;
pub use purging::{has_gone, purge};
pub use refreshing::refresh;
pub use remaking::{RefreshWork, begin_refresh, finish_refresh};
pub use work::{Work, advance_work};
pub use working::{MergeWork, begin_merge, finish_merge};
