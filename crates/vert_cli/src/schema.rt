//! What a session is asked for without a statement: the tables with their projections, and the epochs.
#![tactic(auto)]

ghost use Rattle.std.specs.Prelude.{◌≡◌};
ghost use Rattle.catalog_types.specs.Reached.{least_lge};

use crate::session::Session;
use catalog_types::Table;

/// The tables of a running store with their columns and projections, in the order of their names, and its epochs.
#[derive(Clone, Copy, Debug)]
pub struct Schema<'a> {
    pub tables: &'a [Table],
    /// The newest closed epoch.
    pub last: u64,
    /// The least epoch that an up-to-date projection has reached, or the newest closed one where none is up to date.
    pub last_good: u64,
    /// The ancient history mark.
    pub mark: u64,
}

impl Session {
    /// The tables of the running store and its epochs, as they are now. It takes no memory, and calls nothing.
    pub fn schema(&self) -> Schema<'_>
        ensures tables { result.tables.now ≡ self.now.running.seen.catalogue.tables }
        ensures last { result.last ≡ self.now.running.seen.catalogue.last }
        ensures last_good { result.last_good ≡ least_lge self.now.running.seen.catalogue }
        ensures mark { result.mark ≡ self.now.running.seen.catalogue.ahm }
    {
        Schema {
            tables: self.store.tables(),
            last: self.store.last(),
            last_good: self.store.last_good(),
            mark: self.store.mark(),
        }
    }
}
