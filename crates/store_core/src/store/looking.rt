//! What is asked of a store without its disk. Nothing here takes memory.

ghost use Rattle.std.specs.Prelude.{◌≡◌};
ghost use Rattle.catalog_types.specs.Reached.{least_lge};
ghost use Rattle.db_model.specs.State.{has_changes};
ghost use Rattle.store_core.specs.Sessions.{own_of};

use super::Store;
use catalog_types::Table;
use statement_plan::last_good;

impl Store {
    /// The tables of the catalogue, in the order of their names.
    pub fn tables(&self) -> &[Table]
        ensures { result.now ≡ self.now.seen.catalogue.tables }
    {
        self.tables.root().tables.as_slice()
    }

    /// The ancient history mark.
    pub fn mark(&self) -> u64
        ensures { result ≡ self.now.seen.catalogue.ahm }
    {
        self.tables.root().ahm
    }

    /// The least epoch that an up-to-date projection has reached, or the newest closed one where none is up to date.
    pub fn last_good(&self) -> u64
        ensures { result ≡ least_lge self.now.seen.catalogue }
    {
        last_good(self.tables(), self.tables.last())
    }

    /// Whether the current session has something to commit.
    pub fn has_changes(&self) -> bool
        ensures { result ≡ has_changes (own_of self.now) }
    {
        self.txns.session(self.current).has_changes()
    }
}
