//! What the history of tables is read from.

ghost use Rattle.std.specs.Prelude.{◌≡◌};

use super::Store;
use table_store::TableStore;

impl Store {
    /// The tables with their projections: what of them is in memory, and what their catalogue lists on disk. It takes no memory.
    pub fn stored(&self) -> &TableStore
        ensures { result.now ≡ self.now.seen }
    {
        &self.tables
    }
}
