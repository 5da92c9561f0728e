//! The last good epoch of some tables.

ghost use Rattle.std.specs.Prelude.{◌≡◌, None, fold, unwrap_or};
ghost use Rattle.catalog_types.specs.Reached.{earlier, reached, table_reached};

use catalog_types::{Projection, Table};

/// The earlier of two epochs that may be there.
fn earlier(a: Option<u64>, b: Option<u64>) -> Option<u64>
    ensures { result ≡ earlier a b }
{
    match (a, b) {
        (None, b) => b,
        (Some(a), None) => Some(a),
        (Some(a), Some(b)) => Some(if a < b { a } else { b }),
    }
}

/// What a projection has reached, if it is up to date.
fn reached(projection: &Projection) -> Option<u64>
    ensures { result ≡ reached projection.now }
{
    if projection.fresh {
        Some(projection.lge)
    } else {
        None
    }
}

/// The least epoch that an up-to-date projection of a table has reached.
fn table_reached(table: &Table) -> Option<u64>
    ensures { result ≡ table_reached table.now }
{
    let mut least: Option<u64> = None;
    for projection in table.projections.as_slice() {
        least = earlier(least, reached(projection));
    }
    least
}

/// The least epoch that an up-to-date projection of some tables has reached.
fn all_reached(tables: &[Table]) -> Option<u64>
    ensures { result ≡ fold (λ e t. earlier e (table_reached t)) None tables.now }
{
    let mut least: Option<u64> = None;
    for table in tables {
        least = earlier(least, table_reached(table));
    }
    least
}

/// The least epoch that an up-to-date projection of some tables has reached, or the newest closed one where none is up to date. It takes no
/// memory.
pub fn last_good(tables: &[Table], last: u64) -> u64
    ensures { result ≡ unwrap_or (fold (λ e t. earlier e (table_reached t)) None tables.now) last }
{
    match all_reached(tables) {
        Some(epoch) => epoch,
        None => last,
    }
}
