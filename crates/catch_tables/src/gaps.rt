//! Whether each epoch to come can be replayed as one commit.

ghost use Rattle.std.specs.Prelude.{◌≡◌, not, IfSome, IfNone};
ghost use Rattle.std.specs.List.{list_any};
ghost use Rattle.catch_model.specs.Refused.{IsLeastEpoch, NoEpoch};
ghost use Rattle.catch_tables.specs.Keyed.{has_change_in, has_more_in};

use crate::ordered::Ordered;

// A session has no more rows pending in a table.
const MOST_ROWS: usize = 1 << 24;

/// Whether an epoch has something to replay.
fn has_change(tables: &[Ordered<'_>], epoch: u64) -> bool
    ensures { result ≡ list_any (has_change_in epoch) tables.now }
{
    for table in tables {
        if !table.inserts(epoch).is_empty() || !table.deletes(epoch).is_empty() {
            return true;
        }
    }
    false
}

/// Whether an epoch inserted more rows into one table than a session may have pending there.
fn has_too_many(tables: &[Ordered<'_>], epoch: u64) -> bool
    ensures { result ≡ list_any (has_more_in epoch) tables.now }
{
    for table in tables {
        if table.inserts(epoch).len() > MOST_ROWS {
            return true;
        }
    }
    false
}

/// The least epoch after one, up to another, in which nothing was inserted or deleted.
pub fn first_gap(tables: &[Ordered<'_>], after: u64, last: u64) -> Option<u64>
    ensures some { IfSome result (λ n. IsLeastEpoch (λ k. not (list_any (has_change_in k) tables.now)) after last n) }
    ensures none { IfNone result (NoEpoch (λ k. not (list_any (has_change_in k) tables.now)) after last) }
{
    for closed in after..last {
        let epoch = closed + 1;
        if !has_change(tables, epoch) {
            return Some(epoch);
        }
    }
    None
}

/// The least epoch after one, up to another, in which too many rows were inserted into one table.
pub fn first_too_many(tables: &[Ordered<'_>], after: u64, last: u64) -> Option<u64>
    ensures some { IfSome result (λ n. IsLeastEpoch (λ k. list_any (has_more_in k) tables.now) after last n) }
    ensures none { IfNone result (NoEpoch (λ k. list_any (has_more_in k) tables.now) after last) }
{
    for closed in after..last {
        let epoch = closed + 1;
        if has_too_many(tables, epoch) {
            return Some(epoch);
        }
    }
    None
}
