//! Whether there is something to purge.

ghost use Rattle.std.specs.Prelude.{◌≡◌, ◌↔◌, true, IsTrue, IsFalse};
ghost use Rattle.std.specs.List.{All};
ghost use Rattle.moveout_job.specs.OnDisk.{beside};
ghost use Rattle.row_history.specs.History.{is_retained};
ghost use Rattle.write_store.specs.Memory.{stamp};
ghost use Rattle.purge_job.specs.Purging.{AreLate, IsKeptWhole};

use crate::rows::{are_later, is_kept};
use del_vector::Mark;
use proj_store::ProjStore;
use write_store::Held;

/// Whether all marks of a container are later than a mark.
fn are_late(held: &[Mark], fresh: &[Mark], mark: u64) -> bool
    ensures { IsTrue result ↔ AreLate mark (beside held.now fresh.now) }
{
    are_later(held, mark) && are_later(fresh, mark)
}

/// Whether all rows in memory are retained from a mark on.
fn are_kept(rows: &[Held], mark: u64) -> bool
    ensures { IsTrue result ↔ All (λ h. is_retained mark (stamp h) ≡ true) rows.now }
{
    rows.iter().all(|held| is_kept(held.del, mark))
}

/// Whether no mark of a container, and no delete of a row in memory, is at or before a mark.
fn is_kept_whole(p: &ProjStore, mark: u64) -> bool
    ensures { IsTrue result ↔ IsKeptWhole mark p.now.stored }
{
    let containers = p.entry().containers.as_slice();
    for i in 0..containers.len() {
        let (held, fresh) = (p.vector(i), p.fresh_marks(i));
        if !are_late(held, fresh, mark) {
            return false;
        }
    }
    are_kept(p.unsaved(), mark)
}

/// Whether a mark of a container, or the delete of a row in memory, is at or before a mark. It takes no memory, and the disk isn't called.
pub fn has_gone(p: &ProjStore, mark: u64) -> bool
    ensures { IsFalse result ↔ IsKeptWhole mark p.now.stored }
{
    !is_kept_whole(p, mark)
}
