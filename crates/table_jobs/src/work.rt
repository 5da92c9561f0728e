//! A job of the mover that is made step by step: a merge or a refresh.

ghost use Rattle.std.specs.Prelude.{◌≡◌, ℕ, Some, IsTrue, OnErr, OnOk};
ghost use Rattle.common_laws.specs.Causes.{HasCause};
ghost use Rattle.common_laws.specs.Maps.{Contents};
ghost use Rattle.col_disk.specs.Moved.{Either, Moved, Named, NoName};
ghost use Rattle.ros_container.specs.Files.{body_of, index_of};
ghost use Rattle.db_model.specs.Database.{Database};
ghost use Rattle.store_commit.specs.Seen.{Stands};
ghost use Rattle.table_jobs.specs.Going.{IsGoing, IsOver};
ghost use Rattle.table_jobs.specs.Working.{StaysWhile};

use crate::remaking::{RefreshWork, advance_refresh};
use crate::working::{MergeWork, advance_merge};
use col_disk::{Disk, DiskFault};
use std::alloc::Global;
use table_store::TableStore;

/// A merge or a refresh on its way.
#[derive(Drop)]
pub enum Work {
    Merge(MergeWork),
    Refresh(RefreshWork),
}

impl Work {
    /// Whether it is of a store still. It takes no memory.
    pub fn is_of(&self, store: &TableStore) -> bool
        ensures { IsTrue result → IsOver store.now self.now }
    {
        match self {
            Work::Merge(work) => work.is_of(store),
            Work::Refresh(work) => work.is_of(store),
        }
    }
}

/// A step of a merge or of a refresh: the files of its next column are made, or behind the columns those of the epochs. Where they are there, and
/// numbers from 2^61 on, are answered as want of memory.
pub fn advance_work<D: Disk>(
    alloc: Global,
    store: &TableStore,
    work: &mut Work,
    disk: &mut D,
) -> Result<(), DiskFault>
    requires { IsOver store.now work.old }
    ensures goes_on { OnOk result ((m n : Contents) → D.holds disk.old ≡ Some m → D.holds disk.new ≡ Some n → IsGoing m work.old → IsGoing n work.new) }
    ensures stays { (d : Database) → Stands ⟦<D as Disk>⟧ store.now disk.old d → StaysWhile ⟦<D as Disk>⟧ store.now disk.old disk.new d }
    ensures moved { (column : ℕ) × Moved ⟦<D as Disk>⟧ (Either (Named (body_of store.now.catalogue.next column)) (Named (index_of store.now.catalogue.next column))) NoName disk.old disk.new }
    ensures cause { HasCause DiskFault.Failed (D.faults disk.old) (D.faults disk.new) result }
{
    match work {
        Work::Merge(work) => advance_merge(alloc, store, work, disk),
        Work::Refresh(work) => advance_refresh(alloc, store, work, disk),
    }
}
