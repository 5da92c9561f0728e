//! The purge of a projection.

ghost use Rattle.std.specs.Prelude.{◌≡◌, ◌≤◌, ◌↔◌, true, false, length, Some, IfErr, IfOk, IsFalse, OnErr, OnOk};
ghost use Rattle.common_laws.specs.Causes.{HasCause};
ghost use Rattle.common_laws.specs.Maps.{Contents};
ghost use Rattle.col_disk.specs.Faults.{IsUnblamed};
ghost use Rattle.col_disk.specs.declared.disk.StoreFault.TheVariants.{Memory as no_memory};
ghost use Rattle.db_model.specs.Database.{Database};
ghost use Rattle.store_commit.specs.Seen.{Stands};
ghost use Rattle.table_store.specs.Faults.{BlamesHeld};
ghost use Rattle.table_store.specs.Held.{projections_of};
ghost use Rattle.table_store.specs.Moving.{IsFreshAt};
ghost use Rattle.table_jobs.specs.Blamed.{BlamesPurge};
ghost use Rattle.table_jobs.specs.Jobs.{DrawsAnew, MakesRise, OfProjection};
ghost use Rattle.table_jobs.specs.Purged.{IsKeptWholeAt, IsKeptWholeIn, OthersStay};

use col_disk::{Disk, StoreFault};
use proj_store::ProjStore;
use purge_job::purge_one;
use std::alloc::Global;
use stored_rows::what_is_read_is_stored;
use table_store::TableStore;

/// Whether some row of the projection at a place was deleted up to a mark.
fn has_gone_in(projections: &[ProjStore], place: usize, mark: u64) -> bool
    ensures { IsFalse result ↔ IsKeptWholeIn mark place (projections_of projections.now) }
{
    match projections.get(place) {
        Some(p) => purge_job::has_gone(p, mark),
        None => false,
    }
}

/// Whether some row of the projection at a place was deleted up to the ancient history mark. It takes no memory, and the disk isn't called.
pub fn has_gone(store: &TableStore, table: usize, place: usize) -> bool
    ensures { IsFalse result ↔ IsKeptWholeAt store.now.catalogue.ahm table place store.now.stores }
{
    let root = store.root();
    match store.tables().get(table) {
        Some(projections) => has_gone_in(projections.as_slice(), place, root.ahm),
        None => false,
    }
}

/// Each container of the projection at a place that has rows deleted up to the ancient history mark is written anew without these, and what
/// is in memory goes to disk with it. Numbers from 2^61 on are answered as want of memory. `Damaged` names a file of a container that holds no
/// rows, or the delete vector of one that has none.
pub fn purge<D: Disk>(
    alloc: Global,
    store: &mut TableStore,
    table: usize,
    place: usize,
    disk: &mut D,
) -> Result<(), StoreFault>
    requires fresh { IsFreshAt store.old.stores table place }
    ensures made { (d : Database) → Stands ⟦<D as Disk>⟧ store.old disk.old d → MakesRise ⟦<D as Disk>⟧ no_memory store.old store.new disk.old disk.new result d table place }
    ensures drawn { OnOk result (OfProjection table place store.old.catalogue (DrawsAnew table place 1 store.old.catalogue store.new.catalogue)) }
    ensures whole { OnOk result ((d : Database) → Stands ⟦<D as Disk>⟧ store.old disk.old d → IsKeptWholeAt store.new.catalogue.ahm table place store.new.stores) }
    ensures others { OnOk result (OthersStay table place store.old.stores store.new.stores) }
    ensures mark { OnOk result (store.new.catalogue.ahm ≡ store.old.catalogue.ahm) }
    ensures unblamed { IfErr result (λ fault. (d : Database) → Stands ⟦<D as Disk>⟧ store.old disk.old d → IsUnblamed fault) }
    ensures blamed { IfErr result (λ fault. OfProjection table place store.old.catalogue (BlamesPurge (D.holds disk.old) fault)) }
    ensures named { IfErr result (λ fault. (m : Contents) → D.holds disk.new ≡ Some m → BlamesHeld store.old.stores (Some m) fault) }
    ensures same { OnErr result (store.new ≡ store.old) }
    ensures cause { HasCause StoreFault.Disk (D.faults disk.old) (D.faults disk.new) result }
{
    what_is_read_is_stored();
    let root = store.root();
    let p = &store.tables()[table].as_slice()[place];
    let purged = match purge_one(alloc, p, root.ahm, root.next, disk) {
        Ok(purged) => purged,
        Err(fault) => return Err(fault),
    };
    if purged.entry.lge > store.last() {
        return Err(StoreFault::Memory);
    }
    store.install(alloc, table, place, purged.entry, purged.next, disk)
}
