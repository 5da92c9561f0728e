//! A moveout of all projections that are behind.

ghost use Rattle.std.specs.Prelude.{◌≡◌, length, Some, IfErr, OnErr, OnOk};
ghost use Rattle.common_laws.specs.Causes.{HasCause};
ghost use Rattle.common_laws.specs.Maps.{Contents};
ghost use Rattle.col_disk.specs.Faults.{IsUnblamed};
ghost use Rattle.col_disk.specs.declared.disk.StoreFault.TheVariants.{Memory as no_memory};
ghost use Rattle.db_model.specs.Database.{Database};
ghost use Rattle.db_model.specs.Mover.{behind};
ghost use Rattle.store_commit.specs.Making.{Makes};
ghost use Rattle.store_commit.specs.Seen.{Stands};
ghost use Rattle.table_store.specs.Faults.{BlamesHeld, BlamesVectors};
ghost use Rattle.table_store.specs.Draining.{all_caught_up, DrawsMany};

use super::{TableStore, version_of};
use crate::draining::{Draft, drain, put_all, vectors_before};
use col_disk::{Disk, StoreFault};
use std::alloc::Global;
use store_commit::settle;

impl TableStore {
    /// All data of each up-to-date projection goes to disk, where some isn't there: first the files of all of them, and then one catalogue
    /// that lists them becomes the one that the disk opens to. Numbers from 2^61 on are answered as want of memory. `Damaged` names the
    /// delete vector of a container that was there, which has none; over a database no file is blamed.
    pub fn move_all<D: Disk>(&mut self, alloc: Global, disk: &mut D) -> Result<(), StoreFault>
        ensures made { (d : Database) → Stands ⟦<D as Disk>⟧ self.old disk.old d → Makes ⟦<D as Disk>⟧ no_memory self.old self.new disk.old disk.new result d (all_caught_up d) }
        ensures drawn { OnOk result ((d : Database) → Stands ⟦<D as Disk>⟧ self.old disk.old d → DrawsMany (length (behind d)) self.old.catalogue self.new.catalogue) }
        ensures unblamed { IfErr result (λ fault. (d : Database) → Stands ⟦<D as Disk>⟧ self.old disk.old d → IsUnblamed fault) }
        ensures blamed { IfErr result (λ fault. (m : Contents) → D.holds disk.new ≡ Some m → BlamesVectors self.old.stores m fault) }
        ensures named { IfErr result (λ fault. (m : Contents) → D.holds disk.new ≡ Some m → BlamesHeld self.old.stores (Some m) fault) }
        ensures same { OnErr result (self.new ≡ self.old) }
        ensures cause { HasCause StoreFault.Disk (D.faults disk.old) (D.faults disk.new) result }
    {
        if self.tables.is_empty() {
            return Ok(());
        }
        let Draft { root, moved } = match drain(alloc, disk, self) {
            Ok(draft) => draft,
            Err(fault) => return Err(fault),
        };
        if moved.is_empty() {
            return Ok(());
        }
        let gone = vectors_before(alloc, self.tables.as_slice(), moved.as_slice());
        match settle(
            alloc,
            disk,
            version_of(&self.root),
            gone.as_slice(),
            root.next - 1,
            &root,
        ) {
            Ok(()) => {}
            Err(fault) => return Err(StoreFault::from(fault)),
        }
        self.root = root;
        put_all(&mut self.tables, moved);
        Ok(())
    }
}
