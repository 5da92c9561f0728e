//! A projection that gets another entry.

ghost use Rattle.std.specs.Prelude.{◌≡◌, ◌≤◌, Some, List as Items, IfErr, IfOk, OnOk, OnErr};
ghost use Rattle.common_laws.specs.Causes.{HasCause};
ghost use Rattle.common_laws.specs.Maps.{Contents};
ghost use Rattle.col_disk.specs.Faults.{IsUnblamed};
ghost use Rattle.col_disk.specs.Moved.{Looks};
ghost use Rattle.col_disk.specs.declared.disk.StoreFault.TheVariants.{Memory as no_memory};
ghost use Rattle.col_value.specs.declared.row.Stamped.{Stamped};
ghost use Rattle.db_model.specs.Database.{Database};
ghost use Rattle.proj_store.specs.Reading.{BlamesLoad};
ghost use Rattle.proj_store.specs.Sound.{IsLoadable};
ghost use Rattle.sound_laws.specs.Moves.{reached_at};
ghost use Rattle.store_commit.specs.Making.{Makes};
ghost use Rattle.store_commit.specs.Seen.{Stands};
ghost use Rattle.stored_rows.specs.Held.{Holds};
ghost use Rattle.stored_rows.specs.Stored.{IsLoaded};
ghost use Rattle.table_store.specs.Installing.{HoldsTable, IsRenewalAt, PutsEntry};
ghost use Rattle.table_store.specs.Moving.{with_entry_at};

use super::{MOST_NUMBERS, TableStore, files_of, version_of};
use crate::moving::entry_copy;
use crate::next::with_entry_at;
use catalog_types::Projection;
use col_disk::{Disk, StoreFault};
use proj_store::ProjStore;
use std::alloc::{AllocError, Global};
use store_commit::settle;
use stored_rows::what_is_read_is_stored;

/// The projection of an entry, read from the disk.
fn read_again<D: Disk>(
    alloc: Global,
    entry: &Projection,
    disk: &mut D,
) -> Result<ProjStore, StoreFault>
    requires { IsLoadable entry.now }
    ensures entry { IfOk result (λ p. p.stored.entry ≡ entry.now) }
    ensures loaded { IfOk result (λ p. (m : Contents) → D.holds disk.old ≡ Some m → IsLoaded m p.stored) }
    ensures blamed { IfErr result (BlamesLoad entry.now.containers (D.holds disk.old)) }
    ensures looks { Looks ⟦<D as Disk>⟧ disk.old disk.new }
    ensures cause { HasCause StoreFault.Disk (D.faults disk.old) (D.faults disk.new) result }
{
    match entry_copy(alloc, entry) {
        Ok(copy) => ProjStore::load(alloc, copy, disk),
        Err(AllocError) => Err(StoreFault::Memory),
    }
}

impl TableStore {
    /// The projection at a place has another entry from now on, whose files were written under numbers below `next`: a catalogue with it
    /// becomes the one that the disk opens to. Numbers from 2^61 on are answered as want of memory. `Damaged` names a delete vector that
    /// reads otherwise than the entry says.
    pub fn install<D: Disk>(
        &mut self,
        alloc: Global,
        table: usize,
        place: usize,
        entry: Projection,
        next: u64,
        disk: &mut D,
    ) -> Result<(), StoreFault>
        requires there { IsRenewalAt self.old.stores table place entry }
        requires loadable { IsLoadable entry }
        requires drawn { self.old.catalogue.next ≤ next }
        requires reached { self.old.catalogue.ahm ≤ entry.lge }
        requires closed { entry.lge ≤ self.old.catalogue.last }
        ensures made { (d : Database) → (stands : Stands ⟦<D as Disk>⟧ self.old disk.old d) → HoldsTable stands.files table entry d
            → Makes ⟦<D as Disk>⟧ no_memory self.old self.new disk.old disk.new result d (reached_at entry.lge table place d) }
        ensures catalogue { OnOk result (self.new.catalogue ≡ with_entry_at self.old.catalogue.last next table place entry self.old.catalogue) }
        ensures puts { OnOk result (PutsEntry table place entry (D.holds disk.old) self.old.stores self.new.stores) }
        ensures unblamed { IfErr result (λ fault. (m : Contents) (held : Items Stamped) → D.holds disk.old ≡ Some m → Holds m entry held → IsUnblamed fault) }
        ensures blamed { IfErr result (BlamesLoad entry.containers (D.holds disk.old)) }
        ensures unwritten { IfErr result (λ fault. (IsUnblamed fault → ⊥) → D.holds disk.new ≡ D.holds disk.old) }
        ensures same { OnErr result (self.new ≡ self.old) }
        ensures cause { HasCause StoreFault.Disk (D.faults disk.old) (D.faults disk.new) result }
    {
        what_is_read_is_stored();
        if next >= MOST_NUMBERS {
            return Err(StoreFault::Memory);
        }
        let store = match read_again(alloc, &entry, disk) {
            Ok(store) => store,
            Err(fault) => return Err(fault),
        };
        let catalogue = match with_entry_at(
            alloc, &self.root, self.last, next, table, place, entry,
        ) {
            Ok(catalogue) => catalogue,
            Err(AllocError) => return Err(StoreFault::Memory),
        };
        let gone = files_of(alloc, &self.root, table);
        match settle(
            alloc,
            disk,
            version_of(&self.root),
            gone.as_slice(),
            next,
            &catalogue,
        ) {
            Ok(()) => {}
            Err(fault) => return Err(StoreFault::from(fault)),
        }
        self.root = catalogue;
        self.tables[table].replace(place, store);
        Ok(())
    }
}
