//! Reading the projections of a catalogue.

ghost use Rattle.std.specs.Prelude.{◌≡◌, Some, map, IfOk, IfErr};
ghost use Rattle.std.specs.List.{All, AllZip};
ghost use Rattle.common_laws.specs.Causes.{HasCause};
ghost use Rattle.common_laws.specs.Maps.{Contents};
ghost use Rattle.col_disk.specs.Moved.{Looks};
ghost use Rattle.proj_store.specs.Sound.{IsLoadable};
ghost use Rattle.proj_store.specs.Reading.{BlamesLoad};
ghost use Rattle.stored_rows.specs.Stored.{IsLoaded};
ghost use Rattle.cut_model.specs.Loaded.{IsLoadedEntry, AreLoadedEntries};
ghost use Rattle.table_store.specs.Held.{projections_of};
ghost use Rattle.store_opening.specs.Loading.{entries_of, BlamesEntries, BlamesTables};

use catalog_types::{Projection, Table};
use col_disk::{Disk, StoreFault};
use proj_store::ProjStore;
use std::alloc::{AllocError, Global};
use table_store::{Parts, entry_copy};

/// The projection of an entry.
fn load_one<D: Disk>(
    alloc: Global,
    disk: &mut D,
    entry: &Projection,
) -> Result<ProjStore, StoreFault>
    requires { IsLoadable entry.now }
    ensures entry { IfOk result (λ p. p.stored.entry ≡ entry.now) }
    ensures loaded { IfOk result (λ p. (m : Contents) → D.holds disk.old ≡ Some m → IsLoaded m p.stored) }
    ensures blamed { IfErr result (BlamesLoad entry.now.containers (D.holds disk.old)) }
    ensures looks { Looks ⟦<D as Disk>⟧ disk.old disk.new }
    ensures cause { HasCause StoreFault.Disk (D.faults disk.old) (D.faults disk.new) result }
{
    match entry_copy(alloc, entry) {
        Ok(entry) => ProjStore::load(alloc, entry, disk),
        Err(AllocError) => Err(StoreFault::Memory),
    }
}

/// The projections of a table.
fn load_table<D: Disk>(
    alloc: Global,
    disk: &mut D,
    entries: &[Projection],
) -> Result<Vec<ProjStore>, StoreFault>
    requires { All IsLoadable entries.now }
    ensures entries { IfOk result (λ v. entries_of v.items ≡ entries.now) }
    ensures loaded { IfOk result (λ v. (m : Contents) → D.holds disk.old ≡ Some m → AllZip (IsLoadedEntry m) entries.now (projections_of v.items)) }
    ensures blamed { IfErr result (BlamesEntries entries.now (D.holds disk.old)) }
    ensures looks { Looks ⟦<D as Disk>⟧ disk.old disk.new }
    ensures cause { HasCause StoreFault.Disk (D.faults disk.old) (D.faults disk.new) result }
{
    let mut out = Vec::new(alloc);
    for entry in entries {
        let one = match load_one(alloc, disk, entry) {
            Ok(one) => one,
            Err(fault) => return Err(fault),
        };
        match out.push(one) {
            Ok(()) => {}
            Err(_) => return Err(StoreFault::Memory),
        }
    }
    Ok(out)
}

/// The projections of each table.
pub fn load_tables<D: Disk>(
    alloc: Global,
    disk: &mut D,
    tables: &[Table],
) -> Result<Vec<Parts>, StoreFault>
    requires { All (λ t. All IsLoadable t.projections) tables.now }
    ensures entries { IfOk result (λ v. map entries_of v.items ≡ map (λ t. t.projections) tables.now) }
    ensures loaded { IfOk result (λ v. (m : Contents) → D.holds disk.old ≡ Some m → AllZip (AreLoadedEntries m) tables.now (map projections_of v.items)) }
    ensures blamed { IfErr result (BlamesTables tables.now (D.holds disk.old)) }
    ensures looks { Looks ⟦<D as Disk>⟧ disk.old disk.new }
    ensures cause { HasCause StoreFault.Disk (D.faults disk.old) (D.faults disk.new) result }
{
    let mut out = Vec::new(alloc);
    for table in tables {
        let parts = match load_table(alloc, disk, table.projections.as_slice()) {
            Ok(parts) => parts,
            Err(fault) => return Err(fault),
        };
        match out.push(Parts::new(parts)) {
            Ok(()) => {}
            Err(_) => return Err(StoreFault::Memory),
        }
    }
    Ok(out)
}
