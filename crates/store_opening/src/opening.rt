//! The opening.

ghost use Rattle.std.specs.Prelude.{ℕ, ◌≡◌, ◌⊎◌, ◌&&◌, ◌+◌, ◌<◌, ◌≤◌, nat_lt, Some, true, false, map, IfOk, IfErr};
ghost use Rattle.std.specs.List.{All, list_any};
ghost use Rattle.common_laws.specs.Causes.{HasCause};
ghost use Rattle.common_laws.specs.Maps.{Contents};
ghost use Rattle.col_disk.specs.Moved.{Moved, Looks, Leaves, ImageOf, NoName};
ghost use Rattle.catalog_types.specs.Numbers.{store_count};
ghost use Rattle.catalog_types.specs.Reached.{least_lge, is_past};
ghost use Rattle.catalog_types.specs.Valid.{IsValid};
ghost use Rattle.catalog_types.specs.declared.catalogue.Catalogue.{Catalogue as Listing};
ghost use Rattle.catalog_root.specs.Listed.{IsUnlisted};
ghost use Rattle.catalog_root.specs.Root.{IsBody, IsRoot};
ghost use Rattle.container_writer.specs.Writing.{DataFrom};
ghost use Rattle.container_cut.specs.Cutting.{Between};
ghost use Rattle.cut_job.specs.Blamed as damage;
ghost use Rattle.cut_job.specs.Cutting.{CutsCatalogue};
ghost use Rattle.cut_job.specs.Listed.{HasLoadable};
ghost use Rattle.cut_model.specs.Loaded.{LoadedStores};
ghost use Rattle.db_model.specs.Database.{Database};
ghost use Rattle.folder_model.specs.Reopening.{Reopens};
ghost use Rattle.store_commit.specs.Seen.{Stands};
ghost use Rattle.table_store.specs.Held.{projections_of};
ghost use Rattle.store_opening.specs.Loading.{AreEntriesOf, BlamesTables};
ghost use Rattle.store_opening.specs.Opening.{BlamesListed, BlamesOpening, HasBegunCut, IsLeftAlone, IsOpenedFrom, IsOpenedOf, IsOpening, IsQuietFor, IsStill, IsThere, WhereBlamed};

use crate::loading::load_tables;
use crate::missing::look_for_files;
use catalog_root::Found;
use catalog_types::{Catalogue, Table};
use col_disk::{Disk, StoreFault};
use cut_job::cut_catalogue;
use cut_model::{a_cut_reopens, a_loaded_cut_is_the_database, a_loaded_folder_is_the_database};
use std::alloc::Global;
use store_commit::{settle_listed, tidy};
use table_store::{Parts, TableStore};

/// The tables of a folder. `Damaged` names a file that keeps it from opening: the body of the greatest open gate, a data file where no gate
/// is open, or a listed file that is absent or not what it has to be. Where nothing is past the epoch that all projections have reached no file is
/// written, and of the files that are removed none is listed.
pub fn open<D: Disk>(alloc: Global, disk: &mut D) -> Result<TableStore, StoreFault>
    ensures stands { IfOk result (λ s. (m : Contents) (d : Database) → D.holds disk.old ≡ Some m → Reopens m d → Stands ⟦<D as Disk>⟧ s disk.new d) }
    ensures numbers { IfOk result (λ s. (m : Contents) (d : Database) → D.holds disk.old ≡ Some m → Reopens m d → IsOpenedOf m s.catalogue) }
    ensures any_moment { (m : Contents) (d : Database) → D.holds disk.old ≡ Some m → Reopens m d → Leaves ⟦<D as Disk>⟧ (IsStill ⟦<D as Disk>⟧ disk.old d) disk.old disk.new }
    ensures unwritten { (m : Contents) (v : ℕ) (c : Listing) → D.holds disk.old ≡ Some m → IsRoot m v c → is_past c (least_lge c) ≡ false → Moved ⟦<D as Disk>⟧ NoName (IsUnlisted v c) disk.old disk.new }
    ensures opens { IfOk result (λ s. (m : Contents) → D.holds disk.old ≡ Some m → IsOpening m) }
    ensures blamed { IfErr result (BlamesOpening (D.holds disk.old)) }
    ensures untouched { IfErr result (WhereBlamed (IsLeftAlone ⟦<D as Disk>⟧ disk.old disk.new)) }
    ensures cause { HasCause StoreFault.Disk (D.faults disk.old) (D.faults disk.new) result }
{
    match catalog_root::open(alloc, disk) {
        Ok(Found::Fresh) => Ok(TableStore::empty(alloc)),
        Ok(Found::Root { version, catalogue }) => open_root(alloc, disk, version, catalogue),
        Err(fault) => Err(fault),
    }
}

fn table_past(t: &Table, epoch: u64) -> bool
    ensures { result ≡ list_any (λ p. p.fresh && nat_lt epoch p.lge) t.now.projections }
{
    t.projections
        .as_slice()
        .iter()
        .any(|p| p.fresh && epoch < p.lge)
}

fn tables_past(tables: &[Table], epoch: u64) -> bool
    ensures { result ≡ list_any (λ t. list_any (λ p. p.fresh && nat_lt epoch p.lge) t.projections) tables.now }
{
    tables.iter().any(|t| table_past(t, epoch))
}

/// Whether a catalogue goes past an epoch.
fn is_past(c: &Catalogue, epoch: u64) -> bool
    ensures { result ≡ is_past c.now epoch }
{
    epoch < c.last || tables_past(c.tables.as_slice(), epoch)
}

/// The tables of a catalogue that the disk opens to.
fn open_root<D: Disk>(
    alloc: Global,
    disk: &mut D,
    version: u64,
    catalogue: Catalogue,
) -> Result<TableStore, StoreFault>
    requires { IsBody version catalogue }
    ensures stands { IfOk result (λ s. (m : Contents) (d : Database) → IsQuietFor ⟦<D as Disk>⟧ disk.old version catalogue d m → Stands ⟦<D as Disk>⟧ s disk.new d) }
    ensures numbers { IfOk result (λ s. (m : Contents) (d : Database) → IsQuietFor ⟦<D as Disk>⟧ disk.old version catalogue d m → IsOpenedFrom catalogue s.catalogue) }
    ensures any_moment { (m : Contents) (d : Database) → IsQuietFor ⟦<D as Disk>⟧ disk.old version catalogue d m → Leaves ⟦<D as Disk>⟧ (λ x. Reopens x d) disk.old disk.new }
    ensures there { IfOk result (λ s. (m : Contents) → D.holds disk.old ≡ Some m → IsThere m catalogue) }
    ensures blamed { IfErr result (BlamesListed catalogue (D.holds disk.old)) }
    ensures untouched { IfErr result (WhereBlamed (Looks ⟦<D as Disk>⟧ disk.old disk.new ⊎ HasBegunCut ⟦<D as Disk>⟧ catalogue disk.old disk.new)) }
    ensures unwritten { is_past catalogue (least_lge catalogue) ≡ false → Moved ⟦<D as Disk>⟧ NoName (IsUnlisted version catalogue) disk.old disk.new }
    ensures cause { HasCause StoreFault.Disk (D.faults disk.old) (D.faults disk.new) result }
{
    if is_past(&catalogue, catalogue.least_lge()) {
        recover(alloc, disk, version, catalogue)
    } else {
        keep(alloc, disk, version, catalogue)
    }
}

/// The tables of a catalogue that needs no cut: its delete vectors are read, and what it doesn't list is removed.
fn keep<D: Disk>(
    alloc: Global,
    disk: &mut D,
    version: u64,
    catalogue: Catalogue,
) -> Result<TableStore, StoreFault>
    requires body { IsBody version catalogue }
    requires whole { is_past catalogue (least_lge catalogue) ≡ false }
    ensures stands { IfOk result (λ s. (m : Contents) (d : Database) → IsQuietFor ⟦<D as Disk>⟧ disk.old version catalogue d m → Stands ⟦<D as Disk>⟧ s disk.new d) }
    ensures numbers { IfOk result (λ s. (m : Contents) (d : Database) → IsQuietFor ⟦<D as Disk>⟧ disk.old version catalogue d m → IsOpenedFrom catalogue s.catalogue) }
    ensures any_moment { (m : Contents) (d : Database) → IsQuietFor ⟦<D as Disk>⟧ disk.old version catalogue d m → Leaves ⟦<D as Disk>⟧ (λ x. Reopens x d) disk.old disk.new }
    ensures there { IfOk result (λ s. (m : Contents) → D.holds disk.old ≡ Some m → IsThere m catalogue) }
    ensures blamed { IfErr result (BlamesListed catalogue (D.holds disk.old)) }
    ensures untouched { IfErr result (WhereBlamed (Looks ⟦<D as Disk>⟧ disk.old disk.new)) }
    ensures unwritten { Moved ⟦<D as Disk>⟧ NoName (IsUnlisted version catalogue) disk.old disk.new }
    ensures cause { HasCause StoreFault.Disk (D.faults disk.old) (D.faults disk.new) result }
{
    a_loaded_folder_is_the_database();
    let tables = match load_root(alloc, disk, &catalogue) {
        Ok(tables) => tables,
        Err(fault) => return Err(fault),
    };
    match tidy(alloc, disk, version, &catalogue) {
        Ok(()) => Ok(TableStore::of(catalogue, tables)),
        Err(fault) => Err(StoreFault::from(fault)),
    }
}

/// The projections of a catalogue, each file of which is there.
fn load_root<D: Disk>(
    alloc: Global,
    disk: &mut D,
    root: &Catalogue,
) -> Result<Vec<Parts>, StoreFault>
    requires { IsValid root.now }
    ensures entries { IfOk result (λ v. AreEntriesOf root.now v.items) }
    ensures loaded { IfOk result (λ v. (m : Contents) → D.holds disk.old ≡ Some m → LoadedStores m root.now (map projections_of v.items)) }
    ensures there { IfOk result (λ v. (m : Contents) → D.holds disk.old ≡ Some m → IsThere m root.now) }
    ensures blamed { IfErr result (BlamesListed root.now (D.holds disk.old)) }
    ensures looks { Looks ⟦<D as Disk>⟧ disk.old disk.new }
    ensures cause { HasCause StoreFault.Disk (D.faults disk.old) (D.faults disk.new) result }
{
    match look_for_files(alloc, disk, root) {
        Ok(()) => {}
        Err(fault) => return Err(fault),
    }
    load_tables(alloc, disk, root.tables.as_slice())
}

/// The catalogue cut, with its version as the last number that was drawn. One that couldn't be opened again is answered as want of memory.
fn cut_root<D: Disk>(alloc: Global, c: &Catalogue, disk: &mut D) -> Result<Catalogue, StoreFault>
    requires { IsValid c.now }
    ensures valid { IfOk result (λ r. IsValid r) }
    ensures cut { IfOk result (λ r. Between (CutsCatalogue c.now r) (D.holds disk.old) (D.holds disk.new)) }
    ensures next { IfOk result (λ r. c.now.next < r.next) }
    ensures few { IfOk result (λ r. r.next ≤ c.now.next + store_count c.now + 1) }
    ensures loadable { IfOk result (λ r. All HasLoadable r.tables) }
    ensures blamed { IfErr result (damage.BlamesInTables c.now.tables (D.holds disk.old)) }
    ensures moved { Moved ⟦<D as Disk>⟧ (DataFrom c.now.next) NoName disk.old disk.new }
    ensures cause { HasCause StoreFault.Disk (D.faults disk.old) (D.faults disk.new) result }
{
    match cut_catalogue(alloc, c, disk) {
        Ok(done) => {
            let root = Catalogue {
                next: done.next.saturating_add(1),
                ..done
            };
            if !root.valid() {
                return Err(StoreFault::Memory);
            }
            Ok(root)
        }
        Err(fault) => Err(fault),
    }
}

/// The tables of a catalogue that is cut first. Its projections are read before that, too, so that each delete vector that can't be read
/// is blamed while the catalogue that lists it is still the one of the disk. What the cut wrote reads as it was written; a disk of which
/// that isn't so is answered as want of memory.
fn recover<D: Disk>(
    alloc: Global,
    disk: &mut D,
    version: u64,
    catalogue: Catalogue,
) -> Result<TableStore, StoreFault>
    requires body { IsBody version catalogue }
    requires past { is_past catalogue (least_lge catalogue) ≡ true }
    ensures stands { IfOk result (λ s. (m : Contents) (d : Database) → IsQuietFor ⟦<D as Disk>⟧ disk.old version catalogue d m → Stands ⟦<D as Disk>⟧ s disk.new d) }
    ensures numbers { IfOk result (λ s. (m : Contents) (d : Database) → IsQuietFor ⟦<D as Disk>⟧ disk.old version catalogue d m → IsOpenedFrom catalogue s.catalogue) }
    ensures any_moment { (m : Contents) (d : Database) → IsQuietFor ⟦<D as Disk>⟧ disk.old version catalogue d m → Leaves ⟦<D as Disk>⟧ (λ x. Reopens x d) disk.old disk.new }
    ensures there { IfOk result (λ s. (m : Contents) → D.holds disk.old ≡ Some m → IsThere m catalogue) }
    ensures blamed { IfErr result (BlamesListed catalogue (D.holds disk.old)) }
    ensures untouched { IfErr result (WhereBlamed (Looks ⟦<D as Disk>⟧ disk.old disk.new ⊎ HasBegunCut ⟦<D as Disk>⟧ catalogue disk.old disk.new)) }
    ensures cause { HasCause StoreFault.Disk (D.faults disk.old) (D.faults disk.new) result }
{
    a_cut_reopens();
    a_loaded_cut_is_the_database();
    match load_root(alloc, disk, &catalogue) {
        Ok(_) => {}
        Err(fault) => return Err(fault),
    }
    let root = match cut_root(alloc, &catalogue, disk) {
        Ok(root) => root,
        Err(fault) => return Err(fault),
    };
    let tables = match load_root(alloc, disk, &root) {
        Ok(tables) => tables,
        Err(StoreFault::Disk) => return Err(StoreFault::Disk),
        Err(_) => return Err(StoreFault::Memory),
    };
    match settle_listed(alloc, disk, root.next - 1, &root) {
        Ok(()) => Ok(TableStore::of(root, tables)),
        Err(fault) => Err(StoreFault::from(fault)),
    }
}
