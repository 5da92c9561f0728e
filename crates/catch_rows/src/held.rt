//! The rows that the files of some containers of a projection hold.

ghost use Rattle.std.specs.Prelude.{◌≡◌, Some, true, IfOk, IfErr, List as Items};
ghost use Rattle.std.specs.List.{All};
ghost use Rattle.common_laws.specs.Causes.{HasCause};
ghost use Rattle.common_laws.specs.Maps.{Contents};
ghost use Rattle.col_disk.specs.Faults.{IsUnblamed};
ghost use Rattle.col_disk.specs.Moved.{Moved, NoName};
ghost use Rattle.col_value.specs.Order.{IsRow};
ghost use Rattle.col_value.specs.declared.row.Stamped.{Stamped as AStamped};
ghost use Rattle.proj_store.specs.Sound.{IsLoadable};
ghost use Rattle.stored_rows.specs.Held.{Holds};
ghost use Rattle.catch_rows.specs.Sharing.{with_containers, IsRestOf};

use catalog_types::{Container, Projection, copy_proj_columns};
use col_disk::{Disk, StoreFault};
use col_value::{List, Stamped};
use proj_store::{ProjStore, vectors_are_those_of_the_disk};
use row_matching::retain;
use std::alloc::{AllocError, Global};
use stored_rows::what_is_read_is_stored;

/// The entry with these containers.
fn entry_with(
    alloc: Global,
    entry: &Projection,
    containers: Vec<Container>,
) -> Result<Projection, AllocError>
    ensures { IfOk result (λ p. p ≡ with_containers containers.items entry.now) }
{
    Ok(Projection {
        name: entry.name.copy(alloc)?,
        columns: List::new(copy_proj_columns(alloc, entry.columns.as_slice())?),
        sort: List::new(Vec::from_slice(alloc, entry.sort.as_slice())?),
        fresh: entry.fresh,
        lge: entry.lge,
        born: entry.born,
        containers: List::new(containers),
    })
}

/// The rows that these containers of a projection hold on the disk.
fn rows_in<D: Disk>(
    alloc: Global,
    entry: &Projection,
    containers: Vec<Container>,
    disk: &mut D,
) -> Result<Vec<Stamped>, StoreFault>
    requires { IsLoadable (with_containers containers.items entry.now) }
    ensures found { IfOk result (λ v. (m : Contents) → D.holds disk.old ≡ Some m → Holds m (with_containers containers.items entry.now) v.items) }
    ensures unblamed { IfErr result (λ fault. (m : Contents) (rows : Items AStamped) → D.holds disk.old ≡ Some m → entry.now.fresh ≡ true → Holds m (with_containers containers.items entry.now) rows → IsUnblamed fault) }
    ensures kept { D.holds disk.new ≡ D.holds disk.old }
    ensures moved { Moved ⟦<D as Disk>⟧ NoName NoName disk.old disk.new }
    ensures cause { HasCause StoreFault.Disk (D.faults disk.old) (D.faults disk.new) result }
{
    what_is_read_is_stored();
    vectors_are_those_of_the_disk();
    let part = match entry_with(alloc, entry, containers) {
        Ok(part) => part,
        Err(AllocError) => return Err(StoreFault::Memory),
    };
    let store = match ProjStore::load(alloc, part, disk) {
        Ok(store) => store,
        Err(fault) => return Err(fault),
    };
    store.stamped(alloc, disk)
}

/// Those of them that are retained from a mark on, with the columns of the table.
pub fn rest_of<D: Disk>(
    alloc: Global,
    entry: &Projection,
    containers: Vec<Container>,
    mark: u64,
    places: &[Option<usize>],
    disk: &mut D,
) -> Result<Vec<Stamped>, StoreFault>
    requires { IsLoadable (with_containers containers.items entry.now) }
    ensures found { IfOk result (λ v. IsRestOf (D.holds disk.old) mark places.now (with_containers containers.items entry.now) v.items) }
    ensures valid { IfOk result (λ v. All (λ s. IsRow s.row) v.items) }
    ensures unblamed { IfErr result (λ fault. (m : Contents) (rows : Items AStamped) → D.holds disk.old ≡ Some m → entry.now.fresh ≡ true → Holds m (with_containers containers.items entry.now) rows → IsUnblamed fault) }
    ensures kept { D.holds disk.new ≡ D.holds disk.old }
    ensures moved { Moved ⟦<D as Disk>⟧ NoName NoName disk.old disk.new }
    ensures cause { HasCause StoreFault.Disk (D.faults disk.old) (D.faults disk.new) result }
{
    let rows = match rows_in(alloc, entry, containers, disk) {
        Ok(rows) => rows,
        Err(fault) => return Err(fault),
    };
    match retain(alloc, mark, places, rows.as_slice()) {
        Ok(kept) => Ok(kept),
        Err(AllocError) => Err(StoreFault::Memory),
    }
}
