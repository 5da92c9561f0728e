//! Whether the disk opens to the tables of a store.

ghost use Rattle.std.specs.Prelude.{ℕ, ◌≡◌, IfErr, IfOk, IsTrue};
ghost use Rattle.common_laws.specs.Causes.{HasCause};
ghost use Rattle.col_disk.specs.Faults.{IsUnblamed};
ghost use Rattle.col_disk.specs.Moved.{Moved, NoName};
ghost use Rattle.col_disk.specs.declared.disk.StoreFault.TheVariants.{Damaged};
ghost use Rattle.store_core.specs.Named.{NamesHeld, NamesListed};
ghost use Rattle.store_core.specs.Rooted.{IsRootWith};

use super::Store;
use catalog_root::Found;
use catalog_types::Table;
use col_disk::{Disk, StoreFault};
use col_value::orders_are_exact;
use std::alloc::Global;

fn are_same(one: &[Table], other: &[Table]) -> bool
    ensures { IsTrue result → one.now ≡ other.now }
{
    orders_are_exact();
    one == other
}

/// Whether a disk that opens so has a root with these tables.
fn has_tables(found: &Found, tables: &[Table]) -> bool
    ensures { IsTrue result → IsRootWith tables.now found.now }
{
    match found {
        Found::Fresh => false,
        Found::Root { catalogue, .. } => are_same(catalogue.tables.as_slice(), tables),
    }
}

impl Store {
    /// Whether the disk opens to a root with the store's tables: where it does, a file that a fault named of one of the store's projections is
    /// one that the root lists. Nothing is written; what earlier calls wrote is made to last first.
    pub fn is_rooted<D: Disk>(&self, alloc: Global, disk: &mut D) -> Result<bool, StoreFault>
        ensures listed { IfOk result (λ rooted. (q : ℕ) → IsTrue rooted → NamesHeld ⟦<D as Disk>⟧ self.now disk.old (Damaged q) → NamesListed ⟦<D as Disk>⟧ q disk.new) }
        ensures unblamed { IfErr result IsUnblamed }
        ensures kept { D.holds disk.new ≡ D.holds disk.old }
        ensures moved { Moved ⟦<D as Disk>⟧ NoName NoName disk.old disk.new }
        ensures cause { HasCause StoreFault.Disk (D.faults disk.old) (D.faults disk.new) result }
    {
        let root = self.tables.root();
        match catalog_root::open(alloc, disk) {
            Ok(found) => Ok(has_tables(&found, root.tables.as_slice())),
            Err(StoreFault::Disk) => Err(StoreFault::Disk),
            Err(StoreFault::Damaged(_)) => Ok(false),
            Err(StoreFault::Memory) => Err(StoreFault::Memory),
        }
    }
}
