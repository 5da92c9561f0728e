//! The first file that a catalogue lists and a folder lacks.
//!
//! A changed byte may make a catalogue one that lists other files. It is met here, before anything is removed that it doesn't list.

ghost use Rattle.std.specs.Prelude.{◌≡◌, ℕ, Contains, IfErr, IfNone, IfSome, IsTrue, OnOk, Some, false};
ghost use Rattle.std.specs.List.{All, Any};
ghost use Rattle.common_laws.specs.Causes.{HasCause};
ghost use Rattle.common_laws.specs.Maps.{Contents};
ghost use Rattle.catalog_types.specs.Valid.{IsValid};
ghost use Rattle.col_disk.specs.Moved.{Looks};
ghost use Rattle.stored_rows.specs.Listed.{IsVectorFile};
ghost use Rattle.store_opening.specs.Missing.{HasFilesAmong, HasFilesIn, HasFilesOf, HasNames, HasNamesAmong, HasNamesIn, IsAbsent, IsMissingAmong, IsMissingIn, IsMissingOf, IsNameable};
ghost use Rattle.store_opening.specs.Opening.{BlamesAbsent, HasFiles, OfEach, WhereBlamedAt};

use catalog_types::{Catalogue, Container, Projection, Table};
use col_disk::{Disk, StoreFault};
use std::alloc::Global;

fn is_there(names: &[u64], name: u64) -> bool
    ensures absent { result ≡ false → IsAbsent names.now name }
    ensures there { IsTrue result → Contains names.now name }
{
    names.binary_search(&name).is_ok()
}

fn missing_vector(names: &[u64], marks: Option<u64>) -> Option<u64>
    requires { IsNameable marks }
    ensures listed { IfSome result (IsVectorFile marks) }
    ensures absent { IfSome result (IsAbsent names.now) }
    ensures none { IfNone result ((q : ℕ) → IsVectorFile marks q → Contains names.now q) }
{
    match marks {
        Some(number) => {
            let name = 4 * number;
            if is_there(names, name) {
                return None;
            }
            Some(name)
        }
        None => None,
    }
}

/// The first file of a container that isn't among the names, or its delete vector.
fn missing_of(names: &[u64], container: &Container) -> Option<u64>
    requires { HasNames container.now }
    ensures some { IfSome result (λ q. IsMissingOf names.now q container.now) }
    ensures none { IfNone result (HasFilesOf names.now container.now) }
{
    for j in 0..2 * (container.stored + 1) {
        let name = 4 * (container.base + j);
        if !is_there(names, name) {
            return Some(name);
        }
    }
    missing_vector(names, container.marks)
}

fn missing_in(names: &[u64], containers: &[Container]) -> Option<u64>
    requires { All HasNames containers.now }
    ensures some { IfSome result (λ q. Any (IsMissingOf names.now q) containers.now) }
    ensures none { IfNone result (All (HasFilesOf names.now) containers.now) }
{
    for container in containers {
        match missing_of(names, container) {
            Some(name) => return Some(name),
            None => {}
        }
    }
    None
}

fn missing_among(names: &[u64], projections: &[Projection]) -> Option<u64>
    requires { All HasNamesIn projections.now }
    ensures some { IfSome result (λ q. Any (IsMissingIn names.now q) projections.now) }
    ensures none { IfNone result (All (HasFilesIn names.now) projections.now) }
{
    for projection in projections {
        match missing_in(names, projection.containers.as_slice()) {
            Some(name) => return Some(name),
            None => {}
        }
    }
    None
}

fn missing(names: &[u64], tables: &[Table]) -> Option<u64>
    requires { All HasNamesAmong tables.now }
    ensures some { IfSome result (λ q. Any (IsMissingAmong names.now q) tables.now) }
    ensures none { IfNone result (All (HasFilesAmong names.now) tables.now) }
{
    for table in tables {
        match missing_among(names, table.projections.as_slice()) {
            Some(name) => return Some(name),
            None => {}
        }
    }
    None
}

/// Whether each file that a catalogue lists is there; the first one that isn't is damaged.
pub fn look_for_files<D: Disk>(
    alloc: Global,
    disk: &mut D,
    root: &Catalogue,
) -> Result<(), StoreFault>
    requires { IsValid root.now }
    ensures there { OnOk result ((m : Contents) → D.holds disk.old ≡ Some m → OfEach (HasFiles m) root.now) }
    ensures blamed { IfErr result (WhereBlamedAt (BlamesAbsent root.now (D.holds disk.old))) }
    ensures looks { Looks ⟦<D as Disk>⟧ disk.old disk.new }
    ensures cause { HasCause StoreFault.Disk (D.faults disk.old) (D.faults disk.new) result }
{
    let names = match disk.names(alloc) {
        Ok(names) => names,
        Err(fault) => return Err(StoreFault::from(fault)),
    };
    match missing(names.as_slice(), root.tables.as_slice()) {
        Some(name) => Err(StoreFault::Damaged(name)),
        None => Ok(()),
    }
}
