//! The rows of chosen containers.

ghost use Rattle.std.specs.Prelude.{◌≡◌, ◌<◌, List, Some, length, map, slice_index_or, false, IfOk, IfErr, OnOk};
ghost use Rattle.std.specs.List.{All};
ghost use Rattle.common_laws.specs.Causes.{HasCause};
ghost use Rattle.common_laws.specs.Maps.{Contents};
ghost use Rattle.col_disk.specs.Moved.{Moved, NoName};
ghost use Rattle.ros_container.specs.Encodings.{written_of};
ghost use Rattle.ros_container.specs.Held.{BlamesContainer};
ghost use Rattle.ros_container.specs.Readable.{IsReadable};
ghost use Rattle.ros_container.specs.Rows.{AreWide};
ghost use Rattle.col_value.specs.declared.row.Asked.{Asked};
ghost use Rattle.row_history.specs.History.{asked_on};
ghost use Rattle.proj_store.specs.Reading.{BlamesRows};
ghost use Rattle.merge_rows.specs.Inputs.{chosen};
ghost use Rattle.container_draft.specs.Reading.{JoinsIf, HoldEach, HoldEachOn};

use crate::all::{all_flags, all_places};
use crate::loading::read_lanes;
use crate::ordering::are_below;
use crate::rows::Rows;
use catalog_types::{Container, Projection};
use col_disk::{Disk, StoreFault};
use col_file::one_column;
use proj_store::ProjStore;
use std::alloc::{AllocError, Global};

/// Whether the container at a place is chosen.
pub fn is_chosen(inputs: &[bool], place: usize) -> bool
    ensures { result ≡ slice_index_or inputs.now place false }
{
    match inputs.get(place) {
        Some(chosen) => *chosen,
        None => false,
    }
}

/// The rows of a container, with its columns at some places alone, join others where they are wanted.
fn read_if<D: Disk>(
    alloc: Global,
    disk: &mut D,
    shape: &Projection,
    container: &Container,
    via: &[usize],
    wanted: bool,
    rows: &mut Rows,
) -> Result<(), StoreFault>
    requires readable { IsReadable shape.now.columns container.now }
    requires columns { All (λ i. i < length shape.now.columns) via.now }
    ensures read { OnOk result ((m : Contents) → D.holds disk.old ≡ Some m → JoinsIf wanted m (written_of shape.now) via.now container.now rows.old rows.new) }
    ensures wide { OnOk result (AreWide (length via.now) rows.old → AreWide (length via.now) rows.new) }
    ensures blamed { IfErr result (BlamesContainer (written_of shape.now) container.now (D.holds disk.old)) }
    ensures kept { D.holds disk.new ≡ D.holds disk.old }
    ensures moved { Moved ⟦<D as Disk>⟧ NoName NoName disk.old disk.new }
    ensures cause { HasCause StoreFault.Disk (D.faults disk.old) (D.faults disk.new) result }
{
    if !wanted {
        return Ok(());
    }
    let lanes = match read_lanes(alloc, disk, container, shape, via) {
        Ok(lanes) => lanes,
        Err(fault) => return Err(fault),
    };
    match rows.push(lanes) {
        Ok(()) => Ok(()),
        Err(AllocError) => Err(StoreFault::Memory),
    }
}

/// The rows of the chosen containers, with their columns at some places alone.
fn read_chosen<D: Disk>(
    alloc: Global,
    disk: &mut D,
    p: &ProjStore,
    inputs: &[bool],
    via: &[usize],
) -> Result<Rows, StoreFault>
    requires { All (λ i. i < length p.now.stored.entry.columns) via.now }
    ensures read { IfOk result (λ v. (m : Contents) → D.holds disk.old ≡ Some m → HoldEachOn m (written_of p.now.stored.entry) via.now (chosen inputs.now p.now.stored.entry.containers) v) }
    ensures wide { IfOk result (AreWide (length via.now)) }
    ensures blamed { IfErr result (BlamesRows p.now.stored.entry (D.holds disk.old)) }
    ensures kept { D.holds disk.new ≡ D.holds disk.old }
    ensures moved { Moved ⟦<D as Disk>⟧ NoName NoName disk.old disk.new }
    ensures cause { HasCause StoreFault.Disk (D.faults disk.old) (D.faults disk.new) result }
{
    let shape = p.entry();
    let containers = shape.containers.as_slice();
    let mut rows = Rows::of(alloc, Vec::new(alloc));
    for (i, container) in containers.iter().enumerate() {
        let wanted = is_chosen(inputs, i);
        match read_if(alloc, disk, shape, container, via, wanted, &mut rows) {
            Ok(()) => {}
            Err(fault) => return Err(fault),
        }
    }
    Ok(rows)
}

/// The rows of the chosen containers, one container after the other. `Damaged` names a file of one that holds no rows.
pub fn chosen_rows<D: Disk>(
    alloc: Global,
    disk: &mut D,
    p: &ProjStore,
    inputs: &[bool],
) -> Result<Rows, StoreFault>
    ensures read { IfOk result (λ v. (m : Contents) → D.holds disk.old ≡ Some m → HoldEach m (written_of p.now.stored.entry) (chosen inputs.now p.now.stored.entry.containers) v) }
    ensures blamed { IfErr result (BlamesRows p.now.stored.entry (D.holds disk.old)) }
    ensures kept { D.holds disk.new ≡ D.holds disk.old }
    ensures moved { Moved ⟦<D as Disk>⟧ NoName NoName disk.old disk.new }
    ensures cause { HasCause StoreFault.Disk (D.faults disk.old) (D.faults disk.new) result }
{
    match all_places(alloc, p.entry().columns.as_slice().len()) {
        Ok(via) => read_chosen(alloc, disk, p, inputs, via.as_slice()),
        Err(AllocError) => Err(StoreFault::Memory),
    }
}

/// The rows of all containers with their columns at some places alone, one container after the other: whatever rows the containers hold, these are
/// theirs. No file of another column is read. A place that isn't one of the projection's columns is answered as want of memory: no store has
/// such. `Damaged` names a file of a container that holds no rows.
pub fn rows_on<D: Disk>(
    alloc: Global,
    disk: &mut D,
    p: &ProjStore,
    via: &[usize],
) -> Result<Rows, StoreFault>
    ensures read { IfOk result (λ v. (m : Contents) → D.holds disk.old ≡ Some m → (all : List Asked) → HoldEach m (written_of p.now.stored.entry) p.now.stored.entry.containers all → v ≡ map (asked_on via.now) all) }
    ensures wide { IfOk result (AreWide (length via.now)) }
    ensures blamed { IfErr result (BlamesRows p.now.stored.entry (D.holds disk.old)) }
    ensures kept { D.holds disk.new ≡ D.holds disk.old }
    ensures moved { Moved ⟦<D as Disk>⟧ NoName NoName disk.old disk.new }
    ensures cause { HasCause StoreFault.Disk (D.faults disk.old) (D.faults disk.new) result }
{
    one_column();
    let shape = p.entry();
    if !are_below(via, shape.columns.as_slice().len()) {
        return Err(StoreFault::Memory);
    }
    match all_flags(alloc, shape.containers.as_slice().len()) {
        Ok(all) => read_chosen(alloc, disk, p, all.as_slice(), via),
        Err(AllocError) => Err(StoreFault::Memory),
    }
}
