//! The columns of a block, as far as they are read.

ghost use Rattle.std.specs.Prelude.{◌≡◌, ◌≤◌, ◌<◌, ◌+◌, ◌*◌, ◌-◌, ◌∷◌, [], min, replicate, length, sum_by, None, IfOk, IfErr, IfNone, OnOk};
ghost use Rattle.std.specs.List.{AllZip};
ghost use Rattle.std.specs.Option.{IfSome};
ghost use Rattle.common_laws.specs.Causes.{HasCause};
ghost use Rattle.col_disk.specs.Moved.{Moved, NoName};
ghost use Rattle.pos_index.specs.Index.{blocks};
ghost use Rattle.ros_container.specs.Encodings.{written_of};
ghost use Rattle.ros_container.specs.Held.{BlamesContainer};
ghost use Rattle.ros_container.specs.Readable.{IsReadable};
ghost use Rattle.exec_scan.specs.Opened.{HoldsAll, HoldsNeeded, IsNeeded};
ghost use Rattle.exec_scan.specs.Batches.{AreLong, IsLong};
ghost use Rattle.exec_scan.specs.Counting.{column_cost, cost_unread};
ghost use Rattle.exec_scan.specs.Reading.{Fills, FillsRows, FillsUpto, IsColumn, NarrowsBy, OfBlock, ReadsAlive};
ghost use Rattle.exec_scan.specs.Scanning.{AreOwn};

use crate::ruling::{covers, rule_out};
use crate::shown::has_any;
use block_codec::Block;
use catalog_types::{Container, Projection};
use col_disk::{Disk, StoreFault};
use container_blocks::{Steps, block};
use proj_store::SharedIndex;
use row_bounds::Bound;
use std::alloc::{AllocError, Global};
use std::sync::ledger::Ledger;

/// So many columns that aren't read.
fn unread(alloc: Global, count: usize) -> Result<Vec<Option<Block>>, AllocError>
    ensures { IfOk result (λ v. v.items ≡ replicate count None) }
{
    let mut columns = Vec::with_capacity(alloc, count)?;
    for _ in 0..count {
        columns.push(None)?;
    }
    Ok(columns)
}

/// The values of a column in block k, where it is needed.
fn read_column<D: Disk, L: Ledger>(
    alloc: Global,
    disk: &mut D,
    entry: &Container,
    shape: &Projection,
    place: Option<usize>,
    index: &Option<SharedIndex>,
    k: usize,
    steps: &mut Steps<L>,
) -> Result<Option<Block>, StoreFault>
    requires numbers { IsReadable shape.now.columns entry.now }
    requires own { IfSome place (λ i. i < length shape.now.columns) }
    requires needed { IsNeeded entry.now.rows place index.now }
    requires block { k < blocks entry.now.rows }
    ensures found { IfOk result (λ v. HoldsNeeded (written_of shape.now) entry.now (D.holds disk.old) place index.now → OfBlock (IsColumn place v) (D.holds disk.old) (written_of shape.now) entry.now k) }
    ensures long { IfOk result (IsLong (min 1024 (entry.now.rows - 1024 * k))) }
    ensures blamed { IfErr result (λ fault. HoldsNeeded (written_of shape.now) entry.now (D.holds disk.old) place index.now → BlamesContainer (written_of shape.now) entry.now (D.holds disk.old) fault) }
    ensures steps { steps.new ≤ steps.old + column_cost (length shape.now.columns) entry.now place }
    ensures unread { IfOk result (λ o. IfNone o (steps.new ≡ steps.old)) }
    ensures kept { D.holds disk.new ≡ D.holds disk.old }
    ensures moved { Moved ⟦<D as Disk>⟧ NoName NoName disk.old disk.new }
    ensures cause { HasCause StoreFault.Disk (D.faults disk.old) (D.faults disk.new) result }
{
    match (place, index) {
        (Some(place), Some(at)) => match block(
            alloc,
            disk,
            entry,
            at.get(),
            shape,
            place,
            k,
            steps,
        ) {
            Ok(values) => Ok(Some(values)),
            Err(fault) => Err(fault),
        },
        (Some(_), None) | (None, _) => Ok(None),
    }
}

/// Reads a column of block k, where it is needed and wasn't read.
fn fill_column<D: Disk, L: Ledger>(
    alloc: Global,
    disk: &mut D,
    entry: &Container,
    shape: &Projection,
    places: &[Option<usize>],
    indexes: &[Option<SharedIndex>],
    k: usize,
    column: usize,
    columns: &mut [Option<Block>],
    steps: &mut Steps<L>,
) -> Result<(), StoreFault>
    requires numbers { IsReadable shape.now.columns entry.now }
    requires own { AreOwn shape.now places.now }
    requires needed { AllZip (IsNeeded entry.now.rows) places.now indexes.now }
    requires block { k < blocks entry.now.rows }
    requires column { column < length places.now }
    requires width { length columns.old ≡ length places.now }
    requires long { AreLong (min 1024 (entry.now.rows - 1024 * k)) columns.old }
    ensures width { length columns.new ≡ length columns.old }
    ensures long { OnOk result (AreLong (min 1024 (entry.now.rows - 1024 * k)) columns.new) }
    ensures fills { OnOk result (HoldsAll (written_of shape.now) entry.now (D.holds disk.old) places.now indexes.now → OfBlock (Fills column places.now columns.old columns.new) (D.holds disk.old) (written_of shape.now) entry.now k) }
    ensures blamed { IfErr result (λ fault. HoldsAll (written_of shape.now) entry.now (D.holds disk.old) places.now indexes.now → BlamesContainer (written_of shape.now) entry.now (D.holds disk.old) fault) }
    ensures steps { OnOk result (steps.new + cost_unread (length shape.now.columns) entry.now places.now columns.new ≤ steps.old + cost_unread (length shape.now.columns) entry.now places.now columns.old) }
    ensures at_most { steps.new ≤ steps.old + cost_unread (length shape.now.columns) entry.now places.now columns.old }
    ensures kept { D.holds disk.new ≡ D.holds disk.old }
    ensures moved { Moved ⟦<D as Disk>⟧ NoName NoName disk.old disk.new }
    ensures cause { HasCause StoreFault.Disk (D.faults disk.old) (D.faults disk.new) result }
{
    if columns[column].is_some() {
        return Ok(());
    }
    match read_column(
        alloc,
        disk,
        entry,
        shape,
        places[column],
        &indexes[column],
        k,
        steps,
    ) {
        Ok(values) => {
            columns[column] = values;
            Ok(())
        },
        Err(fault) => Err(fault),
    }
}

/// Rows of block k that lie out of a bound are alive no more. Its column is read, unless its index says that all values lie in the bound.
fn narrow_by<D: Disk, L: Ledger>(
    alloc: Global,
    disk: &mut D,
    entry: &Container,
    shape: &Projection,
    places: &[Option<usize>],
    indexes: &[Option<SharedIndex>],
    k: usize,
    bound: &Bound,
    columns: &mut [Option<Block>],
    alive: &mut [bool],
    steps: &mut Steps<L>,
) -> Result<(), StoreFault>
    requires numbers { IsReadable shape.now.columns entry.now }
    requires own { AreOwn shape.now places.now }
    requires needed { AllZip (IsNeeded entry.now.rows) places.now indexes.now }
    requires block { k < blocks entry.now.rows }
    requires width { length columns.old ≡ length places.now }
    requires long { AreLong (min 1024 (entry.now.rows - 1024 * k)) columns.old }
    requires alive { length alive.old ≡ min 1024 (entry.now.rows - 1024 * k) }
    ensures width { length columns.new ≡ length columns.old }
    ensures long { OnOk result (AreLong (min 1024 (entry.now.rows - 1024 * k)) columns.new) }
    ensures alive { length alive.new ≡ length alive.old }
    ensures narrows { OnOk result (HoldsAll (written_of shape.now) entry.now (D.holds disk.old) places.now indexes.now → OfBlock (NarrowsBy (bound.now ∷ []) places.now columns.old columns.new alive.old alive.new) (D.holds disk.old) (written_of shape.now) entry.now k) }
    ensures blamed { IfErr result (λ fault. HoldsAll (written_of shape.now) entry.now (D.holds disk.old) places.now indexes.now → BlamesContainer (written_of shape.now) entry.now (D.holds disk.old) fault) }
    ensures steps { OnOk result (steps.new + cost_unread (length shape.now.columns) entry.now places.now columns.new ≤ steps.old + cost_unread (length shape.now.columns) entry.now places.now columns.old) }
    ensures at_most { steps.new ≤ steps.old + cost_unread (length shape.now.columns) entry.now places.now columns.old }
    ensures kept { D.holds disk.new ≡ D.holds disk.old }
    ensures moved { Moved ⟦<D as Disk>⟧ NoName NoName disk.old disk.new }
    ensures cause { HasCause StoreFault.Disk (D.faults disk.old) (D.faults disk.new) result }
{
    let column = bound.column;
    if column >= places.len() || covers(bound, &indexes[column], k) {
        return Ok(());
    }
    match fill_column(
        alloc, disk, entry, shape, places, indexes, k, column, columns, steps,
    ) {
        Ok(()) => {
            rule_out(alive, bound, &columns[column]);
            Ok(())
        },
        Err(fault) => Err(fault),
    }
}

/// Rows of block k that lie out of one of the bounds are alive no more. For as long as some row is alive, the columns of the bounds are read.
fn narrow<D: Disk, L: Ledger>(
    alloc: Global,
    disk: &mut D,
    entry: &Container,
    shape: &Projection,
    places: &[Option<usize>],
    indexes: &[Option<SharedIndex>],
    k: usize,
    bounds: &[Bound],
    columns: &mut [Option<Block>],
    alive: &mut [bool],
    steps: &mut Steps<L>,
) -> Result<(), StoreFault>
    requires numbers { IsReadable shape.now.columns entry.now }
    requires own { AreOwn shape.now places.now }
    requires needed { AllZip (IsNeeded entry.now.rows) places.now indexes.now }
    requires block { k < blocks entry.now.rows }
    requires width { length columns.old ≡ length places.now }
    requires long { AreLong (min 1024 (entry.now.rows - 1024 * k)) columns.old }
    requires alive { length alive.old ≡ min 1024 (entry.now.rows - 1024 * k) }
    ensures width { length columns.new ≡ length columns.old }
    ensures long { OnOk result (AreLong (min 1024 (entry.now.rows - 1024 * k)) columns.new) }
    ensures alive { length alive.new ≡ length alive.old }
    ensures narrows { OnOk result (HoldsAll (written_of shape.now) entry.now (D.holds disk.old) places.now indexes.now → OfBlock (NarrowsBy bounds.now places.now columns.old columns.new alive.old alive.new) (D.holds disk.old) (written_of shape.now) entry.now k) }
    ensures blamed { IfErr result (λ fault. HoldsAll (written_of shape.now) entry.now (D.holds disk.old) places.now indexes.now → BlamesContainer (written_of shape.now) entry.now (D.holds disk.old) fault) }
    ensures steps { OnOk result (steps.new + cost_unread (length shape.now.columns) entry.now places.now columns.new ≤ steps.old + cost_unread (length shape.now.columns) entry.now places.now columns.old) }
    ensures at_most { steps.new ≤ steps.old + cost_unread (length shape.now.columns) entry.now places.now columns.old }
    ensures kept { D.holds disk.new ≡ D.holds disk.old }
    ensures moved { Moved ⟦<D as Disk>⟧ NoName NoName disk.old disk.new }
    ensures cause { HasCause StoreFault.Disk (D.faults disk.old) (D.faults disk.new) result }
{
    for bound in bounds {
        if !has_any(alive) {
            return Ok(());
        }
        match narrow_by(
            alloc, disk, entry, shape, places, indexes, k, bound, columns, alive, steps,
        ) {
            Ok(()) => {},
            Err(fault) => return Err(fault),
        }
    }
    Ok(())
}

/// Reads the columns of block k that are needed and weren't read.
fn fill_columns<D: Disk, L: Ledger>(
    alloc: Global,
    disk: &mut D,
    entry: &Container,
    shape: &Projection,
    places: &[Option<usize>],
    indexes: &[Option<SharedIndex>],
    k: usize,
    columns: &mut [Option<Block>],
    steps: &mut Steps<L>,
) -> Result<(), StoreFault>
    requires numbers { IsReadable shape.now.columns entry.now }
    requires own { AreOwn shape.now places.now }
    requires needed { AllZip (IsNeeded entry.now.rows) places.now indexes.now }
    requires block { k < blocks entry.now.rows }
    requires width { length columns.old ≡ length places.now }
    requires long { AreLong (min 1024 (entry.now.rows - 1024 * k)) columns.old }
    ensures width { length columns.new ≡ length columns.old }
    ensures long { OnOk result (AreLong (min 1024 (entry.now.rows - 1024 * k)) columns.new) }
    ensures fills { OnOk result (HoldsAll (written_of shape.now) entry.now (D.holds disk.old) places.now indexes.now → OfBlock (FillsUpto places.now (length places.now) columns.old columns.new) (D.holds disk.old) (written_of shape.now) entry.now k) }
    ensures blamed { IfErr result (λ fault. HoldsAll (written_of shape.now) entry.now (D.holds disk.old) places.now indexes.now → BlamesContainer (written_of shape.now) entry.now (D.holds disk.old) fault) }
    ensures steps { OnOk result (steps.new + cost_unread (length shape.now.columns) entry.now places.now columns.new ≤ steps.old + cost_unread (length shape.now.columns) entry.now places.now columns.old) }
    ensures at_most { steps.new ≤ steps.old + cost_unread (length shape.now.columns) entry.now places.now columns.old }
    ensures kept { D.holds disk.new ≡ D.holds disk.old }
    ensures moved { Moved ⟦<D as Disk>⟧ NoName NoName disk.old disk.new }
    ensures cause { HasCause StoreFault.Disk (D.faults disk.old) (D.faults disk.new) result }
{
    for column in 0..places.len() {
        match fill_column(
            alloc, disk, entry, shape, places, indexes, k, column, columns, steps,
        ) {
            Ok(()) => {},
            Err(fault) => return Err(fault),
        }
    }
    Ok(())
}

/// The same, where some row is alive.
fn fill_alive<D: Disk, L: Ledger>(
    alloc: Global,
    disk: &mut D,
    entry: &Container,
    shape: &Projection,
    places: &[Option<usize>],
    indexes: &[Option<SharedIndex>],
    k: usize,
    columns: &mut [Option<Block>],
    alive: &[bool],
    steps: &mut Steps<L>,
) -> Result<(), StoreFault>
    requires numbers { IsReadable shape.now.columns entry.now }
    requires own { AreOwn shape.now places.now }
    requires needed { AllZip (IsNeeded entry.now.rows) places.now indexes.now }
    requires block { k < blocks entry.now.rows }
    requires width { length columns.old ≡ length places.now }
    requires long { AreLong (min 1024 (entry.now.rows - 1024 * k)) columns.old }
    ensures width { length columns.new ≡ length columns.old }
    ensures long { OnOk result (AreLong (min 1024 (entry.now.rows - 1024 * k)) columns.new) }
    ensures fills { OnOk result (HoldsAll (written_of shape.now) entry.now (D.holds disk.old) places.now indexes.now → OfBlock (FillsRows places.now alive.now columns.old columns.new) (D.holds disk.old) (written_of shape.now) entry.now k) }
    ensures blamed { IfErr result (λ fault. HoldsAll (written_of shape.now) entry.now (D.holds disk.old) places.now indexes.now → BlamesContainer (written_of shape.now) entry.now (D.holds disk.old) fault) }
    ensures steps { OnOk result (steps.new + cost_unread (length shape.now.columns) entry.now places.now columns.new ≤ steps.old + cost_unread (length shape.now.columns) entry.now places.now columns.old) }
    ensures at_most { steps.new ≤ steps.old + cost_unread (length shape.now.columns) entry.now places.now columns.old }
    ensures kept { D.holds disk.new ≡ D.holds disk.old }
    ensures moved { Moved ⟦<D as Disk>⟧ NoName NoName disk.old disk.new }
    ensures cause { HasCause StoreFault.Disk (D.faults disk.old) (D.faults disk.new) result }
{
    if !has_any(alive) {
        return Ok(());
    }
    match fill_columns(
        alloc, disk, entry, shape, places, indexes, k, columns, steps,
    ) {
        Ok(()) => Ok(()),
        Err(fault) => Err(fault),
    }
}

/// The columns of block k, as far as they are needed and some row is alive. Rows that lie out of a bound are alive no more: the columns of the
/// bounds are read first, and where they leave no row, no other one is.
pub fn columns_alive<D: Disk, L: Ledger>(
    alloc: Global,
    disk: &mut D,
    entry: &Container,
    shape: &Projection,
    places: &[Option<usize>],
    indexes: &[Option<SharedIndex>],
    k: usize,
    bounds: &[Bound],
    alive: &mut [bool],
    steps: &mut Steps<L>,
) -> Result<Vec<Option<Block>>, StoreFault>
    requires numbers { IsReadable shape.now.columns entry.now }
    requires own { AreOwn shape.now places.now }
    requires needed { AllZip (IsNeeded entry.now.rows) places.now indexes.now }
    requires block { k < blocks entry.now.rows }
    requires alive { length alive.old ≡ min 1024 (entry.now.rows - 1024 * k) }
    ensures width { IfOk result (λ v. length v.items ≡ length places.now) }
    ensures long { IfOk result (λ v. AreLong (length alive.new) v.items) }
    ensures alive { length alive.new ≡ length alive.old }
    ensures found { IfOk result (λ v. HoldsAll (written_of shape.now) entry.now (D.holds disk.old) places.now indexes.now → OfBlock (ReadsAlive bounds.now places.now alive.old alive.new v.items) (D.holds disk.old) (written_of shape.now) entry.now k) }
    ensures blamed { IfErr result (λ fault. HoldsAll (written_of shape.now) entry.now (D.holds disk.old) places.now indexes.now → BlamesContainer (written_of shape.now) entry.now (D.holds disk.old) fault) }
    ensures steps { steps.new ≤ steps.old + sum_by (column_cost (length shape.now.columns) entry.now) places.now }
    ensures kept { D.holds disk.new ≡ D.holds disk.old }
    ensures moved { Moved ⟦<D as Disk>⟧ NoName NoName disk.old disk.new }
    ensures cause { HasCause StoreFault.Disk (D.faults disk.old) (D.faults disk.new) result }
{
    let mut columns = match unread(alloc, places.len()) {
        Ok(columns) => columns,
        Err(AllocError) => return Err(StoreFault::Memory),
    };
    let read = columns.as_mut_slice();
    match narrow(
        alloc, disk, entry, shape, places, indexes, k, bounds, read, alive, steps,
    ) {
        Ok(()) => {},
        Err(fault) => return Err(fault),
    }
    match fill_alive(
        alloc, disk, entry, shape, places, indexes, k, read, alive, steps,
    ) {
        Ok(()) => Ok(columns),
        Err(fault) => Err(fault),
    }
}
