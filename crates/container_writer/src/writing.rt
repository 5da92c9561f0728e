//! Writing rows as a container.

ghost use Rattle.std.specs.Prelude.{◌≡◌, ◌≤◌, ◌<◌, ◌+◌, ◌*◌, ◌↔◌, ◌^◌, [], None, Some, map, length, IfOk, IfSome};
ghost use Rattle.std.specs.List.{All};
ghost use Rattle.common_laws.specs.Causes.{HasCause};
ghost use Rattle.common_laws.specs.Maps.{Contents};
ghost use Rattle.catalog_types.specs.Numbers.{file_count, container_count};
ghost use Rattle.col_disk.specs.Moved.{Moved, NoName};
ghost use Rattle.del_vector.specs.Marks.{epoch_at};
ghost use Rattle.ros_container.specs.Encodings.{written_of};
ghost use Rattle.ros_container.specs.Rows.{AreWide, AreWithin};
ghost use Rattle.stored_rows.specs.Held.{stamped_from};
ghost use Rattle.container_writer.specs.Ordered.{asked_of, stamped_of};
ghost use Rattle.container_writer.specs.Writing.{listed, HoldsBag, HoldsOne, DataFrom, AreNumbered};

use crate::columns::write_rows;
use crate::marking::vector_of;
use crate::ordering::ordered;
use crate::refs::{Keyed, StampedRef};
use crate::vectors::write_vector;
use catalog_types::{Container, Projection};
use col_disk::{Disk, DiskFault};
use del_vector::DelVector;
use std::alloc::{AllocError, Global};

// Numbers are drawn below this one.
const MOST_NUMBERS: u64 = 1 << 61;

/// What was written: a container, or none where there was no row; and the next number that is free.
#[derive(Clone, Copy, Debug, PartialEq, Eq)]
pub struct Written {
    pub container: Option<Container>,
    pub next: u64,
}

#[tactic(auto, using(crate::proofs::Epochs::lesser_more))]
fn least_epoch(rows: &[Keyed]) -> u64
    ensures { All (λ k. result ≤ k.stamped.ins) rows.now }
{
    let mut least = u64::MAX;
    for row in rows {
        least = least.min(row.stamped.ins);
    }
    least
}

#[tactic(auto, using(crate::proofs::Epochs::greater_more))]
fn greatest_epoch(rows: &[Keyed]) -> u64
    ensures { All (λ k. k.stamped.ins ≤ result) rows.now }
{
    let mut greatest: u64 = 0;
    for row in rows {
        greatest = greatest.max(row.stamped.ins);
    }
    greatest
}

/// The entry of a container of these rows, none of them deleted, which stores so many columns.
fn entry_of(base: u64, rows: &[Keyed], level: u32, columns: usize) -> Container
    ensures base { result.base ≡ base }
    ensures stored { result.stored ≡ columns }
    ensures rows { result.rows ≡ length rows.now }
    ensures level { result.level ≡ level }
    ensures within { AreWithin result (map asked_of rows.now) }
{
    Container {
        base,
        rows: rows.len() as u64,
        least_epoch: least_epoch(rows),
        greatest_epoch: greatest_epoch(rows),
        level,
        marks: None,
        greatest_mark: 0,
        stored: columns as u64,
    }
}

/// How many numbers the files of so many columns have: two for each, and two for the epochs.
fn files_of(columns: usize) -> u64
    requires { columns ≤ 64 }
    ensures { result ≡ file_count columns }
{
    2 * (columns as u64 + 1)
}

/// The number behind those of a container.
fn behind(entry: &Container) -> u64
    requires most { entry.now.stored ≤ 64 }
    requires numbers { entry.now.base < 2 ^ 61 }
    ensures { result ≡ entry.now.base + container_count entry.now }
{
    let end = entry.base + files_of(entry.stored as usize);
    match entry.marks {
        Some(_) => end + 1,
        None => end,
    }
}

/// Writes rows, and their delete vector behind them.
fn write_marked<D: Disk>(
    alloc: Global,
    disk: &mut D,
    shape: &Projection,
    rows: &[Keyed],
    marks: &DelVector,
    level: u32,
    base: u64,
) -> Result<Container, DiskFault>
    requires some { 0 < length rows.now }
    requires most { length shape.now.columns ≤ 64 }
    requires numbers { base < 2 ^ 61 }
    requires wide { AreWide (length shape.now.columns) (map asked_of rows.now) }
    requires within { All (λ e. e.position < length rows.now) marks.now.marks }
    ensures base { IfOk result (λ k. k.base ≡ base) }
    ensures vector { IfOk result (λ k. IfSome k.marks (λ n. n ≡ base + file_count (length shape.now.columns))) }
    ensures level { IfOk result (λ k. k.level ≡ level) }
    ensures rows { IfOk result (λ k. k.rows ≡ length rows.now) }
    ensures stored { IfOk result (λ k. k.stored ≡ length shape.now.columns) }
    ensures held { IfOk result (λ k. (m : Contents) → D.holds disk.new ≡ Some m → HoldsOne m (written_of shape.now) k (stamped_from 0 (epoch_at marks.now.marks) (map asked_of rows.now))) }
    ensures moved { Moved ⟦<D as Disk>⟧ (DataFrom base) NoName disk.old disk.new }
    ensures cause { HasCause DiskFault.Failed (D.faults disk.old) (D.faults disk.new) result }
{
    match write_rows(alloc, disk, base, shape, rows) {
        Ok(()) => {}
        Err(fault) => return Err(fault),
    }
    let columns = shape.columns.as_slice().len();
    let entry = entry_of(base, rows, level, columns);
    let number = base + files_of(columns);
    write_vector(alloc, disk, entry, number, marks)
}

/// Writes rows as one container of a level that stores all columns of the shape, in container order, with numbers from `next` on. Rows that can't stand in a container, and
/// numbers from 2^61 on, are answered as want of memory: no store has such. After a fault files of these numbers are absent or hold
/// anything.
pub fn write_stamped<D: Disk>(
    alloc: Global,
    disk: &mut D,
    shape: &Projection,
    rows: Vec<StampedRef<'_>>,
    level: u32,
    next: u64,
) -> Result<Written, DiskFault>
    ensures held { IfOk result (λ w. (m : Contents) → D.holds disk.new ≡ Some m → HoldsBag m (written_of shape.now) (listed w.container) (map stamped_of rows.entry.items)) }
    ensures numbers { IfOk result (λ w. AreNumbered (length shape.now.columns) next w.next w.container) }
    ensures upto { IfOk result (λ w. w.next ≤ next + 2 * (length shape.now.columns + 1) + 1) }
    ensures none { IfOk result (λ w. (w.container ≡ None) ↔ (rows.entry.items ≡ [])) }
    ensures level { IfOk result (λ w. IfSome w.container (λ k. k.level ≡ level)) }
    ensures moved { Moved ⟦<D as Disk>⟧ (DataFrom next) NoName disk.old disk.new }
    ensures cause { HasCause DiskFault.Failed (D.faults disk.old) (D.faults disk.new) result }
{
    if rows.is_empty() {
        return Ok(Written {
            container: None,
            next,
        });
    }
    let columns = shape.columns.as_slice().len();
    if columns > 64 || next >= MOST_NUMBERS {
        return Err(DiskFault::Memory);
    }
    let sorted = match ordered(alloc, shape, rows) {
        Ok(sorted) => sorted,
        Err(AllocError) => return Err(DiskFault::Memory),
    };
    let marks = match vector_of(alloc, sorted.as_slice()) {
        Ok(marks) => marks,
        Err(AllocError) => return Err(DiskFault::Memory),
    };
    match write_marked(alloc, disk, shape, sorted.as_slice(), &marks, level, next) {
        Ok(container) => Ok(Written {
            next: behind(&container),
            container: Some(container),
        }),
        Err(fault) => Err(fault),
    }
}
