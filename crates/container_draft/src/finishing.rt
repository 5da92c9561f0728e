//! The end of a draft: its entry, and its delete vector.

ghost use Rattle.std.specs.Prelude.{◌≡◌, ◌≤◌, ◌<◌, ◌+◌, ◌*◌, ◌^◌, ℕ, List, length, map, Some, IfOk, IfSome};
ghost use Rattle.std.specs.List.{All};
ghost use Rattle.std.specs.Option.{option_map_or};
ghost use Rattle.common_laws.specs.Causes.{HasCause};
ghost use Rattle.common_laws.specs.Maps.{Contents};
ghost use Rattle.catalog_types.specs.Numbers.{file_count};
ghost use Rattle.col_disk.specs.Moved.{Moved, NoName, Named};
ghost use Rattle.col_value.specs.declared.row.Stamped.{Stamped};
ghost use Rattle.ros_container.specs.Encodings.{written_of};
ghost use Rattle.ros_container.specs.Rows.{AreWithin};
ghost use Rattle.stored_rows.specs.Held.{HoldsRows};
ghost use Rattle.stored_rows.specs.Listed.{vector_file};
ghost use Rattle.container_writer.specs.Writing.{listed};
ghost use Rattle.merge_rows.specs.Places.{asked_of};
ghost use Rattle.container_draft.specs.Draft.{IsDraft};
ghost use Rattle.container_draft.specs.Finished.{AreFinished, HasVector};
ghost use Rattle.container_draft.specs.Placed.{asked_at, all_at, seen};
ghost use Rattle.container_draft.specs.Reading.{del_of};

use crate::marking::vector_of;
use crate::rows::Rows;
use crate::values::epoch_at;
use catalog_types::{Container, Projection};
use col_disk::{Disk, DiskFault};
use container_writer::{Written, write_vector};
use std::alloc::{AllocError, Global};

// Numbers are drawn below this one.
const MOST_NUMBERS: u64 = 1 << 61;

/// The least and the greatest epoch of the rows at some places.
fn epoch_bounds(rows: &Rows, places: &[usize]) -> (u64, u64)
    ensures least { All (λ i. result.0 ≤ (asked_at rows.now i).ins) places.now }
    ensures greatest { All (λ i. (asked_at rows.now i).ins ≤ result.1) places.now }
{
    let mut least = u64::MAX;
    let mut greatest: u64 = 0;
    for place in places {
        let epoch = epoch_at(rows, *place);
        least = least.min(epoch);
        greatest = greatest.max(epoch);
    }
    (least, greatest)
}

/// The entry of a container of the rows at some places, none of them deleted, which stores so many columns.
fn entry_of(base: u64, rows: &Rows, places: &[usize], level: u32, columns: usize) -> Container
    ensures base { result.base ≡ base }
    ensures stored { result.stored ≡ columns }
    ensures rows { result.rows ≡ length places.now }
    ensures level { result.level ≡ level }
    ensures within { AreWithin result (all_at rows.now places.now) }
{
    let (least_epoch, greatest_epoch) = epoch_bounds(rows, places);
    Container {
        base,
        rows: places.len() as u64,
        least_epoch,
        greatest_epoch,
        level,
        marks: None,
        greatest_mark: 0,
        stored: columns as u64,
    }
}

/// The container, and the number behind that of its delete vector, if it has one.
fn ended(container: Container, next: u64) -> Written
    requires { next < 2 ^ 61 }
    ensures container { result.container ≡ Some container }
    ensures next { result.next ≡ next + option_map_or (λ _. 1) container.marks 0 }
{
    let after = match container.marks {
        Some(_) => next + 1,
        None => next,
    };
    Written {
        container: Some(container),
        next: after,
    }
}

/// Writes the delete vector of the rows at some places, whose columns are there, and answers their entry.
pub fn write_end<D: Disk>(
    alloc: Global,
    disk: &mut D,
    shape: &Projection,
    rows: &Rows,
    places: &[usize],
    base: u64,
    dels: &[Option<u64>],
    level: u32,
    next: u64,
) -> Result<Written, DiskFault>
    requires deletes { length dels.now ≡ length places.now }
    requires some { 0 < length places.now }
    ensures held { IfOk result (λ w. (done : ℕ) (m n : Contents) → D.holds disk.old ≡ Some m → D.holds disk.new ≡ Some n → IsDraft m (written_of shape.now) (seen rows.now places.now base done) → length shape.now.columns < done → base + file_count (length shape.now.columns) ≤ next → (all : List Stamped) → map asked_of all ≡ all_at rows.now places.now → map del_of all ≡ dels.now → HoldsRows n (written_of shape.now) (listed w.container) all) }
    ensures numbers { IfOk result (λ w. (done : ℕ) → AreFinished (length shape.now.columns) level next w.next (seen rows.now places.now base done) w.container) }
    ensures vector { IfOk result (λ w. (n : Contents) → D.holds disk.new ≡ Some n → IfSome w.container (HasVector n)) }
    ensures low { IfOk result (λ w. w.next ≤ 2 ^ 61) }
    ensures moved { Moved ⟦<D as Disk>⟧ (Named (vector_file next)) NoName disk.old disk.new }
    ensures cause { HasCause DiskFault.Failed (D.faults disk.old) (D.faults disk.new) result }
{
    if next >= MOST_NUMBERS {
        return Err(DiskFault::Memory);
    }
    let marks = match vector_of(alloc, dels) {
        Ok(marks) => marks,
        Err(AllocError) => return Err(DiskFault::Memory),
    };
    let columns = shape.columns.as_slice().len();
    let entry = entry_of(base, rows, places, level, columns);
    match write_vector(alloc, disk, entry, next, &marks) {
        Ok(container) => Ok(ended(container, next)),
        Err(fault) => Err(fault),
    }
}
