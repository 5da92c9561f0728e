//! The draft, and its step.

ghost use Rattle.std.specs.Prelude.{◌≡◌, ◌≤◌, ◌<◌, ◌+◌, ◌*◌, ◌^◌, List, length, map, max, Some, IfOk, IfSome, OnOk, OnErr};
ghost use Rattle.common_laws.specs.Causes.{HasCause};
ghost use Rattle.common_laws.specs.Maps.{Contents};
ghost use Rattle.col_disk.specs.Moved.{Moved, NoName, Named, Either};
ghost use Rattle.col_file.specs.Held.{HoldsColumn};
ghost use Rattle.ros_container.specs.Encodings.{written_of, encoding_at};
ghost use Rattle.ros_container.specs.Files.{body_of, index_of};
ghost use Rattle.ros_container.specs.Rows.{stored_values};
ghost use Rattle.container_draft.specs.Draft.{IsDraft, one_more};
ghost use Rattle.catalog_types.specs.Numbers.{file_count};
ghost use Rattle.col_value.specs.declared.row.Stamped.{Stamped};
ghost use Rattle.stored_rows.specs.Held.{HoldsRows};
ghost use Rattle.stored_rows.specs.Listed.{vector_file};
ghost use Rattle.container_writer.specs.Writing.{listed};
ghost use Rattle.merge_rows.specs.Places.{asked_of};
ghost use Rattle.container_draft.specs.Finished.{AreFinished, HasVector};
ghost use Rattle.container_draft.specs.Placed.{seen, all_at};
ghost use Rattle.container_draft.specs.Reading.{del_of};

use crate::columns::write_one;
use crate::finishing::write_end;
use crate::rows::Rows;
use catalog_types::Projection;
use col_disk::{Disk, DiskFault};
use container_writer::Written;
use std::alloc::Global;
use std::marker::Model;

/// Rows as they were read, the places of those that are written in their order, the number from which on the files have theirs, and how
/// many columns are done.
#[derive(Drop)]
pub struct Draft {
    rows: Rows,
    places: Vec<usize>,
    base: u64,
    done: usize,
}

impl Model for Draft {
    ghost use Rattle.container_draft.specs.Draft.{Drafted};
    ghost use Rattle.container_draft.specs.Placed.{seen};

    ghost Value = { Drafted };

    ghost view = { λ d. seen d.rows d.places.items d.base d.done };
}

/// Makes the files of a column; where there are no rows there is nothing to make.
fn write_next<D: Disk>(
    alloc: Global,
    disk: &mut D,
    base: u64,
    shape: &Projection,
    rows: &Rows,
    places: &[usize],
    column: usize,
) -> Result<(), DiskFault>
    requires numbers { base + 2 * length shape.now.columns + 1 < 2 ^ 62 }
    requires column { column ≤ length shape.now.columns }
    ensures held { OnOk result (0 < length places.now → (m : Contents) → D.holds disk.new ≡ Some m → HoldsColumn (encoding_at (written_of shape.now) column) (body_of base column) (index_of base column) (length places.now) m (stored_values (length shape.now.columns) column (all_at rows.now places.now))) }
    ensures moved { Moved ⟦<D as Disk>⟧ (Either (Named (body_of base column)) (Named (index_of base column))) NoName disk.old disk.new }
    ensures cause { HasCause DiskFault.Failed (D.faults disk.old) (D.faults disk.new) result }
{
    if places.is_empty() {
        return Ok(());
    }
    write_one(alloc, disk, base, shape, rows, places, column)
}

impl Draft {
    /// Rows of which those at some places are to be written. It takes no memory.
    pub fn new(rows: Rows, places: Vec<usize>, base: u64) -> Draft
        ensures { result ≡ seen rows places.items base 0 }
    {
        Draft {
            rows,
            places,
            base,
            done: 0,
        }
    }

    /// The places of the rows among those that were read, in their order. It takes no memory.
    pub fn places(&self) -> &[usize]
        ensures places { result.now ≡ self.now.places }
        ensures count { length result.now ≡ length self.now.rows }
    {
        self.places.as_slice()
    }

    /// Makes the files of the next column, or behind the columns those of the epochs. Where there are no rows there is nothing to make.
    pub fn advance<D: Disk>(
        &mut self,
        alloc: Global,
        shape: &Projection,
        disk: &mut D,
    ) -> Result<(), DiskFault>
        requires numbers { self.old.base + 2 * length shape.now.columns + 1 < 2 ^ 62 }
        requires column { self.old.done ≤ length shape.now.columns }
        ensures done { OnOk result (self.new ≡ one_more self.old) }
        ensures same { OnErr result (self.new ≡ self.old) }
        ensures held { OnOk result (0 < length self.old.rows → (m : Contents) → D.holds disk.new ≡ Some m → HoldsColumn (encoding_at (written_of shape.now) self.old.done) (body_of self.old.base self.old.done) (index_of self.old.base self.old.done) (length self.old.rows) m (stored_values (length shape.now.columns) self.old.done self.old.rows)) }
        ensures goes_on { OnOk result ((m n : Contents) → D.holds disk.old ≡ Some m → D.holds disk.new ≡ Some n → IsDraft m (written_of shape.now) self.old → IsDraft n (written_of shape.now) self.new) }
        ensures moved { Moved ⟦<D as Disk>⟧ (Either (Named (body_of self.old.base self.old.done)) (Named (index_of self.old.base self.old.done))) NoName disk.old disk.new }
        ensures cause { HasCause DiskFault.Failed (D.faults disk.old) (D.faults disk.new) result }
    {
        match write_next(
            alloc,
            disk,
            self.base,
            shape,
            &self.rows,
            self.places.as_slice(),
            self.done,
        ) {
            Ok(()) => {}
            Err(fault) => return Err(fault),
        }
        self.done += 1;
        Ok(())
    }

    /// The container of the rows, of which these deletes are known by now, or none where there are no rows: its delete vector is
    /// written, with the number `next`. Numbers from 2^61 on, and a row that was deleted in epoch 0, are answered as want of memory: no
    /// store has such.
    pub fn finish<D: Disk>(
        &self,
        alloc: Global,
        shape: &Projection,
        dels: &[Option<u64>],
        level: u32,
        next: u64,
        disk: &mut D,
    ) -> Result<Written, DiskFault>
        requires deletes { length dels.now ≡ length self.now.rows }
        ensures held { IfOk result (λ w. (m n : Contents) → D.holds disk.old ≡ Some m → D.holds disk.new ≡ Some n → IsDraft m (written_of shape.now) self.now → length shape.now.columns < self.now.done → self.now.base + file_count (length shape.now.columns) ≤ next → (rows : List Stamped) → map asked_of rows ≡ self.now.rows → map del_of rows ≡ dels.now → HoldsRows n (written_of shape.now) (listed w.container) rows) }
        ensures numbers { IfOk result (λ w. AreFinished (length shape.now.columns) level next w.next self.now w.container) }
        ensures vector { IfOk result (λ w. (n : Contents) → D.holds disk.new ≡ Some n → IfSome w.container (HasVector n)) }
        ensures low { IfOk result (λ w. w.next ≤ max next (2 ^ 61)) }
        ensures moved { Moved ⟦<D as Disk>⟧ (Named (vector_file next)) NoName disk.old disk.new }
        ensures cause { HasCause DiskFault.Failed (D.faults disk.old) (D.faults disk.new) result }
    {
        if self.places.is_empty() {
            return Ok(Written {
                container: None,
                next,
            });
        }
        let places = self.places.as_slice();
        write_end(
            alloc, disk, shape, &self.rows, places, self.base, dels, level, next,
        )
    }
}
