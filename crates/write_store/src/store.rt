//! The rows in memory, and the calls on them.

ghost use Rattle.std.specs.Prelude.{◌≡◌, ◌≤◌, ◌<◌, ◌-◌, ◌++◌, [], ◌∷◌, map, length, filter, nat_le, nat_lt, IfOk, OnOk};
ghost use Rattle.std.specs.List.{All};
ghost use Rattle.col_value.specs.Order.{IsRow, IsValue};
ghost use Rattle.row_history.specs.History.{inserted_at};
ghost use Rattle.write_store.specs.Memory.{stamp, AreHeldRows, IsLive, deleted_at, with_value};

use crate::held::{Held, Inserted};
use crate::rows::{copies_upto, copies_with, delete, delete_each, keep_after};
use col_value::{Row, Stamped, Value};
use std::alloc::{AllocError, Global};
use std::marker::Model;

/// The rows of a projection that aren't on the disk, in the order in which they came.
#[derive(Drop)]
pub struct WriteStore {
    rows: Vec<Held>,
}

impl Model for WriteStore {
    ghost use Rattle.std.specs.Prelude.{◌-◌, vec_len, vec_capacity};
    ghost use Rattle.write_store.specs.Memory.{AreHeldRows, Memory, seen};

    ghost Value = { Memory };

    ghost view = { λ w. seen w.rows.items (vec_capacity w.rows - vec_len w.rows) };

    ghost invariant = { λ w. AreHeldRows w.rows.items };
}

impl WriteStore {
    /// No row.
    pub fn new(alloc: Global) -> WriteStore
        ensures { result.rows ≡ [] }
    {
        WriteStore {
            rows: Vec::new(alloc),
        }
    }

    /// The rows. It takes no memory.
    pub fn rows(&self) -> &[Held]
        ensures rows { map stamp result.now ≡ self.now.rows }
        ensures valid { AreHeldRows result.now }
    {
        self.rows.as_slice()
    }

    /// Makes room for so many rows.
    pub fn reserve(&mut self, count: usize) -> Result<(), AllocError>
        ensures room { OnOk result (count ≤ self.new.spare) }
        ensures more { self.old.spare ≤ self.new.spare }
        ensures rows { self.new.rows ≡ self.old.rows }
    {
        self.rows.reserve(count)
    }

    /// A row that an epoch inserted joins the others, for which there is room. It takes no memory.
    pub fn append(&mut self, row: Row, ins: u64)
        requires room { 0 < self.old.spare }
        requires row { IsRow row }
        ensures rows { self.new.rows ≡ self.old.rows ++ inserted_at ins row ∷ [] }
        ensures spare { self.new.spare ≡ self.old.spare - 1 }
    {
        self.rows.push_reserved(Held {
            inserted: Inserted { ins, row },
            del: None,
        });
    }

    /// Rows that an epoch inserted join the others, for which there is room. It takes no memory.
    pub fn append_all(&mut self, rows: Vec<Row>, ins: u64)
        requires room { length rows.items ≤ self.old.spare }
        requires rows { All IsRow rows.items }
        ensures rows { self.new.rows ≡ self.old.rows ++ map (inserted_at ins) rows.items }
        ensures spare { self.new.spare ≡ self.old.spare - length rows.items }
    {
        for row in rows {
            self.append(row, ins);
        }
    }

    /// A row that isn't deleted is deleted by an epoch. It takes no memory.
    pub fn mark(&mut self, place: usize, epoch: u64)
        requires { IsLive self.old.rows place }
        ensures rows { self.new.rows ≡ deleted_at epoch (place ∷ []) self.old.rows }
        ensures spare { self.new.spare ≡ self.old.spare }
    {
        delete(self.rows.as_mut_slice(), place, epoch);
    }

    /// Rows that aren't deleted are deleted by an epoch. It takes no memory.
    pub fn mark_each(&mut self, places: &[usize], epoch: u64)
        requires { All (IsLive self.old.rows) places.now }
        ensures rows { self.new.rows ≡ deleted_at epoch places.now self.old.rows }
        ensures spare { self.new.spare ≡ self.old.spare }
    {
        delete_each(self.rows.as_mut_slice(), places, epoch);
    }

    /// Keeps the rows that were inserted after an epoch. It takes no memory.
    pub fn drop_upto(&mut self, epoch: u64)
        ensures rows { self.new.rows ≡ filter (λ s. nat_lt epoch s.ins) self.old.rows }
        ensures spare { self.old.spare ≤ self.new.spare }
    {
        keep_after(&mut self.rows, epoch);
    }

    /// Copies of the rows that were inserted up to an epoch.
    pub fn take_upto(&self, alloc: Global, epoch: u64) -> Result<Vec<Stamped>, AllocError>
        ensures { IfOk result (λ v. v.items ≡ filter (λ s. nat_le s.ins epoch) self.now.rows) }
    {
        copies_upto(alloc, self.rows.as_slice(), epoch)
    }

    /// The rows with one value more each, in a store that can take the place of this one.
    pub fn with_value(&self, alloc: Global, last: &Value) -> Result<WriteStore, AllocError>
        requires { IsValue last.now }
        ensures { IfOk result (λ w. w.rows ≡ map (with_value last.now) self.now.rows) }
    {
        let rows = copies_with(alloc, self.rows.as_slice(), last)?;
        Ok(WriteStore { rows })
    }
}
