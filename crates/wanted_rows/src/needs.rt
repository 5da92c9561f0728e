//! The rows that are wanted still.

ghost use Rattle.std.specs.Prelude.{◌≡◌, ◌≤◌, ◌&&◌, nat_le, [], false, IfOk, OnOk, IfSome, IsTrue};
ghost use Rattle.std.specs.List.{list_any};
ghost use Rattle.col_value.specs.declared.row.Asked.{Asked as ARow};
ghost use Rattle.wanted_rows.specs.Wanted.{asked_in, need_in, tally, Adds, IsLast, Tries};

use crate::counts::{Counts, counted, find, has_epoch_between, set};
use col_value::Asked;
use indexmap::IndexMap;
use std::alloc::{AllocError, Global};
use std::marker::Model;
use std::mem::replace;
use write_store::Inserted;

/// The rows that are wanted still. For as long as they are taken in the order in which they were wanted they stand one by one, the next
/// one last, and none is hashed. When another row comes they are counted, and the one behind the row that was taken last is expected next.
#[derive(Drop)]
pub struct Needs {
    rows: Vec<Asked>,
    counts: Counts,
    expected: usize,
    left: usize,
}

impl Model for Needs {
    ghost use Rattle.std.specs.Prelude.{◌+◌, ◌≤◌, length};
    ghost use Rattle.wanted_rows.specs.Wanted.{needed, total, Needed};

    ghost Value = { Needed };

    ghost view = { λ n. needed n.rows.items n.counts.entries };

    ghost invariant = { λ n. length n.rows.items + total n.counts.entries ≤ n.left };
}

/// Whether this row is that one.
fn is_row(asked: &Asked, row: &Inserted) -> bool
    ensures { IsTrue result → asked.now ≡ asked_in row.now }
{
    asked.ins == row.ins && asked.row.is(&row.row)
}

/// Whether this row is the last one.
fn is_last(rows: &[Asked], row: &Inserted) -> bool
    ensures { IsTrue result → IsLast rows.now (asked_in row.now) }
{
    match rows.last() {
        Some(asked) => is_row(asked, row),
        None => false,
    }
}

fn is_between(asked: &Asked, least: u64, greatest: u64) -> bool
    ensures { result ≡ (nat_le least asked.now.ins && nat_le asked.now.ins greatest) }
{
    least <= asked.ins && asked.ins <= greatest
}

fn any_between(rows: &[Asked], least: u64, greatest: u64) -> bool
    ensures { result ≡ list_any (λ a. nat_le least a.ins && nat_le a.ins greatest) rows.now }
{
    rows.iter().any(|asked| is_between(asked, least, greatest))
}

/// Whether one of the rows has an epoch from the least to the greatest. The last one, which is the next to be taken, is looked at first.
fn has_between(rows: &[Asked], least: u64, greatest: u64) -> bool
    ensures { result ≡ false → (q : ARow) → least ≤ q.ins → q.ins ≤ greatest → tally q rows.now ≡ 0 }
{
    let Some(last) = rows.last() else {
        return false;
    };
    is_between(last, least, greatest) || any_between(rows, least, greatest)
}

impl Needs {
    /// Each row of a list is wanted as often as it stands there.
    pub fn new(alloc: Global, wanted: Vec<Asked>) -> Needs
        ensures { (q : ARow) → need_in result q ≡ tally q wanted.items }
    {
        let left = wanted.len();
        let mut rows = wanted;
        rows.reverse();
        Needs {
            rows,
            counts: IndexMap::new(alloc),
            expected: 0,
            left,
        }
    }

    /// Whether no row is wanted any more.
    pub fn is_done(&self) -> bool
        ensures { IsTrue result → (q : ARow) → need_in self.now q ≡ 0 }
    {
        self.left == 0
    }

    /// Whether a row of an epoch from the least to the greatest is wanted.
    pub fn has_epoch_between(&self, least: u64, greatest: u64) -> bool
        ensures { result ≡ false → (q : ARow) → least ≤ q.ins → q.ins ≤ greatest → need_in self.now q ≡ 0 }
    {
        has_between(self.rows.as_slice(), least, greatest)
            || has_epoch_between(&self.counts, least, greatest)
    }

    /// The row that stands last, which is expected next.
    pub fn last(&self) -> Option<&Asked>
        ensures { IfSome result (λ a. IsLast self.now.rows a.now) }
    {
        self.rows.last()
    }

    /// Takes the row that stands last.
    pub fn take_last(&mut self)
        ensures taken { (a : ARow) → IsLast self.old.rows a → Adds a (need_in self.new) (need_in self.old) }
        ensures fewer { (q : ARow) → need_in self.new q ≤ need_in self.old q }
    {
        if let Some(_) = self.rows.pop() {
            self.left -= 1;
        }
    }

    /// The rows that stand one by one are counted.
    fn count(&mut self, alloc: Global) -> Result<(), AllocError>
        ensures rows { OnOk result (self.new.rows ≡ []) }
        ensures same { OnOk result ((q : ARow) → need_in self.new q ≡ need_in self.old q) }
        ensures fewer { (q : ARow) → need_in self.new q ≤ need_in self.old q }
    {
        let rows = replace(&mut self.rows, Vec::new(alloc));
        let counts = replace(&mut self.counts, IndexMap::new(alloc));
        self.counts = counted(counts, rows)?;
        Ok(())
    }

    /// Takes a row where all are counted.
    fn take_counted(&mut self, row: &Inserted) -> bool
        requires { self.old.rows ≡ [] }
        ensures taken { Tries result (asked_in row.now) (need_in self.old) (need_in self.new) }
    {
        let Some((place, count)) = find(&self.counts, self.expected, row) else {
            return false;
        };
        if count == 0 {
            return false;
        }
        set(&mut self.counts, place, count - 1);
        self.expected = if count > 1 { place } else { place + 1 };
        self.left -= 1;
        true
    }

    /// Takes a row, where it is wanted; answers whether it was.
    pub fn take(&mut self, alloc: Global, row: &Inserted) -> Result<bool, AllocError>
        ensures taken { IfOk result (λ taken. Tries taken (asked_in row.now) (need_in self.old) (need_in self.new)) }
        ensures fewer { (q : ARow) → need_in self.new q ≤ need_in self.old q }
    {
        if is_last(self.rows.as_slice(), row) {
            self.take_last();
            return Ok(true);
        }
        if !self.rows.is_empty() {
            self.count(alloc)?;
        }
        Ok(self.take_counted(row))
    }
}
