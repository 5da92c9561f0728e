ghost use Rattle.std.specs.Prelude.{◌≡◌, ◌≤◌, slice_index_or, true, false, IfOk, IfSome, IsTrue};
ghost use Rattle.std.specs.Ordering.{is_le};
ghost use Rattle.col_value.specs.Order.{value_cmp};
ghost use Rattle.col_value.specs.declared.row.Asked.{Asked as ARow};
ghost use Rattle.col_value.specs.declared.value.Value.TheVariants.{Null};
ghost use Rattle.wanted_rows.specs.Wanted.{need_in, asked_in, tally, Adds, IsNext, Tries};

use crate::needs::Needs;
use crate::spans::{Span, spans_of};
use col_value::{Asked, Value};
use std::alloc::{AllocError, Global};
use std::marker::Model;
use write_store::Inserted;

/// How often each row is wanted still, and within which values all these rows lie.
#[derive(Drop)]
pub struct Wants {
    needs: Needs,
    spans: Vec<Span>,
}

impl Model for Wants {
    ghost use Rattle.wanted_rows.specs.Spans.{Covers};
    ghost use Rattle.wanted_rows.specs.Wanted.{need_in, Needed};

    ghost Value = { Needed };

    ghost view = { λ w. w.needs };

    ghost invariant = { λ w. Covers w.spans.items (need_in w.needs) };
}

impl Wants {
    /// Each row of a list is wanted as often as it stands there.
    pub fn new(alloc: Global, wanted: Vec<Asked>) -> Result<Wants, AllocError>
        ensures { IfOk result (λ wants. (q : ARow) → need_in wants q ≡ tally q wanted.items) }
    {
        let spans = spans_of(alloc, wanted.as_slice())?;
        let needs = Needs::new(alloc, wanted);
        Ok(Wants { needs, spans })
    }

    /// Whether a row with this value in a column may be wanted.
    pub fn may_have(&self, column: usize, value: &Value) -> bool
        ensures { result ≡ false → (q : ARow) → slice_index_or q.row column Null ≡ value.now → need_in self.now q ≡ 0 }
    {
        match self.spans.get(column) {
            Some(span) => span.has(value),
            None => true,
        }
    }

    /// Whether a row with a value from the least to the greatest in a column may be wanted.
    pub fn may_have_between(&self, column: usize, least: &Value, greatest: &Value) -> bool
        ensures { result ≡ false → (q : ARow) → is_le (value_cmp least.now (slice_index_or q.row column Null)) ≡ true → is_le (value_cmp (slice_index_or q.row column Null) greatest.now) ≡ true → need_in self.now q ≡ 0 }
    {
        match self.spans.get(column) {
            Some(span) => span.meets(least, greatest),
            None => true,
        }
    }

    /// Whether a row of an epoch from the least to the greatest is wanted.
    pub fn may_have_epoch_between(&self, least: u64, greatest: u64) -> bool
        ensures { result ≡ false → (q : ARow) → least ≤ q.ins → q.ins ≤ greatest → need_in self.now q ≡ 0 }
    {
        self.needs.has_epoch_between(least, greatest)
    }

    /// Whether all rows that were wanted at first have one value in this column: then few others may be. A hint, which decides no answer.
    pub fn is_single(&self, column: usize) -> bool {
        match self.spans.get(column) {
            Some(span) => span.is_single(),
            None => false,
        }
    }

    /// Whether `may_have` says true of each value from the least to the greatest. A hint, which decides no answer.
    pub fn has_all_between(&self, column: usize, least: &Value, greatest: &Value) -> bool {
        match self.spans.get(column) {
            Some(span) => span.has_all(least, greatest),
            None => false,
        }
    }

    /// The row that is expected next, where rows come in the order in which they were wanted. A hint, which decides no answer.
    pub fn next(&self) -> Option<&Asked>
        ensures { IfSome result (λ a. IsNext self.now a.now) }
    {
        self.needs.last()
    }

    /// Takes the row that is expected next.
    pub fn take_next(&mut self)
        ensures { (a : ARow) → IsNext self.old a → Adds a (need_in self.new) (need_in self.old) }
    {
        self.needs.take_last();
    }

    /// Takes a row, where it is wanted; answers whether it was.
    pub fn take(&mut self, alloc: Global, row: &Inserted) -> Result<bool, AllocError>
        ensures { IfOk result (λ taken. Tries taken (asked_in row.now) (need_in self.old) (need_in self.new)) }
    {
        self.needs.take(alloc, row)
    }

    /// Whether no row is wanted any more.
    pub fn is_done(&self) -> bool
        ensures { IsTrue result → (q : ARow) → need_in self.now q ≡ 0 }
    {
        self.needs.is_done()
    }
}
