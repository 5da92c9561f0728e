//! Rows that are counted, so that a row is found by its hash.

ghost use Rattle.std.specs.Prelude.{◌≡◌, ◌+◌, ◌<◌, ◌≤◌, ◌^◌, false, length, slice_get, IfOk, OnOk, IfSome, IfNone, Some};
ghost use Rattle.col_value.specs.declared.row.Asked.{Asked as ARow};
ghost use Rattle.wanted_rows.specs.Wanted.{asked_in, count_in, tally, total, Adds, SetsAt};

use col_value::Asked;
use indexmap::IndexMap;
use std::alloc::AllocError;
use write_store::Inserted;

/// Rows with their insert epochs, and how often each is wanted.
pub type Counts = IndexMap<Inserted, u64>;

/// Rows join those that are counted, the last one first.
pub fn counted(counts: Counts, rows: Vec<Asked>) -> Result<Counts, AllocError>
    requires { total counts.entries + length rows.items < 2 ^ 64 }
    ensures count { IfOk result (λ all. (q : ARow) → count_in all.entries q ≡ count_in counts.entries q + tally q rows.items) }
    ensures total { IfOk result (λ all. total all.entries ≡ total counts.entries + length rows.items) }
{
    let mut counts = counts;
    let mut rows = rows;
    counts.reserve(rows.len())?;
    while let Some(asked) = rows.pop() {
        add(&mut counts, asked)?;
    }
    Ok(counts)
}

/// One row more is wanted.
fn add(counts: &mut Counts, asked: Asked) -> Result<(), AllocError>
    requires { total counts.old.entries + 1 < 2 ^ 64 }
    ensures adds { OnOk result (Adds asked (count_in counts.old.entries) (count_in counts.new.entries)) }
    ensures total { OnOk result (total counts.new.entries ≡ total counts.old.entries + 1) }
{
    let Asked { row, ins } = asked;
    let (place, old) = counts.insert_full(Inserted { ins, row }, 1)?;
    if let Some(count) = old {
        set(counts, place, count + 1);
    }
    Ok(())
}

/// The row at a place is wanted so often.
pub fn set(counts: &mut Counts, place: usize, count: u64)
    requires { place < length counts.old.entries }
    ensures { SetsAt place count counts.old.entries counts.new.entries }
{
    let (_, now) = counts.pair_mut(place);
    *now = count;
}

/// How often the row at a place is wanted, where it is this one.
fn count_at(counts: &Counts, place: usize, row: &Inserted) -> Option<u64>
    ensures there { IfSome result (λ n. slice_get counts.now.entries place ≡ Some (row.now, n)) }
    ensures count { IfSome result (λ n. count_in counts.now.entries (asked_in row.now) ≡ n) }
{
    let (key, count) = counts.get_index(place)?;
    if *key == *row { Some(*count) } else { None }
}

/// The place of a row and how often it is wanted, by its hash.
fn find_by_hash(counts: &Counts, row: &Inserted) -> Option<(usize, u64)>
    ensures there { IfSome result (λ p. slice_get counts.now.entries p.0 ≡ Some (row.now, p.1)) }
    ensures count { IfSome result (λ p. count_in counts.now.entries (asked_in row.now) ≡ p.1) }
    ensures none { IfNone result (count_in counts.now.entries (asked_in row.now) ≡ 0) }
{
    let (place, _, count) = counts.get_full(row)?;
    Some((place, *count))
}

/// The place of a row and how often it is wanted. The place where it is expected is looked at first, before the row is hashed.
pub fn find(counts: &Counts, expected: usize, row: &Inserted) -> Option<(usize, u64)>
    ensures there { IfSome result (λ p. slice_get counts.now.entries p.0 ≡ Some (row.now, p.1)) }
    ensures count { IfSome result (λ p. count_in counts.now.entries (asked_in row.now) ≡ p.1) }
    ensures none { IfNone result (count_in counts.now.entries (asked_in row.now) ≡ 0) }
    ensures small { length counts.now.entries < 2 ^ 63 }
{
    if counts.len() == 0 {
        return None;
    }
    match count_at(counts, expected, row) {
        Some(count) => Some((expected, count)),
        None => find_by_hash(counts, row),
    }
}

/// Whether a row of an epoch from the least to the greatest is wanted.
pub fn has_epoch_between(counts: &Counts, least: u64, greatest: u64) -> bool
    ensures { result ≡ false → (q : ARow) → least ≤ q.ins → q.ins ≤ greatest → count_in counts.now.entries q ≡ 0 }
{
    for (row, count) in counts.iter() {
        if *count > 0 && least <= row.ins && row.ins <= greatest {
            return true;
        }
    }
    false
}
