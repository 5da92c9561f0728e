//! Blocks that are passed over.

ghost use Rattle.std.specs.Prelude.{◌≡◌, ◌≤◌, ◌<◌, ℕ, IsTrue, false};
ghost use Rattle.exec_scan.specs.Passing.{IsPassed, Misses, is_missed, is_passed};

use crate::opened::Opened;
use proj_store::SharedIndex;
use row_bounds::Bound;

/// Whether the index of its column says that no value of a block lies in a bound.
fn misses(bound: &Bound, indexes: &[Option<SharedIndex>], block: usize) -> bool
    ensures missed { IsTrue result → Misses indexes.now block bound.now }
    ensures told { result ≡ is_missed indexes.now block bound.now }
{
    match indexes.get(bound.column) {
        Some(Some(at)) => match at.get().entries.as_slice().get(block) {
            Some(entry) => bound.misses(&entry.least, &entry.greatest),
            None => false,
        },
        Some(None) | None => false,
    }
}

/// Whether a block can be passed over.
fn is_passed(bounds: &[Bound], indexes: &[Option<SharedIndex>], block: usize) -> bool
    ensures passed { IsTrue result → IsPassed bounds.now indexes.now block }
    ensures told { result ≡ is_passed bounds.now indexes.now block }
{
    for bound in bounds {
        if misses(bound, indexes, block) {
            return true;
        }
    }
    false
}

/// The first block from `first` on that can't be passed over, or `count` where no block before that is one.
fn first_needed(
    bounds: &[Bound],
    indexes: &[Option<SharedIndex>],
    first: usize,
    count: usize,
) -> usize
    ensures first { result < count → first ≤ result }
    ensures passed { (block : ℕ) → first ≤ block → block < result → IsPassed bounds.now indexes.now block }
    ensures needed { result < count → is_passed bounds.now indexes.now result ≡ false }
{
    for block in first..count {
        if !is_passed(bounds, indexes, block) {
            return block;
        }
    }
    count
}

/// The first block of the container at hand, from `first` on, that can't be passed over; `count` where none before that is one.
pub fn next_needed(bounds: &[Bound], opened: &Opened, first: usize, count: usize) -> usize
    ensures first { result < count → first ≤ result }
    ensures passed { (block : ℕ) → first ≤ block → block < result → IsPassed bounds.now opened.now.indexes block }
    ensures needed { result < count → is_passed bounds.now opened.now.indexes result ≡ false }
{
    first_needed(bounds, opened.indexes.as_slice(), first, count)
}
