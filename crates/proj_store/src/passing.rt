//! Blocks that hold no wanted row, as their indexes say.

ghost use Rattle.std.specs.Prelude.{◌≡◌, ◌≤◌, length, IsTrue};
ghost use Rattle.wanted_rows.specs.Wanted.{need_in};
ghost use Rattle.proj_store.specs.Candidates.{MissesBlock, MissesOne};

use pos_index::PosIndex;
use wanted_rows::Wants;

/// Whether the index of a column says that no row of block k is wanted.
fn misses_column(at: &PosIndex, column: usize, k: usize, wants: &Wants) -> bool
    ensures { IsTrue result → MissesBlock k column (need_in wants.now) at.now }
{
    match at.entries.as_slice().get(k) {
        Some(entry) => !wants.may_have_between(column, &entry.least, &entry.greatest),
        None => false,
    }
}

/// Whether the index of one of so many columns says that no row of block k is wanted.
pub fn misses_block(indexes: &[PosIndex], columns: usize, k: usize, wants: &Wants) -> bool
    requires { columns ≤ length indexes.now }
    ensures { IsTrue result → MissesOne indexes.now columns k (need_in wants.now) }
{
    for i in 0..columns {
        if misses_column(&indexes[i], i, k, wants) {
            return true;
        }
    }
    false
}
