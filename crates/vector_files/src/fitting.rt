//! Whether marks may be those of a container.

ghost use Rattle.std.specs.Prelude.{◌≡◌, ◌↔◌, ◌<◌, IsTrue};
ghost use Rattle.std.specs.List.{All};
ghost use Rattle.stored_rows.specs.Held.{greatest_epoch};

use catalog_types::Container;
use del_vector::Mark;

/// The greatest epoch of some marks, or 0.
pub fn greatest_epoch(marks: &[Mark]) -> u64
    ensures { result ≡ greatest_epoch marks.now }
{
    let mut greatest: u64 = 0;
    for mark in marks {
        greatest = greatest.max(mark.epoch);
    }
    greatest
}

fn are_within(entry: &Container, marks: &[Mark]) -> bool
    ensures { IsTrue result ↔ All (λ e. e.position < entry.now.rows) marks.now }
{
    marks.iter().all(|mark| mark.position < entry.rows)
}

/// Whether each mark is of a row of the container, and the greatest epoch that of its entry.
pub fn fit(entry: &Container, marks: &[Mark]) -> bool
    ensures { IsTrue result ↔ (All (λ e. e.position < entry.now.rows) marks.now × (greatest_epoch marks.now ≡ entry.now.greatest_mark)) }
{
    are_within(entry, marks) && greatest_epoch(marks) == entry.greatest_mark
}
