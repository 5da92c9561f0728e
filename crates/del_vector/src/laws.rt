//! Laws of delete vectors.

ghost use Rattle.std.specs.Prelude.{◌≡◌, ◌≤◌, ℕ, List, Some};
ghost use Rattle.del_vector.specs.declared.mark.Mark.{Mark};
ghost use Rattle.del_vector.specs.Marks.{AreMarks, epoch_at, marks_upto, cut_epoch};
ghost use Rattle.del_vector.specs.Spelling.{spelling, IsSpelled};

/// Two vectors of one spelling have the same marks.
pub fn one_vector()
    ensures { (ms ns : List Mark) → IsSpelled ms → IsSpelled ns → spelling ms ≡ spelling ns → ms ≡ ns }
{}

/// Cut at an epoch, a position keeps its mark exactly where that isn't later.
pub fn no_later_mark()
    ensures { (epoch : ℕ) (ms : List Mark) → AreMarks ms → (position : ℕ) → epoch_at (marks_upto epoch ms) position ≡ cut_epoch epoch (epoch_at ms position) }
{}
