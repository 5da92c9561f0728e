//! Laws of rows that were picked.

ghost use Rattle.std.specs.Prelude.{◌≡◌, ℕ, Option, List};
ghost use Rattle.col_value.specs.declared.row.Asked.{Asked};
ghost use Rattle.col_value.specs.declared.row.Stamped.{Stamped};
ghost use Rattle.row_history.specs.History.{Takes, Within};
ghost use Rattle.stored_rows.specs.Held.{stamped_from};
ghost use Rattle.wanted_rows.specs.Wanted.{tally};
ghost use Rattle.wanted_rows.specs.Picked.{Picks};
ghost use Rattle.wanted_rows.specs.Taking.{Took, marked_at};

/// Rows that are deleted at the places that were picked are taken from what was wanted.
pub fn picked_rows_go()
    ensures { (epoch : ℕ) (mark now : ℕ → Option ℕ) (rows : List Asked) (places : List ℕ) (need left : Asked → ℕ) → Picks mark rows places need left
        → ((i : ℕ) → now i ≡ marked_at epoch places mark i) → Took epoch (stamped_from 0 mark rows) (stamped_from 0 now rows) need left }
{}

/// Where all that is wanted is among the rows that aren't deleted, exactly that goes.
pub fn wanted_rows_go()
    ensures { (epoch : ℕ) (old new : List Stamped) (wanted : List Asked) (left : Asked → ℕ) → Took epoch old new (λ q. tally q wanted) left → Within wanted old → Takes epoch wanted old new }
{}
