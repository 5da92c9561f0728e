//! Epochs and numbers that a catalogue goes on to.

ghost use Rattle.std.specs.Prelude.{◌≤◌, IsTrue};
ghost use Rattle.std.specs.Bool.{OnTrue};
ghost use Rattle.std.specs.List.{All};
ghost use Rattle.catalog_laws.specs.Going.{GoesOn, HaveReached};

use catalog_types::{Catalogue, Projection, Table};

/// Whether a later catalogue can have this last epoch, and this next number.
pub fn goes_on(c: &Catalogue, last: u64, next: u64) -> bool
    ensures { IsTrue result → GoesOn c.now last next }
{
    c.last <= last && last < 1 << 63 && c.next <= next && next < 1 << 61
}

fn has_reached(p: &Projection, epoch: u64) -> bool
    ensures { IsTrue result → OnTrue p.now.fresh (epoch ≤ p.now.lge) }
{
    !p.fresh || epoch <= p.lge
}

fn table_reached(t: &Table, epoch: u64) -> bool
    ensures { IsTrue result → All (λ p. OnTrue p.fresh (epoch ≤ p.lge)) t.now.projections }
{
    t.projections
        .as_slice()
        .iter()
        .all(|p| has_reached(p, epoch))
}

/// Whether each up-to-date projection has reached an epoch.
pub fn have_reached(tables: &[Table], epoch: u64) -> bool
    ensures { IsTrue result → HaveReached epoch tables.now }
{
    tables.iter().all(|t| table_reached(t, epoch))
}
