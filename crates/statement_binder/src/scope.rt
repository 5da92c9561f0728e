ghost use Rattle.std.specs.Prelude.{◌≡◌, ◌==◌, position};
ghost use Rattle.sql_binding.specs.Trees.{column_of, key_of};
ghost use Rattle.statement_binder.specs.Scopes.{scope_of};

use name_binder::{SeenColumn, place_of};
use sql_tree::ColRef;

/// Where names are looked up: the columns in sight, the place of the last FROM item that is in reach, and the GROUP BY columns.
#[derive(Clone, Copy)]
pub struct Scope<'a> {
    pub seen: &'a [SeenColumn<'a>],
    pub last: usize,
    pub keys: &'a [usize],
}

impl<'a> Scope<'a> {
    /// The same, with the FROM items up to this place in reach.
    pub(crate) fn up_to(self, last: usize) -> Scope<'a>
        ensures { scope_of result ≡ record { seen = self.entry.seen.now; last = last; keys = self.entry.keys.now } }
    {
        Scope {
            seen: self.seen,
            last,
            keys: self.keys,
        }
    }

    /// The place of the column that a name stands for.
    pub(crate) fn column(self, name: &ColRef) -> usize
        ensures { result ≡ column_of (scope_of self.entry) name.now }
    {
        place_of(self.seen, self.last, name)
    }

    /// The place of a column in GROUP BY, 0 where it has none.
    pub(crate) fn key(self, column: usize) -> usize
        ensures { result ≡ key_of self.entry.keys.now column }
    {
        place_of_key(self.keys, column).unwrap_or(0)
    }
}

/// The first place of a column among those of GROUP BY.
fn place_of_key(keys: &[usize], column: usize) -> Option<usize>
    ensures { result ≡ position (λ k. k == column) keys.now }
{
    keys.iter().position(|k| *k == column)
}
