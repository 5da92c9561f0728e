//! What one table tells.

ghost use Rattle.std.specs.Prelude.{◌≡◌};
ghost use Rattle.std.specs.List.{All};
ghost use Rattle.col_value.specs.Order.{IsRow};

use col_value::{Name, Stamped};
use std::marker::Model;

/// The retained rows of the table of a name, with their epochs.
#[derive(Debug, Drop)]
pub struct Told {
    name: Name,
    rows: Vec<Stamped>,
}

impl Model for Told {
    ghost use Rattle.std.specs.List.{All};
    ghost use Rattle.col_value.specs.Order.{IsRow};
    ghost use Rattle.catch_tables.specs.Told.{History, history_told};

    ghost Value = { History };

    ghost view = { λ t. history_told t.name t.rows.items };

    ghost invariant = { λ t. All (λ s. IsRow s.row) t.rows.items };
}

impl Told {
    pub fn new(name: Name, rows: Vec<Stamped>) -> Told
        requires { All (λ s. IsRow s.row) rows.items }
        ensures name { result.name ≡ name }
        ensures rows { result.rows ≡ rows.items }
    {
        Told { name, rows }
    }

    pub fn name(&self) -> &Name
        ensures { result.now ≡ self.now.name }
    {
        &self.name
    }

    pub fn rows(&self) -> &[Stamped]
        ensures same { result.now ≡ self.now.rows }
        ensures valid { All (λ s. IsRow s.row) result.now }
    {
        self.rows.as_slice()
    }
}
