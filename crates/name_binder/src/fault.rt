ghost use Rattle.std.specs.Prelude.{◌≡◌};
ghost use Rattle.name_binder.specs.declared.fault.BindFault.TheVariants.{Memory};

use col_value::Column;
use sql_tree::Refusal;
use std::alloc::AllocError;
use std::marker::Model;
use thiserror::Error;

/// A table that a statement names: its place among all tables, and its columns.
#[derive(Drop)]
pub struct Found<'a> {
    table: usize,
    columns: &'a [Column],
}

impl<'a> Model for Found<'a> {
    ghost use Rattle.std.specs.Prelude.{ℕ, List};
    ghost use Rattle.col_value.specs.declared.column.Column.{Column};

    ghost Value = { ℕ × List Column };

    ghost view = { λ f. (f.table, f.columns.now) };
}

impl<'a> Found<'a> {
    /// The table at this place, with these columns.
    pub fn new(table: usize, columns: &'a [Column]) -> Found<'a>
        ensures { result ≡ (table, columns.now) }
    {
        Found { table, columns }
    }

    /// Its place among all tables.
    pub fn table(&self) -> usize
        ensures { result ≡ self.now.0 }
    {
        self.table
    }

    /// Its columns.
    pub fn columns(&self) -> &'a [Column]
        ensures { result.now ≡ self.now.1 }
    {
        self.columns
    }

    /// The same table once more.
    pub fn again(&self) -> Found<'a>
        ensures { result ≡ self.now }
    {
        Found {
            table: self.table,
            columns: self.columns,
        }
    }
}

/// Why a statement was not bound.
#[derive(Debug, Drop, Error)]
pub enum BindFault {
    #[error(transparent)]
    Refused(Refusal),
    #[error("memory is short")]
    Memory,
}

impl From<AllocError> for BindFault {
    ghost from_gives = { λ _ e. e ≡ Memory };

    fn from(_: AllocError) -> Self {
        BindFault::Memory
    }
}
