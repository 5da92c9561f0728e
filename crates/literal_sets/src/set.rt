//! The literals with which a condition compares a column.

ghost use Rattle.std.specs.Prelude.{◌≡◌, ◌∷◌, List, [], IfOk, IfSome};
ghost use Rattle.std.specs.List.{list_any};
ghost use Rattle.col_value.specs.declared.value.Value.{Value as Item};
ghost use Rattle.sql_bound.specs.Values.{is_true, of_row, value_of};
ghost use Rattle.literal_sets.specs.Sets.{has_one, IsSetOf};

use crate::part::{column_of, value_in};
use col_value::Value;
use row_keys::KeyTable;
use sql_bound::Expr;
use std::alloc::{AllocError, Global};
use std::marker::Model;

/// So few literals are compared as quickly as they are looked up.
const FEW: usize = 8;

/// A column, and the literals that a condition asks for there. Contracts see the column, as a list of one, and the literals as keys.
#[derive(Drop)]
pub struct LiteralSet {
    columns: Vec<usize>,
    keys: KeyTable,
}

impl Model for LiteralSet {
    ghost use Rattle.literal_sets.specs.Sets.{Literals};

    ghost Value = { Literals };

    ghost view = { λ s. record { columns = s.columns.items; keys = s.keys } };
}

impl LiteralSet {
    /// The set of a condition, where it is an OR of equations of one column with literals, of which there are more than a few.
    #[tactic(auto, using(crate::proofs::Ors::or_is))]
    pub fn of(alloc: Global, e: &Expr) -> Result<Option<LiteralSet>, AllocError>
        ensures { IfOk result (λ o. IfSome o (IsSetOf e.now)) }
    {
        let Expr::Or(parts) = e else {
            return Ok(None);
        };
        set_of(alloc, parts.as_slice())
    }

    /// Whether a row has one of the literals in the column. It takes no memory.
    #[tactic(auto, using(crate::proofs::Ors::has_place))]
    pub fn has(&self, row: &[Value]) -> bool
        ensures { result ≡ has_one self.now row.now }
    {
        self.keys.find(self.columns.as_slice(), row).is_some()
    }
}

/// The set of these conditions, where each is an equation of the same column with a literal.
fn set_of(alloc: Global, parts: &[Expr]) -> Result<Option<LiteralSet>, AllocError>
    ensures { IfOk result (λ o. IfSome o (λ s. (row : List Item) → list_any (λ e. is_true (value_of (of_row row) e)) parts.now ≡ has_one s row)) }
{
    if parts.len() <= FEW {
        return Ok(None);
    }
    let Some(column) = column_of(&parts[0]) else {
        return Ok(None);
    };
    let Some(keys) = keys_of(alloc, parts, column)? else {
        return Ok(None);
    };
    let mut columns = Vec::new(alloc);
    columns.push(column)?;
    Ok(Some(LiteralSet { columns, keys }))
}

/// The literals of these conditions, where each is an equation of this column with one.
#[tactic(auto, using(crate::proofs::Ors::key_more))]
fn keys_of(alloc: Global, parts: &[Expr], column: usize) -> Result<Option<KeyTable>, AllocError>
    ensures { IfOk result (λ o. IfSome o (λ keys. (row : List Item) → list_any (λ e. is_true (value_of (of_row row) e)) parts.now ≡ has_one (record { columns = column ∷ []; keys = keys }) row)) }
{
    let mut keys = KeyTable::new(alloc);
    for part in parts {
        let Some(value) = value_in(alloc, part, column)? else {
            return Ok(None);
        };
        keys.add(alloc, &[0], &[value])?;
    }
    Ok(Some(keys))
}
