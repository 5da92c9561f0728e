//! Bounds of a row that lies within one list of bounds or within another.

ghost use Rattle.std.specs.Prelude.{◌≡◌, ◌<◌, ℕ, true, List, IfOk};
ghost use Rattle.std.specs.List.{All, slice_index_or};
ghost use Rattle.std.specs.Option.{IfSome, option_map_or};
ghost use Rattle.std.specs.Ordering.{is_le};
ghost use Rattle.col_value.specs.Order.{value_cmp};
ghost use Rattle.col_value.specs.declared.value.Value.{Value as Item};
ghost use Rattle.col_value.specs.declared.value.Value.TheVariants.{Null};
ghost use Rattle.row_bounds.specs.Bounds.{lies_in, within};

use crate::bound::Bound;
use col_value::Value;
use std::alloc::{AllocError, Global};

/// In each column that both lists bound on one side, from the lesser least value to the greater greatest one.
pub fn hulls(alloc: Global, bounds: Vec<Bound>, others: &[Bound]) -> Result<Vec<Bound>, AllocError>
    ensures own { IfOk result (λ v. (n : ℕ) → All (λ b. b.column < n) bounds.items → All (λ b. b.column < n) v.items) }
    ensures first { IfOk result (λ v. (row : List Item) → within bounds.items row ≡ true → within v.items row ≡ true) }
    ensures second { IfOk result (λ v. (row : List Item) → within others.now row ≡ true → within v.items row ≡ true) }
{
    let mut out = Vec::new(alloc);
    for bound in bounds {
        if let Some(hull) = hull_among(alloc, bound, others)? {
            out.push(hull)?;
        }
    }
    Ok(out)
}

/// The hull of a bound and the first other one of its column that ends on a side on which it ends, too.
#[tactic(auto, using(crate::proofs::Hulls::hull_within))]
fn hull_among(alloc: Global, bound: Bound, others: &[Bound]) -> Result<Option<Bound>, AllocError>
    ensures column { IfOk result (λ o. IfSome o (λ hull. hull.column ≡ bound.column)) }
    ensures first { IfOk result (λ o. IfSome o (λ hull. (v : Item) → lies_in bound v ≡ true → lies_in hull v ≡ true)) }
    ensures second { IfOk result (λ o. IfSome o (λ hull. (row : List Item) → within others.now row ≡ true → lies_in hull (slice_index_or row hull.column Null) ≡ true)) }
{
    for other in others {
        if other.column == bound.column && end_alike(&bound, other) {
            return Ok(Some(hull_of(alloc, bound, other)?));
        }
    }
    Ok(None)
}

/// Whether both bounds have a least value, or both a greatest one.
fn end_alike(a: &Bound, b: &Bound) -> bool {
    a.least.is_some() && b.least.is_some() || a.greatest.is_some() && b.greatest.is_some()
}

/// From the lesser least value of two bounds of a column to the greater greatest one, as far as both have such.
fn hull_of(alloc: Global, a: Bound, b: &Bound) -> Result<Bound, AllocError>
    ensures column { IfOk result (λ hull. hull.column ≡ a.column) }
    ensures first { IfOk result (λ hull. (v : Item) → lies_in a v ≡ true → lies_in hull v ≡ true) }
    ensures second { IfOk result (λ hull. (v : Item) → lies_in b.now v ≡ true → lies_in hull v ≡ true) }
{
    let Bound {
        column,
        least,
        greatest,
    } = a;
    let least = lesser(alloc, least, &b.least)?;
    let greatest = greater(alloc, greatest, &b.greatest)?;
    Ok(Bound {
        column,
        least,
        greatest,
    })
}

/// The lesser of two least values; none where there is none.
fn lesser(alloc: Global, a: Option<Value>, b: &Option<Value>) -> Result<Option<Value>, AllocError>
    ensures first { IfOk result (λ o. (v : Item) → option_map_or (λ least. is_le (value_cmp least v)) a true ≡ true → option_map_or (λ least. is_le (value_cmp least v)) o true ≡ true) }
    ensures second { IfOk result (λ o. (v : Item) → option_map_or (λ least. is_le (value_cmp least v)) b.now true ≡ true → option_map_or (λ least. is_le (value_cmp least v)) o true ≡ true) }
{
    match (a, b) {
        (Some(a), Some(b)) => {
            if b.order(&a).is_lt() {
                Ok(Some(b.copy(alloc)?))
            } else {
                Ok(Some(a))
            }
        },
        (Some(_), None) | (None, _) => Ok(None),
    }
}

/// The greater of two greatest values; none where there is none.
fn greater(alloc: Global, a: Option<Value>, b: &Option<Value>) -> Result<Option<Value>, AllocError>
    ensures first { IfOk result (λ o. (v : Item) → option_map_or (λ greatest. is_le (value_cmp v greatest)) a true ≡ true → option_map_or (λ greatest. is_le (value_cmp v greatest)) o true ≡ true) }
    ensures second { IfOk result (λ o. (v : Item) → option_map_or (λ greatest. is_le (value_cmp v greatest)) b.now true ≡ true → option_map_or (λ greatest. is_le (value_cmp v greatest)) o true ≡ true) }
{
    match (a, b) {
        (Some(a), Some(b)) => {
            if a.order(b).is_lt() {
                Ok(Some(b.copy(alloc)?))
            } else {
                Ok(Some(a))
            }
        },
        (Some(_), None) | (None, _) => Ok(None),
    }
}
