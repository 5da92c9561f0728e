//! The lane of some values.

ghost use Rattle.std.specs.Prelude.{◌≡◌, ℤ, List, map, IfOk, IfSome, IfNone};
ghost use Rattle.block_codec.specs.Held.{number_value};

use crate::block::lane_number;
use col_value::Value;
use std::alloc::{AllocError, Global};

/// The numbers of a lane that stand for some values. None exactly where none do.
pub fn numbers_of(alloc: Global, values: &[Value]) -> Result<Option<Vec<i64>>, AllocError>
    ensures found { IfOk result (λ o. IfSome o (λ v. map number_value v.items ≡ values.now)) }
    ensures none { IfOk result (λ o. IfNone o ((ns : List ℤ) → map number_value ns ≡ values.now → ⊥)) }
{
    let mut numbers = Vec::with_capacity(alloc, values.len())?;
    for value in values {
        match lane_number(value) {
            Some(n) => numbers.push_reserved(n),
            None => return Ok(None),
        }
    }
    Ok(Some(numbers))
}
