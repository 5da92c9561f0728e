//! Numbers of a lane compared with one number.

ghost use Rattle.std.specs.Prelude.{◌≡◌, ◌∷◌, [], map, IfOk};
ghost use lib.Lanes.{mask_l};
ghost use Rattle.row_bounds.specs.Lanes.{stands_so};

use sql_tree::Cmp;
use std::alloc::{AllocError, Global};
use std::simd::prelude::*;

/// Whether a number stands so to another one.
fn stands_so(cmp: Cmp, with: i64, n: i64) -> bool
    ensures { result ≡ stands_so cmp with n }
{
    match cmp {
        Cmp::Eq => n == with,
        Cmp::Ne => n != with,
        Cmp::Lt => n < with,
        Cmp::Le => n <= with,
        Cmp::Gt => n > with,
        Cmp::Ge => n >= with,
    }
}

/// Whether each of some numbers stands so to another one.
pub fn compare_lanes(
    alloc: Global,
    values: &[i64],
    cmp: Cmp,
    with: i64,
) -> Result<Vec<bool>, AllocError>
    ensures { IfOk result (λ v. v.items ≡ map (stands_so cmp with) values.now) }
{
    let mut out = Vec::with_capacity(alloc, values.len())?;
    for n in values {
        out.push(stands_so(cmp, with, *n))?;
    }
    Ok(out)
}

/// Which of eight numbers stand so to another one: a bit for each, the first the lowest.
#[inline(always)]
pub fn mask_of(
    cmp: Cmp,
    with: i64,
    a: i64,
    b: i64,
    c: i64,
    d: i64,
    e: i64,
    f: i64,
    g: i64,
    h: i64,
) -> u64
    ensures { result ≡ mask_l (map (stands_so cmp with) (a ∷ b ∷ c ∷ d ∷ e ∷ f ∷ g ∷ h ∷ [])) }
{
    let lanes = i64x8::from_array([a, b, c, d, e, f, g, h]);
    let other = i64x8::splat(with);
    match cmp {
        Cmp::Eq => lanes.simd_eq(other).to_bitmask(),
        Cmp::Ne => lanes.simd_ne(other).to_bitmask(),
        Cmp::Lt => lanes.simd_lt(other).to_bitmask(),
        Cmp::Le => lanes.simd_le(other).to_bitmask(),
        Cmp::Gt => other.simd_lt(lanes).to_bitmask(),
        Cmp::Ge => other.simd_le(lanes).to_bitmask(),
    }
}
