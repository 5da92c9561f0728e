//! All columns of a projection, and all its containers.

ghost use Rattle.std.specs.Prelude.{◌≡◌, true, replicate, IfOk};
ghost use Rattle.std.specs.List.{range_with_len};

use std::alloc::{AllocError, Global};

/// So many places, one after the other.
pub fn all_places(alloc: Global, count: usize) -> Result<Vec<usize>, AllocError>
    ensures { IfOk result (λ v. v.items ≡ range_with_len 0 count) }
{
    let mut out = Vec::with_capacity(alloc, count)?;
    for place in 0..count {
        out.push(place)?;
    }
    Ok(out)
}

/// Flags that choose the first so many.
pub fn all_flags(alloc: Global, count: usize) -> Result<Vec<bool>, AllocError>
    ensures { IfOk result (λ v. v.items ≡ replicate count true) }
{
    let mut out = Vec::with_capacity(alloc, count)?;
    for _ in 0..count {
        out.push(true)?;
    }
    Ok(out)
}
