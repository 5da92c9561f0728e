//! The marks of two vectors in one.

ghost use Rattle.std.specs.Prelude.{◌≡◌, [], IfOk, IfSome, IfNone};
ghost use Rattle.del_vector.specs.Marks.{AreMarks, AreApart, IsMerged, TakesFirst};

use crate::mark::Mark;
use std::alloc::{AllocError, Global};

type Taken<'a> = (Mark, &'a [Mark], &'a [Mark]);

/// The mark that stands first in two lists, and what is left of both.
fn take_first<'a>(left: &'a [Mark], right: &'a [Mark]) -> Option<Taken<'a>>
    ensures first { IfSome result (λ x. TakesFirst left.now right.now x.0 x.1.now x.2.now) }
    ensures none { IfNone result ((left.now ≡ []) × (right.now ≡ [])) }
{
    match (left, right) {
        ([], []) => None,
        ([a, rest @ ..], []) => Some((*a, rest, right)),
        ([], [b, rest @ ..]) => Some((*b, left, rest)),
        ([a, after_a @ ..], [b, after_b @ ..]) => {
            if a.position < b.position {
                Some((*a, after_a, right))
            } else {
                Some((*b, left, after_b))
            }
        }
    }
}

/// The marks of both, in ascending order; no position is marked in both.
pub fn merged(alloc: Global, first: &[Mark], second: &[Mark]) -> Result<Vec<Mark>, AllocError>
    requires first { AreMarks first.now }
    requires second { AreMarks second.now }
    requires apart { AreApart first.now second.now }
    ensures marks { IfOk result (λ v. AreMarks v.items) }
    ensures merged { IfOk result (λ v. IsMerged first.now second.now v.items) }
{
    let mut out = Vec::with_capacity(alloc, first.len().saturating_add(second.len()))?;
    let mut left = first;
    let mut right = second;
    while let Some((mark, after_left, after_right)) = take_first(left, right) {
        out.push(mark)?;
        left = after_left;
        right = after_right;
    }
    Ok(out)
}
