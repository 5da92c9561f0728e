//! The front of some bytes, for readers of more.

ghost use Rattle.std.specs.Prelude.{◌≡◌, Some, IfSome};
ghost use Rattle.col_bytes.specs.Fronts.{vint_at};
ghost use Rattle.col_bytes.specs.Parts.{Gives, after, told};

use crate::stop::Stop;
use crate::varint::{LONGEST, groups_of};
use std::alloc::AllocError;

/// The number of one, two or three bytes at the front, and the bytes behind it: most numbers are so short, and need no recursion.
#[tactic(auto, unfolding(crate::specs::Fronts::groups_at))]
#[inline(always)]
fn short_vint(bytes: &[u8]) -> Option<(u64, &[u8])>
    ensures { IfSome result (λ x. vint_at bytes.now ≡ Some (x.0, x.1.now)) }
{
    match bytes {
        [a, rest @ ..] if *a < 128 => Some((u64::from(*a), rest)),
        [a, b, rest @ ..] if *b < 128 && *b > 0 => {
            Some((u64::from(*a - 128) + 128 * u64::from(*b), rest))
        }
        [a, b, c, rest @ ..] if *b >= 128 && *c < 128 && *c > 0 => {
            let high = u64::from(*b - 128) + 128 * u64::from(*c);
            Some((u64::from(*a - 128) + 128 * high, rest))
        }
        _ => None,
    }
}

/// Reads the number at the front, and gives the bytes behind it. `Malformed` comes only where no front of the
/// bytes spells a number.
#[tactic(auto, unfolding(crate::specs::Fronts::groups_at))]
#[inline]
pub fn read_vint(bytes: &[u8]) -> Result<(u64, &[u8]), Stop>
    ensures { Gives (λ x. (x.0, x.1.now)) result (vint_at bytes.now) }
{
    if let Some(read) = short_vint(bytes) {
        return Ok(read);
    }
    match groups_of(bytes, LONGEST) {
        Some(read) => Ok(read),
        None => Err(Stop::Malformed),
    }
}

/// Reads this byte at the front, and gives the bytes behind it. `Malformed` comes only where another or none is
/// there.
pub fn read_tag(tag: u8, bytes: &[u8]) -> Result<&[u8], Stop>
    ensures { Gives (λ x. x.now) result (after tag bytes.now) }
{
    match bytes {
        [b, rest @ ..] => {
            if *b == tag {
                Ok(rest)
            } else {
                Err(Stop::Malformed)
            }
        }
        [] => Err(Stop::Malformed),
    }
}

/// What was read, or None where nothing is spelled so.
pub fn told<T: Drop>(read: Result<T, Stop>) -> Result<Option<T>, AllocError>
    ensures { result ≡ told read }
{
    match read {
        Ok(x) => Ok(Some(x)),
        Err(Stop::Malformed) => Ok(None),
        Err(Stop::Memory) => Err(AllocError),
    }
}
