//! Unsigned LEB128 in its shortest form.

ghost use Rattle.std.specs.Prelude.{◌≡◌, ◌<◌, ◌^◌, ◌++◌, ℕ, List, length, take, OnOk, OnErr, IfSome, IfNone, option_map};
ghost use Rattle.col_bytes.specs.Spellings.{vint, Begins};
ghost use Rattle.col_bytes.specs.Fronts.{groups_at, vint_at, Reads};

use std::alloc::AllocError;

/// How many bytes the longest number takes.
pub const LONGEST: usize = 10;

/// Appends the groups of a number. After a refusal a part of them may stand behind what was there.
fn push_groups(out: &mut Vec<u8>, n: u64) -> Result<(), AllocError>
    ensures ok { OnOk result (out.new.items ≡ out.old.items ++ vint n) }
    ensures err { OnErr result (take (length out.old.items) out.new.items ≡ out.old.items) }
{
    let mut rest = n;
    while rest >= 128 {
        out.push(128 + (rest % 128) as u8)?;
        rest /= 128;
    }
    out.push(rest as u8)?;
    Ok(())
}

/// Appends a number in unsigned LEB128, shortest form: seven bits a byte, the least first, each byte but the
/// last with its highest bit set.
pub fn put_vint(out: &mut Vec<u8>, n: u64) -> Result<(), AllocError>
    ensures ok { OnOk result (out.new.items ≡ out.old.items ++ vint n) }
    ensures err { OnErr result (out.new.items ≡ out.old.items) }
{
    let before = out.len();
    match push_groups(out, n) {
        Ok(()) => Ok(()),
        Err(error) => {
            out.truncate(before);
            Err(error)
        }
    }
}

/// The number that at most so many bytes at the front spell, and the bytes behind it.
#[tactic(auto, unfolding(crate::specs::Fronts::groups_at))]
pub fn groups_of(bytes: &[u8], most: usize) -> Option<(u64, &[u8])>
    ensures { option_map (λ x. (x.0, x.1.now)) result ≡ groups_at most bytes.now }
{
    if most == 0 {
        return None;
    }
    match bytes {
        [] => None,
        [b, rest @ ..] => {
            if *b < 128 {
                return Some((u64::from(*b), rest));
            }
            let (high, rest) = groups_of(rest, most - 1)?;
            if high == 0 || high >= 1 << 57 {
                return None;
            }
            Some((u64::from(*b - 128) + 128 * high, rest))
        }
    }
}

/// The number that the front of the bytes spells, and how many bytes that takes.
fn vint_of(bytes: &[u8]) -> Option<(u64, usize)>
    ensures { Reads bytes.now result (vint_at bytes.now) }
{
    let (n, rest) = groups_of(bytes, LONGEST)?;
    Some((n, bytes.len() - rest.len()))
}

/// Reads the number that the front of the bytes spells in unsigned LEB128, shortest form, and says how many
/// bytes it takes. None exactly where no front of the bytes spells a number below 2^64.
pub fn take_vint(bytes: &[u8]) -> Option<(u64, usize)>
    ensures found { IfSome result (λ x. Begins bytes.now (vint x.0) x.1) }
    ensures none { IfNone result ((n : ℕ) (rest : List ℕ) → n < 2 ^ 64 → bytes.now ≡ vint n ++ rest → ⊥) }
    ensures exact { Reads bytes.now result (vint_at bytes.now) }
{
    vint_of(bytes)
}
