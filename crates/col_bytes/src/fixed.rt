//! Numbers of a fixed width, most significant byte first.

ghost use Rattle.std.specs.Prelude.{◌≡◌, ◌<◌, ◌^◌, ◌++◌, ℕ, ℤ, List, FitsSigned, OnOk, OnErr, IfSome, IfNone};
ghost use Rattle.std.specs.Int.{w64};
ghost use Rattle.col_bytes.specs.Spellings.{be8, be4, Begins};
ghost use Rattle.col_bytes.specs.Fronts.{be8_at, be4_at, Reads};

use std::alloc::AllocError;

/// Appends a signed number: eight bytes, most significant first, in two's complement.
pub fn put_be8(out: &mut Vec<u8>, n: i64) -> Result<(), AllocError>
    ensures ok { OnOk result (out.new.items ≡ out.old.items ++ be8 n) }
    ensures err { OnErr result (out.new.items ≡ out.old.items) }
{
    out.extend_from_slice(&n.to_be_bytes())
}

/// Appends a number: four bytes, most significant first.
pub fn put_be4(out: &mut Vec<u8>, n: u32) -> Result<(), AllocError>
    ensures ok { OnOk result (out.new.items ≡ out.old.items ++ be4 n) }
    ensures err { OnErr result (out.new.items ≡ out.old.items) }
{
    out.extend_from_slice(&n.to_be_bytes())
}

/// Reads the signed number that the first eight bytes spell, and says that it takes eight. None exactly where
/// there are fewer bytes.
pub fn take_be8(bytes: &[u8]) -> Option<(i64, usize)>
    ensures found { IfSome result (λ x. Begins bytes.now (be8 x.0) x.1) }
    ensures none { IfNone result ((n : ℤ) (rest : List ℕ) → bytes.now ≡ be8 n ++ rest → ⊥) }
    ensures exact { Reads bytes.now result (be8_at bytes.now) }
{
    if bytes.len() < 8 {
        return None;
    }
    let n = i64::from_be_bytes([
        bytes[0], bytes[1], bytes[2], bytes[3], bytes[4], bytes[5], bytes[6], bytes[7],
    ]);
    Some((n, 8))
}

/// Reads the number that the first four bytes spell, and says that it takes four. None exactly where there
/// are fewer bytes.
pub fn take_be4(bytes: &[u8]) -> Option<(u32, usize)>
    ensures found { IfSome result (λ x. Begins bytes.now (be4 x.0) x.1) }
    ensures none { IfNone result ((n : ℕ) (rest : List ℕ) → bytes.now ≡ be4 n ++ rest → ⊥) }
    ensures exact { Reads bytes.now result (be4_at bytes.now) }
{
    if bytes.len() < 4 {
        return None;
    }
    let n = u32::from_be_bytes([bytes[0], bytes[1], bytes[2], bytes[3]]);
    Some((n, 4))
}
