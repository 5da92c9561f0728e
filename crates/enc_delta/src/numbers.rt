//! Writing the numbers of a lane by how far they are above a base, and counting their bytes.

ghost use Rattle.std.specs.Prelude.{◌≡◌, ◌≤◌, ◌+◌, ◌*◌, ◌++◌, length, map, IfOk};
ghost use Rattle.std.specs.List.{All, flat_map};
ghost use Rattle.std.specs.Vec.{vec_len, vec_capacity};
ghost use Rattle.block_codec.specs.Held.{number_value};
ghost use Rattle.enc_delta.specs.Delta.{IsDelta, delta, delta_block, delta_spelling};
ghost use Rattle.enc_delta.specs.Above.{IsAbove};

use crate::base::lane_base;
use crate::delta::put_reserved;
use crate::read::TAG;
use block_codec::vint_len;
use col_bytes::{put_be8, put_vint};
use std::alloc::{AllocError, Global};

/// How many bytes the longest delta takes.
const LONGEST: usize = 10;

/// More bytes than stand in front of the deltas: the tag, how many there are, the base.
const HEAD: usize = 16;

/// 0 for NULL, else one more than how far the number is above the base.
#[inline(always)]
fn delta_of(base: i64, n: i64) -> u64
    requires { IsAbove base (number_value n) }
    ensures { result ≡ delta base (number_value n) }
{
    if n == i64::MIN {
        0
    } else {
        1 + n.abs_diff(base)
    }
}

/// Appends the delta of each number where there is room for the longest.
fn put_deltas(out: &mut Vec<u8>, base: i64, numbers: &[i64])
    requires above { All (IsAbove base) (map number_value numbers.now) }
    requires room { vec_len out.old + 10 * length numbers.now ≤ vec_capacity out.old }
    ensures { out.new.items ≡ out.old.items ++ flat_map (delta_spelling base) (map number_value numbers.now) }
{
    for n in numbers {
        put_reserved(out, delta_of(base, *n));
    }
}

/// How many bytes the deltas of the numbers take.
fn deltas_len(base: i64, numbers: &[i64]) -> usize
    requires values { All (IsAbove base) (map number_value numbers.now) }
    requires few { length numbers.now ≤ 1024 }
    ensures exact { result ≡ length (flat_map (delta_spelling base) (map number_value numbers.now)) }
    ensures few { result ≤ 10 * length numbers.now }
{
    let mut len = 0;
    for n in numbers {
        len += vint_len(delta_of(base, *n));
    }
    len
}

/// How many bytes the block has of the values for which the numbers stand.
pub fn numbers_block_len(numbers: &[i64]) -> usize
    requires { IsDelta (map number_value numbers.now) }
    ensures { result ≡ length (delta_block (map number_value numbers.now)) }
{
    1 + vint_len(numbers.len() as u64) + 8 + deltas_len(lane_base(numbers), numbers)
}

/// The bytes of the block of the values for which the numbers stand.
pub fn encode_numbers(alloc: Global, numbers: &[i64]) -> Result<Vec<u8>, AllocError>
    requires { IsDelta (map number_value numbers.now) }
    ensures { IfOk result (λ b. b.items ≡ delta_block (map number_value numbers.now)) }
{
    let base = lane_base(numbers);
    let room = LONGEST * numbers.len();
    let mut out = Vec::with_capacity(alloc, HEAD + room)?;
    out.push(TAG)?;
    put_vint(&mut out, numbers.len() as u64)?;
    put_be8(&mut out, base)?;
    out.reserve(room)?;
    put_deltas(&mut out, base, numbers);
    Ok(out)
}
