//! Reading numbers by how far they are above a base.

ghost use Rattle.std.specs.Prelude.{◌≡◌, ◌≤ℤ◌, ◌-◌, ◌^◌, negsuc, map, IfOk};
ghost use Rattle.block_codec.specs.Held.{number_value};
ghost use Rattle.col_bytes.specs.Fronts.{vint_at};
ghost use Rattle.col_bytes.specs.Parts.{Gives, many};
ghost use Rattle.enc_delta.specs.Fronts.{base_at, above_at, value_above, delta_of};

use crate::base::is_base;
use block_codec::{Block, read_count};
use col_bytes::{Stop, read_tag, read_vint, take_be8};
use std::alloc::Global;

/// The tag of a block.
pub const TAG: u8 = 2;

/// The base at the front.
#[tactic(auto, unfolding(crate::specs::Fronts::base_at))]
fn read_base(bytes: &[u8]) -> Result<(i64, &[u8]), Stop>
    ensures base { Gives (λ x. (x.0, x.1.now)) result (base_at bytes.now) }
    ensures low { IfOk result (λ x. negsuc (2 ^ 63 - 2) ≤ℤ x.0) }
{
    match take_be8(bytes) {
        Some((n, len)) => {
            if n == i64::MIN {
                return Err(Stop::Malformed);
            }
            Ok((n, bytes.split_at(len).1))
        }
        None => Err(Stop::Malformed),
    }
}

/// The lane with this delta: a number above the base, or -2^63 for NULL.
#[inline(always)]
fn lane_of(base: i64, delta: u64) -> Result<i64, Stop>
    requires { negsuc (2 ^ 63 - 2) ≤ℤ base }
    ensures { Gives number_value result (value_above base delta) }
{
    if delta == 0 {
        return Ok(i64::MIN);
    }
    match base.checked_add_unsigned(delta - 1) {
        Some(n) => Ok(n),
        None => Err(Stop::Malformed),
    }
}

/// The delta at the front, of five bytes or more as a varint is read.
#[tactic(auto, unfolding(col_bytes::specs::Fronts::groups_at))]
#[inline(always)]
fn read_five(bytes: &[u8]) -> Result<(u64, &[u8]), Stop>
    ensures { Gives (λ x. (x.0, x.1.now)) result (vint_at bytes.now) }
{
    if let [a, b, c, d, high, rest @ ..] = bytes {
        if *a >= 128 && *b >= 128 && *c >= 128 && *d >= 128 && *high < 128 && *high > 0 {
            let upper = u64::from(*d - 128) + 128 * u64::from(*high);
            let upper = u64::from(*c - 128) + 128 * upper;
            let upper = u64::from(*b - 128) + 128 * upper;
            return Ok((u64::from(*a - 128) + 128 * upper, rest));
        }
    }
    read_vint(bytes)
}

/// The delta at the front, of four bytes or more.
#[tactic(auto, unfolding(col_bytes::specs::Fronts::groups_at))]
#[inline(always)]
fn read_four(bytes: &[u8]) -> Result<(u64, &[u8]), Stop>
    ensures { Gives (λ x. (x.0, x.1.now)) result (vint_at bytes.now) }
{
    if let [a, b, c, high, rest @ ..] = bytes {
        if *a >= 128 && *b >= 128 && *c >= 128 && *high < 128 && *high > 0 {
            let upper = u64::from(*c - 128) + 128 * u64::from(*high);
            let upper = u64::from(*b - 128) + 128 * upper;
            return Ok((u64::from(*a - 128) + 128 * upper, rest));
        }
    }
    read_five(bytes)
}

/// The delta at the front, of three bytes or more.
#[tactic(auto, unfolding(col_bytes::specs::Fronts::groups_at))]
#[inline(always)]
fn read_longer(bytes: &[u8]) -> Result<(u64, &[u8]), Stop>
    ensures { Gives (λ x. (x.0, x.1.now)) result (vint_at bytes.now) }
{
    if let [low, middle, high, rest @ ..] = bytes {
        if *low >= 128 && *middle >= 128 && *high < 128 && *high > 0 {
            let upper = u64::from(*middle - 128) + 128 * u64::from(*high);
            return Ok((u64::from(*low - 128) + 128 * upper, rest));
        }
    }
    read_four(bytes)
}

/// The delta at the front. Most take one byte, two or three.
#[tactic(auto, unfolding(col_bytes::specs::Fronts::groups_at))]
#[inline(always)]
pub fn read_delta(bytes: &[u8]) -> Result<(u64, &[u8]), Stop>
    ensures { Gives (λ x. (x.0, x.1.now)) result (vint_at bytes.now) }
{
    if let [low, rest @ ..] = bytes {
        if *low < 128 {
            return Ok((u64::from(*low), rest));
        }
    }
    if let [low, high, rest @ ..] = bytes {
        if *low >= 128 && *high < 128 && *high > 0 {
            return Ok((u64::from(*low - 128) + 128 * u64::from(*high), rest));
        }
    }
    read_longer(bytes)
}

/// The lane at the front.
#[tactic(auto, unfolding(crate::specs::Fronts::above_at))]
#[inline(always)]
fn read_above(base: i64, bytes: &[u8]) -> Result<(i64, &[u8]), Stop>
    requires { negsuc (2 ^ 63 - 2) ≤ℤ base }
    ensures { Gives (λ x. (number_value x.0, x.1.now)) result (above_at base bytes.now) }
{
    let (delta, rest) = read_delta(bytes)?;
    let lane = lane_of(base, delta)?;
    Ok((lane, rest))
}

/// The lanes of so many values of the front, and the bytes behind them. By itself, so that its loop stays in registers.
#[inline(never)]
fn read_values(
    alloc: Global,
    base: i64,
    count: u64,
    bytes: &[u8],
) -> Result<(Vec<i64>, &[u8]), Stop>
    requires { negsuc (2 ^ 63 - 2) ≤ℤ base }
    ensures { Gives (λ x. (map number_value x.0.items, x.1.now)) result (many (above_at base) count bytes.now) }
{
    let mut numbers = Vec::with_capacity(alloc, count as usize)?;
    let mut rest = bytes;
    for _ in 0..count {
        let (number, after) = read_above(base, rest)?;
        numbers.push_reserved(number);
        rest = after;
    }
    Ok((numbers, rest))
}

/// The values of the block that all of the bytes are.
#[tactic(auto, unfolding(crate::specs::Fronts::delta_parts, crate::specs::Fronts::deltas_at))]
pub fn values_of(alloc: Global, bytes: &[u8]) -> Result<Block, Stop>
    ensures { Gives (λ v. v) result (delta_of bytes.now) }
{
    let rest = read_tag(TAG, bytes)?;
    let (count, rest) = read_count(rest)?;
    let (base, rest) = read_base(rest)?;
    let (numbers, rest) = read_values(alloc, base, count, rest)?;
    if rest.is_empty() && is_base(base, numbers.as_slice()) {
        Ok(Block::of_numbers(numbers))
    } else {
        Err(Stop::Malformed)
    }
}
