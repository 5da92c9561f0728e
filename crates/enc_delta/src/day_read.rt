//! Reading days by how far they are behind a base.

ghost use Rattle.std.specs.Prelude.{◌≡◌, ◌≤◌, map, IfOk};
ghost use Rattle.block_codec.specs.Held.{day_value};
ghost use Rattle.col_bytes.specs.Parts.{Gives, many};
ghost use Rattle.enc_delta.specs.DateFronts.{day_base_at, since_at, value_since, dates_of};

use crate::day::lane_day_base;
use crate::read::read_delta;
use block_codec::{BLOCK, Block, read_count};
use col_bytes::{Stop, read_tag, take_be4};
use col_value::LAST_DAY;
use std::alloc::Global;

/// The tag of a block of dates.
pub const DATE_TAG: u8 = 5;

/// The base at the front.
#[tactic(auto, unfolding(crate::specs::DateFronts::day_base_at))]
fn read_day_base(bytes: &[u8]) -> Result<(u32, &[u8]), Stop>
    ensures base { Gives (λ x. (x.0, x.1.now)) result (day_base_at bytes.now) }
    ensures low { IfOk result (λ x. 1 ≤ x.0) }
{
    match take_be4(bytes) {
        Some((n, len)) => {
            if n < 1 || n > LAST_DAY {
                return Err(Stop::Malformed);
            }
            Ok((n, bytes.split_at(len).1))
        }
        None => Err(Stop::Malformed),
    }
}

/// The lane with this delta: a day from the base on, or 0 for NULL.
#[inline(always)]
fn lane_of(base: u32, delta: u64) -> Result<u32, Stop>
    requires { 1 ≤ base }
    ensures { Gives day_value result (value_since base delta) }
{
    if delta == 0 {
        return Ok(0);
    }
    match u64::from(base).checked_add(delta - 1) {
        Some(n) => {
            if n > u64::from(LAST_DAY) {
                return Err(Stop::Malformed);
            }
            Ok(n as u32)
        }
        None => Err(Stop::Malformed),
    }
}

/// The lane at the front.
#[tactic(auto, unfolding(crate::specs::DateFronts::since_at))]
#[inline(always)]
fn read_since(base: u32, bytes: &[u8]) -> Result<(u32, &[u8]), Stop>
    requires { 1 ≤ base }
    ensures { Gives (λ x. (day_value x.0, x.1.now)) result (since_at base bytes.now) }
{
    let (delta, rest) = read_delta(bytes)?;
    let lane = lane_of(base, delta)?;
    Ok((lane, rest))
}

/// The lanes of so many values of the front, and the bytes behind them. By itself, so that its loop stays in registers.
#[inline(never)]
fn read_dates(alloc: Global, base: u32, count: u64, bytes: &[u8]) -> Result<(Vec<u32>, &[u8]), Stop>
    requires { 1 ≤ base }
    ensures { Gives (λ x. (map day_value x.0.items, x.1.now)) result (many (since_at base) count bytes.now) }
{
    let mut days = Vec::with_capacity(alloc, count.min(BLOCK as u64) as usize)?;
    let mut rest = bytes;
    for _ in 0..count {
        let (day, after) = read_since(base, rest)?;
        days.push(day)?;
        rest = after;
    }
    Ok((days, rest))
}

/// The values of the block that all of the bytes are.
#[tactic(auto, unfolding(crate::specs::DateFronts::day_parts, crate::specs::DateFronts::day_deltas_at))]
pub fn dates_of(alloc: Global, bytes: &[u8]) -> Result<Block, Stop>
    ensures { Gives (λ v. v) result (dates_of bytes.now) }
{
    let rest = read_tag(DATE_TAG, bytes)?;
    let (count, rest) = read_count(rest)?;
    let (base, rest) = read_day_base(rest)?;
    let (days, rest) = read_dates(alloc, base, count, rest)?;
    if rest.is_empty() && lane_day_base(days.as_slice()) == base {
        Ok(Block::of_days(days))
    } else {
        Err(Stop::Malformed)
    }
}
