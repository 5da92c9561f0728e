//! Ranks of several columns in few numbers beside a row.
//!
//! A column's ranks stand in no more bits than tell those of these rows apart, so that most orders fit in one number. As of the ranks
//! themselves, nothing is promised of them.

use crate::ranks::{Rank, order_columns, rank_alone, rank_of};
use crate::refs::{Ranks, StampedRef};
use catalog_types::Projection;
use col_value::Value;
use std::alloc::{AllocError, Global};

/// The numbers beside a row.
const WORDS: usize = 2;

/// How many columns of an order are looked at.
const MOST: usize = 6;

/// What the ranks of a column are over some rows, but for those of NULL.
#[derive(Clone, Copy, Debug)]
struct Spread {
    first: u64,
    least: u64,
    greatest: u64,
    /// The bits in which some rank differs from the first.
    varied: u64,
    alone: bool,
}

/// Where the ranks of a column stand: in which number, from which one on, without how many low bits, in how many.
#[derive(Clone, Copy, Debug)]
pub struct Packed {
    column: usize,
    word: usize,
    least: u64,
    shift: u32,
    bits: u32,
}

fn rank_in(row: &[Value], column: usize) -> Rank {
    match row.get(column) {
        Some(value) => rank_of(value),
        None => rank_alone(0),
    }
}

fn spread_of(rows: &[StampedRef], column: usize) -> Spread {
    let mut spread = Spread {
        first: 0,
        least: u64::MAX,
        greatest: 0,
        varied: 0,
        alone: true,
    };
    for stamped in rows {
        let rank = rank_in(stamped.row.as_slice(), column);
        if rank.at != 0 {
            if spread.first == 0 {
                spread.first = rank.at;
            }
            spread.least = spread.least.min(rank.at);
            spread.greatest = spread.greatest.max(rank.at);
            spread.varied |= rank.at ^ spread.first;
        }
        spread.alone &= rank.alone;
    }
    spread
}

/// A number without so many low bits.
fn shifted(n: u64, shift: u32) -> u64 {
    n >> (shift % 64)
}

/// A rank as it stands beside rows: that of NULL is 0.
fn packed_rank(at: u64, least: u64, shift: u32) -> u64 {
    if at == 0 {
        0
    } else {
        shifted(at.wrapping_sub(least), shift).wrapping_add(1)
    }
}

/// Where a column's ranks go that have this spread, in the word; how many bits they have there.
fn packed_in(spread: &Spread, column: usize, word: usize) -> Packed {
    let shift = spread.varied.trailing_zeros();
    let greatest = packed_rank(spread.greatest, spread.least, shift);
    Packed {
        column,
        word,
        least: spread.least,
        shift,
        bits: 64_u32.wrapping_sub(greatest.leading_zeros()),
    }
}

/// Where the ranks of the rows go by the columns of their order: as many as have room, and none behind one whose ranks aren't each one
/// value's.
pub fn packing_of(
    alloc: Global,
    shape: &Projection,
    rows: &[StampedRef],
) -> Result<Vec<Packed>, AllocError> {
    let order = order_columns(alloc, shape)?;
    let mut packing = Vec::new(alloc);
    let mut word = 0;
    let mut room: u32 = 64;
    for column in order.iter().take(MOST) {
        let spread = spread_of(rows, *column);
        let mut packed = packed_in(&spread, *column, word);
        if packed.bits > room {
            word = word.wrapping_add(1);
            room = 64;
            packed.word = word;
        }
        if word >= WORDS {
            break;
        }
        room = room.wrapping_sub(packed.bits);
        packing.push(packed)?;
        if !spread.alone {
            break;
        }
    }
    Ok(packing)
}

/// The numbers beside a row.
pub fn packed_ranks(row: &[Value], packing: &[Packed]) -> Ranks {
    let mut words: [u64; 2] = [0; 2];
    for packed in packing {
        let at = packed_rank(rank_in(row, packed.column).at, packed.least, packed.shift);
        let word = packed.word % WORDS;
        words[word] = (words[word] << (packed.bits % 64)) | at;
    }
    Ranks {
        first: words[0],
        second: words[1],
    }
}
