//! Reads lists of values from standard input, each with its blocks in the encodings, and prints the lines at which a
//! block is another one or isn't read as the list. The lines are written by `tools/block_cases.py`, which has encoders of
//! its own.
//!
//! A line is the hexadecimal digits of the PLAIN, RLE, DELTAVAL and BLOCK_DICT blocks of a list, `-` for one that does not
//! take it, and the tag of its AUTO block. A line `encode E N B` or `decode E N B`, for measurements, encodes or decodes
//! the list of the PLAIN block B in the encoding E N times; `walk - N B` walks over its values N times.
#![tactic(auto)]

ghost use Rattle.std.specs.Prelude.{IsTrue};
ghost use Rattle.block_codec.specs.Blocks.{IsOneBlock};

use block_choice::{decode, encode, takes_all};
use col_value::{Encoding, Value};
use std::alloc::{AllocError, Global};
use std::io;
use value_bytes::is_spelled;

fn is_block(values: &[Value]) -> bool
    ensures { IsTrue result → IsOneBlock values.now }
{
    !values.is_empty() && values.len() <= 1024 && values.iter().all(|value| is_spelled(value))
}

fn digit(byte: u8) -> u8 {
    if byte.is_ascii_digit() {
        byte.saturating_sub(b'0')
    } else {
        byte.saturating_sub(b'a').saturating_add(10)
    }
}

/// The bytes of hexadecimal digits.
fn bytes_of(alloc: Global, digits: &str) -> Result<Vec<u8>, AllocError> {
    let mut out = Vec::new(alloc);
    let mut high: Option<u8> = None;
    for byte in digits.as_bytes() {
        match high {
            None => high = Some(digit(*byte)),
            Some(first) => {
                out.push(first.saturating_mul(16).saturating_add(digit(*byte)))?;
                high = None;
            }
        }
    }
    Ok(out)
}

/// The list that a block in an encoding is read as.
fn read_list(
    alloc: Global,
    encoding: Encoding,
    bytes: &[u8],
) -> Result<Option<Vec<Value>>, AllocError> {
    match decode(alloc, encoding, bytes)? {
        Some(block) => Ok(Some(block.into_values(alloc)?)),
        None => Ok(None),
    }
}

/// The list of a PLAIN block.
fn list_of(alloc: Global, digits: &str) -> Result<Option<Vec<Value>>, AllocError> {
    let bytes = bytes_of(alloc, digits)?;
    read_list(alloc, Encoding::Plain, bytes.as_slice())
}

/// The block of a list in an encoding, if it takes the list.
fn block(
    alloc: Global,
    encoding: Encoding,
    values: &[Value],
) -> Result<Option<Vec<u8>>, AllocError> {
    if is_block(values) && takes_all(encoding, values) {
        Ok(Some(encode(alloc, encoding, values)?))
    } else {
        Ok(None)
    }
}

/// Whether the list's block in an encoding is this one, and is read as the list; `-` stands for none.
fn is_right(
    alloc: Global,
    encoding: Encoding,
    values: &[Value],
    digits: &str,
) -> Result<bool, AllocError> {
    let Some(made) = block(alloc, encoding, values)? else {
        return Ok(digits == "-");
    };
    let wanted = bytes_of(alloc, digits)?;
    if made.as_slice() != wanted.as_slice() {
        return Ok(false);
    }
    match read_list(alloc, encoding, wanted.as_slice())? {
        Some(read) => Ok(read.as_slice() == values),
        None => Ok(false),
    }
}

/// Whether all blocks of a line are right: those of the named encodings, and which of them AUTO has.
fn is_right_line(alloc: Global, line: &str) -> Result<bool, AllocError> {
    let mut parts = line.split(' ');
    let (Some(plain), Some(rle), Some(delta), Some(dict), Some(tag)) = (
        parts.next(),
        parts.next(),
        parts.next(),
        parts.next(),
        parts.next(),
    ) else {
        return Ok(false);
    };
    let Some(values) = list_of(alloc, plain)? else {
        return Ok(false);
    };
    let values = values.as_slice();
    let auto = match tag {
        "1" => rle,
        "2" | "5" => delta,
        "3" => dict,
        _ => plain,
    };
    Ok(
        is_right(alloc, Encoding::Plain, values, plain)?
            && is_right(alloc, Encoding::Rle, values, rle)?
            && is_right(alloc, Encoding::DeltaVal, values, delta)?
            && is_right(alloc, Encoding::BlockDict, values, dict)?
            && is_right(alloc, Encoding::Auto, values, auto)?,
    )
}

fn encoding_of(name: &str) -> Encoding {
    match name {
        "RLE" => Encoding::Rle,
        "DELTAVAL" => Encoding::DeltaVal,
        "BLOCK_DICT" => Encoding::BlockDict,
        "PLAIN" => Encoding::Plain,
        _ => Encoding::Auto,
    }
}

/// The sum of the numbers of a list, as a plain loop over it.
fn walk(values: &[Value]) -> i64 {
    let mut sum: i64 = 0;
    for value in values {
        if let Value::Int(n) = value {
            sum = sum.saturating_add(*n);
        }
    }
    sum
}

/// Does what a line for measurements says; the answer only keeps the work from being left out.
fn work(
    alloc: Global,
    what: &str,
    encoding: Encoding,
    times: u64,
    values: &[Value],
) -> Result<u64, AllocError> {
    let made = match block(alloc, encoding, values)? {
        Some(made) => made,
        None => Vec::new(alloc),
    };
    let mut seen: u64 = 0;
    for _ in 0..times {
        let more = match what {
            "encode" => match block(alloc, encoding, values)? {
                Some(again) => again.len() as u64,
                None => 0,
            },
            "decode" => match decode(alloc, encoding, made.as_slice())? {
                Some(read) => read.len() as u64,
                None => 0,
            },
            _ => walk(values).unsigned_abs(),
        };
        seen = seen.wrapping_add(more);
    }
    Ok(seen)
}

/// Does what a line says that is one for measurements.
fn measured(alloc: Global, line: &str) -> Result<Option<u64>, AllocError> {
    let mut parts = line.split(' ');
    let (Some(what), Some(name), Some(times), Some(plain)) = (
        parts.next(),
        parts.next(),
        parts.next(),
        parts.next(),
    ) else {
        return Ok(None);
    };
    if what != "encode" && what != "decode" && what != "walk" {
        return Ok(None);
    }
    let times = match times.parse::<u64>() {
        Ok(times) => times,
        Err(_) => 0,
    };
    match list_of(alloc, plain)? {
        Some(values) => Ok(Some(work(alloc, what, encoding_of(name), times, values.as_slice())?)),
        None => Ok(None),
    }
}

fn main(rt: HostRuntime) -> io::Result<()> {
    let alloc = rt.alloc();
    let mut lists: u64 = 0;
    let mut wrong: u64 = 0;
    for line in rt.lines(alloc) {
        let line = line?;
        if let Some(seen) = measured(alloc, line.as_str())? {
            println!(rt; "{seen}")?;
            continue;
        }
        lists = lists.saturating_add(1);
        if !is_right_line(alloc, line.as_str())? {
            wrong = wrong.saturating_add(1);
            println!(rt; "{line}")?;
        }
    }
    println!(rt; "{lists} lists, {wrong} wrong")
}
