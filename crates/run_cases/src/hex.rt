//! Bytes in hexadecimal digits.

use crate::fault::Fault;
use std::alloc::{AllocError, Global};

fn digit(half: u8) -> char {
    if half < 10 {
        char::from(b'0' + half)
    } else {
        char::from(b'a' + (half % 16).saturating_sub(10))
    }
}

/// Appends each byte in two digits.
pub fn put_hex(out: &mut String, bytes: &[u8]) -> Result<(), AllocError> {
    for byte in bytes {
        out.push(digit(*byte / 16))?;
        out.push(digit(*byte % 16))?;
    }
    Ok(())
}

fn half(digit: u8) -> Result<u8, Fault> {
    match digit {
        b'0'..=b'9' => Ok(digit - b'0'),
        b'a'..=b'f' => Ok(digit - b'a' + 10),
        _ => Err(Fault::NoText),
    }
}

fn bytes_in(alloc: Global, digits: &str) -> Result<Vec<u8>, Fault> {
    let mut bytes = Vec::new(alloc);
    for pair in digits.as_bytes().chunks(2) {
        match pair {
            [high, low] => bytes.push((half(*high)? % 16) * 16 + half(*low)? % 16)?,
            _ => return Err(Fault::NoText),
        }
    }
    Ok(bytes)
}

/// A number, and behind a space the bytes of its file.
pub fn file_in(alloc: Global, text: &str) -> Result<(u64, Vec<u8>), Fault> {
    match text.split_once(' ') {
        Some((number, digits)) => match number.parse::<u64>() {
            Ok(name) => Ok((name, bytes_in(alloc, digits)?)),
            Err(_) => Err(Fault::NoText),
        },
        None => Err(Fault::NoText),
    }
}
