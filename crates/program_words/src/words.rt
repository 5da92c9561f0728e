//! The words that the program is called with.

use std::alloc::{AllocError, Global};
use std::env::FillError;
use std::rt::Env;

/// The words in order, the program's name first. Those that are not UTF-8 are left out.
pub fn words_of<R: Env>(rt: &R, alloc: Global) -> Result<Vec<String>, AllocError> {
    let mut words = Vec::new(alloc);
    for at in 0..usize::MAX {
        let Some(bytes) = word_at(rt, alloc, at)? else {
            break;
        };
        if let Ok(word) = std::str::from_utf8(bytes.as_slice()) {
            words.push(String::from_str(alloc, word)?)?;
        }
    }
    Ok(words)
}

// The bytes of the word at a place, or None behind the last word. The buffer grows until the word fits.
fn word_at<R: Env>(rt: &R, alloc: Global, at: usize) -> Result<Option<Vec<u8>>, AllocError> {
    let mut size: usize = 256;
    for _ in 0..48 {
        let mut buffer = vec![in alloc; 0u8; size]?;
        match rt.arg(at, buffer.as_mut_slice()) {
            Ok(count) => {
                buffer.truncate(count);
                return Ok(Some(buffer));
            }
            Err(FillError::NotPresent) => return Ok(None),
            Err(FillError::TooLong) => size = size.saturating_mul(2),
        }
    }
    Err(AllocError)
}
