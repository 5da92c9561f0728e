//! Prints the generated script, and then for each line of standard input, a count and a seed, the generated load of so many lines.
//! What it has to print is written by `tools/load_cases.py`.
#![tactic(auto)]

use col_io::{Files, Got};
use generated_load::{Generated, script};
use std::alloc::{AllocError, Global};
use std::io;

/// The count and the seed of a case.
fn case_of(case: &str) -> Option<(u32, u64)> {
    let (count, seed) = case.split_once(' ')?;
    Some((count.parse().ok()?, seed.parse().ok()?))
}

/// The load of a case, with nothing where it isn't there or longer than the limit.
fn load(alloc: Global, lines: u32, seed: u64, most: usize) -> Result<Vec<u8>, AllocError> {
    let mut files = Generated::new(lines, seed);
    match files.read(alloc, "@gen", most) {
        Ok(Got::Whole(bytes)) => Ok(bytes),
        Ok(Got::Absent) => Ok(Vec::new(alloc)),
        Ok(Got::TooLong) => Ok(Vec::new(alloc)),
        Err(_) => Err(AllocError),
    }
}

fn main(rt: HostRuntime) -> io::Result<()> {
    let alloc = rt.alloc();
    print!(rt; "{}", std::str::from_utf8(script()).unwrap_or(""))?;
    for line in rt.lines(alloc) {
        let case = line?;
        if let Some((lines, seed)) = case_of(case.as_str()) {
            let bytes = load(alloc, lines, seed, 67_108_864)?;
            print!(rt; "{}", std::str::from_utf8(bytes.as_slice()).unwrap_or(""))?;
        }
    }
    Ok(())
}
