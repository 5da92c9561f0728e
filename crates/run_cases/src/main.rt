//! Runs scripts over a disk in memory, as the lines of the input say, and prints what each run writes and its exit status.
//!
//! `new` takes an empty disk. `run WORDS` runs the script that the lines behind it are, up to a line `.`, with these words before DIR and
//! SCRIPT. `load NAME` makes the lines behind it, up to a line `.`, a load file of this name. `files` prints the numbers of the disk's files, `bytes`
//! what is in each, and `put NUMBER BYTES` writes one, its bytes in hexadecimal digits. `stops` has the script of the lines behind it run over what a stop leaves of the last run: each call of that run's disk fails in turn, alone and with
//! all later ones, and in the second case also what wasn't synced is lost; each text that comes of the script is printed once. `changes` has the script run over the disk
//! with each byte of each file changed in turn, in the same way. Any other line is printed as it stands.
#![tactic(auto)]

mod cases;
mod disks;
mod fault;
mod hex;

use cases::Cases;
use std::io;

fn main(rt: HostRuntime) -> io::Result<()> {
    let alloc = rt.alloc();
    let mut cases = Cases::new(alloc);
    for line in rt.lines(alloc) {
        let line = line?;
        match cases.take(alloc, line.as_str()) {
            Ok(text) => print!(rt; "{text}")?,
            Err(fault) => println!(rt; "{}", fault.told())?,
        }
    }
    Ok(())
}
