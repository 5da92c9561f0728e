//! The lines of the load.

ghost use Rattle.std.specs.Prelude.{◌≡◌, ◌++◌, IfOk, decimal};
ghost use Rattle.generated_load.specs.Load.{drawn, generated_line, generated_load, number_after, region};

use itoa::Buffer;
use std::alloc::{AllocError, Global};

const MULTIPLIER: u64 = 6364136223846793005;

const INCREMENT: u64 = 1442695040888963407;

/// The load of so many lines from a seed.
pub(crate) fn load(alloc: Global, lines: u32, seed: u64) -> Result<Vec<u8>, AllocError>
    ensures { IfOk result (λ bytes. bytes.items ≡ generated_load lines seed) }
{
    let mut out = Vec::new(alloc);
    let mut x = seed;
    for i in 0..lines {
        x = number_after(x);
        push_line(&mut out, i + 1, drawn(x))?;
    }
    Ok(out)
}

// The number that follows x.
fn number_after(x: u64) -> u64
    ensures { result ≡ number_after x }
{
    MULTIPLIER.wrapping_mul(x).wrapping_add(INCREMENT)
}

// What of a number its line is made of.
fn drawn(x: u64) -> u64
    ensures { result ≡ drawn x }
{
    x / (1 << 33)
}

// Appends line i.
fn push_line(out: &mut Vec<u8>, i: u32, y: u64) -> Result<(), AllocError>
    ensures { IfOk result (λ done. out.new.items ≡ out.old.items ++ generated_line i y) }
{
    push_number(out, u64::from(i))?;
    out.extend_from_slice(b"|")?;
    out.extend_from_slice(region(y % 4).as_bytes())?;
    out.extend_from_slice(b"|")?;
    push_number(out, y / 4 % 10)?;
    out.extend_from_slice(b"|")?;
    push_number(out, y / 40 % 10000)?;
    out.extend_from_slice(b"\n")?;
    Ok(())
}

fn push_number(out: &mut Vec<u8>, n: u64) -> Result<(), AllocError>
    ensures { IfOk result (λ done. out.new.items ≡ out.old.items ++ decimal n) }
{
    let mut buffer = Buffer::new();
    out.extend_from_slice(buffer.format(n).as_bytes())
}

fn region(n: u64) -> &'static str
    ensures { result.now ≡ region n }
{
    match n {
        0 => "north",
        1 => "south",
        2 => "east",
        _ => "west",
    }
}
