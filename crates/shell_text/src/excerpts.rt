//! A line of a text, and the caret below a place in it.

ghost use Rattle.std.specs.Prelude.{◌≡◌, ◌≤◌, ◌++◌, ◌∷◌, [], length, take, drop, OnOk};
ghost use Rattle.std.specs.List.{flat_map};
ghost use Rattle.shell_text.specs.Excerpts.{blank_of, excerpt, first_line, goes_on, last_line, margin};

use crate::bytes::{before, behind, size_before};
use std::alloc::AllocError;

/// Whether a byte goes on with a letter that an earlier one began.
pub fn goes_on(b: u8) -> bool
    ensures { result ≡ goes_on b }
{
    b >= 128 && b < 192
}

/// What stands behind the last line feed.
pub fn last_line(text: &[u8]) -> &[u8]
    ensures { result.now ≡ last_line text.now }
{
    let mut start = 0;
    for (i, b) in text.iter().enumerate() {
        if *b == b'\n' {
            start = i + 1;
        }
    }
    behind(text, start)
}

/// What stands before the first line feed.
pub fn first_line(text: &[u8]) -> &[u8]
    ensures { result.now ≡ first_line text.now }
{
    before(text, size_before(text, b'\n'))
}

/// Appends what is as wide as a byte is where it is shown.
fn print_blank(b: u8, out: &mut Vec<u8>) -> Result<(), AllocError>
    ensures { OnOk result (out.new.items ≡ out.old.items ++ blank_of b) }
{
    if b == b'\t' {
        out.extend_from_slice(b"\t")
    } else if goes_on(b) {
        Ok(())
    } else {
        out.extend_from_slice(b" ")
    }
}

/// Appends what is as wide as these bytes are.
fn print_blanks(text: &[u8], out: &mut Vec<u8>) -> Result<(), AllocError>
    ensures { OnOk result (out.new.items ≡ out.old.items ++ flat_map blank_of text.now) }
{
    for b in text {
        print_blank(*b, out)?;
    }
    Ok(())
}

/// Appends a line that stands before a place and goes on behind it, and below it a caret below the place.
fn print_at(front: &[u8], back: &[u8], out: &mut Vec<u8>) -> Result<(), AllocError>
    ensures { OnOk result (out.new.items ≡ out.old.items ++ (margin ++ (front.now ++ (back.now ++ (10 ∷ [] ++ (margin ++ (flat_map blank_of front.now ++ (94 ∷ 10 ∷ [])))))))) }
{
    out.extend_from_slice(b"    ")?;
    out.extend_from_slice(front)?;
    out.extend_from_slice(back)?;
    out.extend_from_slice(b"\n")?;
    out.extend_from_slice(b"    ")?;
    print_blanks(front, out)?;
    out.extend_from_slice(b"^\n")
}

/// Appends the line of a text in which a place stands, and below it a caret that stands below the place.
pub fn print_excerpt(text: &[u8], place: usize, out: &mut Vec<u8>) -> Result<(), AllocError>
    requires { place ≤ length text.now }
    ensures { OnOk result (out.new.items ≡ out.old.items ++ excerpt text.now place) }
{
    let front = last_line(before(text, place));
    let back = first_line(behind(text, place));
    print_at(front, back, out)
}
