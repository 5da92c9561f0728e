//! Bytes with their number in front.

ghost use Rattle.std.specs.Prelude.{◌≡◌, ◌<◌, ◌^◌, ◌++◌, ℕ, List, length, take, OnOk, OnErr, IfSome, IfNone, option_map};
ghost use Rattle.col_bytes.specs.Spellings.{text, Begins};
ghost use Rattle.col_bytes.specs.Fronts.{text_at, Reads};

use crate::varint::{put_vint, take_vint};
use std::alloc::AllocError;

/// Appends the number of bytes and the bytes. After a refusal a part of them may stand behind what was there.
fn push_text(out: &mut Vec<u8>, t: &[u8]) -> Result<(), AllocError>
    ensures ok { OnOk result (out.new.items ≡ out.old.items ++ text t.now) }
    ensures err { OnErr result (take (length out.old.items) out.new.items ≡ out.old.items) }
{
    put_vint(out, t.len() as u64)?;
    out.extend_from_slice(t)
}

/// Appends a text: a varint of its length, and its bytes.
pub fn put_text(out: &mut Vec<u8>, t: &[u8]) -> Result<(), AllocError>
    ensures ok { OnOk result (out.new.items ≡ out.old.items ++ text t.now) }
    ensures err { OnErr result (out.new.items ≡ out.old.items) }
{
    let before = out.len();
    match push_text(out, t) {
        Ok(()) => Ok(()),
        Err(error) => {
            out.truncate(before);
            Err(error)
        }
    }
}

/// The bytes of the text at the front, and how many bytes it takes with its length.
#[tactic(auto, unfolding(crate::specs::Fronts::text_at))]
fn text_of(bytes: &[u8]) -> Option<(&[u8], usize)>
    ensures { Reads bytes.now (option_map (λ x. (x.0.now, x.1)) result) (text_at bytes.now) }
{
    let (len, start) = take_vint(bytes)?;
    let (_, rest) = bytes.split_at(start);
    if (rest.len() as u64) < len {
        return None;
    }
    let (text, _) = rest.split_at(len as usize);
    Some((text, start + text.len()))
}

/// Reads the text at the front: its bytes, and how many bytes it takes with its length. None exactly where no
/// front of the bytes spells a text.
pub fn take_text(bytes: &[u8]) -> Option<(&[u8], usize)>
    ensures found { IfSome result (λ x. Begins bytes.now (text x.0.now) x.1) }
    ensures none { IfNone result ((t rest : List ℕ) → length t < 2 ^ 64 → bytes.now ≡ text t ++ rest → ⊥) }
    ensures exact { Reads bytes.now (option_map (λ x. (x.0.now, x.1)) result) (text_at bytes.now) }
{
    text_of(bytes)
}
