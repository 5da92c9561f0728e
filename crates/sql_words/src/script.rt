//! The statement texts of a script.
#![tactic(auto)]

ghost use Rattle.std.specs.Prelude.{◌≡◌, ◌≤◌, ◌<◌, ◌++◌, [], ◌∷◌, length, filter, not, All, IfOk, OnOk};
ghost use Rattle.sql_words.specs.Words.{tokens_of};
ghost use Rattle.sql_words.specs.Texts.{part_size, has_token, is_nonempty, statement_spans, LiesWithin};

use crate::bytes::{begins_comment, behind, inner_size, line_size};
use crate::piece::piece_at;
use std::alloc::{AllocError, Global};

/// The spans of a script's statement texts, in order: each from its first byte up to below its end, without its `;`.
///
/// A `;` ends a statement text, except in a text and in a comment. A text is `'`, bytes with `''` for a quote, and `'`; a comment is `--`
/// up to the end of its line or of the script. One that is unfinished goes on to the end of the script. The last statement may lack its `;`.
/// What has only spaces and comments is no statement text and is left out.
///
/// The one error is that memory ran out. Time is linear in the script.
pub fn split(alloc: Global, script: &[u8]) -> Result<Vec<(usize, usize)>, AllocError>
    ensures spans { IfOk result (λ v. v.items ≡ statement_spans script.now) }
    ensures within { IfOk result (λ v. All (LiesWithin (length script.now)) v.items) }
{
    let mut found = Vec::new(alloc);
    let mut start = 0;
    let mut at = 0;
    while at < script.len() {
        let rest = behind(script, at);
        if rest[0] != b';' {
            at += part_size(rest);
            continue;
        }
        push_span(&mut found, script, start, at)?;
        at += 1;
        start = at;
    }
    push_span(&mut found, script, start, at)?;
    Ok(found)
}

/// Pushes a span, unless its text has no token.
fn push_span(
    found: &mut Vec<(usize, usize)>,
    script: &[u8],
    start: usize,
    end: usize,
) -> Result<(), AllocError>
    requires order { start ≤ end }
    requires within { end ≤ length script.now }
    ensures { OnOk result (found.new.items ≡ found.old.items ++ filter (has_token script.now) ((start, end) ∷ [])) }
{
    if has_token(&script[start..end]) {
        found.push((start, end))?;
    }
    Ok(())
}

/// How many bytes at the front belong together: a comment, a text, or one byte.
#[tactic(auto, unfolding(crate::specs::Texts::part_size))]
fn part_size(script: &[u8]) -> usize
    requires { 0 < length script.now }
    ensures size { result ≡ part_size script.now }
    ensures some { 0 < result }
    ensures within { result ≤ length script.now }
{
    if begins_comment(script) {
        return line_size(script);
    }
    if script[0] != b'\'' {
        return 1;
    }
    match inner_size(behind(script, 1)) {
        Some(size) => size + 2,
        None => script.len(),
    }
}

/// Some token stands in the text: it is more than spaces and comments.
fn has_token(text: &[u8]) -> bool
    ensures { result ≡ is_nonempty (tokens_of text.now) }
{
    let mut at = 0;
    while at < text.len() {
        let piece = piece_at(behind(text, at));
        if piece.kind.is_some() {
            return true;
        }
        at += piece.size;
    }
    false
}
