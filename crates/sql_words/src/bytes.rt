//! Kinds of bytes, and how long the runs at the front of a text are.
#![tactic(auto)]

ghost use Rattle.std.specs.Prelude.{◌≡◌, ◌+◌, ◌≤◌, ◌<◌, ◌==◌, drop, length, not, option_map, IfSome};
ghost use Rattle.std.specs.List.{prefix_len};
ghost use Rattle.std.specs.Char.{is_ascii_digit};
ghost use Rattle.sql_words.specs.Bytes.{is_space, begins_word, is_of_word, begins_comment, line_size, inner_size};

/// Tab, LF, CR and the space stand between tokens.
pub fn is_space(b: u8) -> bool
    ensures { result ≡ is_space b }
{
    b == b' ' || b == b'\n' || b == b'\t' || b == b'\r'
}

/// A word begins with a letter or `_`.
pub fn begins_word(b: u8) -> bool
    ensures { result ≡ begins_word b }
{
    b.is_ascii_alphabetic() || b == b'_'
}

/// A word goes on with letters, digits and `_`.
fn is_of_word(b: u8) -> bool
    ensures { result ≡ is_of_word b }
{
    b.is_ascii_alphanumeric() || b == b'_'
}

/// The bytes from a place on.
pub fn behind(text: &[u8], place: usize) -> &[u8]
    requires { place ≤ length text.now }
    ensures { result.now ≡ drop place text.now }
{
    &text[place..]
}

/// Two dashes begin a comment.
pub fn begins_comment(text: &[u8]) -> bool
    ensures { result ≡ begins_comment text.now }
{
    text.len() >= 2 && text[0] == b'-' && text[1] == b'-'
}

/// How many bytes stand before the first LF, or all where there is none.
pub fn line_size(text: &[u8]) -> usize
    ensures size { result ≡ line_size text.now }
    ensures within { result ≤ length text.now }
{
    for (i, b) in text.iter().enumerate() {
        if *b == b'\n' {
            return i;
        }
    }
    text.len()
}

/// How many bytes of a word stand at the front.
pub fn word_size(text: &[u8]) -> usize
    ensures size { result ≡ prefix_len is_of_word text.now }
    ensures within { result ≤ length text.now }
{
    for (i, b) in text.iter().enumerate() {
        if !is_of_word(*b) {
            return i;
        }
    }
    text.len()
}

/// How many digits stand at the front.
pub fn digits_size(text: &[u8]) -> usize
    ensures size { result ≡ prefix_len is_ascii_digit text.now }
    ensures within { result ≤ length text.now }
{
    for (i, b) in text.iter().enumerate() {
        if !b.is_ascii_digit() {
            return i;
        }
    }
    text.len()
}

/// Behind the quote that begins a text: how many bytes stand before the quote that ends it, or None where none does.
/// Two quotes in a row are a quote of the text.
pub fn inner_size(text: &[u8]) -> Option<usize>
    ensures size { result ≡ inner_size text.now }
    ensures within { IfSome result (λ n. n < length text.now) }
{
    let mut at = 0;
    while at < text.len() {
        if text[at] != b'\'' {
            at += 1;
            continue;
        }
        if at + 1 == text.len() || text[at + 1] != b'\'' {
            return Some(at);
        }
        at += 2;
    }
    None
}
