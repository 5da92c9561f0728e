//! Runs of bytes.

ghost use Rattle.std.specs.Prelude.{◌≡◌, ◌≤◌, ◌==◌, not, drop, take, length, bytes_eq};
ghost use Rattle.std.specs.List.{prefix_len};
ghost use Rattle.sql_words.specs.Texts.{cut};

/// The bytes from a place on.
pub fn behind(text: &[u8], place: usize) -> &[u8]
    requires { place ≤ length text.now }
    ensures { result.now ≡ drop place text.now }
{
    text.split_at(place).1
}

/// The bytes before a place.
pub fn before(text: &[u8], place: usize) -> &[u8]
    requires { place ≤ length text.now }
    ensures { result.now ≡ take place text.now }
{
    text.split_at(place).0
}

/// How many bytes stand before the first that is this one, or all where none is.
pub fn size_before(text: &[u8], byte: u8) -> usize
    ensures size { result ≡ prefix_len (λ b. not (b == byte)) text.now }
    ensures within { result ≤ length text.now }
{
    for (i, b) in text.iter().enumerate() {
        if *b == byte {
            return i;
        }
    }
    text.len()
}

/// Whether the bytes are this text.
pub fn is(bytes: &[u8], text: &str) -> bool
    ensures { result ≡ bytes_eq bytes.now text.now }
{
    bytes == text.as_bytes()
}

/// The bytes of a span, or none where it doesn't lie within the text.
pub fn span_of(text: &[u8], start: usize, end: usize) -> &[u8]
    ensures { start ≤ end → end ≤ length text.now → result.now ≡ cut text.now (start, end) }
{
    if start <= end && end <= text.len() {
        &text[start..end]
    } else {
        &[]
    }
}

/// How many bytes are line feeds.
pub fn lines_in(text: &[u8]) -> u64 {
    let mut lines: u64 = 0;
    for b in text {
        if *b == b'\n' {
            lines = lines.saturating_add(1);
        }
    }
    lines
}
