//! Numbers in plain digits.

ghost use Rattle.std.specs.Prelude.{◌≡◌, ◌≤◌, IfSome};
ghost use Rattle.std.specs.Str.{all_ascii_digits};
ghost use Rattle.run_words.specs.Words.{is_plain, number_in};

/// The number that a word spells in plain digits, where it is one from `least` to `most`.
pub(crate) fn number_in(least: u64, most: u64, word: &str) -> Option<u64>
    ensures value { result ≡ number_in least most word.now }
    ensures within { IfSome result (λ n. n ≤ most) }
{
    if !is_plain(word.as_bytes()) {
        return None;
    }
    match word.parse::<u64>() {
        Ok(n) if least <= n && n <= most => Some(n),
        Ok(_) => None,
        Err(_) => None,
    }
}

fn is_plain(word: &[u8]) -> bool
    ensures { result ≡ is_plain word.now }
{
    match word {
        [] => false,
        [_] => are_digits(word),
        [first, ..] => are_digits(word) && *first != b'0',
    }
}

fn are_digits(word: &[u8]) -> bool
    ensures { result ≡ all_ascii_digits word.now }
{
    for byte in word {
        if !byte.is_ascii_digit() {
            return false;
        }
    }
    true
}
