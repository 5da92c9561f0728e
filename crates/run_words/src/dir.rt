//! The word DIR.

ghost use Rattle.std.specs.Prelude.{◌≡◌, ◌≤◌, length, drop, map, string_bytes, bytes_eq};
ghost use Rattle.std.specs.Option.{option_map};
ghost use Rattle.run_words.specs.Words.{is_option, takes_value, first_word, dir_behind, dir_of_words};

/// The word DIR: behind the program's name the first word that does not begin with `--` and does not stand right behind
/// an exact `--mover`, `--gen` or `--seed`, each of which takes the word behind it. Behind `--` it is the next word.
/// It takes no memory.
pub fn dir_of(words: &[String]) -> Option<&str>
    ensures { option_map (λ dir. dir.now) result ≡ dir_of_words (map string_bytes words.now) }
{
    let mut skip = true;
    for (i, word) in words.iter().enumerate() {
        if skip {
            skip = false;
            continue;
        }
        if is(word.as_str(), "--") {
            return word_at(words, i + 1);
        }
        if !is_option(word.as_str()) {
            return Some(word.as_str());
        }
        skip = takes_value(word.as_str());
    }
    None
}

// The word at a place.
fn word_at(words: &[String], at: usize) -> Option<&str>
    requires { at ≤ length words.now }
    ensures { option_map (λ word. word.now) result ≡ first_word (map string_bytes (drop at words.now)) }
{
    if at < words.len() {
        Some(words[at].as_str())
    } else {
        None
    }
}

// The word is this text.
fn is(word: &str, text: &str) -> bool
    ensures { result ≡ bytes_eq word.now text.now }
{
    word == text
}

// The word begins with `--`.
fn is_option(word: &str) -> bool
    ensures { result ≡ is_option word.now }
{
    word.starts_with("--")
}

// The word is an option that takes the word behind it.
fn takes_value(word: &str) -> bool
    ensures { result ≡ takes_value word.now }
{
    is(word, "--mover") || is(word, "--gen") || is(word, "--seed")
}
