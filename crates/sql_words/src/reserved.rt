//! The reserved words, each with its keyword.
#![tactic(auto)]

ghost use Rattle.std.specs.Prelude.{◌≡◌, ◌≤◌, ◌+◌, get_or, length, map};
ghost use Rattle.sql_words.specs.Bytes.{letter_of};
ghost use Rattle.sql_words.specs.declared.reserved.TheConstants.{STARTS};
ghost use Rattle.std.specs.Str.{str_eq_ignore_ascii_case};
ghost use Rattle.sql_words.specs.Reserved.{reserved_words};
ghost use Rattle.sql_words.specs.Words.{key_in, key_of};

use crate::token::Key;

/// The reserved words in lower case, in the order of the alphabet.
pub const RESERVED: [(&str, Key); 73] = [
    ("add", Key::Add),
    ("alter", Key::Alter),
    ("and", Key::And),
    ("as", Key::As),
    ("asc", Key::Asc),
    ("at", Key::At),
    ("auto", Key::Auto),
    ("between", Key::Between),
    ("bigint", Key::Bigint),
    ("block_dict", Key::BlockDict),
    ("boolean", Key::Boolean),
    ("by", Key::By),
    ("column", Key::Column),
    ("commit", Key::Commit),
    ("copy", Key::Copy),
    ("count", Key::Count),
    ("create", Key::Create),
    ("date", Key::Date),
    ("default", Key::Default),
    ("delete", Key::Delete),
    ("deltaval", Key::Deltaval),
    ("desc", Key::Desc),
    ("do_tm_task", Key::DoTmTask),
    ("drop", Key::Drop),
    ("encoding", Key::Encoding),
    ("epoch", Key::Epoch),
    ("explain", Key::Explain),
    ("false", Key::False),
    ("from", Key::From),
    ("get_ahm_epoch", Key::GetAhmEpoch),
    ("get_current_epoch", Key::GetCurrentEpoch),
    ("get_last_good_epoch", Key::GetLastGoodEpoch),
    ("group", Key::Group),
    ("having", Key::Having),
    ("in", Key::In),
    ("inner", Key::Inner),
    ("insert", Key::Insert),
    ("int", Key::Int),
    ("integer", Key::Integer),
    ("into", Key::Into),
    ("is", Key::Is),
    ("join", Key::Join),
    ("latest", Key::Latest),
    ("limit", Key::Limit),
    ("make_ahm_now", Key::MakeAhmNow),
    ("max", Key::Max),
    ("min", Key::Min),
    ("not", Key::Not),
    ("null", Key::Null),
    ("on", Key::On),
    ("or", Key::Or),
    ("order", Key::Order),
    ("over", Key::Over),
    ("partition", Key::Partition),
    ("plain", Key::Plain),
    ("projection", Key::Projection),
    ("purge_table", Key::PurgeTable),
    ("rank", Key::Rank),
    ("refresh", Key::Refresh),
    ("rle", Key::Rle),
    ("rollback", Key::Rollback),
    ("row_number", Key::RowNumber),
    ("select", Key::Select),
    ("set", Key::Set),
    ("set_ahm_epoch", Key::SetAhmEpoch),
    ("start_refresh", Key::StartRefresh),
    ("sum", Key::Sum),
    ("table", Key::Table),
    ("true", Key::True),
    ("update", Key::Update),
    ("values", Key::Values),
    ("varchar", Key::Varchar),
    ("where", Key::Where),
];

/// The place in `RESERVED` at which each letter's words begin, so that a word is compared with few of them.
const STARTS: [usize; 28] = [
    0, 7, 12, 17, 24, 27, 29, 33, 34, 41, 42, 42, 44, 47, 49, 53, 57, 57, 62, 67, 69, 70, 72, 73,
    73, 73, 73, 73,
];

/// The place in the alphabet of a word's first letter. What is before `a` counts as it, and what is behind `z` is 26.
fn letter_of(word: &[u8]) -> usize
    ensures letter { result ≡ letter_of word.now }
    ensures within { result ≤ 26 }
{
    match word {
        [first, ..] => usize::from(first.to_ascii_lowercase().saturating_sub(b'a')).min(26),
        [] => 0,
    }
}

/// The places in `RESERVED` from which and below which a letter's words stand.
fn places_of(letter: usize) -> (usize, usize)
    requires { letter ≤ 26 }
    ensures places { result ≡ (get_or STARTS letter 0, get_or STARTS (letter + 1) 0) }
    ensures order { result.0 ≤ result.1 }
    ensures within { result.1 ≤ 73 }
{
    (STARTS[letter], STARTS[letter + 1])
}

/// The keyword of the table's first entry that the word is.
#[tactic(auto, unfolding(crate::specs::Words::key_in))]
fn key_in(table: &[(&'static str, Key)], word: &[u8]) -> Option<Key>
    ensures { result ≡ key_in (map (λ e. (e.0.now, e.1)) table.now) word.now }
{
    for entry in table {
        if is_spelled(word, entry.0) {
            return Some(entry.1);
        }
    }
    None
}

/// The keyword of the first reserved word that the word is, looked for among those of its first letter.
fn key_among(table: &[(&'static str, Key)], word: &[u8]) -> Option<Key>
    requires size { length table.now ≡ 73 }
    requires words { map (λ e. (e.0.now, e.1)) table.now ≡ reserved_words }
    ensures { result ≡ key_of word.now }
{
    let (from, to) = places_of(letter_of(word));
    key_in(&table[from..to], word)
}

/// The word is the entry, without regard to ASCII case.
fn is_spelled(word: &[u8], entry: &str) -> bool
    ensures { result ≡ str_eq_ignore_ascii_case entry.now word.now }
{
    word.eq_ignore_ascii_case(entry.as_bytes())
}

/// The keyword that a word is, without regard to ASCII case; None where it is a name.
#[tactic(auto, unfolding(crate::specs::Words::key_of))]
pub fn key_of(word: &[u8]) -> Option<Key>
    ensures { result ≡ key_of word.now }
{
    key_among(&RESERVED, word)
}
