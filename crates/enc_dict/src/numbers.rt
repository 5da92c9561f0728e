//! The different values for which numbers of a lane stand, and whether a dictionary of them can be short enough.

ghost use Rattle.std.specs.Prelude.{◌≡◌, ◌≤◌, ◌<◌, ◌+◌, false, length, map, true, IfOk, OnOk};
ghost use Rattle.std.specs.List.{flat_map};
ghost use Rattle.value_bytes.specs.Spelling.{spelling};
ghost use Rattle.block_codec.specs.Held.{number_value};
ghost use Rattle.enc_dict.specs.Dict.{less, same, with_value, distinct, dict, place};
ghost use Rattle.enc_dict.specs.Fronts.{is_ascending, is_word};

use block_codec::number_len;
use std::alloc::{AllocError, Global};

#[inline(always)]
#[tactic(auto, using(crate::proofs::Lane::less_numbers))]
fn is_less(a: i64, b: i64) -> bool
    ensures { result ≡ less (number_value a) (number_value b) }
{
    a < b
}

#[inline(always)]
#[tactic(auto, using(crate::proofs::Lane::same_numbers))]
fn is_same(a: i64, b: i64) -> bool
    ensures { result ≡ same (number_value a) (number_value b) }
{
    a == b
}

/// How many of the ascending words stand before a number.
fn place(words: &[i64], n: &i64) -> usize
    requires { is_ascending (map number_value words.now) ≡ true }
    ensures exact { result ≡ place (map number_value words.now) (number_value n.now) }
    ensures bound { result ≤ length words.now }
{
    let mut low = 0;
    let mut high = words.len();
    while low < high {
        let middle = low + (high - low) / 2;
        if is_less(words[middle], *n) {
            low = middle + 1;
        } else {
            high = middle;
        }
    }
    low
}

/// Whether this number stands at the place.
fn is_word(words: &[i64], at: usize, n: &i64) -> bool
    ensures { result ≡ is_word (map number_value words.now) at (number_value n.now) }
{
    at < words.len() && is_same(words[at], *n)
}

/// Puts a number among the ascending words, where it isn't there already.
fn add_word(words: &mut Vec<i64>, n: &i64) -> Result<(), AllocError>
    requires { is_ascending (map number_value words.old.items) ≡ true }
    ensures { OnOk result (map number_value words.new.items ≡ with_value (map number_value words.old.items) (number_value n.now)) }
{
    let at = place(words.as_slice(), n);
    if is_word(words.as_slice(), at, n) {
        return Ok(());
    }
    words.insert(at, *n)?;
    Ok(())
}

/// Puts a number among the ascending words, where it isn't there already; how many bytes the words have more then.
fn add_counted(words: &mut Vec<i64>, n: &i64) -> Result<usize, AllocError>
    requires { is_ascending (map number_value words.old.items) ≡ true }
    ensures words { IfOk result (λ _. map number_value words.new.items ≡ with_value (map number_value words.old.items) (number_value n.now)) }
    ensures bytes { IfOk result (λ k. length (flat_map spelling (with_value (map number_value words.old.items) (number_value n.now))) ≡ length (flat_map spelling (map number_value words.old.items)) + k) }
    ensures few { IfOk result (λ k. k ≤ 9) }
{
    let before = words.len();
    add_word(words, n)?;
    if words.len() > before {
        Ok(number_len(*n))
    } else {
        Ok(0)
    }
}

/// Whether the different values have at most so many bytes; no more of them are found than show that they haven't.
fn are_within(alloc: Global, numbers: &[i64], room: usize) -> Result<bool, AllocError>
    requires { length numbers.now ≤ 1024 }
    ensures { IfOk result (λ b. b ≡ false → room < length (flat_map spelling (distinct (map number_value numbers.now)))) }
{
    let mut words = Vec::new(alloc);
    let mut len = 0;
    for n in numbers {
        len += add_counted(&mut words, n)?;
        if len > room {
            return Ok(false);
        }
    }
    Ok(true)
}

/// Whether the block of the values for which the numbers stand may have fewer than so many bytes. Where it says no, the block has not fewer.
pub fn may_be_below(alloc: Global, numbers: &[i64], limit: usize) -> Result<bool, AllocError>
    requires { length numbers.now ≤ 1024 }
    ensures { IfOk result (λ b. b ≡ false → limit ≤ length (dict (map number_value numbers.now))) }
{
    let least = numbers.len() + 3;
    if limit <= least {
        return Ok(false);
    }
    are_within(alloc, numbers, limit - least - 1)
}
