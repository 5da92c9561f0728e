//! Counting the bytes of the runs of numbers of a lane.

ghost use Rattle.std.specs.Prelude.{◌≡◌, ◌≤◌, ◌*◌, length, map};
ghost use Rattle.std.specs.List.{flat_map};
ghost use Rattle.block_codec.specs.Blocks.{IsOneBlock};
ghost use Rattle.block_codec.specs.Held.{number_value};
ghost use Rattle.enc_rle.specs.Rle.{same, runs_of, run_spelling, rle};

use block_codec::{number_len, vint_len};

/// Whether two numbers of a lane stand for the same value.
#[inline(always)]
#[tactic(auto, using(crate::proofs::Lane::same_numbers))]
fn are_same(a: i64, b: i64) -> bool
    ensures { result ≡ same (number_value a) (number_value b) }
{
    a == b
}

#[inline(always)]
fn run_len(n: i64, count: usize) -> usize
    ensures exact { result ≡ length (run_spelling (record { value = number_value n; count = count })) }
    ensures few { result ≤ 19 }
{
    number_len(n) + vint_len(count as u64)
}

/// How many runs the values have for which the numbers stand, and how many bytes these.
fn runs_len(numbers: &[i64]) -> (usize, usize)
    requires { length numbers.now ≤ 1024 }
    ensures runs { result.0 ≡ length (runs_of (map number_value numbers.now)) }
    ensures bytes { result.1 ≡ length (flat_map run_spelling (runs_of (map number_value numbers.now))) }
    ensures few { result.1 ≤ 19 * 1024 }
{
    let [first, rest @ ..] = numbers else {
        return (0, 0);
    };
    let mut runs = 1;
    let mut len = 0;
    let mut number = first;
    let mut count = 1;
    for next in rest {
        if are_same(*number, *next) {
            count += 1;
            continue;
        }
        len += run_len(*number, count);
        runs += 1;
        number = next;
        count = 1;
    }
    (runs, len + run_len(*number, count))
}

/// How many bytes the block has of the values for which the numbers stand.
pub fn numbers_block_len(numbers: &[i64]) -> usize
    requires { IsOneBlock (map number_value numbers.now) }
    ensures { result ≡ length (rle (map number_value numbers.now)) }
{
    let (runs, len) = runs_len(numbers);
    1 + vint_len(runs as u64) + len
}
