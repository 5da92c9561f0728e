//! The number that digits spell.
#![tactic(auto)]

ghost use Rattle.std.specs.Prelude.{◌≡◌, ◌<◌, ◌^◌, IfSome};
ghost use Rattle.sql_words.specs.Words.{number_of};

/// A tenth of 2^127, rounded down.
const TENTH: u128 = 17014118346046923173168730371588410572;

/// 2^127 - 1.
const GREATEST: u128 = 170141183460469231731687303715884105727;

/// The number that digits spell, or None where it is greater than 2^127 - 1.
#[tactic(auto, unfolding(crate::specs::Words::number_of))]
pub fn number_of(digits: &[u8]) -> Option<u128>
    ensures number { result ≡ number_of digits.now }
    ensures bound { IfSome result (λ n. n < 2 ^ 127) }
{
    let mut value: u128 = 0;
    for digit in digits {
        if value > TENTH {
            return None;
        }
        value = value * 10 + u128::from(digit.saturating_sub(b'0'));
        if value > GREATEST {
            return None;
        }
    }
    Some(value)
}
