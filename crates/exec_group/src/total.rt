//! A sum that never passes what a result holds.

ghost use Rattle.std.specs.Prelude.{◌≡◌, ℕ, ℤ, pos, ◌+◌, ◌+ℤ◌, ◌<◌, ◌≤◌, if◌then◌else◌, IsTrue, MatchOption};
ghost use Rattle.sql_bound.specs.Bounds.{magnitude, result_bound};

use std::marker::Model;

/// The greatest number that a result holds, 2^127 - 1.
const GREATEST: u128 = 170141183460469231731687303715884105727;

/// A sum, and the magnitudes of its parts added up, which contracts see as a pair.
#[derive(Debug, Drop)]
pub struct Total {
    sum: i128,
    size: u128,
}

impl Model for Total {
    ghost use Rattle.std.specs.Prelude.{ℕ, ℤ, ◌≤◌};
    ghost use Rattle.sql_bound.specs.Bounds.{magnitude, result_bound};

    ghost Value = { ℤ × ℕ };

    ghost view = { λ t. (t.sum, t.size) };

    ghost invariant = { λ t. (magnitude t.sum ≤ t.size) × (t.size ≤ result_bound) };
}

impl Total {
    /// The sum of nothing.
    pub fn none() -> Total
        ensures { result ≡ (pos 0, 0) }
    {
        Total { sum: 0, size: 0 }
    }

    /// The sum.
    pub fn sum(&self) -> i128
        ensures { result ≡ self.now.0 }
    {
        self.sum
    }

    /// The sum with a number more; None where the magnitudes then add to more than a result holds.
    pub fn with(&self, number: i128) -> Option<Total>
        ensures { MatchOption result (result_bound < self.now.1 + magnitude number) (λ t. (t ≡ (self.now.0 +ℤ number, self.now.1 + magnitude number)) × (self.now.1 + magnitude number ≤ result_bound)) }
    {
        let size = self.size + number.unsigned_abs();
        if size > GREATEST {
            return None;
        }
        Some(Total {
            sum: self.sum + number,
            size,
        })
    }

    /// Adds a number where the magnitudes then add to no more than a result holds; answers whether it did.
    pub fn adds(&mut self, number: i128) -> bool
        ensures added { self.new ≡ (if result then (self.old.0 +ℤ number, self.old.1 + magnitude number) else self.old) }
        ensures fits { IsTrue result → self.old.1 + magnitude number ≤ result_bound }
    {
        match self.with(number) {
            Some(total) => {
                *self = total;
                true
            },
            None => false,
        }
    }

    /// Adds a sum whose parts have magnitudes that add to `size`, where these then add to no more than a result holds; answers whether it did.
    pub fn adds_all(&mut self, sum: i128, size: u128) -> bool
        requires { magnitude sum ≤ size }
        ensures added { self.new ≡ (if result then (self.old.0 +ℤ sum, self.old.1 + size) else self.old) }
        ensures fits { IsTrue result → self.old.1 + size ≤ result_bound }
    {
        let Some(all) = self.size.checked_add(size) else {
            return false;
        };
        if all > GREATEST {
            return false;
        }
        *self = Total {
            sum: self.sum + sum,
            size: all,
        };
        true
    }
}
