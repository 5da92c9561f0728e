ghost use Rattle.std.specs.Prelude.{◌≡◌};
ghost use Rattle.sql_phrases.specs.Readings.{head_is};
ghost use Rattle.sql_expr.specs.Levels.{goes_on};

use sql_phrases::Tokens;
use sql_words::{Key, Sign};

/// A chain whose parts are of one kind, with one symbol between two.
#[derive(Clone, Copy, Debug)]
pub enum Level {
    /// `unary * unary`
    Factors,
    /// `sum , sum`, in the list behind IN
    Choices,
    /// `neg AND neg`
    Conjuncts,
    /// `conj OR conj`
    Disjuncts,
}

impl Level {
    /// Whether one more part of the chain stands at the front.
    pub fn goes_on(self, tokens: &Tokens<'_>) -> bool
        ensures { result ≡ head_is (goes_on self) tokens.now }
    {
        match self {
            Level::Factors => tokens.begins_sign(Sign::Star),
            Level::Choices => tokens.begins_sign(Sign::Comma),
            Level::Conjuncts => tokens.begins_key(Key::And),
            Level::Disjuncts => tokens.begins_key(Key::Or),
        }
    }
}
