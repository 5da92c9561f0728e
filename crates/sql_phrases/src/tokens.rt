ghost use Rattle.std.specs.Prelude.{◌≡◌, ◌==◌, length, All};
ghost use Rattle.sql_phrases.specs.Readings.{head_is};
ghost use Rattle.sql_phrases.specs.Classes.{is_key, is_sign, is_back, in_set, name_classes, number_classes, text_classes, cmp_classes, signed_classes, tally_classes, ranking_classes, window_classes, aggregate_classes, source_classes, call_classes};
ghost use Rattle.sql_words.specs.Symbols.{SaysUtf8};
ghost use Rattle.sql_words.specs.Words.{IsWithin};
ghost use Rattle.sql_phrases.specs.Gives.{seen};

use sql_words::{Back, Key, Sign, Token, TokenKind, number_at};
use std::marker::Model;

/// The tokens of a text that are still to be read. Contracts see what they say.
#[derive(Drop)]
pub struct Tokens<'a> {
    pub(crate) text: &'a [u8],
    pub(crate) left: &'a [Token],
}

impl<'a> Model for Tokens<'a> {
    ghost use Rattle.std.specs.Prelude.{List};
    ghost use Rattle.sql_words.specs.Symbols.{Symbol};
    ghost use Rattle.std.specs.Prelude.{All, length};
    ghost use Rattle.sql_words.specs.Symbols.{SaysUtf8};
    ghost use Rattle.sql_words.specs.Words.{IsWithin};
    ghost use Rattle.sql_phrases.specs.Gives.{seen};

    ghost Value = { List Symbol };

    ghost view = { λ t. seen t.text.now t.left.now };

    ghost invariant = { λ t. All (IsWithin (length t.text.now)) t.left.now × All (SaysUtf8 t.text.now) t.left.now };
}

impl<'a> Tokens<'a> {
    /// The tokens of a text. Each lies in it, and what a text says is UTF-8.
    pub fn new(text: &'a [u8], left: &'a [Token]) -> Tokens<'a>
        requires within { All (IsWithin (length text.now)) left.now }
        requires utf8 { All (SaysUtf8 text.now) left.now }
        ensures { result ≡ seen text.now left.now }
    {
        Tokens { text, left }
    }

    /// How many tokens are left.
    pub fn len(&self) -> usize
        ensures { result ≡ length self.now }
    {
        self.left.len()
    }

    /// Whether the keyword stands at the front.
    pub fn begins_key(&self, key: Key) -> bool
        ensures { result ≡ head_is (is_key key) self.now }
    {
        match self.left {
            [token, ..] => match token.kind {
                TokenKind::Word(Some(word)) => word == key,
                _ => false,
            },
            [] => false,
        }
    }

    /// Whether the sign stands at the front.
    pub fn begins_sign(&self, sign: Sign) -> bool
        ensures { result ≡ head_is (is_sign sign) self.now }
    {
        match self.left {
            [token, ..] => match token.kind {
                TokenKind::Sign(mark) => mark == sign,
                _ => false,
            },
            [] => false,
        }
    }

    /// Whether the command stands at the front.
    pub fn begins_back(&self, back: Back) -> bool
        ensures { result ≡ head_is (is_back back) self.now }
    {
        match self.left {
            [token, ..] => match token.kind {
                TokenKind::Back(command) => command == back,
                _ => false,
            },
            [] => false,
        }
    }

    /// Whether a name stands at the front.
    pub fn begins_name(&self) -> bool
        ensures { result ≡ head_is (in_set name_classes) self.now }
    {
        match self.left {
            [token, ..] => match token.kind {
                TokenKind::Word(None) => true,
                _ => false,
            },
            [] => false,
        }
    }

    /// Whether a number stands at the front.
    pub fn begins_number(&self) -> bool
        ensures { result ≡ head_is (in_set number_classes) self.now }
    {
        match self.left {
            [token, ..] => match token.kind {
                TokenKind::Int => number_at(self.text, token).is_some(),
                _ => false,
            },
            [] => false,
        }
    }

    /// Whether a text stands at the front.
    pub fn begins_text(&self) -> bool
        ensures { result ≡ head_is (in_set text_classes) self.now }
    {
        match self.left {
            [token, ..] => match token.kind {
                TokenKind::Text => true,
                _ => false,
            },
            [] => false,
        }
    }

    /// Whether a sign that compares stands at the front.
    pub fn begins_cmp(&self) -> bool
        ensures { result ≡ head_is (in_set cmp_classes) self.now }
    {
        match self.left {
            [token, ..] => match token.kind {
                TokenKind::Sign(
                    Sign::Equal
                    | Sign::NotEqual
                    | Sign::Less
                    | Sign::AtMost
                    | Sign::Greater
                    | Sign::AtLeast,
                ) => true,
                _ => false,
            },
            [] => false,
        }
    }

    /// Whether a plus or a minus stands at the front.
    pub fn begins_signed(&self) -> bool
        ensures { result ≡ head_is (in_set signed_classes) self.now }
    {
        match self.left {
            [token, ..] => match token.kind {
                TokenKind::Sign(Sign::Plus | Sign::Minus) => true,
                _ => false,
            },
            [] => false,
        }
    }

    /// Whether the name of an aggregate stands at the front.
    pub fn begins_aggregate(&self) -> bool
        ensures { result ≡ head_is (in_set aggregate_classes) self.now }
    {
        if self.begins_key(Key::Count) {
            return true;
        }
        if self.begins_key(Key::Sum) {
            return true;
        }
        if self.begins_key(Key::Min) {
            return true;
        }
        self.begins_key(Key::Max)
    }

    /// Whether COUNT or SUM stands at the front.
    pub fn begins_tally(&self) -> bool
        ensures { result ≡ head_is (in_set tally_classes) self.now }
    {
        if self.begins_key(Key::Count) {
            return true;
        }
        self.begins_key(Key::Sum)
    }

    /// Whether the name of a window function without an argument stands at the front.
    pub fn begins_ranking(&self) -> bool
        ensures { result ≡ head_is (in_set ranking_classes) self.now }
    {
        if self.begins_key(Key::RowNumber) {
            return true;
        }
        self.begins_key(Key::Rank)
    }

    /// Whether the name of a window function stands at the front.
    pub fn begins_window(&self) -> bool
        ensures { result ≡ head_is (in_set window_classes) self.now }
    {
        if self.begins_key(Key::RowNumber) {
            return true;
        }
        if self.begins_key(Key::Rank) {
            return true;
        }
        if self.begins_key(Key::Count) {
            return true;
        }
        self.begins_key(Key::Sum)
    }

    /// Whether what goes on with the sources of a query stands at the front.
    pub fn begins_source(&self) -> bool
        ensures { result ≡ head_is (in_set source_classes) self.now }
    {
        if self.begins_sign(Sign::Comma) {
            return true;
        }
        if self.begins_key(Key::Inner) {
            return true;
        }
        self.begins_key(Key::Join)
    }

    /// Whether the name of a function stands at the front.
    pub fn begins_call(&self) -> bool
        ensures { result ≡ head_is (in_set call_classes) self.now }
    {
        if self.begins_key(Key::GetLastGoodEpoch) {
            return true;
        }
        if self.begins_key(Key::GetAhmEpoch) {
            return true;
        }
        if self.begins_key(Key::GetCurrentEpoch) {
            return true;
        }
        if self.begins_key(Key::MakeAhmNow) {
            return true;
        }
        if self.begins_key(Key::StartRefresh) {
            return true;
        }
        if self.begins_key(Key::SetAhmEpoch) {
            return true;
        }
        if self.begins_key(Key::DoTmTask) {
            return true;
        }
        if self.begins_key(Key::PurgeTable) {
            return true;
        }
        self.begins_key(Key::Refresh)
    }
}
