//! The readers that take one token.
#![tactic(auto)]

ghost use Rattle.std.specs.Prelude.{◌≡◌, ◌<◌, ◌^◌, IfOk};
ghost use Rattle.sql_tree.specs.Symbols.{name_of, text_of, number_of, width_of, session_of, task_of, table_of, cmp_of, compares};
ghost use Rattle.sql_phrases.specs.Readings.{one, the};
ghost use Rattle.sql_phrases.specs.Dates.{day_in};
ghost use Rattle.sql_phrases.specs.Classes.{is_key, is_sign, is_back};
ghost use Rattle.sql_phrases.specs.Gives.{Gives};

use crate::texts::{day_named, table_named, task_named};
use crate::{Stop, Tokens};
use col_value::{Name, Text};
use sql_tree::{Cmp, Function};
use sql_words::{Back, Key, Sign, TokenKind, name_bytes, number_at, text_bytes};
use std::alloc::Global;

impl<'a> Tokens<'a> {
    /// Takes the keyword.
    #[tactic(auto, unfolding(crate::specs::Readings::one))]
    pub fn key(&mut self, key: Key) -> Result<(), Stop>
        ensures { Gives result self.new (one (the (is_key key)) self.old) }
    {
        match self.left {
            [token, rest @ ..] => match token.kind {
                TokenKind::Word(Some(word)) => {
                    if word == key {
                        self.left = rest;
                        return Ok(());
                    }
                    Err(Stop::Here)
                }
                _ => Err(Stop::Here),
            },
            [] => Err(Stop::Here),
        }
    }

    /// Takes the sign.
    #[tactic(auto, unfolding(crate::specs::Readings::one))]
    pub fn sign(&mut self, sign: Sign) -> Result<(), Stop>
        ensures { Gives result self.new (one (the (is_sign sign)) self.old) }
    {
        match self.left {
            [token, rest @ ..] => match token.kind {
                TokenKind::Sign(mark) => {
                    if mark == sign {
                        self.left = rest;
                        return Ok(());
                    }
                    Err(Stop::Here)
                }
                _ => Err(Stop::Here),
            },
            [] => Err(Stop::Here),
        }
    }

    /// Takes the command.
    #[tactic(auto, unfolding(crate::specs::Readings::one))]
    pub fn command(&mut self, back: Back) -> Result<(), Stop>
        ensures { Gives result self.new (one (the (is_back back)) self.old) }
    {
        match self.left {
            [token, rest @ ..] => match token.kind {
                TokenKind::Back(command) => {
                    if command == back {
                        self.left = rest;
                        return Ok(());
                    }
                    Err(Stop::Here)
                }
                _ => Err(Stop::Here),
            },
            [] => Err(Stop::Here),
        }
    }

    /// Takes a name, in lower case.
    #[tactic(auto, unfolding(crate::specs::Readings::one))]
    pub fn name(&mut self, alloc: Global) -> Result<Name, Stop>
        ensures { Gives result self.new (one name_of self.old) }
    {
        match self.left {
            [token, rest @ ..] => match token.kind {
                TokenKind::Word(None) => {
                    let bytes = name_bytes(alloc, self.text, token)?;
                    self.left = rest;
                    Ok(Name::new(bytes))
                }
                _ => Err(Stop::Here),
            },
            [] => Err(Stop::Here),
        }
    }

    /// Takes a number, which has no sign before it.
    #[tactic(auto, unfolding(crate::specs::Readings::one))]
    pub fn number(&mut self) -> Result<u128, Stop>
        ensures gives { Gives result self.new (one number_of self.old) }
        ensures bound { IfOk result (λ n. n < 2 ^ 127) }
    {
        match self.left {
            [token, rest @ ..] => match token.kind {
                TokenKind::Int => match number_at(self.text, token) {
                    Some(number) => {
                        self.left = rest;
                        Ok(number)
                    }
                    None => Err(Stop::Here),
                },
                _ => Err(Stop::Here),
            },
            [] => Err(Stop::Here),
        }
    }

    /// Takes a text, without its quotes.
    #[tactic(auto, unfolding(crate::specs::Readings::one))]
    pub fn text(&mut self, alloc: Global) -> Result<Text, Stop>
        ensures { Gives result self.new (one text_of self.old) }
    {
        match self.left {
            [token, rest @ ..] => match token.kind {
                TokenKind::Text => {
                    let bytes = text_bytes(alloc, self.text, token)?;
                    match String::from_utf8(bytes) {
                        Ok(text) => {
                            let text = Text::new(alloc, text.as_str())?;
                            self.left = rest;
                            Ok(text)
                        }
                        Err(_) => Err(Stop::Here),
                    }
                }
                _ => Err(Stop::Here),
            },
            [] => Err(Stop::Here),
        }
    }

    /// Takes a text that says a day.
    #[tactic(auto, unfolding(crate::specs::Readings::one))]
    pub fn date(&mut self, alloc: Global) -> Result<u32, Stop>
        ensures { Gives result self.new (one day_in self.old) }
    {
        match self.left {
            [token, rest @ ..] => match token.kind {
                TokenKind::Text => {
                    let bytes = text_bytes(alloc, self.text, token)?;
                    match day_named(bytes.as_slice())? {
                        Some(day) => {
                            self.left = rest;
                            Ok(day)
                        }
                        None => Err(Stop::Here),
                    }
                }
                _ => Err(Stop::Here),
            },
            [] => Err(Stop::Here),
        }
    }

    /// Takes the number of a VARCHAR: below 2^32.
    #[tactic(auto, unfolding(crate::specs::Readings::one))]
    pub fn width(&mut self) -> Result<u32, Stop>
        ensures { Gives result self.new (one width_of self.old) }
    {
        match self.left {
            [token, rest @ ..] => match token.kind {
                TokenKind::Int => match number_at(self.text, token) {
                    Some(number) => {
                        if number < 4_294_967_296 {
                            self.left = rest;
                            return Ok(number as u32);
                        }
                        Err(Stop::Here)
                    }
                    None => Err(Stop::Here),
                },
                _ => Err(Stop::Here),
            },
            [] => Err(Stop::Here),
        }
    }

    /// Takes the number of a session: 1 to 8.
    #[tactic(auto, unfolding(crate::specs::Readings::one))]
    pub fn session(&mut self) -> Result<u8, Stop>
        ensures gives { Gives result self.new (one session_of self.old) }
    {
        match self.left {
            [token, rest @ ..] => match token.kind {
                TokenKind::Int => match number_at(self.text, token) {
                    Some(number) => {
                        if 1 <= number && number <= 8 {
                            self.left = rest;
                            return Ok(number as u8);
                        }
                        Err(Stop::Here)
                    }
                    None => Err(Stop::Here),
                },
                _ => Err(Stop::Here),
            },
            [] => Err(Stop::Here),
        }
    }

    /// Takes the text of DO_TM_TASK.
    #[tactic(auto, unfolding(crate::specs::Readings::one))]
    pub fn task(&mut self, alloc: Global) -> Result<Function, Stop>
        ensures { Gives result self.new (one task_of self.old) }
    {
        match self.left {
            [token, rest @ ..] => match token.kind {
                TokenKind::Text => {
                    let bytes = text_bytes(alloc, self.text, token)?;
                    match task_named(bytes.as_slice()) {
                        Some(task) => {
                            self.left = rest;
                            Ok(task)
                        }
                        None => Err(Stop::Here),
                    }
                }
                _ => Err(Stop::Here),
            },
            [] => Err(Stop::Here),
        }
    }

    /// Takes a text that is the name of a table, in lower case.
    #[tactic(auto, unfolding(crate::specs::Readings::one))]
    pub fn table(&mut self, alloc: Global) -> Result<Name, Stop>
        ensures { Gives result self.new (one table_of self.old) }
    {
        match self.left {
            [token, rest @ ..] => match token.kind {
                TokenKind::Text => {
                    let bytes = text_bytes(alloc, self.text, token)?;
                    match table_named(alloc, bytes.as_slice())? {
                        Some(name) => {
                            self.left = rest;
                            Ok(name)
                        }
                        None => Err(Stop::Here),
                    }
                }
                _ => Err(Stop::Here),
            },
            [] => Err(Stop::Here),
        }
    }

    /// Takes a sign that compares.
    #[tactic(auto, unfolding(crate::specs::Readings::one))]
    pub fn cmp(&mut self) -> Result<Cmp, Stop>
        ensures { Gives result self.new (one cmp_of self.old) }
    {
        match self.left {
            [token, rest @ ..] => match token.kind {
                TokenKind::Sign(mark) => match compares(mark) {
                    Some(cmp) => {
                        self.left = rest;
                        Ok(cmp)
                    }
                    None => Err(Stop::Here),
                },
                _ => Err(Stop::Here),
            },
            [] => Err(Stop::Here),
        }
    }
}

/// How a sign compares.
fn compares(sign: Sign) -> Option<Cmp>
    ensures { result ≡ compares sign }
{
    match sign {
        Sign::Equal => Some(Cmp::Eq),
        Sign::NotEqual => Some(Cmp::Ne),
        Sign::Less => Some(Cmp::Lt),
        Sign::AtMost => Some(Cmp::Le),
        Sign::Greater => Some(Cmp::Gt),
        Sign::AtLeast => Some(Cmp::Ge),
        Sign::Open
        | Sign::Close
        | Sign::Comma
        | Sign::Dot
        | Sign::Star
        | Sign::Plus
        | Sign::Minus => None,
    }
}
