//! The words of SQL: what a script's statement texts are, and what a text's tokens are.
//!
//! `split` cuts a script into the spans of its statement texts, and `words` a text into its tokens, each with its place.
//! Both are exact: their results are `statement_spans` (specs/Texts.antt) and `tokens_of` (specs/Words.antt) of the bytes.
//! What a token says is `symbol_of` (specs/Symbols.antt); `name_bytes`, `number_at` and `text_bytes` give it.
//! Above these stands a law: a script that is put together of well-formed statement texts, with `;` between them, splits
//! back into exactly these (specs/WellFormed.antt).
#![tactic(auto)]

mod bytes;
mod laws;
mod lexer;
mod number;
mod piece;
mod reserved;
mod script;
mod spelled;
mod token;

pub use laws::joined_texts_split_back;
pub use lexer::words;
pub use piece::Piece;
pub use reserved::RESERVED;
pub use script::split;
pub use spelled::{name_bytes, number_at, text_bytes};
pub use token::{Back, Key, Sign, Token, TokenKind};
