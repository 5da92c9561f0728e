//! The usual script: what a reader expects of `;`, of comments and of quotes, as laws above the definitions of `sql_words`.
//!
//! The laws are the contracts here, and there is no code. They speak of scripts that are in no text and in no comment at their end
//! (`IsClosed` of `specs/Scripts.antt`; every other one lacks a quote or a line feed), of texts with a quote that is closed nowhere
//! (`specs/Unfinished.antt`), and of bytes as they are written between quotes (`quoted` of `specs/Quoted.antt`).
#![tactic(auto)]

mod laws;

pub use laws::{
    a_last_comment_is_none, a_semicolon_ends_one_statement, an_unfinished_text_takes_the_rest,
    blanks_are_none, every_script_closes, texts_read_back,
};
