//! Laws above the definitions.
#![tactic(auto)]

ghost use Rattle.sql_words.specs.WellFormed.{SplitsBack};

/// A script that is put together of well-formed statement texts, with `;` between them, has exactly these statement texts.
/// A text is well-formed where it is put together of spaces, comments that end with their line, texts between quotes, and
/// other bytes but `;`, and is not only spaces and comments.
pub fn joined_texts_split_back()
    ensures { SplitsBack }
{}
