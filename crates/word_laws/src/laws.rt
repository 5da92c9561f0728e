//! Laws of scripts and of texts between quotes.
#![tactic(auto)]

ghost use Rattle.word_laws.specs.Scripts.{TextsWithTokensStay, EndsCut, LastEndIsFree, BlanksBetweenAreNone, BlanksBeforeAreNone, BlanksBehindAreNone, LastCommentIsNone, EveryScriptCloses};
ghost use Rattle.word_laws.specs.Unfinished.{UnfinishedIsOne, UnfinishedIsLast, UnfinishedIsBad, UnfinishedSaysNothing};
ghost use Rattle.word_laws.specs.Quoted.{QuotedReadsBack, QuotedIsOneToken, QuotedSaysIt, OtherBytesAreBad};

/// Every script is closed, in no text and in no comment at its end, or is so with one quote or one line feed behind it: what these laws say of
/// closed scripts is said of all but those that lack one of the two.
pub fn every_script_closes()
    ensures { EveryScriptCloses }
{}

/// A script that is put together of texts, with `;` between them, each of which is in no text between quotes and in no comment at its end, has
/// as its statement texts those of them that have a token.
///
/// A `;` behind a script that is in no text and in no comment at its end does one thing: the statement texts of what stands behind it come
/// after those of the script. So a `;` behind the last statement changes nothing.
pub fn a_semicolon_ends_one_statement()
    ensures stay { TextsWithTokensStay }
    ensures cuts { EndsCut }
    ensures last { LastEndIsFree }
{}

/// Spaces and comments that end with their line are no statement, between two `;`, before the first one and behind the last one.
pub fn blanks_are_none()
    ensures between { BlanksBetweenAreNone }
    ensures before { BlanksBeforeAreNone }
    ensures behind { BlanksBehindAreNone }
{}

/// A comment that no line feed ends is no statement behind the last `;`, whatever quotes and `;` it has.
pub fn a_last_comment_is_none()
    ensures { LastCommentIsNone }
{}

/// A quote that is closed nowhere takes the whole rest of the script: from its statement on there is one statement text, whatever `;` stands
/// in it. Its last token is Bad and goes on to its end, so that it spells no statement.
pub fn an_unfinished_text_takes_the_rest()
    ensures one { UnfinishedIsOne }
    ensures last { UnfinishedIsLast }
    ensures bad { UnfinishedIsBad }
    ensures unknown { UnfinishedSaysNothing }
{}

/// Bytes that are written between quotes, each of their quotes twice, read back as they were. Where they are UTF-8, the text is
/// one token, which says them, and else one Bad token.
pub fn texts_read_back()
    ensures bytes { QuotedReadsBack }
    ensures token { QuotedIsOneToken }
    ensures says { QuotedSaysIt }
    ensures other { OtherBytesAreBad }
{}
