//! What the columns of a query are called, by its text alone and the tables that it names.

ghost use Rattle.std.specs.Prelude.{◌≤◌, length};

use crate::bytes::span_of;
use crate::cells::print_shown;
use catalog_types::Table;
use common_laws::Blob;
use sql_words::{Key, Sign, Token, TokenKind};
use std::alloc::{AllocError, Global};

/// The columns of a query: what they are called, and as what they stand in its text; and where its items and its FROM begin there.
#[derive(Debug, Drop)]
pub struct Heading {
    pub names: Vec<Blob>,
    pub items: Vec<Blob>,
    pub first: usize,
    pub from: usize,
    /// Whether `*` stands in their place.
    pub star: bool,
}

/// Whether a token is this keyword.
fn is_key(token: &Token, key: Key) -> bool {
    match token.kind {
        TokenKind::Word(Some(found)) => found == key,
        _ => false,
    }
}

/// Whether a token is this sign.
fn is_sign(token: &Token, sign: Sign) -> bool {
    match token.kind {
        TokenKind::Sign(found) => found == sign,
        _ => false,
    }
}

/// Whether a token is a name.
fn is_name(token: &Token) -> bool {
    match token.kind {
        TokenKind::Word(None) => true,
        _ => false,
    }
}

/// In how many parentheses what stands behind a token is.
fn depth_behind(depth: u64, token: &Token) -> u64 {
    if is_sign(token, Sign::Open) {
        depth.saturating_add(1)
    } else if is_sign(token, Sign::Close) {
        depth.saturating_sub(1)
    } else {
        depth
    }
}

/// What stands behind SELECT in a statement that reads, now or at an epoch.
fn behind_select(tokens: &[Token]) -> Option<&[Token]> {
    match tokens {
        [select, rest @ ..] if is_key(select, Key::Select) => Some(rest),
        [at, _, _, select, rest @ ..] if is_key(at, Key::At) && is_key(select, Key::Select) => {
            Some(rest)
        }
        _ => None,
    }
}

/// How many tokens stand before the first in no parentheses that is this keyword, or all.
fn size_before_key(tokens: &[Token], key: Key) -> usize
    ensures { result ≤ length tokens.now }
{
    let mut depth = 0;
    for (i, token) in tokens.iter().enumerate() {
        if depth == 0 && is_key(token, key) {
            return i;
        }
        depth = depth_behind(depth, token);
    }
    tokens.len()
}

/// How many tokens stand before the first comma in no parentheses, or all.
fn size_before_comma(tokens: &[Token]) -> usize
    ensures { result ≤ length tokens.now }
{
    let mut depth = 0;
    for (i, token) in tokens.iter().enumerate() {
        if depth == 0 && is_sign(token, Sign::Comma) {
            return i;
        }
        depth = depth_behind(depth, token);
    }
    tokens.len()
}

/// The bytes of a token.
fn token_text<'a>(text: &'a [u8], token: &Token) -> &'a [u8] {
    span_of(text, token.start as usize, token.end as usize)
}

/// The bytes from the first token to the last.
fn tokens_text<'a>(text: &'a [u8], tokens: &[Token]) -> &'a [u8] {
    match (tokens.first(), tokens.last()) {
        (Some(first), Some(last)) => span_of(text, first.start as usize, last.end as usize),
        _ => &[],
    }
}

/// What an item is called: its alias, the name of its column, or as it stands.
fn name_of<'a>(text: &'a [u8], item: &[Token]) -> &'a [u8] {
    match item {
        [.., before, name] if is_key(before, Key::As) => token_text(text, name),
        [_, dot, name] if is_sign(dot, Sign::Dot) => token_text(text, name),
        _ => tokens_text(text, item),
    }
}

/// An item without its alias.
fn without_alias(item: &[Token]) -> &[Token] {
    match item {
        [front @ .., before, _] if is_key(before, Key::As) => front,
        _ => item,
    }
}

/// Bytes in memory of their own.
fn copied(alloc: Global, bytes: &[u8]) -> Result<Blob, AllocError> {
    Ok(Blob::new(Vec::from_slice(alloc, bytes)?))
}

/// Bytes as they are shown.
fn shown(alloc: Global, bytes: &[u8]) -> Result<Blob, AllocError> {
    let mut out = Vec::new(alloc);
    for b in bytes {
        print_shown(*b, &mut out)?;
    }
    Ok(Blob::new(out))
}

impl Heading {
    /// One column more.
    fn add(&mut self, alloc: Global, name: &[u8], item: &[u8]) -> Result<(), AllocError> {
        self.names.push(shown(alloc, name)?)?;
        self.items.push(copied(alloc, item)?)?;
        Ok(())
    }

    /// The items of a list.
    fn add_items(&mut self, alloc: Global, text: &[u8], items: &[Token]) -> Result<(), AllocError> {
        let mut rest = items;
        while !rest.is_empty() {
            let (item, more) = rest.split_at(size_before_comma(rest));
            self.add(
                alloc,
                name_of(text, item),
                tokens_text(text, without_alias(item)),
            )?;
            rest = match more {
                [_, later @ ..] => later,
                [] => return Ok(()),
            };
        }
        Ok(())
    }

    /// The columns of a table that stands behind FROM under a name.
    fn add_columns(
        &mut self,
        alloc: Global,
        table: &Table,
        source: &[u8],
    ) -> Result<(), AllocError> {
        for column in table.columns.as_slice() {
            let mut item = Vec::from_slice(alloc, source)?;
            item.extend_from_slice(b".")?;
            item.extend_from_slice(column.name.as_slice())?;
            self.add(alloc, column.name.as_slice(), item.as_slice())?;
        }
        Ok(())
    }

    /// The columns of the table of a name.
    fn add_table(
        &mut self,
        alloc: Global,
        tables: &[Table],
        name: &[u8],
        source: &[u8],
    ) -> Result<(), AllocError> {
        for table in tables {
            if table.name.as_slice().eq_ignore_ascii_case(name) {
                return self.add_columns(alloc, table, source);
            }
        }
        Ok(())
    }

    /// The columns of all tables behind FROM.
    fn add_sources(
        &mut self,
        alloc: Global,
        text: &[u8],
        sources: &[Token],
        tables: &[Table],
    ) -> Result<(), AllocError> {
        let mut depth = 0;
        let mut awaited = true;
        let mut rest = sources;
        while let [token, later @ ..] = rest {
            if ends_sources(token) && depth == 0 {
                return Ok(());
            }
            if awaited && is_name(token) {
                let name = token_text(text, token);
                self.add_table(alloc, tables, name, source_of(text, name, later))?;
            }
            awaited = depth == 0 && (is_sign(token, Sign::Comma) || is_key(token, Key::Join));
            depth = depth_behind(depth, token);
            rest = later;
        }
        Ok(())
    }
}

/// What a table is called behind FROM, by what stands behind its name.
fn source_of<'a>(text: &'a [u8], name: &'a [u8], later: &[Token]) -> &'a [u8] {
    match later {
        [before, alias, ..] if is_key(before, Key::As) => token_text(text, alias),
        _ => name,
    }
}

/// Whether what stands behind FROM ends before a token.
fn ends_sources(token: &Token) -> bool {
    is_key(token, Key::Where)
        || is_key(token, Key::Group)
        || is_key(token, Key::Having)
        || is_key(token, Key::Order)
        || is_key(token, Key::Limit)
}

/// Where a token begins.
fn start_of(token: Option<&Token>) -> usize {
    match token {
        Some(token) => token.start as usize,
        None => 0,
    }
}

/// The columns of a query, by its tokens, where the statement is one. `*` stands for those of its tables.
pub fn heading_of(
    alloc: Global,
    text: &[u8],
    tokens: &[Token],
    tables: &[Table],
) -> Result<Option<Heading>, AllocError> {
    let Some(rest) = behind_select(tokens) else {
        return Ok(None);
    };
    let (items, more) = rest.split_at(size_before_key(rest, Key::From));
    let [from, sources @ ..] = more else {
        return Ok(None);
    };
    let mut heading = Heading {
        names: Vec::new(alloc),
        items: Vec::new(alloc),
        first: start_of(items.first()),
        from: from.start as usize,
        star: is_star(items),
    };
    if heading.star {
        heading.add_sources(alloc, text, sources, tables)?;
    } else {
        heading.add_items(alloc, text, items)?;
    }
    Ok(Some(heading))
}

/// Whether the items are `*`.
fn is_star(items: &[Token]) -> bool {
    match items {
        [only] => is_sign(only, Sign::Star),
        _ => false,
    }
}
