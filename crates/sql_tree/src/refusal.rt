ghost use Rattle.std.specs.Prelude.{◌≡◌, ◌++◌, ◌<◌, OnOk, OnErr, take, length};
ghost use Rattle.std.specs.Fmt.{decimal};
ghost use Rattle.sql_tree.specs.Lines.{which_name, refusal_number, refusal_name, refusal_values, refusal_head, refusal_text, number_value, spaced};

use col_value::Name;
use std::alloc::AllocError;
use thiserror::Error;

/// What a limit is a limit of.
#[derive(Clone, Copy, Debug)]
pub enum Which {
    /// tables in the store
    Tables,
    /// columns of a table
    Columns,
    /// projections of a table
    Projections,
    /// tables behind FROM
    From,
    /// bytes of a created name
    Name,
    /// the number of a VARCHAR
    Length,
    /// pending rows of a session on one table
    Rows,
}

/// Why a statement was refused. Each variant has its values in the order in which they are printed.
#[derive(Debug, Drop, Error)]
pub enum Refusal {
    /// The place, from 1, of the first token with which no statement goes on.
    #[error("no statement goes on at token {0}")]
    Syntax(u64),
    #[error("there is no table {}", shown(.0))]
    UnknownTable(Name),
    #[error("there is no projection {}", shown(.0))]
    UnknownProjection(Name),
    #[error("there is no column {}", shown(.0))]
    UnknownColumn(Name),
    #[error("{} is a column of more than one table", shown(.0))]
    Ambiguous(Name),
    #[error("{} exists", shown(.0))]
    Exists(Name),
    /// How many values were given, and how many were wanted.
    #[error("{0} values are given where {1} are wanted")]
    Arity(u64, u64),
    #[error("a value is of another type than is wanted")]
    TypeMismatch,
    #[error("a number is too wide")]
    TooWide,
    #[error("{} can't be such a projection", shown(.0))]
    BadProjection(Name),
    #[error("column {} can't have this encoding", shown(.0))]
    BadEncoding(Name),
    /// The limit that was passed.
    #[error("there are more than {} {}", .1, .0.name())]
    Limit(Which, u64),
    /// The epoch asked for, and the ancient history mark.
    #[error("epoch {0} is before the ancient history mark {1}")]
    EpochTooOld(u128, u64),
    /// The epoch asked for, and the last one.
    #[error("epoch {0} is after the last one, {1}")]
    EpochInFuture(u128, u64),
    /// The mark asked for, the one that stands, and the last good epoch.
    #[error("mark {0} is not from {1} to {2}")]
    BadMark(u128, u64, u64),
    /// The session that holds the table.
    #[error("session {0} holds the table")]
    Locked(u8),
    #[error("{} is the last projection with all columns", shown(.0))]
    LastSuper(Name),
    #[error("the load file is absent")]
    NoFile,
    #[error("the load file is too large")]
    FileTooLarge,
    /// The record and the field, each from 1.
    #[error("field {1} of record {0} is wrong")]
    BadLoadLine(u64, u64),
    #[error("a number is out of range for column {}", shown(.0))]
    IntegerOutOfRange(Name),
    #[error("a text is too long for column {}", shown(.0))]
    TextTooLong(Name),
    #[error("column {} takes no NULL", shown(.0))]
    NullRefused(Name),
    #[error("a sum is out of range")]
    SumOutOfRange,
    #[error("no epoch is left")]
    EpochsSpent,
    #[error("no file number is left")]
    NumbersSpent,
    /// A statement whose form is not served yet.
    #[error("the statement is not served")]
    NotBuilt,
}

// A name as a text; every name of a statement is one.
fn shown(name: &Name) -> &str {
    std::str::from_utf8(name.as_slice()).unwrap_or("?")
}

impl Which {
    /// The word that is printed.
    fn name(self) -> &'static str
        ensures { result.now ≡ which_name self }
    {
        match self {
            Which::Tables => "tables",
            Which::Columns => "columns",
            Which::Projections => "projections",
            Which::From => "from",
            Which::Name => "name",
            Which::Length => "length",
            Which::Rows => "rows",
        }
    }
}

impl Refusal {
    /// The number that stands behind ERROR.
    fn number(&self) -> u8
        ensures { result ≡ refusal_number self.now }
    {
        match self {
            Refusal::Syntax(_) => 1,
            Refusal::UnknownTable(_) => 2,
            Refusal::UnknownProjection(_) => 3,
            Refusal::UnknownColumn(_) => 4,
            Refusal::Ambiguous(_) => 5,
            Refusal::Exists(_) => 6,
            Refusal::Arity(_, _) => 7,
            Refusal::TypeMismatch => 8,
            Refusal::TooWide => 9,
            Refusal::BadProjection(_) => 10,
            Refusal::BadEncoding(_) => 11,
            Refusal::Limit(_, _) => 12,
            Refusal::EpochTooOld(_, _) => 13,
            Refusal::EpochInFuture(_, _) => 14,
            Refusal::BadMark(_, _, _) => 15,
            Refusal::Locked(_) => 16,
            Refusal::LastSuper(_) => 17,
            Refusal::NoFile => 18,
            Refusal::FileTooLarge => 26,
            Refusal::BadLoadLine(_, _) => 19,
            Refusal::IntegerOutOfRange(_) => 20,
            Refusal::TextTooLong(_) => 21,
            Refusal::NullRefused(_) => 22,
            Refusal::SumOutOfRange => 23,
            Refusal::EpochsSpent => 24,
            Refusal::NumbersSpent => 25,
            Refusal::NotBuilt => 27,
        }
    }

    /// The name that stands behind the number.
    fn name(&self) -> &'static str
        ensures { result.now ≡ refusal_name self.now }
    {
        match self {
            Refusal::Syntax(_) => "Syntax",
            Refusal::UnknownTable(_) => "UnknownTable",
            Refusal::UnknownProjection(_) => "UnknownProjection",
            Refusal::UnknownColumn(_) => "UnknownColumn",
            Refusal::Ambiguous(_) => "Ambiguous",
            Refusal::Exists(_) => "Exists",
            Refusal::Arity(_, _) => "Arity",
            Refusal::TypeMismatch => "TypeMismatch",
            Refusal::TooWide => "TooWide",
            Refusal::BadProjection(_) => "BadProjection",
            Refusal::BadEncoding(_) => "BadEncoding",
            Refusal::Limit(_, _) => "Limit",
            Refusal::EpochTooOld(_, _) => "EpochTooOld",
            Refusal::EpochInFuture(_, _) => "EpochInFuture",
            Refusal::BadMark(_, _, _) => "BadMark",
            Refusal::Locked(_) => "Locked",
            Refusal::LastSuper(_) => "LastSuper",
            Refusal::NoFile => "NoFile",
            Refusal::FileTooLarge => "FileTooLarge",
            Refusal::BadLoadLine(_, _) => "BadLoadLine",
            Refusal::IntegerOutOfRange(_) => "IntegerOutOfRange",
            Refusal::TextTooLong(_) => "TextTooLong",
            Refusal::NullRefused(_) => "NullRefused",
            Refusal::SumOutOfRange => "SumOutOfRange",
            Refusal::EpochsSpent => "EpochsSpent",
            Refusal::NumbersSpent => "NumbersSpent",
            Refusal::NotBuilt => "NotBuilt",
        }
    }

    /// Appends the values, each behind a space.
    fn print_values(&self, out: &mut Vec<u8>) -> Result<(), AllocError>
        ensures ok { OnOk result (out.new.items ≡ out.old.items ++ refusal_values self.now) }
        ensures err { OnErr result (take (length out.old.items) out.new.items ≡ out.old.items) }
    {
        match self {
            Refusal::Syntax(place) => print_number(out, u128::from(*place)),
            Refusal::Arity(given, wanted) => print_two(out, u128::from(*given), *wanted),
            Refusal::Limit(which, number) => print_limit(out, *which, *number),
            Refusal::EpochTooOld(epoch, mark) => print_two(out, *epoch, *mark),
            Refusal::EpochInFuture(epoch, last) => print_two(out, *epoch, *last),
            Refusal::BadMark(epoch, mark, last) => print_three(out, *epoch, *mark, *last),
            Refusal::Locked(session) => print_number(out, u128::from(*session)),
            Refusal::BadLoadLine(line, field) => print_two(out, u128::from(*line), *field),
            Refusal::UnknownTable(name)
            | Refusal::UnknownProjection(name)
            | Refusal::UnknownColumn(name)
            | Refusal::Ambiguous(name)
            | Refusal::Exists(name)
            | Refusal::BadProjection(name)
            | Refusal::BadEncoding(name)
            | Refusal::LastSuper(name)
            | Refusal::IntegerOutOfRange(name)
            | Refusal::TextTooLong(name)
            | Refusal::NullRefused(name) => print_word(out, name.as_slice()),
            Refusal::TypeMismatch
            | Refusal::TooWide
            | Refusal::NoFile
            | Refusal::FileTooLarge
            | Refusal::SumOutOfRange
            | Refusal::EpochsSpent
            | Refusal::NumbersSpent
            | Refusal::NotBuilt => Ok(()),
        }
    }

    /// Appends what stands before the values.
    fn print_head(&self, out: &mut Vec<u8>) -> Result<(), AllocError>
        ensures ok { OnOk result (out.new.items ≡ out.old.items ++ refusal_head self.now) }
        ensures err { OnErr result (take (length out.old.items) out.new.items ≡ out.old.items) }
    {
        out.extend_from_slice(b"ERROR")?;
        print_number(out, u128::from(self.number()))?;
        print_word(out, self.name().as_bytes())
    }

    /// Appends the line of the refusal, or a front of it as far as memory goes.
    fn print_line(&self, out: &mut Vec<u8>) -> Result<(), AllocError>
        ensures ok { OnOk result (out.new.items ≡ out.old.items ++ refusal_text self.now) }
        ensures err { OnErr result (take (length out.old.items) out.new.items ≡ out.old.items) }
    {
        self.print_head(out)?;
        self.print_values(out)?;
        out.extend_from_slice(b"\n")
    }

    /// Appends the refusal's line: `ERROR number name values`, with one space between, and LF. Where
    /// memory is wanting `out` is unchanged.
    pub fn print(&self, out: &mut Vec<u8>) -> Result<(), AllocError>
        ensures ok { OnOk result (out.new.items ≡ out.old.items ++ refusal_text self.now) }
        ensures err { OnErr result (out.new.items ≡ out.old.items) }
    {
        let before = out.len();
        let done = self.print_line(out);
        if done.is_err() {
            out.truncate(before);
        }
        done
    }
}

/// Appends a number behind a space.
fn print_number(out: &mut Vec<u8>, n: u128) -> Result<(), AllocError>
    ensures ok { OnOk result (out.new.items ≡ out.old.items ++ number_value n) }
    ensures err { OnErr result (take (length out.old.items) out.new.items ≡ out.old.items) }
{
    out.extend_from_slice(b" ")?;
    print_decimal(out, n)
}

/// Appends a number in decimal, or its first digits as far as memory goes.
fn print_decimal(out: &mut Vec<u8>, n: u128) -> Result<(), AllocError>
    ensures ok { OnOk result (out.new.items ≡ out.old.items ++ decimal n) }
    ensures err { OnErr result (take (length out.old.items) out.new.items ≡ out.old.items) }
{
    if n < 10 {
        return print_digit(out, n);
    }
    print_decimal(out, n / 10)?;
    print_digit(out, n % 10)
}

/// Appends a digit.
#[tactic(auto, using(std::proofs::lemmas::Fmt::decimal_digit))]
fn print_digit(out: &mut Vec<u8>, digit: u128) -> Result<(), AllocError>
    requires { digit < 10 }
    ensures ok { OnOk result (out.new.items ≡ out.old.items ++ decimal digit) }
    ensures err { OnErr result (out.new.items ≡ out.old.items) }
{
    out.extend_from_slice(&[b'0' + digit as u8])
}

/// Appends a word behind a space.
fn print_word(out: &mut Vec<u8>, word: &[u8]) -> Result<(), AllocError>
    ensures ok { OnOk result (out.new.items ≡ out.old.items ++ spaced word.now) }
    ensures err { OnErr result (take (length out.old.items) out.new.items ≡ out.old.items) }
{
    out.extend_from_slice(b" ")?;
    out.extend_from_slice(word)
}

fn print_two(out: &mut Vec<u8>, first: u128, second: u64) -> Result<(), AllocError>
    ensures ok { OnOk result (out.new.items ≡ out.old.items ++ (number_value first ++ number_value second)) }
    ensures err { OnErr result (take (length out.old.items) out.new.items ≡ out.old.items) }
{
    print_number(out, first)?;
    print_number(out, u128::from(second))
}

fn print_three(out: &mut Vec<u8>, first: u128, second: u64, third: u64) -> Result<(), AllocError>
    ensures ok { OnOk result (out.new.items ≡ out.old.items ++ (number_value first ++ (number_value second ++ number_value third))) }
    ensures err { OnErr result (take (length out.old.items) out.new.items ≡ out.old.items) }
{
    print_number(out, first)?;
    print_two(out, u128::from(second), third)
}

fn print_limit(out: &mut Vec<u8>, which: Which, number: u64) -> Result<(), AllocError>
    ensures ok { OnOk result (out.new.items ≡ out.old.items ++ (spaced (which_name which) ++ number_value number)) }
    ensures err { OnErr result (take (length out.old.items) out.new.items ≡ out.old.items) }
{
    print_word(out, which.name().as_bytes())?;
    print_number(out, u128::from(number))
}
