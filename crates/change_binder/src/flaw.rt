ghost use Rattle.std.specs.Prelude.{◌≡◌};
ghost use Rattle.change_binder.specs.Flaws.{has_flaw, naming_of};
ghost use Rattle.sql_binding.specs.Inserts.{is_of_column, is_stored_number, is_stored_day, width_of};

use col_value::{ColType, Column, LAST_DAY, Wide};
use name_binder::Naming;

/// Why a literal of the right kind can't be stored in a column.
#[derive(Clone, Copy)]
pub(crate) enum Flaw {
    Range,
    Length,
    Null,
}

impl Flaw {
    /// Whether the literal has the flaw in this column.
    pub(crate) fn is_in(self, column: &Column, literal: &Wide) -> bool
        ensures { result ≡ has_flaw self (column.now, literal.now) }
    {
        match (self, literal) {
            (Flaw::Range, Wide::Int(n)) => !is_stored_number(*n),
            (Flaw::Range, Wide::Date(d)) => !is_stored_day(*d),
            (Flaw::Length, Wide::Text(t)) => t.as_bytes().len() > width_of(column.kind),
            (Flaw::Null, Wide::Null) => column.not_null,
            _ => false,
        }
    }

    /// How it is refused.
    pub(crate) fn naming(self) -> Naming
        ensures { result ≡ naming_of self }
    {
        match self {
            Flaw::Range => Naming::IntegerOutOfRange,
            Flaw::Length => Naming::TextTooLong,
            Flaw::Null => Naming::NullRefused,
        }
    }
}

/// Whether a column can hold the number.
fn is_stored_number(n: i128) -> bool
    ensures { result ≡ is_stored_number n }
{
    -9_223_372_036_854_775_808 < n && n < 9_223_372_036_854_775_808
}

/// Whether a column can hold the day.
fn is_stored_day(day: u32) -> bool
    ensures { result ≡ is_stored_day day }
{
    1 <= day && day <= LAST_DAY
}

/// How many octets a column of this kind takes.
fn width_of(kind: ColType) -> usize
    ensures { result ≡ width_of kind }
{
    match kind {
        ColType::Varchar(n) => n.min(65_000) as usize,
        ColType::Integer => 0,
        ColType::Boolean => 0,
        ColType::Date => 0,
    }
}

/// Whether the literal is of the column's kind.
pub(crate) fn is_of_column(column: &Column, literal: &Wide) -> bool
    ensures { result ≡ is_of_column (column.now, literal.now) }
{
    match (literal, column.kind) {
        (Wide::Null, _) => true,
        (Wide::Bool(_), ColType::Boolean) => true,
        (Wide::Int(_), ColType::Integer) => true,
        (Wide::Date(_), ColType::Date) => true,
        (Wide::Text(_), ColType::Varchar(_)) => true,
        _ => false,
    }
}
