//! Why a value can't be stored in a column.

ghost use Rattle.std.specs.Prelude.{◌≡◌};
ghost use Rattle.expr_value.specs.Worths.{wide_of};
ghost use Rattle.row_setting.specs.Flaws.{has_flaw, naming_of};
ghost use Rattle.sql_binding.specs.Inserts.{is_stored_day, is_stored_number, width_of};

use col_value::{ColType, Column, LAST_DAY};
use expr_value::Worth;
use name_binder::Naming;

/// Why a value of its column's kind can't be stored there.
#[derive(Clone, Copy)]
pub(crate) enum Flaw {
    Range,
    Length,
    Null,
}

impl Flaw {
    /// Whether the value has the flaw in this column.
    pub(crate) fn is_in(self, column: &Column, value: &Worth<'_>) -> bool
        ensures { result ≡ has_flaw self (column.now, wide_of value.now) }
    {
        match (self, value) {
            (Flaw::Range, Worth::Int(n)) => !is_stored_number(*n),
            (Flaw::Range, Worth::Date(d)) => !is_stored_day(*d),
            (Flaw::Length, Worth::Text(t)) => t.as_bytes().len() > width_of(column.kind),
            (Flaw::Null, Worth::Null) => column.not_null,
            _ => false,
        }
    }

    /// How it is refused.
    pub(crate) fn naming(self) -> Naming
        ensures { result ≡ naming_of self }
    {
        match self {
            Flaw::Range => Naming::IntegerOutOfRange,
            Flaw::Length => Naming::TextTooLong,
            Flaw::Null => Naming::NullRefused,
        }
    }
}

/// Whether a column can hold the number.
fn is_stored_number(n: i128) -> bool
    ensures { result ≡ is_stored_number n }
{
    -9_223_372_036_854_775_808 < n && n < 9_223_372_036_854_775_808
}

/// Whether a column can hold the day.
fn is_stored_day(day: u32) -> bool
    ensures { result ≡ is_stored_day day }
{
    1 <= day && day <= LAST_DAY
}

/// How many octets a column of this kind takes.
fn width_of(kind: ColType) -> usize
    ensures { result ≡ width_of kind }
{
    match kind {
        ColType::Varchar(n) => n.min(65_000) as usize,
        ColType::Integer => 0,
        ColType::Boolean => 0,
        ColType::Date => 0,
    }
}
