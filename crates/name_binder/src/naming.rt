ghost use Rattle.std.specs.Prelude.{◌≡◌, Some};
ghost use Rattle.name_binder.specs.Refusing.{RefusesBy, refusal_named};

use crate::BindFault;
use col_value::Name;
use sql_tree::Refusal;
use std::alloc::{AllocError, Global};

/// The refusals that name what the statement names.
#[derive(Clone, Copy)]
pub enum Naming {
    UnknownTable,
    UnknownColumn,
    Ambiguous,
    Exists,
    IntegerOutOfRange,
    TextTooLong,
    NullRefused,
    BadProjection,
    BadEncoding,
}

impl Naming {
    /// The refusal, with a copy of the name.
    pub fn refuse(self, alloc: Global, name: &[u8]) -> BindFault
        ensures { RefusesBy (Some (refusal_named self name.now)) result }
    {
        match Vec::from_slice(alloc, name) {
            Ok(bytes) => BindFault::Refused(self.refusal(Name::new(bytes))),
            Err(AllocError) => BindFault::Memory,
        }
    }

    /// The refusal with this name.
    fn refusal(self, name: Name) -> Refusal
        ensures { result ≡ refusal_named self name }
    {
        match self {
            Naming::UnknownTable => Refusal::UnknownTable(name),
            Naming::UnknownColumn => Refusal::UnknownColumn(name),
            Naming::Ambiguous => Refusal::Ambiguous(name),
            Naming::Exists => Refusal::Exists(name),
            Naming::IntegerOutOfRange => Refusal::IntegerOutOfRange(name),
            Naming::TextTooLong => Refusal::TextTooLong(name),
            Naming::NullRefused => Refusal::NullRefused(name),
            Naming::BadProjection => Refusal::BadProjection(name),
            Naming::BadEncoding => Refusal::BadEncoding(name),
        }
    }
}
