//! Refusals that name what the statement names.

ghost use Rattle.std.specs.Prelude.{◌≡◌, Some};
ghost use Rattle.name_binder.specs.Refusing.{RefusesBy};
ghost use Rattle.sql_tree.specs.declared.refusal.Refusal.{Refusal};

use col_value::Name;
use name_binder::BindFault;
use sql_tree::Refusal;
use std::alloc::{AllocError, Global};

/// The refusal of a projection that isn't there.
pub fn unknown_projection(alloc: Global, name: &Name) -> BindFault
    ensures { RefusesBy (Some (Refusal.UnknownProjection name.now)) result }
{
    match name.copy(alloc) {
        Ok(name) => BindFault::Refused(Refusal::UnknownProjection(name)),
        Err(AllocError) => BindFault::Memory,
    }
}

/// The refusal of a projection without which its table has no up-to-date super projection.
pub fn last_super(alloc: Global, name: &Name) -> BindFault
    ensures { RefusesBy (Some (Refusal.LastSuper name.now)) result }
{
    match name.copy(alloc) {
        Ok(name) => BindFault::Refused(Refusal::LastSuper(name)),
        Err(AllocError) => BindFault::Memory,
    }
}
