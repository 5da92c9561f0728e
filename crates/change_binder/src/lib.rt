//! The bound trees of DELETE and UPDATE, the rows of an INSERT, the default of an added column, and the shape of a new projection, or why
//! they are refused.
//!
//! Each call gives or refuses exactly what `sql_binding` defines: `delete_refusal`, `bound_delete`, `update_refusal` and `bound_update`
//! of its `specs/Changes.antt`, `whole_refusal` and `inserted_rows` of `specs/Inserts.antt`, `addition_refusal`, `default_refusal` and
//! `default_value` of `specs/Additions.antt`, `projection_refusal` and `bound_projection` of `specs/Projections.antt`.
#![tactic(auto)]

mod additions;
mod deletes;
mod flaw;
mod inserts;
mod literals;
mod naming_query;
mod narrow;
mod projections;
mod repeated;
mod settings;
mod shapes;
mod updates;
mod whole_table;

pub use additions::{bind_default, check_addition};
pub use deletes::bind_delete;
pub use inserts::bind_insert;
pub use projections::{
    ProjectionShape, bind_projection, check_projection_form, check_projection_names,
};
pub use updates::{BoundUpdate, bind_update};
