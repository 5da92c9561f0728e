//! The least table in which two catalogues differ, by its name or its columns.
//!
//! `schema_difference` goes over both lists of tables at once, which ascend by their names; what it finds is the least name at which
//! `columns_in` of `specs/Schemas.antt` answers differently.
#![tactic(auto)]

mod tables;

pub use tables::schema_difference;
