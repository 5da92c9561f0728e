//! What the names of a statement stand for, what its bound tree is, and why it is refused.
//!
//! The definitions are functions of `specs/`, and there is no code. A statement is bound over the columns of the tables that it
//! names: `query_refusal` and `bound_query` of `specs/Queries.antt`, the like for DELETE and UPDATE in `specs/Changes.antt`, for
//! CREATE PROJECTION in `specs/Projections.antt`, and `insert_refusal`, `stored_refusal` and `inserted_rows` in
//! `specs/Inserts.antt`. Each reason is looked for in the whole statement before the next one, and names the first place of the text.
#![tactic(auto)]
