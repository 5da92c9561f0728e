//! A law of bound queries, as the contract of a call that does nothing.

ghost use Rattle.std.specs.Prelude.{◌≡◌};
ghost use Rattle.sql_tree.specs.declared.query.At.{At};
ghost use Rattle.sql_tree.specs.declared.query.Query.{Query};
ghost use Rattle.db_model.specs.State.{own_changes, State};
ghost use Rattle.db_model.specs.Views.{bound_in, inputs};
ghost use Rattle.store_query.specs.Reading.{source_rows, AreOver};

/// The bound tree of a query over a state's tables has FROM items over these tables, and what it reads of them for the current session
/// is what the query reads in that state.
pub fn bound_queries_read_their_tables()
    ensures over { (state : State) (q : Query) → AreOver 0 state.database.tables (bound_in state q).sources }
    ensures rows { (at : At) (state : State) (q : Query) → source_rows at state.database (own_changes state) (bound_in state q) ≡ inputs at state q }
{}
