//! Laws of sound states.

ghost use Rattle.std.specs.Prelude.{ℕ, ◌≡◌, ◌≤◌, [], Bool, false, filter, List, None, Some};
ghost use Rattle.std.specs.List.{All};
ghost use Rattle.col_value.specs.declared.column.Column.{Column};
ghost use Rattle.col_value.specs.declared.value.Value.{Value};
ghost use Rattle.col_value.specs.Order.{IsRow};
ghost use Rattle.sql_tree.specs.declared.statement.AddColumn.{AddColumn};
ghost use Rattle.sql_tree.specs.declared.statement.Insert.{Insert};
ghost use Rattle.sql_tree.specs.declared.statement.NewProjection.{NewProjection};
ghost use Rattle.sql_binding.specs.Inserts.{inserted_rows};
ghost use Rattle.db_model.specs.Database.{Database, Shape, Table, table_named};
ghost use Rattle.db_model.specs.State.{State};
ghost use Rattle.db_model.specs.Loading.{Load, Loads};
ghost use Rattle.db_model.specs.Epochs.{last_good};
ghost use Rattle.db_model.specs.Events.{changes_committed, changes_dropped, column_added, is_not_named, mark_raised, projection_created, projection_dropped, refresh_started, rows_pending, table_created, table_dropped};
ghost use Rattle.db_model.specs.Mover.{refreshed, RaisesAll, RefreshesAll, Rises};
ghost use Rattle.db_model.specs.Numbers.{IsDrawn};
ghost use Rattle.db_model.specs.Refusals.{column_added_refusal, locked, projection_created_refusal, projection_dropped_refusal, table_created_refusal, table_dropped_refusal};
ghost use Rattle.db_model.specs.Sound.{IsSound, IsSoundDatabase, RowFits};
ghost use Rattle.state_laws.specs.Rows.{AreStored};

/// The numbers that an event draws leave a state sound.
pub fn an_event_may_draw()
    ensures { (old made new : State) → IsDrawn old made new → IsSound made → IsSound new }
{}

/// A state stays sound in a CREATE TABLE that isn't refused.
pub fn a_new_table_is_sound()
    ensures { (state : State) (name : List ℕ) (columns : List Column) → table_created_refusal state name columns ≡ None → IsSound state → IsSound (table_created name columns state) }
{}

/// A state stays sound in a DROP TABLE that isn't refused.
pub fn tables_may_be_dropped()
    ensures { (state : State) (name : List ℕ) → table_dropped_refusal state name ≡ None → IsSound state → IsSound (table_dropped name state) }
{}

/// A state stays sound in a CREATE PROJECTION that isn't refused.
pub fn a_new_projection_is_sound()
    ensures { (state : State) (p : NewProjection) → projection_created_refusal state p ≡ None → IsSound state → IsSound (projection_created p state) }
{}

/// A state stays sound in a DROP PROJECTION that isn't refused.
pub fn projections_may_be_dropped()
    ensures { (state : State) (name : List ℕ) → projection_dropped_refusal state name ≡ None → IsSound state → IsSound (projection_dropped name state) }
{}

/// The rows of an INSERT that isn't refused for what they are fit the columns of its table.
pub fn inserted_rows_fit()
    ensures { (columns : List Column) (i : Insert) → AreStored columns i → All IsRow (inserted_rows i) → All (RowFits columns) (inserted_rows i) }
{}

/// The rows of a load file fit the columns of its table.
pub fn loaded_rows_fit()
    ensures fit { (columns : List Column) (bytes : List ℕ) (rows : List (List Value)) → Loads columns bytes (Load.Rows rows) → All (RowFits columns) rows }
    ensures rows { (columns : List Column) (bytes : List ℕ) (rows : List (List Value)) → Loads columns bytes (Load.Rows rows) → All IsRow rows }
{}

/// A state stays sound where rows that fit become pending in a table that no other session holds in mode X.
pub fn pending_rows_are_sound()
    ensures { (state : State) (name : List ℕ) (rows : List (List Value)) (t : Table) → table_named name state.database.tables ≡ Some t → All (RowFits t.columns) rows → locked state name false ≡ None → IsSound state
        → IsSound (rows_pending name rows state) }
{}

/// A state stays sound in a COMMIT.
pub fn commits_of_a_session_are_sound()
    ensures { (state : State) → IsSound state → IsSound (changes_committed state) }
{}

/// A state stays sound in a ROLLBACK.
pub fn changes_may_be_dropped()
    ensures { (state : State) → IsSound state → IsSound (changes_dropped state) }
{}

/// A state stays sound where its ancient history mark becomes an epoch that is no later than the last good one.
pub fn marks_up_to_the_last_good_epoch_are_sound()
    ensures { (state : State) (mark : ℕ) → mark ≤ last_good state.database → IsSound state → IsSound (mark_raised mark state) }
{}

/// A state stays sound where another session is the current one.
pub fn sessions_may_change()
    ensures { (state : State) (n : ℕ) → 1 ≤ n → n ≤ 8 → IsSound state → IsSound (record state { current = n }) }
{}

/// A state stays sound in an ALTER TABLE that isn't refused.
pub fn a_new_column_is_sound()
    ensures { (state : State) (a : AddColumn) → column_added_refusal state a ≡ None → IsSound state → IsSound (column_added a state) }
{}

/// A state stays sound where the epoch up to which an up-to-date projection is on disk rises, and in several such jobs.
pub fn risen_states_are_sound()
    ensures one { (state : State) (d : Database) → Rises state.database d → IsSound state → IsSound (record state { database = d }) }
    ensures all { (meant : Shape → Bool) (stopped : Bool) (old new : State) → RaisesAll meant old stopped new → IsSound old → IsSound new }
{}

/// A state stays sound where a projection comes to be up to date, in several such jobs, and where the mover is asked for all that aren't.
pub fn refreshed_states_are_sound()
    ensures one { (state : State) (name : List ℕ) → IsSound state → IsSound (refreshed name state) }
    ensures all { (table : List ℕ) (stopped : Bool) (old new : State) → RefreshesAll table old stopped new → IsSound old → IsSound new }
    ensures started { (state : State) → IsSound state → IsSound (refresh_started state) }
{}
