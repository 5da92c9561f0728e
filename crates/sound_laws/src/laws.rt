//! Laws of sound databases.

ghost use Rattle.std.specs.Prelude.{ℕ, ◌≡◌, false, List};
ghost use Rattle.col_value.specs.declared.column.Column.{Column};
ghost use Rattle.col_value.specs.declared.value.Value.{Value};
ghost use Rattle.col_value.specs.Order.{IsValue};
ghost use Rattle.db_model.specs.Database.{Database, is_taken, super_name, put_table};
ghost use Rattle.db_model.specs.State.{Changes, change_named, committed};
ghost use Rattle.db_model.specs.Events.{empty_table, widened};
ghost use Rattle.db_model.specs.Sound.{IsSoundDatabase, IsSoundSession, ValueFits};
ghost use Rattle.sound_laws.specs.Moves.{moved_at};

/// A sound database stays sound with a new table whose names aren't taken.
pub fn created_tables_are_sound()
    ensures { (d : Database) (name : List ℕ) (columns : List Column) → is_taken name d.tables ≡ false → is_taken (super_name name) d.tables ≡ false → IsSoundDatabase d
        → IsSoundDatabase (record d { tables = put_table (empty_table name columns d.last) d.tables }) }
{}

/// A sound database stays sound where a session's changes, which fit, are committed.
pub fn commits_are_sound()
    ensures { (d : Database) (changes : List Changes) → IsSoundDatabase d → IsSoundSession d changes → IsSoundDatabase (committed changes d) }
{}

/// A sound database stays sound where the projection at a place of the table at a place was moved out.
pub fn moveouts_are_sound()
    ensures { (d : Database) (i j : ℕ) → IsSoundDatabase d → IsSoundDatabase (moved_at i j d) }
{}

/// A sound database stays sound where a table has one column more, with a value that fits it in each row.
pub fn added_columns_are_sound()
    ensures { (d : Database) (name : List ℕ) (column : Column) (value : Value) → ValueFits column value → IsValue value → IsSoundDatabase d
        → IsSoundDatabase (record d { tables = change_named name (widened column value) d.tables }) }
{}
