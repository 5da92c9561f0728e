//! Laws of the two files.

ghost use Rattle.std.specs.Prelude.{◌≡◌, ℕ, List, ◌<◌, ◌^◌, length, Some};
ghost use Rattle.std.specs.List.{All};
ghost use Rattle.common_laws.specs.Maps.{Contents};
ghost use Rattle.col_value.specs.declared.kinds.Encoding.{Encoding};
ghost use Rattle.col_value.specs.declared.value.Value.{Value};
ghost use Rattle.value_bytes.specs.Spelling.{IsSpelled};
ghost use Rattle.block_choice.specs.Choice.{TakesAll};
ghost use Rattle.col_file.specs.Column.{body_spelling, IsColumn};
ghost use Rattle.col_file.specs.Held.{HoldsColumn};

/// The two files of a column hold one list of values.
pub fn one_column()
    ensures { (encoding : Encoding) (body index rows : ℕ) (m : Contents) (vs ws : List Value) → HoldsColumn encoding body index rows m vs → HoldsColumn encoding body index rows m ws → vs ≡ ws }
{}

/// What `write_column` made is read again: its two files hold the written values.
pub fn a_written_column_is_held()
    ensures { (encoding : Encoding) (body index : ℕ) (m : Contents) (vs : List Value) → 0 < length vs → length vs < 2 ^ 64 → All IsSpelled vs → TakesAll encoding vs → length (body_spelling encoding vs) < 2 ^ 64 → IsColumn encoding body index vs (Some m) → HoldsColumn encoding body index (length vs) m vs }
{}
