//! Laws of alike changes.

ghost use Rattle.std.specs.Prelude.{ℕ, ◌≡◌, Bool, List};
ghost use Rattle.std.specs.List.{AllZip};
ghost use Rattle.col_value.specs.declared.value.Value.{Value};
ghost use Rattle.db_model.specs.Alike.{AreAlikeChanges};
ghost use Rattle.db_model.specs.Database.{Database};
ghost use Rattle.db_model.specs.Events.{rows_pending};
ghost use Rattle.db_model.specs.Locks.{holder};
ghost use Rattle.db_model.specs.Refusals.{joining_limit, locked};
ghost use Rattle.db_model.specs.Refusing.{commit_refusal};
ghost use Rattle.db_model.specs.Sound.{IsSoundDatabase, IsSoundSession};
ghost use Rattle.db_model.specs.State.{Changes, State, committed};
ghost use Rattle.alike_laws.specs.Reordered.{AreAlikeSessions, IsReordered};

/// Changes that are alike to sound ones are sound.
pub fn alike_changes_are_sound()
    ensures { (d : Database) (changes others : List Changes) → AllZip AreAlikeChanges changes others → IsSoundSession d changes → IsSoundSession d others }
{}

/// Alike changes, committed, make the same database but for the order of rows.
pub fn alike_changes_commit_alike()
    ensures { (d : Database) (changes others : List Changes) → IsSoundDatabase d → IsSoundSession d changes → AllZip AreAlikeChanges changes others → IsReordered (committed changes d) (committed others d) }
{}

/// Where the sessions of two states have alike changes, the same tables are locked and held in both, as many rows may join a table's pending ones, and
/// the same commits are refused.
pub fn alike_sessions_lock_alike()
    ensures lock { (a b : State) (name : List ℕ) (want : Bool) → AreAlikeSessions a.sessions b.sessions → a.current ≡ b.current → locked a name want ≡ locked b name want }
    ensures holder { (a b : State) (name : List ℕ) → AreAlikeSessions a.sessions b.sessions → holder a name ≡ holder b name }
    ensures limit { (a b : State) (name : List ℕ) (more : ℕ) → AreAlikeSessions a.sessions b.sessions → a.current ≡ b.current → joining_limit a name more ≡ joining_limit b name more }
    ensures commit { (a b : State) → AreAlikeSessions a.sessions b.sessions → a.current ≡ b.current → a.database.last ≡ b.database.last → commit_refusal a ≡ commit_refusal b }
    ensures load { (a b : State) (name : List ℕ) (rows : List (List Value)) → AreAlikeSessions a.sessions b.sessions → a.current ≡ b.current → a.database.last ≡ b.database.last → commit_refusal (rows_pending name rows a) ≡ commit_refusal (rows_pending name rows b) }
{}
