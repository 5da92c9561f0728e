ghost use Rattle.std.specs.Prelude.{ℕ, ◌≡◌, ◌≤◌, List, Bool, Option};
ghost use Rattle.sql_tree.specs.declared.refusal.Refusal.{Refusal};
ghost use Rattle.sql_tree.specs.declared.statement.Statement.{Statement};
ghost use Rattle.db_model.specs.Database.{Database};
ghost use Rattle.db_model.specs.State.{State, Changes, opened_with, committed};
ghost use Rattle.db_model.specs.Sound.{IsSound, IsSoundDatabase};
ghost use Rattle.db_model.specs.Epochs.{cut, last_good};
ghost use Rattle.db_model.specs.Alike.{IsAlike};
ghost use Rattle.db_model.specs.Loading.{Files};
ghost use Rattle.db_model.specs.Step.{Step};
ghost use Rattle.db_model.specs.Run.{Run, Setting};

/// The last good epoch never falls: not in a statement, whether it is refused or not, nor in a whole script with its mover and
/// its end.
pub fn last_good_never_falls()
    ensures step { (serves : Statement → Bool) (old : State) (files : Files) (text printed : List ℕ) (why : Option Refusal) (new : State)
        → Step serves old files text printed why new → IsSoundDatabase old.database → last_good old.database ≤ last_good new.database }
    ensures run { (setting : Setting) (start : State) (script printed : List ℕ) (refused : Bool) (new : State)
        → Run setting start script printed refused new → IsSoundDatabase start.database → last_good start.database ≤ last_good new.database }
{}

/// A cut at a closed epoch doesn't see what is committed later; and cuts of alike databases, at an epoch from the ancient history
/// mark on, are alike.
pub fn cuts_at_an_epoch()
    ensures later { (epoch : ℕ) (changes : List Changes) (d : Database) → epoch ≤ d.last → cut epoch (committed changes d) ≡ cut epoch d }
    ensures alike { (epoch : ℕ) (d e : Database) → d.ahm ≤ epoch → IsAlike d e → IsAlike (cut epoch d) (cut epoch e) }
{}

/// To be told apart by no statement is an equivalence of databases.
pub fn alike_from_the_mark()
    ensures itself { (d : Database) → IsAlike d d }
    ensures other_way { (d e : Database) → IsAlike d e → IsAlike e d }
    ensures chained { (d e f : Database) → IsAlike d e → IsAlike e f → IsAlike d f }
{}

/// A state over a sound database is sound as long as nothing is pending; and a sound database cut at an epoch from the ancient
/// history mark on is sound.
pub fn openings_are_sound()
    ensures opened { (next parts : ℕ) (d : Database) → IsSoundDatabase d → IsSound (opened_with next parts d) }
    ensures cut { (epoch : ℕ) (d : Database) → d.ahm ≤ epoch → IsSoundDatabase d → IsSoundDatabase (cut epoch d) }
{}
