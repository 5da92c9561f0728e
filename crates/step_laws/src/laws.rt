//! Laws of steps, of the mover and of runs.

ghost use Rattle.std.specs.Prelude.{ℕ, Bool, List, Option};
ghost use Rattle.sql_tree.specs.declared.refusal.Refusal.{Refusal};
ghost use Rattle.sql_tree.specs.declared.statement.Statement.{Statement};
ghost use Rattle.db_model.specs.State.{State};
ghost use Rattle.db_model.specs.Loading.{Files};
ghost use Rattle.db_model.specs.Mover.{MovesAll, MoverSteps};
ghost use Rattle.db_model.specs.Run.{Run, Setting};
ghost use Rattle.db_model.specs.Sound.{IsSound};
ghost use Rattle.db_model.specs.Step.{Step};

use state_laws::loaded_rows_fit;

/// A step leaves a sound state sound: whatever forms are served, whatever is printed or refused.
pub fn steps_keep_states_sound()
    ensures { (serves : Statement → Bool) (old new : State) (files : Files) (text printed : List ℕ) (why : Option Refusal) → Step serves old files text printed why new → IsSound old → IsSound new }
{
    loaded_rows_fit();
}

/// A step of the mover, and a moveout of all, leave a sound state sound, too.
pub fn moves_keep_states_sound()
    ensures mover { (old new : State) → MoverSteps old new → IsSound old → IsSound new }
    ensures all { (stopped : Bool) (old new : State) → MovesAll old stopped new → IsSound old → IsSound new }
{}

/// A run leaves a sound state sound.
pub fn runs_keep_states_sound()
    ensures { (setting : Setting) (start : State) (script printed : List ℕ) (refused : Bool) (new : State) → IsSound start → Run setting start script printed refused new → IsSound new }
{
    steps_keep_states_sound();
}
