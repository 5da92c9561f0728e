//! Laws of alike states.

ghost use Rattle.alike_steps.specs.Steps.{AlikeStatesStepAlike, JobsStepAlike, UnrefusedStepsAlike};
ghost use Rattle.alike_steps.specs.Runs.{AlikeTextsRunAlike, AlikeRunsPrintAlike, AlikeTextsGoThrough, AlikeRunsGoThrough};

use one_text::a_query_has_one_text;
use row_setting::settings_see_a_bag;
use sql_reader::one_reading;
use step_laws::steps_keep_states_sound;

/// Two steps of one statement text, over states that no statement tells apart, are refused for the same cause or neither is, print the
/// same bytes, and leave states that no statement tells apart. It is asked that one of the states is sound, that the numbers that files are
/// called by are spent in both or in neither, and that the text asks the mover for nothing. A function of several jobs is alike, too, where it
/// is refused in both or in neither; and any text, where it is refused in neither, whether numbers are left or not. But what one step of the
/// mover leaves, and MERGEOUT and PURGE_TABLE, the storage decides (`TheStorageDecides`).
pub fn alike_states_step_alike()
    ensures steps { AlikeStatesStepAlike }
    ensures jobs { JobsStepAlike }
    ensures unrefused { UnrefusedStepsAlike }
{
    one_reading();
    a_query_has_one_text();
    settings_see_a_bag();
}

/// Two runs of one script, over states that no statement tells apart, print the same bytes, some statement is refused in both or in none,
/// and no statement tells apart the states at their ends, behind the moveout of all that ends a script, too. It is asked that one start is
/// sound, that the script asks the mover for nothing and is run without its steps, and that the
/// numbers that files are called by aren't spent at either end.
pub fn alike_runs_print_alike()
    ensures texts { AlikeTextsRunAlike }
    ensures runs { AlikeRunsPrintAlike }
{
    alike_states_step_alike();
    steps_keep_states_sound();
}

/// Two runs of one script, over states that no statement tells apart, in which no statement is refused, print the same bytes, and no
/// statement tells apart the states at their ends, if numbers are left there. It is asked that one start is sound, and that the script has
/// no statement of which the storage decides what it leaves, and is run without steps of the mover; moveouts and refreshes may stand in it.
pub fn alike_runs_go_through()
    ensures texts { AlikeTextsGoThrough }
    ensures runs { AlikeRunsGoThrough }
{
    alike_states_step_alike();
    steps_keep_states_sound();
}
