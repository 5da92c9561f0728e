//! Laws that there are steps and runs.

ghost use Rattle.steps_exist.specs.Exist.{EveryTextHasAStep, EveryStateMovesOn, EveryMoveoutEnds, MoveoutsReachTheLast, EveryTextsHaveARun, EveryScriptHasARun, EveryRunGoesOn, EveryAnswerGoesOn};

use step_laws::steps_keep_states_sound;

/// Every text has a step in a sound state, over whatever load files, whether it spells a statement or not, and whatever forms are served.
pub fn every_text_has_a_step()
    ensures { EveryTextHasAStep }
{}

/// The mover has a step in every state, and a moveout of all ends in every sound one; where it wasn't stopped each projection that is up to
/// date is on disk up to the newest closed epoch.
pub fn every_state_moves_on()
    ensures step { EveryStateMovesOn }
    ensures all { EveryMoveoutEnds }
    ensures reached { MoveoutsReachTheLast }
{}

/// Every script has a run from a sound state, with whatever steps of the mover behind each statement, and with or without an end; and
/// statements that were answered go on to such a run, with the steps of the mover behind the last of them or without.
pub fn every_script_has_a_run()
    ensures texts { EveryTextsHaveARun }
    ensures runs { EveryScriptHasARun }
    ensures goes_on { EveryRunGoesOn }
    ensures answer { EveryAnswerGoesOn }
{
    steps_keep_states_sound();
}
