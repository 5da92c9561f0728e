//! What a statement does, with its names resolved; or why it is refused before a row is looked at.
//!
//! A `Frame` is seen as a state of db_model whose tables have no rows (`bare_state` of `specs/Bare.antt`): refusals look at the tables'
//! names, columns and projections, at the epochs, the next number and what the sessions have changed. `make_plan` gives what the statement
//! does, or the refusal (`IsPlanned`, `early_refusal` of `specs/Planned.antt`); `rows_decide_nothing_here` says that it is that of each
//! state of which this is the frame, as a catalogue's is by `catalogues_give_frames`; and `early_refusals_stand` that db_model refuses the
//! statement for it. `load_refusal` is what is looked at where a load file
//! was read, and `change_refusal` where the rows of an UPDATE were found.
#![tactic(auto)]

mod adding;
mod changing;
mod creating;
mod dropping;
mod frame;
mod inserting;
mod laws;
mod loading;
mod placed;
mod planning;
mod plans;
mod projecting;
mod querying;
mod reached;
mod refusing;

pub use changing::change_refusal;
pub use frame::Frame;
pub use laws::{catalogues_give_frames, early_refusals_stand, rows_decide_nothing_here};
pub use loading::{load_refusal, loadable_table};
pub use planning::make_plan;
pub use plans::Plan;
pub use reached::last_good;
