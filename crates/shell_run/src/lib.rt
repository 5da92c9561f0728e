//! A shell over a session: statements as they come, each answered at once.
//!
//! `answer` runs a statement text and answers exactly what `Session::execute` writes (`Tells` of `specs/Answers.antt`), once all that is
//! committed is in the folder: so a COMMIT that is shown outlasts a stop. `Shell` takes the input as it comes and makes a reply to each piece of it, for
//! standard output and for standard error. `run_input` and `run_script` write them, up to the end of the input, and make the end.
#![tactic(auto)]

mod answering;
mod faults;
mod replies;
mod serving;
mod shell;

pub use answering::{Told, answer};
pub use faults::{fault_text, in_memory, status_of};
pub use replies::Reply;
pub use serving::{run_input, run_script};
pub use shell::{Setting, Shell};
pub use vert_cli::{RunFault, Status};
