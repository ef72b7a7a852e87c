//! The whole program over any source and any sink: what is asked, what is read, what is answered,
//! and what is written.
#![tactic(auto)]

mod due;
mod judging;
mod laws;
mod request;
mod run;
mod status;

pub use laws::{
    journals_are_audited_yes, refusals_are_exact, run_is_right, something_is_due,
    statuses_have_their_causes, thaw_goes_on, threads_answer_as_one, what_is_due_is_one,
};
pub use request::{Call, Command};
pub use run::{MOST_BYTES, plain, threaded, top};
pub use status::{Outcome, Shown, Status};
pub use za_command::{Plan, WordsFault, read_words};
pub use za_query::Query;
pub use za_runner::{Gate, OpenGate};
