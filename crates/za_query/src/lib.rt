//! What is asked of a text that needs no run of its scripts: the job that an expression says, the news of a job with
//! readings, and the text of a job whose processes are frozen.
#![tactic(auto)]

mod judging;
mod laws;
mod query;
mod replying;

pub use judging::{Judged, judge};
pub use laws::{refusals_are_exact, replies_are_one, something_is_replied};
pub use query::{Query, Said};
pub use replying::reply;
