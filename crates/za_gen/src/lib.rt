//! A generator of large jobs: from a number it makes a job with a trace-closed language, whose scripts are
//! what the processes see of a word of drawn letters.
#![tactic(auto)]

mod draw;
mod job;
mod laws;
mod scripts;
mod table;

pub use job::{LETTERS_DRAWN, job_of};
pub use laws::generated_jobs_are_accepted;
