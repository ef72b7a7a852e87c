//! The printed form of a job.
#![tactic(auto)]

mod items;
mod laws;
mod print;

pub use laws::printed_jobs_are_read_back;
pub use print::print_job;
