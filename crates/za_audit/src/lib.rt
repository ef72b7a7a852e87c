//! Audits: whether the events that are claimed of a run of a job are one of its runs, to its end, with
//! the labels and the answer by definition. An audit works on positions, in time linear in the events.
#![tactic(auto)]

mod auditing;
mod counts;
mod laws;
mod verdict;

pub use auditing::audit;
pub use laws::verdicts_are_one;
pub use verdict::Audit;
