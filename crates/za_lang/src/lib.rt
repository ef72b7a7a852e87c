//! Documents of both versions, read by their grammar: a regular language over a distributed alphabet, as
//! a partial table, names of the processes, and a script for each process.
#![tactic(auto)]

mod fault;
mod gather;
mod items;
mod job;
mod lang;
mod laws;
mod letters;
mod limits;
mod line_tests;
mod names;
mod order;
mod reading;
mod version;
mod words;

pub use fault::{JobFault, Refusal, fault_at};
pub use job::Job;
pub use lang::Lang;
pub use laws::documents_are_jobs;
pub use line_tests::end_line_fault;
pub use order::{Head, Place, head_of};
pub use reading::{Reading, is_comment, read_job};
pub use version::Version;
pub use words::Words;
