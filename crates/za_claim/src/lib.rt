//! Claims about a run of a job, its answer and its events with their labels, and audited texts, which
//! are a job and a claim about it.
#![tactic(auto)]

mod claim;
mod laws;
mod line_tests;
mod order;
mod print;
mod reading;

pub use claim::{Claim, Event, MOST_EVENTS};
pub use laws::{claims_follow_documents, printed_claims_are_read_back};
pub use print::{answer_word, print_claim};
pub use reading::{Audited, read_audited};
