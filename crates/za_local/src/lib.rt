//! Local states of the distributed automaton of a closed DFA, and its transitions: from the local
//! states of a letter's participants those that they have after an event of the letter.
#![tactic(auto)]

mod bench;
mod firing;
mod laws;
mod local;
mod masks;
mod transitions;

pub use bench::Bench;
pub use firing::{fire_on, openings};
pub use laws::{locals_after_an_event, same_trace_same_locals};
pub use local::{Local, equal, opening};
pub use transitions::{transit, verdict, view_state};
