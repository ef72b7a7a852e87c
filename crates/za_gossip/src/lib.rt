//! Gossip: what the processes of a distributed automaton know of each other's latest events, by
//! bounded numbers alone.
#![tactic(auto)]

mod gossip;
mod laws;
mod news;
mod updating;

pub use gossip::Gossip;
pub use laws::{numbers_after_an_event, numbers_suffice, only_equality_is_tested};
pub use news::newest;
pub use updating::advance;
