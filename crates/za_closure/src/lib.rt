//! Telling whether the language of a DFA is closed under trace equivalence, with two equivalent words
//! that show it where it isn't: one is accepted, and the other isn't.
#![tactic(auto)]

mod closing;
mod laws;

pub use closing::{Open, close};
pub use laws::{closed_languages, closed_or_broken, least_breaks_are_one};
