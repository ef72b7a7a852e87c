//! The minimal DFA of a language: its states numbered by their shortlex-least access words, and the
//! shortlex-least word that tells two of them apart. And from which states of a DFA an accepting one can
//! still be reached.
#![tactic(auto)]

mod apart;
mod classes;
mod explore;
mod laws;
mod live;
mod minimal;
mod table;

pub use laws::{alive_states_continue_words, minimal_dfas_are_one, minimal_dfas_exist};
pub use live::{Hope, Live};
pub use minimal::{Minimal, minimise};
