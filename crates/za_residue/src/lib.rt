//! Residues of a process: for each set of processes, what the part of its view outside of the pasts of
//! the latest events of these that it knows does to the states of an automaton; and what an event makes
//! of the residues of its participants.
#![tactic(auto)]

mod composing;
mod laws;
mod leaving;
mod masks;
mod residues;
mod writing;

pub use composing::{advance, join_all};
pub use laws::{
    equivalent_words_have_equal_residues, residues_after_an_event, residues_decide_the_state,
};
pub use masks::{Masks, below};
pub use residues::Residues;
