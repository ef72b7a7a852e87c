//! Alphabets, automata, scripts and documents that tests are made over. Nothing of the program stands on it.
#![tactic(auto)]

mod alphabets;
mod automata;
pub mod documents;
mod scripts;

pub use alphabets::{
    A, B, C, FOUR_PROCESSES, Named, ONE_PROCESS, RING, TWO_PROCESSES, alphabet_of, has_letters,
    row, word_of,
};
pub use automata::{closed_of, dfa_of, one_state, to_and_fro};
pub use scripts::scripts_of;
