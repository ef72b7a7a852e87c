//! Distributed alphabets: letters, the processes that each belongs to, words of letters, their
//! projections and trace equivalence.
#![tactic(auto)]

mod alphabet;
mod fault;
mod index;
mod laws;
mod letters;
mod procs;
mod rows;
mod word;

pub use alphabet::{Alphabet, LetterRow};
pub use fault::{AlphaFault, NameFault, OutOfMemory};
pub use laws::equivalence_is_swapping;
pub use letters::Letters;
pub use procs::Procs;
pub use rows::{MOST_LETTERS, MOST_PROCESSES};
pub use word::{Letter, Word};
