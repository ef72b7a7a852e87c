//! The command words, which follow the program's name on its command line, and what they ask for.
#![tactic(auto)]

mod command;
mod plan;

pub use plan::{MOST_CACHE_ROWS, Plan, WordsFault, read_words};
