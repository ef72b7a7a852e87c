//! Deterministic automata over a distributed alphabet: complete tables, words walked through them,
//! and the tables in which independent letters lead to the same state in either order. Making a
//! table takes memory, and nothing else does.
#![tactic(auto)]

mod broken;
mod closed;
mod dfa;
mod fault;
mod laws;
mod partial;
mod rows;

pub use broken::{Diamond, first_broken};
pub use closed::Closed;
pub use dfa::Dfa;
pub use fault::{DfaFault, TwoTargets};
pub use laws::{diamonds_close_the_language, whole_tables_complete};
pub use partial::Partial;
pub use rows::{MOST_STATES, Row};
