//! Zielonka's theorem over plain definitions: a language is that of a deterministic asynchronous
//! automaton exactly if it is regular and trace-closed. The definitions stand in specs/; the theorem
//! is the contract of a function that does nothing.
#![tactic(auto)]

mod laws;

pub use laws::{
    asynchronous_automaton, diamond_automaton, finiteness, global_automaton, locality,
    program_runs_the_automaton, zielonka,
};
