//! Callers of zla's crates: for each crate a small function that is useful in itself, with a
//! contract that follows from the clauses of the calls that it makes.
#![tactic(auto)]

pub mod alphabets;
pub mod automata;
pub mod closure;
pub mod commands;
pub mod distributed;
pub mod documents;
pub mod gossip;
pub mod hopes;
pub mod locals;
pub mod minimal;
pub mod news;
pub mod numbers;
pub mod pasts;
pub mod scripts;
pub mod sensors;
pub mod streams;
pub mod texts;
pub mod views;
