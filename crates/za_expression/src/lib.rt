//! Expressions of regular languages with intersection and complement: their signs, their grammar, their
//! meaning, and position values, which are the states of their automata. The definitions stand in
//! specs/; the laws over them are the contracts of functions that do nothing.
#![tactic(auto)]

mod laws;
mod sign;

pub use laws::{signs_are_one_form, values_by_following};
pub use sign::Sign;
