//! Expressions of regular languages as texts, and their automata by position values.
#![tactic(auto)]

mod dfa;
mod fault;
mod form;
mod places;
mod reading;
mod search;
mod steps;
mod text;
mod tree;

pub use dfa::dfa_of;
pub use fault::{FormFault, Wide};
pub use form::Form;
