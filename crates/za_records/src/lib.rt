//! Counted values under small keys. Only making a shelf takes memory.
#![tactic(auto)]

mod shelf;

pub use shelf::{Counted, Key, Shelf};
