//! A bounded list of rows, the most recently used first.
#![tactic(auto)]

mod rows;

pub use rows::{Kept, Keys, Line, RowKey, Rows};
