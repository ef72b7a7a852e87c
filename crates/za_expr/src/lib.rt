//! Documents with an expression in place of a table, and the jobs that are built from them.
#![tactic(auto)]

mod document;
mod expression;
mod laws;
mod reading;

pub use document::build;
pub use laws::{documents_are_built_once, documents_are_built_or_refused, texts_have_one_fault};
