//! The texts that say answers, what processes know, and refusals.
#![tactic(auto)]

mod answer;
mod bounds;
mod closed;
mod hope;
mod locals;
mod refused;
mod verdict;

pub use answer::answer_text;
pub use closed::{check_text, open_text};
pub use locals::{locals_text, push_known};
pub use refused::refused_text;
pub use verdict::audit_text;
