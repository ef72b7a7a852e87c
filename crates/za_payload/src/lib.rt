//! Gossip with payload: each event writes a number, and each process keeps the number of the latest
//! event of each process that it knows, by bounded labels alone.
#![tactic(auto)]

mod circle;
mod laws;
mod meeting;

pub use circle::Circle;
pub use laws::equivalent_words_give_equal_knowledge;
