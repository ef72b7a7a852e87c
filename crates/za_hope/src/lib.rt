//! Hope: whether a run whose scripts are stuck can still be saved. Some accepted word begins with a word
//! that is equivalent to what was fired, or none does.
#![tactic(auto)]

mod laws;
mod stuck;

pub use laws::{
    hope_is_of_the_language, hope_is_of_the_state, hopes_are_one, hopes_exist, rest_hopes_alike,
};
pub use stuck::hope_of;
