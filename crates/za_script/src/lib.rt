//! Scripts of the processes of a distributed alphabet, and weaving them into one word.
#![tactic(auto)]

mod answer;
mod fault;
mod laws;
mod rest;
mod scripts;
mod weaving;
mod woven;

pub use answer::{Answer, answer_of};
pub use fault::{MOST_SCRIPT_LETTERS, ScriptFault};
pub use laws::{answer_is_of_the_weave, rest_answers_alike, weaving_goes_on, weaving_is_confluent};
pub use rest::count_of;
pub use scripts::Scripts;
pub use woven::{Woven, weave};
