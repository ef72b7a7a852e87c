//! Texts: their lines, the words of a line, numbers and names, the names of processes, and what can be
//! wrong with a line of a document. Only the names of processes take memory.
#![tactic(auto)]

mod dividing;
mod kind;
mod line;
mod names;
mod numeral;
mod word;

pub use dividing::{Divided, FirstWord, LineTest, divide};
pub use kind::{Kind, TextFault};
pub use line::{Line, Lines, are_allowed};
pub use names::Names;
pub use numeral::number;
pub use word::{Token, WordsOf};
pub use za_names::is_name;
