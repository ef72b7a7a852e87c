//! Texts that are written: calls that append words, numbers, names, events and lines to a text. Where
//! memory is refused the text stays as it was.
#![tactic(auto)]

mod events;
mod pieces;
mod words;

pub use events::{push_entries, push_entry, push_event};
pub use pieces::push_pieces;
pub use words::{push_names, push_number, push_number_if, push_number_line, push_word};
