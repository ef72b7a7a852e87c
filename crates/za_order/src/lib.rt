//! The order of the events of a word: what each process knows of it, the latest events of others
//! that it knows, and bounded labels of events. The definitions stand in specs/; the laws over
//! them are the contracts of functions that do nothing.
#![tactic(auto)]

mod bits;
mod laws;
mod pasts;

pub use bits::BitRow;
pub use laws::{
    entries_after_an_event, equivalent_words_agree, label_is_least_free, newer_by_secondary,
    numbers_tell_apart, past_is_chains, shared_maximal_is_primary, subwords_split, tertiary_covers,
};
pub use pasts::past;
