//! Views by positions: for a word that grows event by event, what each process knows newest of
//! the others, and the label of each event, exactly as defined. It is the plain side against which
//! bounded labels are tested.
#![tactic(auto)]

mod entries;
mod events;
mod labels;
mod marks;

pub use marks::Marks;
