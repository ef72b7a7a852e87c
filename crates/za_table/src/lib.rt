//! The table: the core machine of a job over the local states of its distributed automaton. It keeps
//! a journal with the labels of its events, who has arrived and ended, who has which letter in hand,
//! and for each process its local state after the journal.
#![tactic(auto)]

mod arrival;
mod ended;
mod events;
mod finishing;
mod labels;
mod lists;
mod progress;
mod running;
mod table;

pub use arrival::Arrival;
pub use ended::Ended;
pub use running::solo;
pub use table::Table;
