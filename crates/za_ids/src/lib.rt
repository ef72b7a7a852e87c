//! Numbers of events: one number for each letter and label, and the least label whose number a
//! list doesn't have.
#![tactic(auto)]

mod ids;
mod labels;

pub use ids::{EventId, id_of, label_of, letter_of};
pub use labels::{MOST_LABELS, first_unmarked, least_free, least_free_among};
