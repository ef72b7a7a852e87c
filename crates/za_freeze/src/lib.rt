//! Frozen texts: a job, and what its processes know after the first events of its weave. They are
//! written, and read back with what is left of the job.
#![tactic(auto)]

mod comparing;
mod cutting;
mod freezing;
mod laws;
mod playing;
mod thawing;

pub use freezing::freeze;
pub use laws::{frozen_texts_are_read_back, frozen_texts_are_thawed, rests_go_on, thawed_once};
pub use thawing::{ThawFault, Thawed, thaw};
