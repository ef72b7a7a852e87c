//! The core machine: processes that arrive at the next letters of their scripts, letters that are
//! fired once all their processes have arrived, and processes that end. Its laws hold over every
//! list of events.
#![tactic(auto)]

mod laws;

pub use laws::{
    events_are_sound, events_go_on, hands_stand_beside_states, over_states_are_maximal,
    states_weave_on,
};
