//! The local states of all processes, as counted records that processes and cached transitions share. Equal ones are
//! one record, and a record that nobody holds is used again.
#![tactic(auto)]

mod holders;
mod marks;
mod opening;
mod seats;
mod shared;

pub use shared::SharedLocals;
