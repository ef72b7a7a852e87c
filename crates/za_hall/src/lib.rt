//! A hall, in which the processes of a job take turns at one table, each from its desk. One word says
//! whether the turn is free; the steps on it are proved to keep one rule.
#![tactic(auto)]

mod bell;
mod closing;
mod desk;
mod gathering;
mod hall;
mod laws;
mod opening;
mod refusal;
mod serving;
mod steps;
mod tries;
mod turn;
mod view;

pub use desk::Desk;
pub use hall::Hall;
pub use laws::own_events_keep_the_rule;
pub use refusal::{CloseRefused, CloseWhy, HallEnded};
pub use turn::Turn;
