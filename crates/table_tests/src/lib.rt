//! Tests of tables, halls and threads.
//!
//! What owns much is dropped by name: a function that lets it go out of scope proves anew how its parts are dropped.
#![tactic(auto)]

#[cfg(test)]
mod hall;
#[cfg(test)]
mod jobs;
#[cfg(test)]
mod runner;
#[cfg(test)]
mod table;
