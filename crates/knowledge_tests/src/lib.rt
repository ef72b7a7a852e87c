//! Tests of numbers of events, of what processes know, and of the records they share.
//!
//! What owns much is dropped by name: a function that lets it go out of scope proves anew how its parts are dropped.
#![tactic(auto)]

#[cfg(test)]
mod cache;
#[cfg(test)]
mod gossip;
#[cfg(test)]
mod ids;
#[cfg(test)]
mod locals;
#[cfg(test)]
mod pasts;
#[cfg(test)]
mod payload;
#[cfg(test)]
mod records;
#[cfg(test)]
mod residues;
#[cfg(test)]
mod shared;
#[cfg(test)]
mod tables;
#[cfg(test)]
mod updates;
#[cfg(test)]
mod views;
