//! Tests of the program on one thread, from its command words to what it writes, and of what crosses crates below it.
#![tactic(auto)]

#[cfg(test)]
mod audits;
#[cfg(test)]
mod failures;
#[cfg(test)]
mod limits;
#[cfg(test)]
mod orders;
#[cfg(test)]
mod refusals;
#[cfg(test)]
mod top;
#[cfg(test)]
mod versions;
