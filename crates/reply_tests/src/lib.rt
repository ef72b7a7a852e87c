//! Tests of audits, of texts that are written, and of what is said to a text without a run of its scripts.
#![tactic(auto)]

#[cfg(test)]
mod audit;
#[cfg(test)]
mod expr;
#[cfg(test)]
mod freeze;
#[cfg(test)]
mod news;
#[cfg(test)]
mod query;
#[cfg(test)]
mod report;
#[cfg(test)]
mod verdict;
