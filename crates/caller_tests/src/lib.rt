//! Tests of the callers.
#![tactic(auto)]

#[cfg(test)]
mod common;
#[cfg(test)]
mod events;
#[cfg(test)]
mod languages;
#[cfg(test)]
mod readings;
#[cfg(test)]
mod runs;
#[cfg(test)]
mod texts;
