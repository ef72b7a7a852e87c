//! Tests of alphabets, automata, scripts and expressions.
#![tactic(auto)]

#[cfg(test)]
mod alpha;
#[cfg(test)]
mod closure;
#[cfg(test)]
mod common;
#[cfg(test)]
mod dfa;
#[cfg(test)]
mod form;
#[cfg(test)]
mod minimal;
#[cfg(test)]
mod names;
#[cfg(test)]
mod script;
