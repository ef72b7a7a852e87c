//! Tests of documents, claims, command lines, and what is read and written.
#![tactic(auto)]

#[cfg(test)]
mod base;
#[cfg(test)]
mod claim;
#[cfg(test)]
mod command;
#[cfg(test)]
mod common;
#[cfg(test)]
mod dividing;
#[cfg(test)]
mod documents;
#[cfg(test)]
mod generated;
#[cfg(test)]
mod lang;
#[cfg(test)]
mod print;
#[cfg(test)]
mod text;
#[cfg(test)]
mod write;
