//! Tests of the program on threads, of the journals that it writes, and of what is asked of texts.
#![tactic(auto)]

#[cfg(test)]
mod asked;
#[cfg(test)]
mod journals;
#[cfg(test)]
mod thaws;
#[cfg(test)]
mod top;
