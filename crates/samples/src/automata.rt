//! Automata, whose entries are given by states and then by letters.

use crate::alphabets::{TWO_PROCESSES, alphabet_of};
use std::alloc::Global;
use std::test::Fail;
use za_alpha::Alphabet;
use za_dfa::{Closed, Dfa};

/// The automaton with this start, of which these states accept, and of these entries.
pub fn dfa_of(
    alloc: Global,
    alphabet: Alphabet,
    start: u8,
    accepting: &[bool],
    targets: &[u8],
) -> Result<Dfa, Fail> {
    let accepting = Vec::from_slice(alloc, accepting)?;
    let targets = Vec::from_slice(alloc, targets)?;
    if !Dfa::is_table(&alphabet, start, &accepting, &targets) {
        return Err(Fail::new("these entries are no table"));
    }
    Ok(Dfa::of_table(alphabet, start, accepting, targets))
}

/// The same, in which every diamond is there.
pub fn closed_of(dfa: Dfa) -> Result<Closed, Fail> {
    match Closed::new(dfa) {
        Ok(closed) => Ok(closed),
        Err(_) => Err(Fail::new("a diamond is broken")),
    }
}

/// The letters of two processes, and two states, of which the first is the start and accepts: `a` goes to and fro,
/// `b` and `c` lead from the first state to itself, and from the second to itself.
pub fn to_and_fro(alloc: Global) -> Result<Closed, Fail> {
    let alphabet = alphabet_of(alloc, 2, &TWO_PROCESSES)?;
    closed_of(dfa_of(alloc, alphabet, 0, &[true, false], &[1, 0, 0, 0, 1, 1])?)
}

/// The letters of two processes, and one state, which accepts.
pub fn one_state(alloc: Global) -> Result<Closed, Fail> {
    let alphabet = alphabet_of(alloc, 2, &TWO_PROCESSES)?;
    closed_of(dfa_of(alloc, alphabet, 0, &[true], &[0, 0, 0])?)
}
