//! What the tests share.

use callers::automata::without;
use samples::{B, TWO_PROCESSES, alphabet_of, closed_of};
use std::alloc::Global;
use std::process::Abort;
use std::test::Fail;
use za_alpha::Alphabet;
use za_dfa::Closed;

/// The letters `a` of process 0, `b` of process 1 and `c` of both.
pub(crate) fn two_processes(alloc: Global) -> Result<Alphabet, Fail> {
    alphabet_of(alloc, 2, &TWO_PROCESSES)
}

/// The automaton of the words without `b`.
pub(crate) fn without_b(rt: &impl Abort, alloc: Global) -> Result<Closed, Fail> {
    let alphabet = two_processes(alloc)?;
    assert!(rt; 1 < alphabet.letters());
    let dfa = without(alloc, alphabet, B)?;
    closed_of(dfa)
}
