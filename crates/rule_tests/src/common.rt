//! What several of the tests are made over: alphabets of two processes, and what tables say.

use samples::{Named, alphabet_of, word_of};
use std::alloc::{AllocError, Global};
use std::process::Abort;
use std::test::Fail;
use za_alpha::{Alphabet, Letter};
use za_dfa::Dfa;

static TWO_LETTERS: [Named; 2] = [(b"a", &[0]), (b"b", &[1])];

/// A letter `a` of the first of two processes, and `b` of the second.
pub fn two_letters(alloc: Global) -> Result<Alphabet, Fail> {
    alphabet_of(alloc, 2, &TWO_LETTERS)
}

static THREE_LETTERS: [Named; 3] = [(b"a", &[0]), (b"b", &[1]), (b"c", &[0, 1])];

/// These, and a letter `c` of both.
pub fn three_letters(alloc: Global) -> Result<Alphabet, Fail> {
    alphabet_of(alloc, 2, &THREE_LETTERS)
}

pub fn accepts(rt: &impl Abort, alloc: Global, dfa: &Dfa, letters: &[u8]) -> Result<bool, Fail> {
    let word = word_of(alloc, letters)?;
    assert!(rt; dfa.alphabet().has_word(&word));
    Ok(dfa.accepts(&word))
}

/// Which states accept.
pub fn accepting_of(alloc: Global, dfa: &Dfa) -> Result<Vec<bool>, AllocError> {
    let mut accepting = Vec::new(alloc);
    for q in 0..dfa.states() as u8 {
        accepting.push(dfa.accepting(q))?;
    }
    Ok(accepting)
}

/// Where each letter leads from each state.
pub fn targets_of(alloc: Global, dfa: &Dfa) -> Result<Vec<u8>, AllocError> {
    let mut targets = Vec::new(alloc);
    for q in 0..dfa.states() as u8 {
        for a in 0..dfa.alphabet().letters() as u8 {
            targets.push(dfa.step(q, Letter(a)))?;
        }
    }
    Ok(targets)
}

/// Stops unless these states of a table accept, and these are its targets.
pub fn assert_table(
    rt: &impl Abort,
    alloc: Global,
    dfa: &Dfa,
    accepting: &[bool],
    targets: &[u8],
) -> Result<(), AllocError> {
    assert_eq!(rt; accepting_of(alloc, dfa)?.as_slice(), accepting);
    assert_eq!(rt; targets_of(alloc, dfa)?.as_slice(), targets);
    Ok(())
}
