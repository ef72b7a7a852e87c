//! Automata and their languages.

ghost use Rattle.std.specs.Prelude.{◌≡◌};

use crate::common::{two_processes, without_b};
use callers::automata::accepts_trace;
use callers::closure::{Pair, told_apart};
use callers::distributed::can_be_distributed;
use callers::hopes::can_still_be_accepted;
use callers::minimal::{difference, states_needed};
use samples::{Named, alphabet_of, dfa_of, word_of};
use std::alloc::Global;
use std::process::Abort;
use std::test::Fail;
use za_alpha::{Letter, OutOfMemory};
use za_dfa::{Closed, Dfa, Row};

fn is_accepted(
    rt: &impl Abort,
    alloc: Global,
    closed: &Closed,
    letters: &[u8],
) -> Result<bool, OutOfMemory> {
    let w = word_of(alloc, letters)?;
    assert!(rt; closed.dfa().alphabet().has_word(&w));
    Ok(accepts_trace(closed, &w))
}

static TRACES: [(&[u8], bool); 3] = [(&[0, 2], true), (&[0, 1], false), (&[], true)];

#[test]
fn traces_without_b(rt: HostRuntime) -> Result<(), Fail> {
    let closed = without_b(&rt, rt.alloc())?;
    for (letters, accepted) in &TRACES {
        assert_eq!(rt; is_accepted(&rt, rt.alloc(), &closed, letters)?, *accepted);
    }
    Ok(())
}

/// How long a word is that makes a difference after two words.
fn difference_len(
    rt: &impl Abort,
    alloc: Global,
    dfa: &Dfa,
    first: &[u8],
    second: &[u8],
) -> Result<Option<usize>, OutOfMemory> {
    let u = word_of(alloc, first)?;
    let v = word_of(alloc, second)?;
    assert!(rt; dfa.alphabet().has_word(&u) && dfa.alphabet().has_word(&v));
    let found = difference(alloc, dfa, &u, &v)?;
    Ok(found.as_ref().map(|x| x.len()))
}

#[test]
fn states_of_words_without_b(rt: HostRuntime) -> Result<(), Fail> {
    let closed = without_b(&rt, rt.alloc())?;
    assert_eq!(rt; states_needed(rt.alloc(), closed.dfa())?, 2);
    Ok(())
}

/// A word, and how long one is that makes a difference after it and `a c`.
static DIFFERENCES: [(&[u8], Option<usize>); 2] = [(&[], None), (&[2, 1], Some(0))];

#[test]
fn words_that_make_a_difference(rt: HostRuntime) -> Result<(), Fail> {
    let closed = without_b(&rt, rt.alloc())?;
    for (second, len) in &DIFFERENCES {
        let found = difference_len(&rt, rt.alloc(), closed.dfa(), &[0, 2], second)?;
        assert_eq!(rt; found, *len);
    }
    Ok(())
}

fn edge(from: u32, letter: u8, to: u32) -> Row
    ensures { result.letter.0 ≡ letter }
{
    Row {
        from,
        letter: Letter(letter),
        to,
    }
}

/// Words of `a` and `b` that don't end in `a`.
fn ends_in_b(rt: &impl Abort, alloc: Global) -> Result<Dfa, Fail> {
    let alphabet = two_processes(alloc)?;
    assert!(rt; 2 < alphabet.letters());
    let rows = [edge(0, 0, 1), edge(0, 1, 0), edge(1, 0, 1), edge(1, 1, 0)];
    let accepting = vec![in alloc; true, false]?;
    Ok(Dfa::complete(alloc, alphabet, 2, 0, accepting, &rows)?)
}

#[test]
fn a_language_of_traces(rt: HostRuntime) -> Result<(), Fail> {
    let closed = without_b(&rt, rt.alloc())?;
    assert!(rt; told_apart(rt.alloc(), closed.dfa())?.is_none());
    assert!(rt; can_be_distributed(rt.alloc(), closed.dfa())?);
    Ok(())
}

fn assert_pair(rt: &impl Abort, pair: &Pair) {
    assert_eq!(rt; pair.accepted.letters(), [Letter(0), Letter(1)].as_slice());
    assert_eq!(rt; pair.rejected.letters(), [Letter(1), Letter(0)].as_slice());
}

#[test]
fn words_that_a_language_tells_apart(rt: HostRuntime) -> Result<(), Fail> {
    let dfa = ends_in_b(&rt, rt.alloc())?;
    let pair = told_apart(rt.alloc(), &dfa)?.ok_or("closed")?;
    assert_pair(&rt, &pair);
    assert!(rt; !can_be_distributed(rt.alloc(), &dfa)?);
    Ok(())
}

/// Two letters of one process.
static LETTERS: [Named; 2] = [(b"a", &[0]), (b"b", &[0])];

/// An odd number of `a` and no `b` is right.
fn odd_numbers_of_a(alloc: Global) -> Result<Dfa, Fail> {
    let alphabet = alphabet_of(alloc, 1, &LETTERS)?;
    dfa_of(
        alloc,
        alphabet,
        0,
        &[false, true, false],
        &[1, 2, 0, 2, 2, 2],
    )
}

fn has_hope(
    rt: &impl Abort,
    alloc: Global,
    dfa: &Dfa,
    letters: &[u8],
) -> Result<bool, OutOfMemory> {
    let w = word_of(alloc, letters)?;
    assert!(rt; dfa.alphabet().has_word(&w));
    can_still_be_accepted(alloc, dfa, &w)
}

/// A word, and whether it is the beginning of one that is accepted.
static HOPES: [(&[u8], bool); 5] = [
    (&[], true),
    (&[0], true),
    (&[0, 0], true),
    (&[0, 1], false),
    (&[1, 0], false),
];

#[test]
fn words_that_can_still_be_accepted(rt: HostRuntime) -> Result<(), Fail> {
    let dfa = odd_numbers_of_a(rt.alloc())?;
    for (letters, can) in &HOPES {
        assert_eq!(rt; has_hope(&rt, rt.alloc(), &dfa, letters)?, *can);
    }
    Ok(())
}
