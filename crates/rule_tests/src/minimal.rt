//! Minimal tables, access words, words that tell states apart, and hope.

ghost use Rattle.std.specs.Prelude.{◌≡◌};

use crate::common::{assert_table, three_letters, two_letters};
use samples::{A, B, C, dfa_of, has_letters};
use std::alloc::{AllocError, Global};
use std::process::Abort;
use std::test::Fail;
use za_alpha::{Letter, Word};
use za_dfa::{Dfa, Row};
use za_hope::hope_of;
use za_min::{Hope, Live, Minimal, minimise};
use za_script::Answer;

/// A table over two letters: which states accept, and the targets of `a` and of `b` for each state.
struct Given {
    start: u8,
    accepting: &'static [bool],
    targets: &'static [u8],
}

fn minimal_of(alloc: Global, given: &Given) -> Result<Minimal, Fail> {
    let alphabet = two_letters(alloc)?;
    let dfa = dfa_of(alloc, alphabet, given.start, given.accepting, given.targets)?;
    Ok(minimise(alloc, &dfa)?)
}

/// Six states, of which the last three accept the same words: all.
static SIX: Given = Given {
    start: 0,
    accepting: &[false, false, false, true, true, true],
    targets: &[1, 2, 1, 3, 4, 2, 3, 3, 5, 4, 5, 5],
};

/// A given table, and which states of the minimal one accept, and their targets.
struct Case {
    given: Given,
    accepting: &'static [bool],
    targets: &'static [u8],
}

static CASES: [Case; 5] = [
    // These are the six states.
    Case {
        given: Given {
            start: 0,
            accepting: &[false, false, false, true, true, true],
            targets: &[1, 2, 1, 3, 4, 2, 3, 3, 5, 4, 5, 5],
        },
        accepting: &[false, false, false, true],
        targets: &[1, 2, 1, 3, 3, 2, 3, 3],
    },
    // State 2 isn't reached.
    Case {
        given: Given {
            start: 0,
            accepting: &[true, false, true],
            targets: &[1, 0, 0, 1, 0, 2],
        },
        accepting: &[true, false],
        targets: &[1, 0, 0, 1],
    },
    // The numbers go by access words, and not by the numbers that were given.
    Case {
        given: Given {
            start: 3,
            accepting: &[true, false, false, false],
            targets: &[0, 0, 0, 2, 2, 2, 1, 0],
        },
        accepting: &[false, false, true, false],
        targets: &[1, 2, 2, 3, 2, 2, 3, 3],
    },
    // The last letter alone tells two states apart.
    Case {
        given: Given {
            start: 0,
            accepting: &[false, false, true],
            targets: &[1, 0, 1, 2, 2, 2],
        },
        accepting: &[false, false, true],
        targets: &[1, 0, 1, 2, 2, 2],
    },
    // Nothing is accepted.
    Case {
        given: Given {
            start: 1,
            accepting: &[false, false, false],
            targets: &[1, 2, 2, 0, 0, 1],
        },
        accepting: &[false],
        targets: &[0, 0],
    },
];

fn assert_case(rt: &impl Abort, alloc: Global, case: &Case) -> Result<(), Fail> {
    let dfa = minimal_of(alloc, &case.given)?.into_dfa();
    assert_eq!(rt; dfa.start(), 0);
    assert_table(rt, alloc, &dfa, case.accepting, case.targets)?;
    Ok(())
}

#[test]
fn minimal_tables(rt: HostRuntime) -> Result<(), Fail> {
    for case in &CASES {
        assert_case(&rt, rt.alloc(), case)?;
    }
    Ok(())
}

/// The access words of states.
static ACCESS: [(u8, &[Letter]); 3] = [(0, &[]), (2, &[B]), (3, &[A, B])];

fn assert_access(rt: &impl Abort, minimal: &Minimal) {
    for (q, word) in &ACCESS {
        assert!(rt; (*q as usize) < minimal.dfa().states());
        assert_eq!(rt; minimal.access(*q), *word);
    }
}

#[test]
fn access_words(rt: HostRuntime) -> Result<(), Fail> {
    let minimal = minimal_of(rt.alloc(), &SIX)?;
    assert_eq!(rt; minimal.dfa().states(), 4);
    assert_access(&rt, &minimal);
    Ok(())
}

/// A word that tells two states apart, if there is one.
fn apart(rt: &impl Abort, minimal: &Minimal, q: u8, r: u8) -> Result<Option<Word>, Fail> {
    let states = minimal.dfa().states();
    assert!(rt; (q as usize) < states && (r as usize) < states);
    Ok(minimal.apart(q, r)?)
}

fn told_apart(rt: &impl Abort, minimal: &Minimal, q: u8, r: u8) -> Result<Word, Fail> {
    match apart(rt, minimal, q, r)? {
        Some(word) => Ok(word),
        None => panic!(rt; "not told apart"),
    }
}

#[test]
fn words_that_tell_apart(rt: HostRuntime) -> Result<(), Fail> {
    let minimal = minimal_of(rt.alloc(), &SIX)?;
    assert!(rt; minimal.dfa().states() == 4);
    assert!(rt; apart(&rt, &minimal, 1, 1)?.is_none());
    assert!(rt; has_letters(&told_apart(&rt, &minimal, 0, 1)?, &[1]));
    Ok(())
}

/// The targets of a chain of 128 states by `a`, each of which `b` leads to one more state.
fn chain_targets(alloc: Global) -> Result<Vec<u8>, AllocError> {
    let mut targets = Vec::new(alloc);
    for q in 0..129u8 {
        targets.push((q + 1).min(128))?;
        targets.push(128)?;
    }
    Ok(targets)
}

/// The chain, whose last state accepts.
fn chain(alloc: Global) -> Result<Dfa, Fail> {
    let mut accepting = Vec::new(alloc);
    for state in 0..129u8 {
        accepting.push(state == 127)?;
    }
    let targets = chain_targets(alloc)?;
    dfa_of(alloc, two_letters(alloc)?, 0, &accepting, &targets)
}

fn minimal_chain(alloc: Global) -> Result<Minimal, Fail> {
    Ok(minimise(alloc, &chain(alloc)?)?)
}

#[test]
fn all_of_129_states_are_told_apart(rt: HostRuntime) -> Result<(), Fail> {
    let minimal = minimal_chain(rt.alloc())?;
    assert!(rt; minimal.dfa().states() == 129 && minimal.access(128).len() == 127);
    assert_eq!(rt; told_apart(&rt, &minimal, 0, 2)?.len(), 127);
    Ok(())
}

/// What an answer that scripts come to in a state leaves to hope for.
fn hope_after(
    rt: &impl Abort,
    alloc: Global,
    dfa: &Dfa,
    q: u8,
    answer: Answer,
) -> Result<Option<Hope>, Fail> {
    assert!(rt; (q as usize) < dfa.states());
    Ok(hope_of(alloc, dfa, q, answer)?)
}

fn live_hope(rt: &impl Abort, alloc: Global, dfa: &Dfa, q: u8) -> Result<Hope, Fail> {
    let live = Live::of(alloc, dfa)?;
    assert!(rt; (q as usize) < dfa.states());
    Ok(live.hope(q))
}

/// Tries a state, of which the hope is said: by itself, and for scripts that are stuck there or not.
fn try_hope(rt: &impl Abort, alloc: Global, dfa: &Dfa, q: u8, hope: Hope) -> Result<(), Fail> {
    assert!(rt; live_hope(rt, alloc, dfa, q)? == hope, "at {q}");
    assert!(rt;
        hope_after(rt, alloc, dfa, q, Answer::Stuck)? == Some(hope),
        "at {q}"
    );
    assert!(rt;
        hope_after(rt, alloc, dfa, q, Answer::Reject)? == None,
        "at {q}"
    );
    Ok(())
}

/// Leads from state 0 to itself.
fn stays(letter: Letter) -> Row
    ensures { result.letter ≡ letter }
{
    Row {
        from: 0,
        letter,
        to: 0,
    }
}

/// `b` has no row, so it leads to the added state.
fn without_b(rt: &impl Abort, alloc: Global) -> Result<Dfa, Fail> {
    let alphabet = three_letters(alloc)?;
    assert!(rt; alphabet.letters() == 3);
    let accepting = Vec::from_slice(alloc, &[true])?;
    let rows = [stays(A), stays(C)];
    Ok(Dfa::complete(alloc, alphabet, 1, 0, accepting, &rows)?)
}

#[test]
fn the_added_state_is_dead(rt: HostRuntime) -> Result<(), Fail> {
    let dfa = without_b(&rt, rt.alloc())?;
    try_hope(&rt, rt.alloc(), &dfa, 0, Hope::Alive)?;
    try_hope(&rt, rt.alloc(), &dfa, 1, Hope::Dead)
}

/// States of the chain, and their hope.
static HOPES: [(u8, Hope); 3] = [(0, Hope::Alive), (127, Hope::Alive), (128, Hope::Dead)];

#[test]
fn a_long_way_is_hope_too(rt: HostRuntime) -> Result<(), Fail> {
    let dfa = chain(rt.alloc())?;
    for (q, hope) in &HOPES {
        try_hope(&rt, rt.alloc(), &dfa, *q, *hope)?;
    }
    Ok(())
}
