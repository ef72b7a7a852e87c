//! Languages that are closed, and words that show of others that they are open.

use crate::common::three_letters;
use samples::{A, B, C, dfa_of};
use std::alloc::Global;
use std::process::Abort;
use std::test::Fail;
use za_alpha::Letter;
use za_closure::{Open, close};
use za_dfa::Closed;

/// A table over three letters, with start 0: which states accept, and the targets of each state.
struct Given {
    accepting: &'static [bool],
    targets: &'static [u8],
}

fn closure_of(alloc: Global, given: &Given) -> Result<Result<Closed, Open>, Fail> {
    let alphabet = three_letters(alloc)?;
    let dfa = dfa_of(alloc, alphabet, 0, given.accepting, given.targets)?;
    Ok(close(alloc, &dfa))
}

/// Tables of closed languages, and how many states the minimal ones have.
static CLOSED: [(Given, usize); 2] = [
    // An even number of `a`.
    (
        Given {
            accepting: &[true, false],
            targets: &[1, 0, 0, 0, 1, 1],
        },
        2,
    ),
    // The letters `a` and `b` lead to two states by their order, which accept the same words.
    (
        Given {
            accepting: &[false, false, false, true, true],
            targets: &[1, 2, 0, 1, 3, 1, 4, 2, 2, 3, 3, 3, 4, 4, 4],
        },
        4,
    ),
];

#[test]
fn closed_languages(rt: HostRuntime) -> Result<(), Fail> {
    for (given, states) in &CLOSED {
        let closed = closure_of(rt.alloc(), given)??;
        assert_eq!(rt; closed.dfa().states(), *states);
    }
    Ok(())
}

/// Tables of languages that aren't closed, and the two words.
static OPEN: [(Given, &[Letter], &[Letter]); 2] = [
    // Where `a` and then `b` is accepted after `c`, and told by another `c`; state 5 is the end.
    (
        Given {
            accepting: &[false, false, false, false, true, false],
            targets: &[5, 5, 1, 2, 5, 5, 5, 3, 5, 5, 5, 4, 5, 5, 5, 5, 5, 5],
        },
        &[C, A, B, C],
        &[C, B, A, C],
    ),
    // Two letters tell the order: the lesser one is named.
    (
        Given {
            accepting: &[false, false, false, true, false],
            targets: &[1, 4, 4, 4, 2, 4, 3, 4, 3, 4, 4, 4, 4, 4, 4],
        },
        &[A, B, A],
        &[B, A, A],
    ),
];

fn assert_open(rt: &impl Abort, open: &Open, first: &[Letter], second: &[Letter]) {
    match open {
        Open::NotClosed { left, right } => {
            assert_eq!(rt; left.letters(), first);
            assert_eq!(rt; right.letters(), second);
        }
        _ => panic!(rt; "no two words"),
    }
}

#[test]
fn two_words_show_that_a_language_is_open(rt: HostRuntime) -> Result<(), Fail> {
    for (given, first, second) in &OPEN {
        match closure_of(rt.alloc(), given)? {
            Ok(_) => panic!(&rt; "closed"),
            Err(open) => assert_open(&rt, &open, first, second),
        }
    }
    Ok(())
}
