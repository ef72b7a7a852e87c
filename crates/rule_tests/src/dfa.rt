//! Tables of automata: by rows, as lists, and state by state; closed ones, and what breaks them.

ghost use Rattle.std.specs.Prelude.{◌≡◌, ◌<◌, All, IsTrue};

use crate::common::{accepting_of, accepts, assert_table, targets_of, three_letters, two_letters};
use samples::{A, B, C, closed_of, dfa_of, word_of};
use std::alloc::{AllocError, Global};
use std::process::Abort;
use std::test::Fail;
use za_alpha::{Alphabet, Letter};
use za_dfa::{Closed, Dfa, DfaFault, Diamond, Partial, Row, TwoTargets, first_broken};

/// A row: a state, a letter, and where it leads.
type Cell = (u32, Letter, u32);

fn rows_of(alloc: Global, cells: &[Cell]) -> Result<Vec<Row>, AllocError> {
    let mut rows = Vec::new(alloc);
    for (from, letter, to) in cells {
        rows.push(Row {
            from: *from,
            letter: *letter,
            to: *to,
        })?;
    }
    Ok(rows)
}

fn are_known(rows: &[Row], letters: usize) -> bool
    ensures { IsTrue result → All (λ row. row.letter.0 < letters) rows.now }
{
    for row in rows {
        if (row.letter.0 as usize) >= letters {
            return false;
        }
    }
    true
}

/// So many states, of which state 0 alone accepts.
fn first_accepts(alloc: Global, states: u32) -> Result<Vec<bool>, AllocError> {
    let mut accepting = Vec::new(alloc);
    for state in 0..states {
        accepting.push(state == 0)?;
    }
    Ok(accepting)
}

/// What rows make of which state 0 alone accepts.
fn completed(
    rt: &impl Abort,
    alloc: Global,
    alphabet: Alphabet,
    states: u32,
    start: u32,
    cells: &[Cell],
) -> Result<Result<Dfa, DfaFault>, Fail> {
    let rows = rows_of(alloc, cells)?;
    assert!(rt; are_known(&rows, alphabet.letters()));
    let accepting = first_accepts(alloc, states)?;
    assert!(rt; accepting.len() == states as usize);
    Ok(Dfa::complete(alloc, alphabet, states, start, accepting, &rows))
}

/// Tries words, of which it is said whether they are accepted.
fn try_words(
    rt: &impl Abort,
    alloc: Global,
    dfa: &Dfa,
    words: &[(&[u8], bool)],
) -> Result<(), Fail> {
    for (letters, accepted) in words {
        assert_eq!(rt;
            accepts(rt, alloc, dfa, letters)?,
            *accepted,
            "at {letters:?}"
        );
    }
    Ok(())
}

/// `a` tells the states apart, `b` and `c` leave them.
static PARITY_OF_A: [Cell; 6] = [
    (0, A, 1),
    (0, B, 0),
    (0, C, 0),
    (1, A, 0),
    (1, B, 1),
    (1, C, 1),
];

fn parity_of_a(rt: &impl Abort, alloc: Global) -> Result<Dfa, Fail> {
    Ok(completed(rt, alloc, three_letters(alloc)?, 2, 0, &PARITY_OF_A)??)
}

static EVEN: [(&[u8], bool); 4] = [
    (&[0, 1, 2, 0], true),
    (&[], true),
    (&[2, 0, 1], false),
    (&[0, 0, 0], false),
];

#[test]
fn even_numbers_of_a_are_accepted(rt: HostRuntime) -> Result<(), Fail> {
    let dfa = parity_of_a(&rt, rt.alloc())?;
    assert!(rt; dfa.states() == 2 && dfa.alphabet().letters() == 3 && dfa.start() == 0);
    try_words(&rt, rt.alloc(), &dfa, &EVEN)
}

#[test]
fn a_word_leads_on_from_any_state(rt: HostRuntime) -> Result<(), Fail> {
    let dfa = parity_of_a(&rt, rt.alloc())?;
    let word = word_of(rt.alloc(), &[1, 0])?;
    assert!(rt; 1 < dfa.states() && dfa.alphabet().has_word(&word));
    assert_eq!(rt; dfa.run(1, &word), 0);
    Ok(())
}

/// Stops unless two alphabets have as many processes, and the same letters in the same order.
fn assert_same_alphabet(rt: &impl Abort, a: &Alphabet, b: &Alphabet) {
    assert!(rt; a.processes() == b.processes() && a.letters() == b.letters());
    for at in 0..a.letters() as u8 {
        let letter = Letter(at);
        assert!(rt; *a.name(letter) == *b.name(letter) && a.loc(letter) == b.loc(letter));
    }
}

/// Stops unless two tables are the same in all that they have.
fn assert_same_table(rt: &impl Abort, alloc: Global, a: &Dfa, b: &Dfa) -> Result<(), Fail> {
    assert_eq!(rt; a.start(), b.start());
    let accepting = accepting_of(alloc, b)?;
    let targets = targets_of(alloc, b)?;
    assert_table(rt, alloc, a, &accepting, &targets)?;
    assert_same_alphabet(rt, a.alphabet(), b.alphabet());
    Ok(())
}

fn assert_copied(rt: &impl Abort, alloc: Global, closed: &Closed) -> Result<(), Fail> {
    let copy = closed.copy()?;
    assert_same_table(rt, alloc, copy.dfa(), closed.dfa())?;
    try_words(rt, alloc, copy.dfa(), &EVEN)
}

#[test]
fn even_numbers_of_a_are_closed(rt: HostRuntime) -> Result<(), Fail> {
    let dfa = parity_of_a(&rt, rt.alloc())?;
    assert!(rt; first_broken(&dfa).is_none());
    assert_copied(&rt, rt.alloc(), &closed_of(dfa)?)
}

static ODD: [(&[u8], bool); 4] = [
    (&[0], true),
    (&[], false),
    (&[2, 0, 1], true),
    (&[0, 0], false),
];

/// From where one `a` leads, an odd number more of them makes an even one.
#[test]
fn a_closed_table_with_another_start(rt: HostRuntime) -> Result<(), Fail> {
    let closed = closed_of(parity_of_a(&rt, rt.alloc())?)?;
    assert!(rt; closed.dfa().states() == 2);
    let rest = closed.restart(1);
    assert_eq!(rt; rest.dfa().start(), 1);
    try_words(&rt, rt.alloc(), rest.dfa(), &ODD)
}

/// `b` leads nowhere from the first state, nor `a` from the second.
static A_THEN_B: [Cell; 2] = [(0, A, 1), (1, B, 0)];

static BY_TURNS: [(&[u8], bool); 2] = [(&[0, 1], true), (&[1, 0], false)];

#[test]
fn missing_rows_lead_to_an_added_state(rt: HostRuntime) -> Result<(), Fail> {
    let alphabet = two_letters(rt.alloc())?;
    let dfa = completed(&rt, rt.alloc(), alphabet, 2, 0, &A_THEN_B)??;
    let (accepting, targets) = (&[true, false, false], &[1, 2, 2, 0, 2, 2]);
    assert_table(&rt, rt.alloc(), &dfa, accepting, targets)?;
    try_words(&rt, rt.alloc(), &dfa, &BY_TURNS)
}

/// A table over two letters without a common process that begins in state 1 and accepts it.
fn blank(alloc: Global) -> Result<Partial, Fail> {
    let mut partial = Partial::blank(alloc, two_letters(alloc)?, 2)?;
    partial.start_at(1);
    partial.accept(1);
    Ok(partial)
}

fn enter(
    rt: &impl Abort,
    partial: &mut Partial,
    q: u8,
    a: Letter,
    r: u8,
) -> Result<(), TwoTargets> {
    assert!(rt; (q as usize) < partial.states() && (r as usize) < partial.states());
    assert!(rt; (a.0 as usize) < partial.alphabet().letters());
    partial.enter(q, a, r)
}

/// A row, and whether it may be entered after those before it.
type Entered = (u8, Letter, u8, Result<(), TwoTargets>);

static ENTERED: [Entered; 4] = [
    (0, A, 1, Ok(())),
    (0, A, 0, Err(TwoTargets)),
    (0, A, 1, Ok(())),
    (1, B, 0, Ok(())),
];

static FROM_1: [(&[u8], bool); 2] = [(&[1, 0], true), (&[0], false)];

fn enter_all(rt: &impl Abort, partial: &mut Partial, rows: &[Entered]) {
    for (q, a, r, answer) in rows {
        assert!(rt; enter(rt, partial, *q, *a, *r) == *answer, "at {q}");
    }
}

/// What such a table with these rows is completed to.
fn entered(rt: &impl Abort, alloc: Global, rows: &[Entered]) -> Result<Dfa, Fail> {
    let mut partial = blank(alloc)?;
    enter_all(rt, &mut partial, rows);
    Ok(partial.completed()?)
}

/// Stops unless a table has an added state and starts in state 1. Tries words.
fn assert_completed(
    rt: &impl Abort,
    alloc: Global,
    dfa: &Dfa,
    words: &[(&[u8], bool)],
) -> Result<(), Fail> {
    assert_eq!(rt; (dfa.states(), dfa.start()), (3, 1));
    try_words(rt, alloc, dfa, words)
}

#[test]
fn a_partial_table_row_by_row(rt: HostRuntime) -> Result<(), Fail> {
    let dfa = entered(&rt, rt.alloc(), &ENTERED)?;
    assert_completed(&rt, rt.alloc(), &dfa, &FROM_1)
}

static ONE_ROW: [Entered; 1] = [(1, B, 0, Ok(()))];

static NOT_B: [(&[u8], bool); 2] = [(&[], true), (&[1], false)];

/// The table with one row, by way of the partial one that it is.
fn again(rt: &impl Abort, alloc: Global) -> Result<Dfa, Fail> {
    let dfa = entered(rt, alloc, &ONE_ROW)?;
    assert!(rt; dfa.states() == 3);
    Ok(Partial::of(alloc, &dfa)?.complete()?)
}

#[test]
fn a_whole_table_is_a_partial_one(rt: HostRuntime) -> Result<(), Fail> {
    let dfa = again(&rt, rt.alloc())?;
    assert_completed(&rt, rt.alloc(), &dfa, &NOT_B)
}

#[test]
fn which_lists_are_tables(rt: HostRuntime) -> Result<(), Fail> {
    let alphabet = two_letters(rt.alloc())?;
    assert!(rt; !Dfa::is_table(&alphabet, 1, &[true, false], &[1, 0, 0]));
    assert!(rt; Dfa::is_table(&alphabet, 1, &[true, false], &[1, 0, 0, 1]));
    Ok(())
}

static BOTH_ONCE: [(&[u8], bool); 2] = [(&[1, 0], true), (&[0, 0], false)];

#[test]
fn a_whole_table(rt: HostRuntime) -> Result<(), Fail> {
    let alphabet = two_letters(rt.alloc())?;
    let dfa = dfa_of(rt.alloc(), alphabet, 1, &[true, false], &[1, 0, 0, 1])?;
    assert_eq!(rt; dfa.states(), 2);
    try_words(&rt, rt.alloc(), &dfa, &BOTH_ONCE)
}

/// `a` leads to state 1 and `b` to state 0, so the last letter tells the state.
static LAST_LETTER: [Cell; 4] = [(0, A, 1), (1, B, 0), (0, B, 0), (1, A, 1)];

fn last_letter(rt: &impl Abort, alloc: Global) -> Result<Dfa, Fail> {
    Ok(completed(rt, alloc, two_letters(alloc)?, 2, 0, &LAST_LETTER)??)
}

#[test]
fn a_broken_diamond_is_found(rt: HostRuntime) -> Result<(), Fail> {
    let diamond = Diamond {
        state: 0,
        left: A,
        right: B,
    };
    let dfa = last_letter(&rt, rt.alloc())?;
    assert_eq!(rt; first_broken(&dfa), Some(diamond));
    Ok(())
}

#[test]
fn a_broken_diamond_hands_the_dfa_back(rt: HostRuntime) -> Result<(), Fail> {
    let dfa = last_letter(&rt, rt.alloc())?;
    let refused = Closed::new(dfa).err().expect(&rt, "refused");
    assert_eq!(rt; refused.states(), 2);
    try_words(&rt, rt.alloc(), &refused, &BY_TURNS)
}

/// How many states, the start, rows, and the first fault if there is one.
static FAULTS: [(u32, u32, &[Cell], Option<DfaFault>); 8] = [
    (0, 0, &[], Some(DfaFault::StateCount)),
    (129, 0, &[], Some(DfaFault::StateCount)),
    (128, 127, &[], None),
    (2, 2, &[(0, A, 2)], Some(DfaFault::NoSuchStart)),
    (2, 0, &[(0, A, 2)], Some(DfaFault::NoSuchState { at: 0 })),
    (
        2,
        0,
        &[(0, A, 1), (2, B, 0)],
        Some(DfaFault::NoSuchState { at: 1 }),
    ),
    (
        2,
        0,
        &[(0, A, 1), (0, A, 0)],
        Some(DfaFault::TwoTargets {
            at: 1,
            state: 0,
            letter: A,
        }),
    ),
    (2, 0, &[(0, A, 1), (0, A, 1)], None),
];

#[test]
fn the_first_fault_is_named(rt: HostRuntime) -> Result<(), Fail> {
    for (states, start, cells, fault) in &FAULTS {
        let alphabet = two_letters(rt.alloc())?;
        let seen = completed(&rt, rt.alloc(), alphabet, *states, *start, cells)?.err();
        assert_eq!(rt; seen, *fault, "at {states} {start} {cells:?}");
    }
    Ok(())
}
