//! Alphabets and words: sets of processes, projections and traces, letters one by one, and rows that are no
//! alphabet.

use samples::{A, B, C, Named, alphabet_of, has_letters, row, word_of};
use std::alloc::{AllocError, Global};
use std::process::Abort;
use std::test::Fail;
use za_alpha::{AlphaFault, Alphabet, Letter, Letters, NameFault, Procs, Word};

/// The letters `a 0`, `b 1` and `c 0 1`, of which the last names process 1 first and 0 last.
static TWO_PROCESSES: [Named; 3] = [(b"a", &[0]), (b"b", &[1]), (b"c", &[1, 0, 1])];

fn two_processes(alloc: Global) -> Result<Alphabet, Fail> {
    Ok(alphabet_of(alloc, 2, &TWO_PROCESSES)?.copy()?)
}

#[test]
fn letters_of_two_processes(rt: HostRuntime) -> Result<(), Fail> {
    let alphabet = two_processes(rt.alloc())?;
    assert!(rt; alphabet.processes() == 2 && alphabet.letters() == 3);
    assert!(rt; alphabet.independent(A, B) && !alphabet.independent(A, C));
    assert!(rt; alphabet.name(C) == b"c".as_slice() && alphabet.find(b"d").is_none());
    assert!(rt; alphabet.loc(C) == Procs(3));
    Ok(())
}

#[test]
fn sets_of_processes(rt: HostRuntime) {
    let set = Procs::none().with(1).with(0);
    assert!(rt; set.count() == 2 && set.least() == Some(0));
    assert!(rt; set.least_from(1) == Some(1) && set.with(9).least_from(2) == Some(9));
    assert!(rt; set.least_from(2).is_none() && Procs::none().with(15).least_from(16).is_none());
    assert!(rt; !set.is_below(1) && set.is_below(2));
    assert!(rt; Procs::none().with(3).union(set).count() == 3);
    assert!(rt; set.has(1) && !set.has(2) && !set.meets(Procs::none().with(2)));
}

/// Which letters of `a b c a` the processes have.
static PROJECTIONS: [(usize, &[u8]); 2] = [(0, &[0, 2, 0]), (1, &[1, 2])];

fn assert_projection(
    rt: &impl Abort,
    alphabet: &Alphabet,
    w: &Word,
    p: usize,
    letters: &[u8],
) -> Result<(), Fail> {
    assert!(rt; p < alphabet.processes() && alphabet.has_word(w));
    assert!(rt; has_letters(&alphabet.project(w, p)?, letters));
    Ok(())
}

fn assert_projections(rt: &impl Abort, alphabet: &Alphabet, w: &Word) -> Result<(), Fail> {
    for (p, letters) in &PROJECTIONS {
        assert_projection(rt, alphabet, w, *p, letters)?;
    }
    Ok(())
}

/// Words, and whether each is one trace with `a b c a`.
static TRACES: [(&[u8], bool); 3] = [
    (&[1, 0, 2, 0], true),
    (&[0, 2, 1, 0], false),
    (&[0, 1, 2], false),
];

fn is_one_trace(
    rt: &impl Abort,
    alloc: Global,
    alphabet: &Alphabet,
    w: &Word,
    v: &[u8],
) -> Result<bool, Fail> {
    let v = word_of(alloc, v)?.copy()?;
    assert!(rt; alphabet.has_word(w) && alphabet.has_word(&v));
    Ok(alphabet.same_trace(w, &v))
}

fn assert_traces(
    rt: &impl Abort,
    alloc: Global,
    alphabet: &Alphabet,
    w: &Word,
) -> Result<(), Fail> {
    for (letters, same) in &TRACES {
        let seen = is_one_trace(rt, alloc, alphabet, w, letters)?;
        assert_eq!(rt; seen, *same, "{letters:?}");
    }
    Ok(())
}

#[test]
fn words_of_two_processes(rt: HostRuntime) -> Result<(), Fail> {
    let alloc = rt.alloc();
    let alphabet = two_processes(alloc)?;
    let w = word_of(alloc, &[0, 1, 2, 0])?;
    assert_projections(&rt, &alphabet, &w)?;
    assert_traces(&rt, alloc, &alphabet, &w)
}

/// Letters of one process each, and the fault of the name if it has one.
static ADDED: [(&[u8], usize, Option<NameFault>); 5] = [
    (b"a", 0, None),
    (b"b", 1, None),
    (b"1", 1, Some(NameFault::Bad)),
    (b"b", 0, Some(NameFault::Repeated)),
    (b"c", 1, None),
];

/// Adds a letter of one process, unless its name has a fault.
fn add(
    rt: &impl Abort,
    alloc: Global,
    letters: &mut Letters,
    name: &[u8],
    process: usize,
) -> Result<Option<NameFault>, Fail> {
    let fault = letters.name_fault(name);
    if fault.is_none() {
        assert!(rt; process < 16 && !letters.is_full());
        let procs = Procs::none().with(process);
        assert!(rt; !procs.is_empty() && procs.is_below(letters.processes()));
        letters.add(Vec::from_slice(alloc, name)?, procs)?;
    }
    Ok(fault)
}

fn add_all(rt: &impl Abort, alloc: Global, letters: &mut Letters) -> Result<(), Fail> {
    for (name, process, fault) in &ADDED {
        let seen = add(rt, alloc, letters, name, *process)?;
        assert_eq!(rt; seen, *fault, "{name:?}");
    }
    Ok(())
}

/// The letters of those names that have no fault.
static FOUND: [(&[u8], Letter); 3] = [(b"a", A), (b"b", B), (b"c", C)];

fn assert_found(rt: &impl Abort, alphabet: &Alphabet) {
    for (name, letter) in &FOUND {
        assert_eq!(rt; alphabet.find(name), Some(*letter), "{name:?}");
    }
}

#[test]
fn letters_one_by_one(rt: HostRuntime) -> Result<(), Fail> {
    let mut letters = Letters::new(rt.alloc(), 2);
    assert!(rt; letters.is_empty());
    add_all(&rt, rt.alloc(), &mut letters)?;
    assert!(rt; letters.len() == 3 && letters.processes() == 2);
    assert_found(&rt, &letters.into_alphabet());
    Ok(())
}

/// A letter of one process.
const A_0: Named = (b"a", &[0]);

/// A letter of another.
const B_1: Named = (b"b", &[1]);

/// How many processes, letters of them, and the first fault.
static FAULTS: [(usize, &[Named], AlphaFault); 8] = [
    (0, &[A_0, B_1, (b"c", &[0])], AlphaFault::ProcessCount),
    (11, &[A_0, B_1, (b"c", &[0])], AlphaFault::ProcessCount),
    (
        1,
        &[A_0, B_1, (b"1", &[0])],
        AlphaFault::NoSuchProcess { at: 1 },
    ),
    (2, &[A_0, B_1, (b"1", &[9])], AlphaFault::BadName { at: 2 }),
    (
        2,
        &[A_0, B_1, (b"a", &[])],
        AlphaFault::RepeatedName { at: 2 },
    ),
    (2, &[A_0, B_1, (b"c", &[])], AlphaFault::EmptyLoc { at: 2 }),
    (
        2,
        &[A_0, B_1, (b"c", &[0, 2])],
        AlphaFault::NoSuchProcess { at: 2 },
    ),
    (1, &[], AlphaFault::LetterCount),
];

fn fault_of(alloc: Global, n: usize, letters: &[Named]) -> Result<Option<AlphaFault>, AllocError> {
    let mut rows = Vec::new(alloc);
    for (name, procs) in letters {
        rows.push(row(alloc, name, procs)?)?;
    }
    Ok(Alphabet::new(alloc, n, rows).err())
}

#[test]
fn first_wrong_row(rt: HostRuntime) -> Result<(), Fail> {
    for (n, letters, fault) in &FAULTS {
        assert_eq!(rt; fault_of(rt.alloc(), *n, letters)?, Some(*fault));
    }
    Ok(())
}

/// Letters, and how many times each stands.
static RUNS: [(Letter, u32); 3] = [(B, 2), (A, 0), (A, 1)];

#[test]
fn runs_of_one_letter(rt: HostRuntime) -> Result<(), Fail> {
    let mut word = Word::of_letters(Vec::new(rt.alloc()));
    for (letter, count) in &RUNS {
        word.push_run(*letter, *count)?;
    }
    assert!(rt; has_letters(&word, &[1, 1, 0]));
    Ok(())
}
