//! Scripts: letters and runs of them, whether they fit an alphabet, what they weave, and what is left of them.

use crate::common::three_letters;
use samples::{A, B, C, ONE_PROCESS, alphabet_of, has_letters, scripts_of, word_of};
use std::alloc::Global;
use std::process::Abort;
use std::test::Fail;
use za_alpha::{Alphabet, Letter, Word};
use za_dfa::Dfa;
use za_script::{Answer, ScriptFault, Scripts, Woven, answer_of, count_of, weave};

fn assert_script(rt: &impl Abort, scripts: &Scripts, p: usize, letters: &[u8]) {
    assert!(rt; p < scripts.processes());
    assert!(rt; has_letters(scripts.script(p), letters));
}

/// Letter `b` isn't of process 0.
const FOREIGN: ScriptFault = ScriptFault::Foreign {
    process: 0,
    letter: B,
};

/// Letters, each for a script, and the answers.
static APPENDED: [(usize, Letter, Result<(), ScriptFault>); 3] = [
    (0, A, Ok(())),
    (0, B, Err(FOREIGN)),
    (1, C, Ok(())),
];

fn append_all(rt: &impl Abort, scripts: &mut Scripts, alphabet: &Alphabet) {
    for (p, a, answer) in &APPENDED {
        assert!(rt; *p < scripts.processes() && *p < alphabet.processes());
        assert!(rt; (a.0 as usize) < alphabet.letters());
        assert!(rt; scripts.add(alphabet, *p, *a) == *answer);
    }
}

#[test]
fn letters_are_appended_or_refused(rt: HostRuntime) -> Result<(), Fail> {
    let alphabet = three_letters(rt.alloc())?;
    let mut scripts = Scripts::empty(rt.alloc(), 2)?;
    append_all(&rt, &mut scripts, &alphabet);
    assert_script(&rt, &scripts, 0, &[0]);
    assert_script(&rt, &scripts, 1, &[2]);
    Ok(())
}

/// A run of letters for a script: the answer, and how many letters there are after it.
type Run = (usize, Letter, u32, Result<(), ScriptFault>, usize);

fn assert_runs(rt: &impl Abort, scripts: &mut Scripts, alphabet: &Alphabet, runs: &[Run]) {
    for (p, a, count, answer, total) in runs {
        assert!(rt; *p < scripts.processes() && *p < alphabet.processes());
        assert!(rt; (a.0 as usize) < alphabet.letters() && 0 < *count);
        assert!(rt; scripts.add_run(alphabet, *p, *a, *count) == *answer);
        assert_eq!(rt; scripts.total(), *total);
    }
}

static FIRST_RUNS: [Run; 5] = [
    (0, A, 2, Ok(()), 2),
    (0, B, 1, Err(FOREIGN), 2),
    (0, A, 65535, Err(ScriptFault::Full), 2),
    (0, C, 1, Ok(()), 3),
    (0, B, 70000, Err(FOREIGN), 3),
];

static LAST_RUN: [Run; 1] = [(1, B, 65533, Ok(()), 65536)];

#[test]
fn runs_are_appended_whole_or_refused(rt: HostRuntime) -> Result<(), Fail> {
    let alphabet = three_letters(rt.alloc())?;
    let mut scripts = Scripts::empty(rt.alloc(), 2)?;
    assert_runs(&rt, &mut scripts, &alphabet, &FIRST_RUNS);
    assert_script(&rt, &scripts, 0, &[0, 0, 2]);
    assert_script(&rt, &scripts, 1, &[]);
    assert_runs(&rt, &mut scripts, &alphabet, &LAST_RUN);
    Ok(())
}

static TWO_LETTERS: [(usize, Letter); 2] = [(0, A), (1, C)];

/// Whether the scripts of two processes fit an alphabet of one.
fn fit_one(alloc: Global, scripts: &Scripts) -> Result<bool, Fail> {
    Ok(scripts.fits(&alphabet_of(alloc, 1, &ONE_PROCESS)?))
}

/// Scripts of two letters, which fit three.
fn two_scripts(rt: &impl Abort, alloc: Global) -> Result<Scripts, Fail> {
    let alphabet = three_letters(alloc)?;
    let copy = scripts_of(alloc, &alphabet, &TWO_LETTERS)?.copy()?;
    assert!(rt; copy.fits(&alphabet));
    Ok(copy)
}

#[test]
fn scripts_fit_their_alphabet(rt: HostRuntime) -> Result<(), Fail> {
    let scripts = two_scripts(&rt, rt.alloc())?;
    assert!(rt; scripts.processes() == 2 && scripts.total() == 2);
    assert!(rt; !fit_one(rt.alloc(), &scripts)?);
    Ok(())
}

/// The answer of an automaton that accepts the empty word alone.
fn answer(
    rt: &impl Abort,
    alloc: Global,
    alphabet: &Alphabet,
    woven: &Woven,
) -> Result<Answer, Fail> {
    let dfa = Dfa::complete(alloc, alphabet.copy()?, 1, 0, vec![in alloc; true]?, &[])?;
    assert!(rt; dfa.alphabet().has_word(woven.word()));
    Ok(answer_of(&dfa, woven))
}

/// The letters of scripts, each with its process.
type Lines = &'static [(usize, Letter)];

/// The scripts `a c a` and `b c`.
const WHOLE: Lines = &[(0, A), (0, C), (0, A), (1, B), (1, C)];

/// The scripts `c a` and `b`.
const STUCK: Lines = &[(0, C), (0, A), (1, B)];

/// Scripts of two processes, the word that they weave, how many letters of it each has, and the answer.
type Weave = (Lines, &'static [u8], (usize, usize), Answer);

static WEAVES: [Weave; 3] = [
    (WHOLE, &[0, 1, 2, 0], (3, 2), Answer::Reject),
    (STUCK, &[1], (0, 1), Answer::Stuck),
    (&[], &[], (0, 0), Answer::Accept),
];

/// The woven word, of which the processes have so many letters.
fn woven_of(
    rt: &impl Abort,
    alloc: Global,
    alphabet: &Alphabet,
    letters: &[(usize, Letter)],
    counts: (usize, usize),
) -> Result<Woven, Fail> {
    let scripts = scripts_of(alloc, alphabet, letters)?;
    assert!(rt; alphabet.processes() == 2);
    let woven = weave(alloc, alphabet, &scripts)?;
    assert!(rt; woven.count(0) == counts.0 && woven.count(1) == counts.1);
    Ok(woven)
}

fn assert_weave(
    rt: &impl Abort,
    alloc: Global,
    alphabet: &Alphabet,
    weave: &Weave,
) -> Result<(), Fail> {
    let (letters, word, counts, by_word) = weave;
    let woven = woven_of(rt, alloc, alphabet, letters, *counts)?;
    assert!(rt; has_letters(woven.word(), word));
    assert!(rt; answer(rt, alloc, alphabet, &woven)? == *by_word);
    Ok(())
}

#[test]
fn two_processes_weave(rt: HostRuntime) -> Result<(), Fail> {
    let alphabet = three_letters(rt.alloc())?;
    for weave in &WEAVES {
        assert_weave(&rt, rt.alloc(), &alphabet, weave)?;
    }
    Ok(())
}

/// Scripts of two processes, a word that they begin with, how many letters of the word each process has, and
/// what the word leaves of both scripts.
type RestCase = (Lines, &'static [u8], (usize, usize), [&'static [u8]; 2]);

static RESTS: [RestCase; 6] = [
    (WHOLE, &[], (0, 0), [&[0, 2, 0], &[1, 2]]),
    (WHOLE, &[1], (0, 1), [&[0, 2, 0], &[2]]),
    (WHOLE, &[0, 1], (1, 1), [&[2, 0], &[2]]),
    (WHOLE, &[0, 1, 2], (2, 2), [&[0], &[]]),
    (WHOLE, &[0, 1, 2, 0], (3, 2), [&[], &[]]),
    (STUCK, &[1], (0, 1), [&[2, 0], &[]]),
];

/// How many letters of a word two processes have.
fn counts_of(rt: &impl Abort, alphabet: &Alphabet, word: &Word) -> (usize, usize) {
    assert!(rt; alphabet.has_word(word));
    let letters = word.letters();
    (
        count_of(alphabet, 0, letters),
        count_of(alphabet, 1, letters),
    )
}

/// What a word leaves, of which the processes have so many letters.
fn rest_of(
    rt: &impl Abort,
    alphabet: &Alphabet,
    scripts: &Scripts,
    word: &Word,
    counts: (usize, usize),
) -> Result<Scripts, Fail> {
    assert!(rt; counts_of(rt, alphabet, word) == counts, "{word:?}");
    assert!(rt; alphabet.has_word(word));
    Ok(scripts.rest(alphabet, word.letters())?)
}

fn assert_scripts(rt: &impl Abort, scripts: &Scripts, first: &[u8], second: &[u8]) {
    assert_eq!(rt; scripts.processes(), 2);
    assert_script(rt, scripts, 0, first);
    assert_script(rt, scripts, 1, second);
    assert_eq!(rt;
        Some(scripts.total()),
        first.len().checked_add(second.len())
    );
}

fn assert_rest(
    rt: &impl Abort,
    alloc: Global,
    alphabet: &Alphabet,
    case: &RestCase,
) -> Result<(), Fail> {
    let (letters, word, counts, [first, second]) = case;
    let scripts = scripts_of(alloc, alphabet, letters)?;
    let word = word_of(alloc, word)?;
    let rest = rest_of(rt, alphabet, &scripts, &word, *counts)?;
    assert_scripts(rt, &rest, first, second);
    Ok(())
}

#[test]
fn words_leave_rests_of_scripts(rt: HostRuntime) -> Result<(), Fail> {
    let alphabet = three_letters(rt.alloc())?;
    for case in &RESTS {
        assert_rest(&rt, rt.alloc(), &alphabet, case)?;
    }
    Ok(())
}
