//! The table at its widest, of ten processes, 128 letters and 129 states: labels and local states of a run
//! against those by positions and by transitions from the start.

ghost use Rattle.std.specs.Prelude.{◌≡◌, IfOk};
ghost use Rattle.za_script.specs.ScriptLists.{FitAlphabet};

use crate::locals::{labelled, letters_of, played, wide};
use std::alloc::Global;
use std::process::Abort;
use std::test::Fail;
use za_alpha::{Letter, Word};
use za_dfa::Closed;
use za_local::Local;
use za_script::{Answer, Scripts};
use za_table::{Ended, solo};

/// Appends a letter to the script of each of its processes.
fn add_letter(
    rt: &impl Abort,
    closed: &Closed,
    scripts: &mut Scripts,
    a: Letter,
) -> Result<(), Fail> {
    let alphabet = closed.dfa().alphabet();
    assert!(rt; (a.0 as usize) < alphabet.letters());
    for p in 0..alphabet.processes() {
        if alphabet.loc(a).has(p) {
            assert!(rt; p < scripts.processes());
            scripts.add(alphabet, p, a)?;
        }
    }
    Ok(())
}

/// The scripts that these letters weave.
fn scripts_of(
    rt: &impl Abort,
    alloc: Global,
    closed: &Closed,
    letters: &[u8],
) -> Result<Scripts, Fail>
    ensures { IfOk result (λ scripts. FitAlphabet closed.now.alphabet scripts) }
{
    let mut scripts = Scripts::empty(alloc, closed.dfa().alphabet().processes())?;
    for letter in letters {
        add_letter(rt, closed, &mut scripts, Letter(*letter))?;
    }
    assert!(rt; scripts.fits(closed.dfa().alphabet()));
    Ok(scripts)
}

/// The letters of a word as numbers.
fn numbers_of(alloc: Global, word: &Word) -> Result<Vec<u8>, Fail> {
    let mut numbers = Vec::new(alloc);
    for a in word.letters() {
        numbers.push(a.0)?;
    }
    Ok(numbers)
}

fn assert_labels(rt: &impl Abort, ended: &Ended, events: &[(u8, u16)]) {
    for (at, event) in events.iter().enumerate() {
        assert!(rt; at < ended.word().len());
        assert_eq!(rt; ended.label(at), event.1);
    }
}

fn assert_locals(rt: &impl Abort, closed: &Closed, ended: &Ended, locals: &[Local])
    requires { closed.now ≡ ended.now.given.dfa }
{
    for p in 0..closed.dfa().alphabet().processes() {
        assert!(rt; p < locals.len());
        assert!(rt; *ended.local(p) == locals[p]);
    }
}

/// Compares the labels of a run with those by positions, and its local states with those by transitions from
/// the start.
fn assert_ended(rt: &impl Abort, alloc: Global, closed: &Closed, ended: &Ended) -> Result<(), Fail>
    requires { closed.now ≡ ended.now.given.dfa }
{
    let letters = numbers_of(alloc, ended.word())?;
    let (marks, events) = labelled(rt, alloc, closed.dfa().alphabet(), letters.as_slice())?;
    assert_labels(rt, ended, events.as_slice());
    let mut word = Word::new(alloc);
    let locals = played(rt, alloc, closed, &mut word, events.as_slice())?;
    assert_locals(rt, closed, ended, locals.as_slice());
    drop(locals);
    drop(word);
    drop(events);
    drop(marks);
    drop(letters);
    Ok(())
}

/// The first number of a sequence, how many letters it gives, and how many lines a cache has.
type Run = (u32, usize, u8);

static RUNS: [Run; 2] = [(1, 40, 0), (2, 12, 1)];

/// Runs the scripts of these letters with so many lines of a cache.
fn run_alone(
    rt: &impl Abort,
    alloc: Global,
    closed: &Closed,
    letters: &[u8],
    cache: u8,
) -> Result<Ended, Fail>
    ensures { IfOk result (λ e. closed.now ≡ e.given.dfa) }
{
    let scripts = scripts_of(rt, alloc, closed, letters)?;
    Ok(solo(alloc, closed.copy()?, scripts, cache)?)
}

fn assert_accepted(rt: &impl Abort, ended: &Ended, count: usize) {
    assert_eq!(rt; ended.answer(), Answer::Accept);
    assert_eq!(rt; ended.word().len(), count);
}

fn assert_run(rt: &impl Abort, alloc: Global, closed: &Closed, case: &Run) -> Result<(), Fail> {
    let (seed, count, cache) = *case;
    let letters = letters_of(alloc, seed, count)?;
    let ended = run_alone(rt, alloc, closed, letters.as_slice(), cache);
    drop(letters);
    let ended = ended?;
    assert_accepted(rt, &ended, count);
    let tried = assert_ended(rt, alloc, closed, &ended);
    drop(ended);
    tried
}

fn assert_runs(rt: &impl Abort, alloc: Global, closed: &Closed) -> Result<(), Fail> {
    for case in &RUNS {
        assert_run(rt, alloc, closed, case)?;
    }
    Ok(())
}

#[test]
fn runs_at_the_widest(rt: HostRuntime) -> Result<(), Fail> {
    let closed = wide(&rt, rt.alloc())?;
    let tried = assert_runs(&rt, rt.alloc(), &closed);
    drop(closed);
    tried
}
