//! Local states against positions and the DFA: labels, the states of views, and the state of the word.

ghost use Rattle.std.specs.Prelude.{◌≡◌, ℕ, ◌<◌, List, [], length, IfOk, OnOk};
ghost use Rattle.za_local.specs.Locals.{AreAllLocalsAfter, HasShape};

use crate::gossip::assert_ids;
use samples::{closed_of, dfa_of, row, to_and_fro};
use std::alloc::{AllocError, Global};
use std::process::Abort;
use std::test::Fail;
use za_alpha::{Alphabet, Letter, LetterRow, OutOfMemory, Procs, Word};
use za_dfa::Closed;
use za_gossip::Gossip;
use za_local::{Bench, Local, fire_on, opening, openings, verdict, view_state};
use za_order::{BitRow, past};
use za_views::Marks;

/// Appends a letter to the word, gives each process its local state after it, and answers the label.
fn fire(
    closed: &Closed,
    a: Letter,
    word: &mut Word,
    locals: &mut [Local],
    bench: &mut Bench,
    fresh: &mut Local,
) -> Result<u16, OutOfMemory>
    requires letter { a.0 < length closed.now.alphabet.letters }
    requires locals { AreAllLocalsAfter closed.now word.old locals.old }
    requires processes { bench.old.processes ≡ closed.now.alphabet.processes }
    requires states { bench.old.states ≡ closed.now.states }
    requires fresh { HasShape closed.now.alphabet.processes closed.now.states fresh.old }
    ensures locals { OnOk result (AreAllLocalsAfter closed.now word.new locals.new) }
    ensures processes { OnOk result (bench.new.processes ≡ closed.now.alphabet.processes) }
    ensures states { OnOk result (bench.new.states ≡ closed.now.states) }
    ensures fresh { OnOk result (HasShape closed.now.alphabet.processes closed.now.states fresh.new) }
{
    let label = fire_on(closed, a, locals, bench, fresh);
    word.push(a)?;
    Ok(label)
}

/// Appends letters to the empty word, compares the labels of their events, and answers the local
/// states after them.
pub(crate) fn played(
    rt: &impl Abort,
    alloc: Global,
    closed: &Closed,
    word: &mut Word,
    events: &[(u8, u16)],
) -> Result<Vec<Local>, OutOfMemory>
    requires { word.old ≡ [] }
    ensures { IfOk result (λ locals. AreAllLocalsAfter closed.now word.new locals.items) }
{
    let mut locals = openings(alloc, closed)?;
    let mut bench = Bench::new(alloc, closed)?;
    let mut fresh = opening(alloc, closed)?;
    for (letter, label) in events {
        assert!(rt; (*letter as usize) < closed.dfa().alphabet().letters());
        let slice = locals.as_mut_slice();
        let fired = fire(closed, Letter(*letter), word, slice, &mut bench, &mut fresh)?;
        assert_eq!(rt; fired, *label);
    }
    drop(fresh);
    drop(bench);
    Ok(locals)
}

/// Where a word leads, by all local states after it.
fn joined(alloc: Global, closed: &Closed, locals: &[Local]) -> Result<u8, OutOfMemory>
    requires { (w : List ℕ) × AreAllLocalsAfter closed.now w locals.now }
{
    let mut bench = Bench::new(alloc, closed)?;
    for local in locals {
        bench.add(local);
    }
    Ok(verdict(closed, &bench))
}

/// The state of the view of process `p`, by its local state.
fn seen(closed: &Closed, locals: &[Local], p: usize) -> u8
    requires locals { (w : List ℕ) × AreAllLocalsAfter closed.now w locals.now }
    requires process { p < length locals.now }
{
    view_state(closed, &locals[p])
}

/// The letters of the events that are marked.
fn marked(alloc: Global, word: &Word, marks: &BitRow) -> Result<Word, OutOfMemory> {
    let mut view = Word::new(alloc);
    for (i, letter) in word.letters().iter().enumerate() {
        if i < marks.len() && marks.has(i) {
            view.push(*letter)?;
        }
    }
    Ok(view)
}

/// The letters of the view of a process whose latest event is `last`, by positions.
fn view_of(
    rt: &impl Abort,
    alloc: Global,
    alphabet: &Alphabet,
    word: &Word,
    last: Option<usize>,
) -> Result<Word, OutOfMemory> {
    let Some(e) = last else {
        return Ok(Word::new(alloc));
    };
    assert!(rt; e < word.len() && alphabet.has_word(word));
    let marks = past(alloc, alphabet, word, e)?;
    assert_eq!(rt; marks.len(), word.len());
    let view = marked(alloc, word, &marks);
    drop(marks);
    view
}

/// The marks of the word of these letters, and the letters with the labels of their events, by positions.
pub(crate) fn labelled(
    rt: &impl Abort,
    alloc: Global,
    alphabet: &Alphabet,
    letters: &[u8],
) -> Result<(Marks, Vec<(u8, u16)>), OutOfMemory>
    ensures { IfOk result (λ r. r.0.alphabet ≡ alphabet.now) }
{
    assert!(rt; letters.len() <= 65536);
    let mut marks = Marks::new(alloc, alphabet, letters.len())?;
    let mut events = Vec::new(alloc);
    for letter in letters {
        assert!(rt; marks.len() < marks.room());
        assert!(rt; (*letter as usize) < alphabet.letters());
        events.push((*letter, marks.push(Letter(*letter))))?;
    }
    Ok((marks, events))
}

/// Where a word leads from the start.
fn run(rt: &impl Abort, closed: &Closed, word: &Word) -> u8 {
    assert!(rt; closed.dfa().alphabet().has_word(word));
    closed.dfa().run(closed.dfa().start(), word)
}

/// Compares the state of each process's view, by its local state, with where the view by positions leads.
fn assert_views(
    rt: &impl Abort,
    alloc: Global,
    closed: &Closed,
    word: &Word,
    marks: &Marks,
    locals: &[Local],
) -> Result<(), OutOfMemory>
    requires locals { (w : List ℕ) × AreAllLocalsAfter closed.now w locals.now }
    requires marks { marks.now.alphabet ≡ closed.now.alphabet }
{
    let alphabet = closed.dfa().alphabet();
    for p in 0..alphabet.processes() {
        assert!(rt; p < locals.len());
        let view = view_of(rt, alloc, alphabet, word, marks.latest(p, p))?;
        assert_eq!(rt; seen(closed, locals, p), run(rt, closed, &view));
        drop(view);
    }
    Ok(())
}

/// Compares the state of the whole word, by the local states, with where the word leads.
fn assert_whole(
    rt: &impl Abort,
    alloc: Global,
    closed: &Closed,
    word: &Word,
    locals: &[Local],
) -> Result<(), OutOfMemory>
    requires { (w : List ℕ) × AreAllLocalsAfter closed.now w locals.now }
{
    assert_eq!(rt; joined(alloc, closed, locals)?, run(rt, closed, word));
    Ok(())
}

/// Plays the letters, and compares their labels with those by positions, and states by local states
/// with where words lead: the view of each process by positions, and the whole word.
fn assert_by_positions(
    rt: &impl Abort,
    alloc: Global,
    closed: &Closed,
    letters: &[u8],
) -> Result<(), OutOfMemory> {
    let (marks, events) = labelled(rt, alloc, closed.dfa().alphabet(), letters)?;
    let mut word = Word::new(alloc);
    let locals = played(rt, alloc, closed, &mut word, events.as_slice())?;
    let views = assert_views(rt, alloc, closed, &word, &marks, locals.as_slice());
    let whole = assert_whole(rt, alloc, closed, &word, locals.as_slice());
    drop(locals);
    drop(word);
    drop(events);
    drop(marks);
    views?;
    whole
}

/// A letter with a name of two bytes, by its number, and its processes.
fn letter_row(alloc: Global, number: u8, procs: &[u32]) -> Result<LetterRow, AllocError> {
    row(alloc, &[b'a' + number / 26, b'a' + number % 26], procs)
}

/// 128 letters of one to three of ten processes each.
fn widest_rows(alloc: Global) -> Result<Vec<LetterRow>, AllocError> {
    let mut rows = Vec::new(alloc);
    for i in 0..128u8 {
        let first = (i % 10) as u32;
        let second = (i / 10 % 10) as u32;
        let third = if i < 100 { second } else { (i % 7) as u32 };
        rows.push(letter_row(alloc, i, &[first, second, third])?)?;
    }
    Ok(rows)
}

/// The target of a letter in a table of 129 states. Each of the first 128 is a number below 8, which
/// the letters of process 0 change, and one below 16, which those of process 1 change, by the first
/// number too where they are of both. A few letters of process 0 lead from some states to the last.
fn wide_target(q: u8, a: u8, procs: Procs) -> u8 {
    if q >= 128 {
        return 128;
    }
    let x = q / 16;
    let y = q % 16;
    if procs.has(0) && x == 7 && a % 16 == 5 {
        return 128;
    }
    let along = if procs.has(0) { x } else { 0 };
    let first = if procs.has(0) { x * 3 + a % 8 } else { x };
    let second = if procs.has(1) {
        y * 5 + a % 16 + along % 8
    } else {
        y
    };
    first % 8 * 16 + second % 16
}

fn wide_targets(alloc: Global, alphabet: &Alphabet) -> Result<Vec<u8>, AllocError>
    requires { length alphabet.now.letters ≡ 128 }
{
    let mut targets = Vec::new(alloc);
    for q in 0..129u8 {
        for a in 0..128u8 {
            targets.push(wide_target(q, a, alphabet.loc(Letter(a))))?;
        }
    }
    Ok(targets)
}

static ALL: [bool; 129] = [true; 129];

/// The table of 129 states over the widest alphabet, which all accept.
pub(crate) fn wide(rt: &impl Abort, alloc: Global) -> Result<Closed, Fail> {
    let alphabet = Alphabet::new(alloc, 10, widest_rows(alloc)?)?;
    assert!(rt; alphabet.letters() == 128);
    let targets = wide_targets(alloc, &alphabet)?;
    let dfa = dfa_of(alloc, alphabet, 0, &ALL, &targets)?;
    closed_of(dfa)
}

/// The next of a sequence of numbers without an apparent order.
fn next(seed: u32) -> u32
    requires { seed < 65536 }
    ensures { result < 65536 }
{
    (seed * 25173 + 13849) % 65536
}

/// Letters of such a sequence.
pub(crate) fn letters_of(alloc: Global, seed: u32, count: usize) -> Result<Vec<u8>, AllocError> {
    let mut letters = Vec::new(alloc);
    let mut seed = seed;
    for _ in 0..count {
        seed = next(seed % 65536);
        letters.push((seed / 256 % 128) as u8)?;
    }
    Ok(letters)
}

fn assert_random(
    rt: &impl Abort,
    alloc: Global,
    closed: &Closed,
    seed: u32,
    count: usize,
) -> Result<(), OutOfMemory> {
    let letters = letters_of(alloc, seed, count)?;
    let tried = assert_by_positions(rt, alloc, closed, letters.as_slice());
    drop(letters);
    tried
}

/// The first number of a sequence, and how many letters it gives.
static RANDOM: [(u32, usize); 4] = [(1, 60), (2, 60), (3, 20), (4, 8)];

fn assert_all_random(rt: &impl Abort, alloc: Global, closed: &Closed) -> Result<(), OutOfMemory> {
    for (seed, count) in &RANDOM {
        assert_random(rt, alloc, closed, *seed, *count)?;
    }
    Ok(())
}

#[test]
fn labels_and_states_of_random_words(rt: HostRuntime) -> Result<(), Fail> {
    let closed = wide(&rt, rt.alloc())?;
    let tried = assert_all_random(&rt, rt.alloc(), &closed);
    drop(closed);
    Ok(tried?)
}

/// Ten letters, each of two neighbours of ten processes in a ring.
fn ring_rows(alloc: Global) -> Result<Vec<LetterRow>, AllocError> {
    let mut rows = Vec::new(alloc);
    for i in 0..10u8 {
        rows.push(letter_row(alloc, i, &[i as u32, ((i + 1) % 10) as u32])?)?;
    }
    Ok(rows)
}

/// The ring over one state.
fn ring(alloc: Global) -> Result<Closed, Fail> {
    let alphabet = Alphabet::new(alloc, 10, ring_rows(alloc)?)?;
    let dfa = dfa_of(alloc, alphabet, 0, &[true], &[0; 10])?;
    closed_of(dfa)
}

static ROUND: [u8; 10] = [0, 1, 2, 3, 4, 5, 6, 7, 8, 9];

#[test]
fn ring_of_ten(rt: HostRuntime) -> Result<(), Fail> {
    let closed = ring(rt.alloc())?;
    let tried = assert_by_positions(&rt, rt.alloc(), &closed, &ROUND);
    drop(closed);
    Ok(tried?)
}

/// The local states of both processes after a letter as the first event, whose label is 0.
fn after_first(
    rt: &impl Abort,
    alloc: Global,
    closed: &Closed,
    letter: u8,
) -> Result<Vec<Local>, OutOfMemory>
    ensures { IfOk result (λ locals. (w : List ℕ) × AreAllLocalsAfter closed.now w locals.items) }
{
    let mut word = Word::new(alloc);
    played(rt, alloc, closed, &mut word, &[(letter, 0)])
}

/// Compares the states of the views of two processes, and that of the whole word.
fn assert_states(
    rt: &impl Abort,
    alloc: Global,
    closed: &Closed,
    locals: &[Local],
    views: [u8; 2],
    whole: u8,
) -> Result<(), OutOfMemory>
    requires { (w : List ℕ) × AreAllLocalsAfter closed.now w locals.now }
{
    assert!(rt; locals.len() == 2);
    assert_eq!(rt; [seen(closed, locals, 0), seen(closed, locals, 1)], views);
    assert_eq!(rt; joined(alloc, closed, locals)?, whole);
    Ok(())
}

/// Every entry is the first event of `c`, whose number is 19.
fn assert_first(rt: &impl Abort, gossip: &Gossip) {
    assert_ids(rt, gossip.primary(), &[19; 2]);
    assert!(rt; gossip.primary().len() == 2);
    assert_ids(rt, gossip.secondary(0), &[19; 2]);
    assert_ids(rt, gossip.secondary(1), &[19; 2]);
    assert_ids(rt, gossip.tertiary(), &[19; 8]);
}

fn assert_all_first(rt: &impl Abort, locals: &[Local]) {
    for local in locals {
        assert_first(rt, local.gossip());
    }
}

/// Whether two processes have one local state.
fn are_same(rt: &impl Abort, locals: &[Local]) -> bool {
    assert!(rt; locals.len() == 2);
    locals[0] == locals[1]
}

/// A letter of both processes: they then have one local state.
fn assert_of_both(rt: &impl Abort, alloc: Global, closed: &Closed) -> Result<(), OutOfMemory> {
    let locals = after_first(rt, alloc, closed, 2)?;
    assert_all_first(rt, &locals);
    assert!(rt; are_same(rt, &locals));
    let tried = assert_states(rt, alloc, closed, &locals, [0, 0], 0);
    drop(locals);
    tried
}

#[test]
fn first_transition(rt: HostRuntime) -> Result<(), Fail> {
    let closed = to_and_fro(rt.alloc())?;
    let tried = assert_of_both(&rt, rt.alloc(), &closed);
    drop(closed);
    Ok(tried?)
}

fn assert_of_one(rt: &impl Abort, alloc: Global, closed: &Closed) -> Result<(), OutOfMemory> {
    let locals = after_first(rt, alloc, closed, 0)?;
    assert!(rt; !are_same(rt, &locals));
    let tried = assert_states(rt, alloc, closed, &locals, [1, 0], 1);
    drop(locals);
    tried
}

#[test]
fn a_letter_of_one_process(rt: HostRuntime) -> Result<(), Fail> {
    let closed = to_and_fro(rt.alloc())?;
    let tried = assert_of_one(&rt, rt.alloc(), &closed);
    drop(closed);
    Ok(tried?)
}

/// Puts an opening on an empty bench, finds it there, and takes it off again.
fn assert_counts(rt: &impl Abort, alloc: Global, closed: &Closed) -> Result<(), OutOfMemory> {
    let local = opening(alloc, closed)?;
    let mut bench = Bench::new(alloc, closed)?;
    assert!(rt; bench.is_empty() && closed.dfa().alphabet().processes() == 2);
    bench.add(&local);
    assert!(rt; bench.len() == 1 && bench.has(0, &local));
    bench.clear();
    assert_eq!(rt; bench.len(), 0);
    drop(bench);
    drop(local);
    Ok(())
}

#[test]
fn benches_count(rt: HostRuntime) -> Result<(), Fail> {
    let closed = to_and_fro(rt.alloc())?;
    let tried = assert_counts(&rt, rt.alloc(), &closed);
    drop(closed);
    Ok(tried?)
}
