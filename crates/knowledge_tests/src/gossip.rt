//! What processes keep by numbers, against what they know by positions.

ghost use Rattle.std.specs.Prelude.{◌≡◌, ℕ, ◌<◌, ◌≤◌, IsTrue, [], ◌∷◌, ◌++◌, length, IfOk, OnOk};
ghost use Rattle.std.specs.List.{range_with_len};
ghost use Rattle.za_alpha.specs.Words.{has};
ghost use Rattle.za_alpha.specs.Alphabet.{loc_of};
ghost use Rattle.za_gossip.specs.Rows.{rows_after, AreRowsAfter};

use samples::{FOUR_PROCESSES, Named, ONE_PROCESS, RING, TWO_PROCESSES, alphabet_of, row};
use std::alloc::{AllocError, Global};
use std::process::Abort;
use std::test::Fail;
use za_alpha::{Alphabet, Letter, LetterRow, OutOfMemory, Word};
use za_gossip::{Gossip, advance, newest};
use za_ids::EventId;
use za_views::Marks;

/// Equal rows of their own.
pub(crate) fn copied(alloc: Global, n: usize, from: &Gossip) -> Result<Gossip, OutOfMemory>
    requires few { n ≤ 16 }
    requires shape { length from.now.primary ≡ n }
    ensures { IfOk result (λ g. g ≡ from.now) }
{
    let mut copy = Gossip::blank(alloc, n)?;
    copy.copy_from(from);
    Ok(copy)
}

/// What the participants of a letter keep, in rising order.
fn gathered(
    alloc: Global,
    alphabet: &Alphabet,
    a: Letter,
    word: &Word,
    states: &[Gossip],
) -> Result<Vec<Gossip>, OutOfMemory>
    requires letter { a.0 < length alphabet.now.letters }
    requires states { AreRowsAfter alphabet.now word.now (range_with_len 0 alphabet.now.processes) states.now }
    ensures { IfOk result (λ inputs. AreRowsAfter alphabet.now word.now (loc_of alphabet.now a.0) inputs.items) }
{
    let participants = alphabet.loc(a);
    let n = alphabet.processes();
    let mut inputs = Vec::new(alloc);
    for x in 0..n {
        if participants.has(x) {
            inputs.push(copied(alloc, n, &states[x])?)?;
        }
    }
    Ok(inputs)
}

/// What each process keeps after the event of a letter, whose participants keep `next`.
fn changed(
    alloc: Global,
    alphabet: &Alphabet,
    a: Letter,
    word: &Word,
    states: &[Gossip],
    next: &Gossip,
) -> Result<Vec<Gossip>, OutOfMemory>
    requires letter { a.0 < length alphabet.now.letters }
    requires states { AreRowsAfter alphabet.now word.now (range_with_len 0 alphabet.now.processes) states.now }
    requires next { (x : ℕ) → IsTrue (has (loc_of alphabet.now a.0) x) →
        next.now ≡ rows_after (loc_of alphabet.now) alphabet.now.processes (word.now ++ a.0 ∷ []) x }
    ensures { let all = range_with_len 0 alphabet.now.processes in
        IfOk result (λ after. AreRowsAfter alphabet.now (word.now ++ a.0 ∷ []) all after.items) }
{
    let participants = alphabet.loc(a);
    let n = alphabet.processes();
    let mut after = Vec::new(alloc);
    for x in 0..n {
        let rows = if participants.has(x) {
            next
        } else {
            &states[x]
        };
        after.push(copied(alloc, n, rows)?)?;
    }
    Ok(after)
}

/// Appends a letter to the word, gives each process what it keeps after it, and answers the label.
pub(crate) fn fire(
    alloc: Global,
    alphabet: &Alphabet,
    a: Letter,
    word: &mut Word,
    states: &mut Vec<Gossip>,
) -> Result<u16, OutOfMemory>
    requires letter { a.0 < length alphabet.now.letters }
    requires states { AreRowsAfter alphabet.now word.old (range_with_len 0 alphabet.now.processes) states.old.items }
    ensures { let all = range_with_len 0 alphabet.now.processes in
        OnOk result (AreRowsAfter alphabet.now word.new all states.new.items) }
{
    let inputs = gathered(alloc, alphabet, a, word, states.as_slice())?;
    let mut next = Gossip::blank(alloc, alphabet.processes())?;
    let label = advance(alphabet, a, inputs.as_slice(), &mut next);
    let after = changed(alloc, alphabet, a, word, states.as_slice(), &next)?;
    word.push(a)?;
    drop(next);
    drop(inputs);
    *states = after;
    Ok(label)
}

/// What each process keeps before any event.
pub(crate) fn opened(alloc: Global, alphabet: &Alphabet) -> Result<Vec<Gossip>, OutOfMemory>
    ensures { let all = range_with_len 0 alphabet.now.processes in
        IfOk result (λ states. AreRowsAfter alphabet.now [] all states.items) }
{
    let n = alphabet.processes();
    let mut states = Vec::new(alloc);
    for _ in 0..n {
        states.push(Gossip::blank(alloc, n)?)?;
    }
    Ok(states)
}

/// Appends a letter by numbers and by positions, and compares the labels of its event.
fn step(
    rt: &impl Abort,
    alloc: Global,
    alphabet: &Alphabet,
    letter: u8,
    word: &mut Word,
    states: &mut Vec<Gossip>,
    marks: &mut Marks,
) -> Result<(), OutOfMemory>
    requires states { AreRowsAfter alphabet.now word.old (range_with_len 0 alphabet.now.processes) states.old.items }
    requires marks { marks.old.alphabet ≡ alphabet.now }
    ensures states { let all = range_with_len 0 alphabet.now.processes in
        OnOk result (AreRowsAfter alphabet.now word.new all states.new.items) }
    ensures marks { OnOk result (marks.new.alphabet ≡ alphabet.now) }
{
    let a = Letter(letter);
    assert!(rt; (letter as usize) < alphabet.letters() && marks.len() < marks.room());
    let label = fire(alloc, alphabet, a, word, states)?;
    assert_eq!(rt; marks.push(a), label);
    Ok(())
}

fn assert_all_by_marks(
    rt: &impl Abort,
    alphabet: &Alphabet,
    word: &Word,
    marks: &Marks,
    states: &[Gossip],
)
    requires { marks.now.alphabet ≡ alphabet.now }
{
    for (p, state) in states.iter().enumerate() {
        assert!(rt; p < alphabet.processes());
        assert_by_marks(rt, alphabet, word, marks, p, state);
    }
}

/// Appends letters to the empty word by numbers and by positions, compares their labels and all that
/// the processes keep after them, and answers the latter.
fn played(
    rt: &impl Abort,
    alloc: Global,
    alphabet: &Alphabet,
    word: &mut Word,
    letters: &[u8],
) -> Result<Vec<Gossip>, OutOfMemory>
    requires empty { word.old ≡ [] }
    requires few { length letters.now ≤ 65536 }
    ensures { let all = range_with_len 0 alphabet.now.processes in
        IfOk result (λ states. AreRowsAfter alphabet.now word.new all states.items) }
{
    let mut states = opened(alloc, alphabet)?;
    let mut marks = Marks::new(alloc, alphabet, letters.len())?;
    for letter in letters {
        step(rt, alloc, alphabet, *letter, word, &mut states, &mut marks)?;
    }
    assert_all_by_marks(rt, alphabet, word, &marks, states.as_slice());
    drop(marks);
    Ok(states)
}

/// The number of an event by its position, and 0 for none.
fn number_at(rt: &impl Abort, n: usize, word: &Word, marks: &Marks, at: Option<usize>) -> u32 {
    match at {
        None => 0,
        Some(e) => {
            assert!(rt; e < word.len() && e < marks.len() && n <= 10);
            let (n, letter) = (n as u32, u32::from(word.letters()[e].0));
            let label = 1 + u32::from(marks.label(e));
            letter.wrapping_mul(n * n * n + 1).wrapping_add(label)
        }
    }
}

fn assert_number(
    rt: &impl Abort,
    n: usize,
    word: &Word,
    marks: &Marks,
    id: EventId,
    at: Option<usize>,
) {
    assert_eq!(rt; id.0, number_at(rt, n, word, marks, at));
}

fn assert_primary(rt: &impl Abort, n: usize, word: &Word, marks: &Marks, p: usize, ids: &[EventId])
    requires process { p < n }
    requires marks { marks.now.alphabet.processes ≡ n }
{
    assert_eq!(rt; ids.len(), n);
    for (q, id) in ids.iter().enumerate() {
        assert!(rt; q < n);
        assert_number(rt, n, word, marks, *id, marks.latest(p, q));
    }
}

fn assert_block(
    rt: &impl Abort,
    n: usize,
    word: &Word,
    marks: &Marks,
    p: usize,
    q: usize,
    ids: &[EventId],
)
    requires first { p < n }
    requires second { q < n }
    requires marks { marks.now.alphabet.processes ≡ n }
{
    assert_eq!(rt; ids.len(), n);
    for (r, id) in ids.iter().enumerate() {
        assert!(rt; r < n);
        assert_number(rt, n, word, marks, *id, marks.second(p, q, r));
    }
}

fn assert_tertiary(rt: &impl Abort, n: usize, word: &Word, marks: &Marks, p: usize, ids: &[EventId])
    requires process { p < n }
    requires marks { marks.now.alphabet.processes ≡ n }
{
    assert_eq!(rt; ids.len(), n.wrapping_mul(n).wrapping_mul(n));
    for (i, id) in ids.iter().enumerate() {
        let (q, r, s) = (i / n / n, i / n % n, i % n);
        assert!(rt; q < n && r < n && s < n);
        assert_number(rt, n, word, marks, *id, marks.third(p, q, r, s));
    }
}

/// Compares all that a process keeps with its entries by positions.
fn assert_by_marks(
    rt: &impl Abort,
    alphabet: &Alphabet,
    word: &Word,
    marks: &Marks,
    p: usize,
    state: &Gossip,
)
    requires process { p < alphabet.now.processes }
    requires marks { marks.now.alphabet ≡ alphabet.now }
{
    let n = alphabet.processes();
    assert_primary(rt, n, word, marks, p, state.primary());
    for q in 0..n {
        assert!(rt; q < state.primary().len());
        assert_block(rt, n, word, marks, p, q, state.secondary(q));
    }
    assert_tertiary(rt, n, word, marks, p, state.tertiary());
}

pub(crate) fn assert_ids(rt: &impl Abort, ids: &[EventId], numbers: &[u32]) {
    assert_eq!(rt; ids.len(), numbers.len());
    for (at, id) in ids.iter().enumerate() {
        assert!(rt; at < numbers.len());
        assert_eq!(rt; id.0, numbers[at]);
    }
}

/// A number of processes, their letters, a word, and the primary entries of the first processes after it.
type Case = (
    usize,
    &'static [Named],
    &'static [u8],
    &'static [&'static [u32]],
);

static CASES: [Case; 7] = [
    (1, &ONE_PROCESS, &[], &[&[0]]),
    (1, &ONE_PROCESS, &[0, 0], &[&[2]]),
    (1, &ONE_PROCESS, &[0, 0, 0], &[&[1]]),
    (2, &TWO_PROCESSES, &[2], &[&[19, 19], &[19, 19]]),
    (2, &TWO_PROCESSES, &[0, 1, 2, 0], &[&[1, 19], &[19, 19]]),
    (
        4,
        &FOUR_PROCESSES,
        &[2, 1, 0, 3],
        &[
            &[196, 1, 196, 66],
            &[131, 1, 1, 66],
            &[196, 1, 196, 66],
            &[131, 66, 0, 66],
        ],
    ),
    (3, &RING, &[0, 1, 2, 0, 1, 2, 0], &[]),
];

fn assert_rows(rt: &impl Abort, states: &[Gossip], rows: &[&[u32]]) {
    for (state, numbers) in states.iter().zip(rows) {
        assert_ids(rt, state.primary(), numbers);
    }
}

fn assert_case(rt: &impl Abort, alloc: Global, case: &Case) -> Result<(), Fail> {
    let (n, letters, word, rows) = *case;
    assert!(rt; word.len() <= 7);
    let alphabet = alphabet_of(alloc, n, letters)?;
    let mut played_word = Word::new(alloc);
    let states = played(rt, alloc, &alphabet, &mut played_word, word)?;
    assert_rows(rt, states.as_slice(), rows);
    drop(states);
    drop(played_word);
    drop(alphabet);
    Ok(())
}

#[test]
fn primary_entries_of_words(rt: HostRuntime) -> Result<(), Fail> {
    for case in &CASES {
        assert_case(&rt, rt.alloc(), case)?;
    }
    Ok(())
}

/// Which participant of a letter has the latest news of `r` after the word.
fn newest_after(
    alloc: Global,
    alphabet: &Alphabet,
    a: Letter,
    word: &Word,
    states: &[Gossip],
    r: usize,
) -> Result<usize, OutOfMemory>
    requires letter { a.0 < length alphabet.now.letters }
    requires process { r < alphabet.now.processes }
    requires states { AreRowsAfter alphabet.now word.now (range_with_len 0 alphabet.now.processes) states.now }
{
    let inputs = gathered(alloc, alphabet, a, word, states)?;
    Ok(newest(alphabet, a, inputs.as_slice(), r))
}

/// Compares who has the latest news of each process before a letter.
pub(crate) fn assert_newest(
    rt: &impl Abort,
    alloc: Global,
    alphabet: &Alphabet,
    a: Letter,
    word: &Word,
    states: &[Gossip],
    who: &[usize],
) -> Result<(), OutOfMemory>
    requires { AreRowsAfter alphabet.now word.now (range_with_len 0 alphabet.now.processes) states.now }
{
    for (r, x) in who.iter().enumerate() {
        assert!(rt; r < alphabet.processes() && (a.0 as usize) < alphabet.letters());
        assert_eq!(rt; newest_after(alloc, alphabet, a, word, states, r)?, *x);
    }
    Ok(())
}

/// Of process 0 both participants of f know the latest event after e d c, and of each other process
/// the second alone.
#[test]
fn latest_news_before_f(rt: HostRuntime) -> Result<(), Fail> {
    let alloc = rt.alloc();
    let alphabet = alphabet_of(alloc, 4, &FOUR_PROCESSES)?;
    let mut word = Word::new(alloc);
    let states = played(&rt, alloc, &alphabet, &mut word, &[2, 1, 0])?;
    let tried = assert_newest(
        &rt,
        alloc,
        &alphabet,
        Letter(3),
        &word,
        states.as_slice(),
        &[0, 1, 1, 1],
    );
    drop(states);
    drop(word);
    drop(alphabet);
    Ok(tried?)
}

/// The next of a sequence of numbers that look random.
fn next(x: u32) -> u32 {
    x.wrapping_mul(1_664_525).wrapping_add(1_013_904_223)
}

/// As many letters as there may be, of one to three processes of ten.
fn wide_rows(alloc: Global, seed: u32) -> Result<Vec<LetterRow>, AllocError> {
    let mut rows = Vec::new(alloc);
    let mut x = seed;
    for i in 0..128u8 {
        let mut row = row(alloc, &[b'l', b'a' + i / 16, b'a' + i % 16], &[])?;
        for _ in 0..1 + i % 3 {
            x = next(x);
            row.procs.push((x >> 16) % 10)?;
        }
        rows.push(row)?;
    }
    Ok(rows)
}

fn wide(alloc: Global, seed: u32) -> Result<Alphabet, Fail> {
    Ok(Alphabet::new(alloc, 10, wide_rows(alloc, seed)?)?)
}

/// 250 letters of such a sequence.
fn letters_of(alloc: Global, seed: u32) -> Result<Vec<u8>, AllocError> {
    let mut letters = Vec::new(alloc);
    let mut x = seed;
    for _ in 0..250 {
        x = next(x);
        letters.push(((x >> 16) % 128) as u8)?;
    }
    Ok(letters)
}

fn assert_random(rt: &impl Abort, alloc: Global, seed: u32) -> Result<(), Fail> {
    let alphabet = wide(alloc, seed)?;
    let letters = letters_of(alloc, seed)?;
    assert!(rt; letters.len() == 250);
    let mut word = Word::new(alloc);
    let states = played(rt, alloc, &alphabet, &mut word, letters.as_slice())?;
    assert_eq!(rt; (states.len(), alphabet.letters()), (10, 128));
    drop(states);
    drop(word);
    drop(letters);
    drop(alphabet);
    Ok(())
}

#[test]
fn ten_processes_and_random_words(rt: HostRuntime) -> Result<(), Fail> {
    for seed in 1..5 {
        assert_random(&rt, rt.alloc(), seed)?;
    }
    Ok(())
}
