//! Every order of firing of small jobs, found by trying each enabled letter, against the weave.

use crate::top::joined;
use samples::documents::{LOCK, LOCK_SCRIPTS, STUCK_SCRIPTS, TWO, TWO_SCRIPTS};
use std::alloc::Global;
use std::process::Abort;
use std::test::Fail;
use za_alpha::{Alphabet, Letter, OutOfMemory, Word};
use za_closure::close;
use za_dfa::{Closed, Dfa};
use za_lang::{Job, Lang, read_job};
use za_script::{Scripts, weave};

/// How many letters of the word belong to the process.
fn fired_by(rt: &impl Abort, alphabet: &Alphabet, word: &Word, p: usize) -> usize {
    let mut fired = 0usize;
    for b in word.letters() {
        assert!(rt; (b.0 as usize) < alphabet.letters());
        if alphabet.loc(*b).has(p) {
            fired = fired.saturating_add(1);
        }
    }
    fired
}

/// Whether the letter is the next one of each of its processes after the word.
fn is_enabled(
    rt: &impl Abort,
    alphabet: &Alphabet,
    scripts: &Scripts,
    word: &Word,
    a: Letter,
) -> bool {
    assert!(rt; (a.0 as usize) < alphabet.letters());
    for p in 0..scripts.processes() {
        let fired = fired_by(rt, alphabet, word, p);
        if alphabet.loc(a).has(p) && scripts.script(p).letters().get(fired) != Some(&a) {
            return false;
        }
    }
    true
}

/// Appends the words that one more enabled letter makes of this one.
fn fire_one(
    rt: &impl Abort,
    alphabet: &Alphabet,
    scripts: &Scripts,
    word: &Word,
    longer: &mut Vec<Word>,
) -> Result<(), OutOfMemory> {
    for a in 0..alphabet.letters() {
        let a = Letter(a as u8);
        if is_enabled(rt, alphabet, scripts, word, a) {
            let mut next = word.copy()?;
            next.push(a)?;
            longer.push(next)?;
        }
    }
    Ok(())
}

/// The words that one more enabled letter makes of these, and those that none can be appended to.
fn fire_each(
    rt: &impl Abort,
    alphabet: &Alphabet,
    scripts: &Scripts,
    words: Vec<Word>,
    maximal: &mut Vec<Word>,
    alloc: Global,
) -> Result<Vec<Word>, OutOfMemory> {
    let mut longer = Vec::new(alloc);
    for word in words {
        let before = longer.len();
        fire_one(rt, alphabet, scripts, &word, &mut longer)?;
        if longer.len() == before {
            maximal.push(word)?;
        }
    }
    Ok(longer)
}

/// The words that fit the scripts maximally, by firing each enabled letter in turn.
fn maximal_words(
    rt: &impl Abort,
    alloc: Global,
    alphabet: &Alphabet,
    scripts: &Scripts,
) -> Result<Vec<Word>, OutOfMemory> {
    let mut maximal = Vec::new(alloc);
    let mut words = Vec::new(alloc);
    words.push(Word::new(alloc))?;
    for _ in 0..scripts.total() {
        words = fire_each(rt, alphabet, scripts, words, &mut maximal, alloc)?;
    }
    fire_each(rt, alphabet, scripts, words, &mut maximal, alloc)?;
    Ok(maximal)
}

/// The word is one trace with the woven word, and has its answer.
fn assert_same_answer(rt: &impl Abort, dfa: &Dfa, word: &Word, woven: &Word) {
    let alphabet = dfa.alphabet();
    assert!(rt; alphabet.has_word(word));
    assert!(rt; alphabet.has_word(woven));
    assert!(rt; alphabet.same_trace(word, woven));
    assert_eq!(rt; dfa.accepts(word), dfa.accepts(woven));
}

/// How many words fit the scripts maximally; each has the answer of the weave.
fn orders_of(
    rt: &impl Abort,
    alloc: Global,
    dfa: &Dfa,
    scripts: &Scripts,
) -> Result<usize, OutOfMemory> {
    assert!(rt; scripts.fits(dfa.alphabet()));
    let woven = weave(alloc, dfa.alphabet(), scripts)?;
    let maximal = maximal_words(rt, alloc, dfa.alphabet(), scripts)?;
    for word in &maximal {
        assert_same_answer(rt, dfa, word, woven.word());
    }
    Ok(maximal.len())
}

fn job_of(rt: &impl Abort, alloc: Global, head: &str, scripts: &str) -> Result<Job, Fail> {
    let text = joined(alloc, head, scripts)?;
    assert!(rt; text.len() < 1000);
    Ok(read_job(alloc, text.as_slice()).ok().ok_or("refused")?)
}

fn closed_of(alloc: Global, lang: &Lang) -> Result<Closed, Fail> {
    Ok(close(alloc, &lang.dfa()?).ok().ok_or("not closed")?)
}

/// A job, and how many words fit its scripts maximally.
static ORDERS: [(&str, &str, usize); 4] = [
    (TWO, TWO_SCRIPTS, 2),
    (TWO, "script 0 a a c\nscript 1 b b c\nend\n", 6),
    (TWO, STUCK_SCRIPTS, 1),
    (LOCK, LOCK_SCRIPTS, 1),
];

fn assert_orders(
    rt: &impl Abort,
    alloc: Global,
    head: &str,
    scripts: &str,
    orders: usize,
) -> Result<(), Fail> {
    let job = job_of(rt, alloc, head, scripts)?;
    let closed = closed_of(alloc, &job.lang)?;
    assert_eq!(rt; orders_of(rt, alloc, closed.dfa(), &job.scripts)?, orders);
    Ok(())
}

#[test]
fn every_order_of_firing_has_the_answer_of_the_weave(rt: HostRuntime) -> Result<(), Fail> {
    for (head, scripts, orders) in &ORDERS {
        assert_orders(&rt, rt.alloc(), head, scripts, *orders)?;
    }
    Ok(())
}
