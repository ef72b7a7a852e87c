//! Reading the least word that tells two states apart off the rounds.

ghost use Rattle.std.specs.Prelude.{◌≡◌, ◌≢◌, ◌<◌, IfOk, MatchOption, length};
ghost use Rattle.za_alpha.specs.Search.{least};
ghost use Rattle.za_dfa.specs.Tables.{automaton_of};
ghost use Rattle.za_min.specs.Minimal.{IsMinimal, IsLeastApart};
ghost use Rattle.za_min.specs.Private.Rounds.{AreAlike, AreRoundsOf, IsSplit, splits, split_word};

use crate::classes::Classes;
use std::alloc::Global;
use za_alpha::{Letter, OutOfMemory, Word};
use za_dfa::Dfa;

/// The first round that tells two states apart.
fn round_of_split(dfa: &Dfa, rounds: &[Classes], q: u8, r: u8) -> Option<usize>
    requires rounds { AreRoundsOf dfa.now rounds.now }
    requires first { q < dfa.now.states }
    requires second { r < dfa.now.states }
    ensures { MatchOption result
        (AreAlike (automaton_of dfa.now) q r)
        (λ n. (n < length rounds.now) × IsSplit (automaton_of dfa.now) n q r) }
{
    for (n, classes) in rounds.iter().enumerate() {
        if classes.of(q) != classes.of(r) {
            return Some(n);
        }
    }
    None
}

/// The least letter that leads two states into two classes, and the number of letters where none
/// does.
fn first_split(dfa: &Dfa, classes: &Classes, q: u8, r: u8) -> u8
    requires classes { length classes.now ≡ dfa.now.states }
    requires first { q < dfa.now.states }
    requires second { r < dfa.now.states }
    ensures { result ≡ least (splits (automaton_of dfa.now) classes.now q r) (length dfa.now.alphabet.letters) }
{
    let letters = dfa.alphabet().letters() as u8;
    for a in 0..letters {
        let letter = Letter(a);
        if classes.of(dfa.step(q, letter)) != classes.of(dfa.step(r, letter)) {
            return a;
        }
    }
    letters
}

/// The shortlex-least word that tells two states apart, which this round is the first to do.
fn split_word(
    alloc: Global,
    dfa: &Dfa,
    rounds: &[Classes],
    round: usize,
    q: u8,
    r: u8,
) -> Result<Word, OutOfMemory>
    requires rounds { AreRoundsOf dfa.now rounds.now }
    requires within { round < length rounds.now }
    requires split { IsSplit (automaton_of dfa.now) round q r }
    ensures { IfOk result (λ word. word ≡ split_word (automaton_of dfa.now) round q r) }
{
    let mut word = Word::new(alloc);
    let mut left = q;
    let mut right = r;
    let mut n = round;
    while n > 0 {
        n -= 1;
        let a = Letter(first_split(dfa, &rounds[n], left, right));
        word.push(a)?;
        left = dfa.step(left, a);
        right = dfa.step(right, a);
    }
    Ok(word)
}

/// The shortlex-least word that tells two states of a minimal DFA apart.
pub(crate) fn word_apart(
    alloc: Global,
    dfa: &Dfa,
    rounds: &[Classes],
    q: u8,
    r: u8,
) -> Result<Option<Word>, OutOfMemory>
    requires minimal { IsMinimal (automaton_of dfa.now) }
    requires rounds { AreRoundsOf dfa.now rounds.now }
    requires first { q < dfa.now.states }
    requires second { r < dfa.now.states }
    ensures { IfOk result (λ word. MatchOption word
        (q ≡ r)
        (λ w. (q ≢ r) × IsLeastApart (automaton_of dfa.now) q r w)) }
{
    match round_of_split(dfa, rounds, q, r) {
        None => Ok(None),
        Some(round) => {
            let word = split_word(alloc, dfa, rounds, round, q, r)?;
            Ok(Some(word))
        }
    }
}
