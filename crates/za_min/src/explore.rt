//! Finding the states that words reach, breadth first, so that each is found by its access word.

ghost use Rattle.std.specs.Prelude.{◌≡◌, ◌≢◌, ◌<◌, ◌+◌, ◌++◌, ◌∷◌, [], ℕ, IfOk, OnOk, MatchOption, length, slice_index};
ghost use Rattle.za_min.specs.Private.Rounds.{AreClassesOf};
ghost use Rattle.za_min.specs.Private.Exploring.{merged_of, state_of, AreStatesOf, AreFoundStates, AreAllFound};
ghost use Rattle.za_min.specs.Minimal.{word_at};

use crate::classes::Classes;
use std::alloc::Global;
use za_alpha::{Letter, OutOfMemory, Word};
use za_dfa::Dfa;

/// The words that lead to the states found so far, and these states, each named by the least state of
/// its class.
#[derive(Drop)]
pub(crate) struct Found {
    pub(crate) words: Vec<Word>,
    pub(crate) states: Vec<u8>,
}

/// The place of a state.
pub(crate) fn place_of(states: &[u8], q: u8) -> Option<usize>
    ensures { MatchOption result
        ((k : ℕ) → k < length states.now → slice_index states.now k ≢ q)
        (λ k. (k < length states.now) × (slice_index states.now k ≡ q)) }
{
    for (k, state) in states.iter().enumerate() {
        if *state == q {
            return Some(k);
        }
    }
    None
}

impl Found {
    /// The class of the start, which the empty word leads to.
    fn start(alloc: Global, dfa: &Dfa, classes: &Classes) -> Result<Found, OutOfMemory>
        requires { AreClassesOf dfa.now classes.now }
        ensures { IfOk result (λ found.
            AreFoundStates (merged_of dfa.now classes.now) 0 0 found.words.items found.states.items) }
    {
        let mut words = Vec::new(alloc);
        words.push(Word::new(alloc))?;
        let mut states = Vec::new(alloc);
        states.push(classes.of(dfa.start()))?;
        Ok(Found { words, states })
    }

    /// The class that a letter leads to from the state at a place.
    pub(crate) fn next(&self, dfa: &Dfa, classes: &Classes, at: usize, a: Letter) -> u8
        requires classes { AreClassesOf dfa.now classes.now }
        requires place { at < length self.now.words.items }
        requires letter { a.0 < length dfa.now.alphabet.letters }
        requires states { AreStatesOf (merged_of dfa.now classes.now) self.now.words.items self.now.states.items }
        ensures { let merged = merged_of dfa.now classes.now in
            result ≡ merged.step (state_of merged (word_at self.now.words.items at)) a.0 }
    {
        classes.of(dfa.step(self.states[at], a))
    }

    /// Adds the state that the word of a place leads to with one letter more.
    fn add(&mut self, at: usize, a: Letter, next: u8) -> Result<(), OutOfMemory>
        requires { at < length self.old.words.items }
        ensures words { OnOk result (self.new.words.items ≡
            self.old.words.items ++ (word_at self.old.words.items at ++ a.0 ∷ []) ∷ []) }
        ensures states { OnOk result (self.new.states.items ≡ self.old.states.items ++ next ∷ []) }
    {
        let mut word = self.words[at].copy()?;
        word.push(a)?;
        self.words.push(word)?;
        self.states.push(next)?;
        Ok(())
    }

    /// Finds where a letter leads from the state at a place.
    fn visit(
        &mut self,
        dfa: &Dfa,
        classes: &Classes,
        at: usize,
        a: Letter,
    ) -> Result<(), OutOfMemory>
        requires classes { AreClassesOf dfa.now classes.now }
        requires place { at < length self.old.words.items }
        requires letter { a.0 < length dfa.now.alphabet.letters }
        requires found { AreFoundStates (merged_of dfa.now classes.now) at a.0
            self.old.words.items self.old.states.items }
        ensures place { OnOk result (at < length self.new.words.items) }
        ensures found { OnOk result (AreFoundStates (merged_of dfa.now classes.now) at (a.0 + 1)
            self.new.words.items self.new.states.items) }
    {
        let next = self.next(dfa, classes, at, a);
        match place_of(&self.states, next) {
            Some(_) => Ok(()),
            None => {
                self.add(at, a, next)?;
                Ok(())
            }
        }
    }

    /// Finds where each letter leads from the state at a place.
    fn visit_all(&mut self, dfa: &Dfa, classes: &Classes, at: usize) -> Result<(), OutOfMemory>
        requires classes { AreClassesOf dfa.now classes.now }
        requires place { at < length self.old.words.items }
        requires found { AreFoundStates (merged_of dfa.now classes.now) at 0
            self.old.words.items self.old.states.items }
        ensures place { OnOk result (at < length self.new.words.items) }
        ensures found { OnOk result (AreFoundStates (merged_of dfa.now classes.now) (at + 1) 0
            self.new.words.items self.new.states.items) }
    {
        for a in 0..dfa.alphabet().letters() as u8 {
            self.visit(dfa, classes, at, Letter(a))?;
        }
        Ok(())
    }
}

/// The classes that words reach, in shortlex order of their access words.
pub(crate) fn explore(alloc: Global, dfa: &Dfa, classes: &Classes) -> Result<Found, OutOfMemory>
    requires { AreClassesOf dfa.now classes.now }
    ensures { IfOk result (λ found. AreAllFound (merged_of dfa.now classes.now) found.words.items found.states.items) }
{
    let mut found = Found::start(alloc, dfa, classes)?;
    let mut at = 0;
    while at < found.words.len() {
        found.visit_all(dfa, classes, at)?;
        at += 1;
    }
    Ok(found)
}
