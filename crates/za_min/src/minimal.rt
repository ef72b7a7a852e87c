ghost use Rattle.std.specs.Prelude.{◌≡◌, ◌≢◌, ◌<◌, ◌≤◌, ℕ, IfOk, MatchOption, length};
ghost use Rattle.za_alpha.specs.Letters.{numbers};
ghost use Rattle.za_dfa.specs.Tables.{automaton_of, IsComplete};
ghost use Rattle.za_min.specs.Minimal.{IsMinimalOf, IsMinimalDfa, IsLeastApart, word_at};
ghost use Rattle.za_min.specs.Private.Rounds.{AreClassesOf};

use crate::apart::word_apart;
use crate::classes::{Classes, rounds_of};
use crate::explore::{Found, explore};
use crate::table::table_of;
use std::alloc::Global;
use std::marker::Model;
use za_alpha::{Letter, OutOfMemory, Word};
use za_dfa::Dfa;

/// The minimal DFA of a language. Its states are numbered by their access words, the shortlex-least
/// words that lead to them: by length, and words of one length letter by letter, by the letters'
/// numbers.
#[derive(Debug, Drop)]
pub struct Minimal {
    dfa: Dfa,
    access: Vec<Word>,
}

impl Model for Minimal {
    ghost use Rattle.za_min.specs.Minimal.{MinimalDfa};
    ghost use Rattle.za_min.specs.Inside.{minimal_of, IsMinimalInside};

    ghost Value = { MinimalDfa };

    ghost view = { minimal_of };

    ghost invariant = { IsMinimalInside };
}

/// The DFA whose states are merged to these classes.
fn merged(alloc: Global, dfa: &Dfa, classes: &Classes) -> Result<Minimal, OutOfMemory>
    requires { AreClassesOf dfa.now classes.now }
    ensures minimal { IfOk result (λ minimal. IsMinimalOf minimal.dfa dfa.now) }
    ensures no_larger { IfOk result (λ minimal. minimal.dfa.states ≤ dfa.now.states) }
{
    let found = explore(alloc, dfa, classes)?;
    let table = table_of(alloc, dfa, classes, &found)?;
    let Found { words, states: _ } = found;
    Ok(Minimal {
        dfa: table,
        access: words,
    })
}

/// The minimal complete DFA of the part of a DFA that words reach, which accepts the same words. Want
/// of memory is the one free answer.
pub fn minimise(alloc: Global, dfa: &Dfa) -> Result<Minimal, OutOfMemory>
    ensures minimal { IfOk result (λ minimal. IsMinimalOf minimal.dfa dfa.now) }
    ensures no_larger { IfOk result (λ minimal. minimal.dfa.states ≤ dfa.now.states) }
{
    let rounds = rounds_of(alloc, dfa)?;
    merged(alloc, dfa, &rounds[rounds.len() - 1])
}

impl Minimal {
    /// The DFA.
    pub fn dfa(&self) -> &Dfa
        ensures value { result.now ≡ self.now.dfa }
        ensures whole { IsComplete self.now.dfa }
        ensures minimal { IsMinimalDfa self.now }
    {
        &self.dfa
    }

    /// The DFA alone.
    pub fn into_dfa(self) -> Dfa
        ensures { result ≡ self.dfa }
    {
        let Minimal { dfa, access: _ } = self;
        dfa
    }

    /// The access word of state `q`.
    pub fn access(&self, q: u8) -> &[Letter]
        requires { q < self.now.dfa.states }
        ensures { numbers result.now ≡ word_at self.now.access q }
    {
        self.access[q as usize].letters()
    }

    /// The shortlex-least word that tells states `q` and `r` apart: that is accepted from exactly one of
    /// them. `None` comes exactly where they are one state. Want of memory is the one free answer.
    pub fn apart(&self, q: u8, r: u8) -> Result<Option<Word>, OutOfMemory>
        requires first { q < self.now.dfa.states }
        requires second { r < self.now.dfa.states }
        ensures { IfOk result (λ word. MatchOption word
            (q ≡ r)
            (λ w. (q ≢ r) × IsLeastApart (automaton_of self.now.dfa) q r w)) }
    {
        let alloc = *self.access.allocator();
        let rounds = rounds_of(alloc, &self.dfa)?;
        word_apart(alloc, &self.dfa, &rounds, q, r)
    }
}
