ghost use Rattle.std.specs.Prelude.{◌≡◌, ◌<◌, ◌↔◌, All, IsTrue, length, unwrap_or, MatchResult, IfOk};
ghost use Rattle.za_alpha.specs.Words.{IsWord};
ghost use Rattle.za_dfa.specs.Automata.{walk, is_accepted};
ghost use Rattle.za_dfa.specs.Rows.{dfa_fault, completed};
ghost use Rattle.za_dfa.specs.Tables.{step_of, accepts_at, automaton_of, table_with, IsComplete};

use crate::fault::DfaFault;
use crate::rows::{MOST_STATES, Row, partial_of};
use std::alloc::Global;
use std::marker::Model;
use za_alpha::{Alphabet, Letter, OutOfMemory, Word};

/// A deterministic automaton over an alphabet, as a table: each letter leads from each state to a
/// state.
#[derive(Debug, Drop)]
pub struct Dfa {
    alphabet: Alphabet,
    states: usize,
    start: u8,
    accepting: Vec<bool>,
    targets: Vec<u8>,
}

impl Model for Dfa {
    ghost use Rattle.za_dfa.specs.Tables.{CompleteDfa, table_of, IsCompleteInside};

    ghost Value = { CompleteDfa };

    ghost view = { table_of };

    ghost invariant = { IsCompleteInside };
}

/// Whether each target is a state.
fn are_below(targets: &[u8], states: usize) -> bool
    ensures { IsTrue result ↔ All (λ target. target < states) targets.now }
{
    targets.iter().all(|target| (*target as usize) < states)
}

impl Dfa {
    /// The table of the rows over the alphabet, for states `0..states`. `accepting` says of each
    /// state whether it accepts. An equal row given again changes nothing. If some state and letter
    /// have no row, one rejecting state with number `states` is added: all missing rows lead to it,
    /// and it leads to itself. The first fault is named, of the rows that of the first wrong one.
    /// Want of memory is the one free answer, and comes for no wrong rows. After an error the alphabet
    /// is dropped.
    pub fn complete(
        alloc: Global,
        alphabet: Alphabet,
        states: u32,
        start: u32,
        accepting: Vec<bool>,
        rows: &[Row],
    ) -> Result<Dfa, DfaFault>
        requires known_letters { All (λ (row : Row). row.letter.0 < length alphabet.letters) rows.now }
        requires each_state { length accepting.items ≡ states }
        ensures { MatchResult result
            (λ d. (dfa_fault states start rows.now ≡ None)
            × (d ≡ completed alphabet states start accepting.items rows.now))
            (λ e. e ≡ unwrap_or (dfa_fault states start rows.now) DfaFault.OutOfMemory) }
    {
        let partial = partial_of(alloc, alphabet, states, start, accepting, rows)?;
        Ok(partial.complete()?)
    }

    /// The table with these entries: entry `q` of `accepting` says whether state `q` accepts, and
    /// entry `q * m + a` of `targets` is where letter `a` of `m` letters leads from state `q`. There is
    /// a state for each entry of `accepting`, 1 to 129, and each target is one. `is_table` is the test
    /// of what it requires.
    pub fn of_table(alphabet: Alphabet, start: u8, accepting: Vec<bool>, targets: Vec<u8>) -> Dfa
        requires { IsComplete (table_with alphabet start accepting.items targets.items) }
        ensures { result ≡ table_with alphabet start accepting.items targets.items }
    {
        Dfa {
            alphabet,
            states: accepting.len(),
            start,
            accepting,
            targets,
        }
    }

    /// Whether `of_table` takes these entries.
    pub fn is_table(alphabet: &Alphabet, start: u8, accepting: &[bool], targets: &[u8]) -> bool
        ensures { IsTrue result ↔ IsComplete (table_with alphabet.now start accepting.now targets.now) }
    {
        let states = accepting.len();
        (start as usize) < states
            && states <= MOST_STATES + 1
            && targets.len() == states * alphabet.letters()
            && are_below(targets, states)
    }

    /// An equal one.
    pub fn copy(&self) -> Result<Dfa, OutOfMemory>
        ensures { IfOk result (λ dfa. dfa ≡ self.now) }
    {
        let alphabet = self.alphabet.copy()?;
        let accepting = self.accepting.clone()?;
        let targets = self.targets.clone()?;
        Ok(Dfa {
            alphabet,
            states: self.states,
            start: self.start,
            accepting,
            targets,
        })
    }

    /// The alphabet.
    pub fn alphabet(&self) -> &Alphabet
        ensures { result.now ≡ self.now.alphabet }
    {
        &self.alphabet
    }

    /// How many states there are: the given ones, and the added one where a row was missing.
    pub fn states(&self) -> usize
        ensures value { result ≡ self.now.states }
        ensures whole { IsComplete self.now }
    {
        self.states
    }

    /// The start state.
    pub fn start(&self) -> u8
        ensures value { result ≡ self.now.start }
        ensures within { result < self.now.states }
        ensures whole { IsComplete self.now }
    {
        self.start
    }

    /// Where a letter leads from state `q`.
    pub fn step(&self, q: u8, a: Letter) -> u8
        requires state { q < self.now.states }
        requires letter { a.0 < length self.now.alphabet.letters }
        ensures value { result ≡ step_of self.now q a.0 }
        ensures within { result < self.now.states }
    {
        self.targets[q as usize * self.alphabet.letters() + a.0 as usize]
    }

    /// Where a word leads from state `q`.
    pub fn run(&self, q: u8, w: &Word) -> u8
        requires state { q < self.now.states }
        requires word { IsWord (length self.now.alphabet.letters) w.now }
        ensures value { result ≡ walk (step_of self.now) q w.now }
        ensures within { result < self.now.states }
    {
        let letters = w.letters();
        let mut state = q;
        for a in letters {
            state = self.step(state, *a);
        }
        state
    }

    /// Whether state `q` accepts.
    pub fn accepting(&self, q: u8) -> bool
        requires { q < self.now.states }
        ensures { result ≡ accepts_at self.now q }
    {
        self.accepting[q as usize]
    }

    /// Which states accept.
    pub(crate) fn accepting_states(&self) -> &[bool]
        ensures { result.now ≡ self.now.accepting }
    {
        self.accepting.as_slice()
    }

    /// The targets, by state and then by letter.
    pub(crate) fn targets(&self) -> &[u8]
        ensures { result.now ≡ self.now.targets }
    {
        self.targets.as_slice()
    }

    /// Whether the word leads from the start to a state that accepts.
    pub fn accepts(&self, w: &Word) -> bool
        requires { IsWord (length self.now.alphabet.letters) w.now }
        ensures { result ≡ is_accepted (automaton_of self.now) w.now }
    {
        self.accepting(self.run(self.start(), w))
    }

    /// The same table with start `q`.
    pub(crate) fn restart(mut self, q: u8) -> Dfa
        requires { q < self.states }
        ensures { result ≡ record self { start = q } }
    {
        self.start = q;
        self
    }
}
