ghost use Rattle.std.specs.Prelude.{◌≡◌, ◌<◌, IfOk, MatchBool, MatchOption, length};
ghost use Rattle.za_dfa.specs.Automata.{Automaton};
ghost use Rattle.za_dfa.specs.Tables.{automaton_of};
ghost use Rattle.za_min.specs.Live.{AreLive, IsHope};
ghost use Rattle.za_min.specs.Private.Spreading.{AreSpread, IsNext, LeadsOn};

use std::alloc::Global;
use std::marker::Model;
use za_alpha::{Letter, OutOfMemory};
use za_dfa::Dfa;

/// Whether a run that stands in a state can still be accepted.
#[derive(Clone, Copy, Debug, PartialEq, Eq)]
pub enum Hope {
    /// Some word leads from the state to an accepting one.
    Alive,
    /// No word does.
    Dead,
}

/// Which states of a DFA are alive: some word leads from them to an accepting one.
#[derive(Debug, Drop)]
pub struct Live {
    marks: Vec<bool>,
}

impl Model for Live {
    ghost use Rattle.std.specs.Prelude.{Bool, List};

    ghost Value = { List Bool };

    ghost view = { λ live. live.marks.items };
}

/// Which states accept.
fn accepting_states(alloc: Global, dfa: &Dfa) -> Result<Vec<bool>, OutOfMemory>
    ensures { IfOk result (λ marks. marks.items ≡ dfa.now.accepting) }
{
    let mut marks = Vec::new(alloc);
    for q in 0..dfa.states() {
        marks.push(dfa.accepting(q as u8))?;
    }
    Ok(marks)
}

/// Whether a letter leads from a state to a marked one.
fn leads_on(dfa: &Dfa, marks: &[bool], q: u8) -> bool
    requires state { q < dfa.now.states }
    requires marks { length marks.now ≡ dfa.now.states }
    ensures { MatchBool result
        (LeadsOn (automaton_of dfa.now) marks.now q)
        (¬ LeadsOn (automaton_of dfa.now) marks.now q) }
{
    for a in 0..dfa.alphabet().letters() {
        if marks[dfa.step(q, Letter(a as u8)) as usize] {
            return true;
        }
    }
    false
}

/// A state without a mark from which a letter leads to a marked one.
fn next_alive(dfa: &Dfa, marks: &[bool]) -> Option<u8>
    requires { length marks.now ≡ dfa.now.states }
    ensures { MatchOption result
        (AreSpread (automaton_of dfa.now) marks.now)
        (IsNext (automaton_of dfa.now) marks.now) }
{
    for q in 0..dfa.states() {
        if !marks[q] && leads_on(dfa, marks, q as u8) {
            return Some(q as u8);
        }
    }
    None
}

impl Live {
    /// Finds which states of the DFA are alive: the accepting ones, and again and again one from which a
    /// letter leads to a state that was found. Want of memory is the one free answer.
    pub fn of(alloc: Global, dfa: &Dfa) -> Result<Live, OutOfMemory>
        ensures { IfOk result (AreLive (automaton_of dfa.now)) }
    {
        let _states = dfa.states();
        let mut marks = accepting_states(alloc, dfa)?;
        'spreading: while let Some(q) = next_alive(dfa, marks.as_slice()) {
            marks[q as usize] = true;
        }
        Ok(Live { marks })
    }

    /// Alive exactly if some word leads from state `q` of the DFA to an accepting one. After a word that
    /// leads to `q` this says whether the word begins an accepted one. It takes no memory.
    pub fn hope(&self, q: u8) -> Hope
        requires { q < length self.now }
        ensures { (d : Automaton) → AreLive d self.now → IsHope d q result }
    {
        if self.marks[q as usize] {
            Hope::Alive
        } else {
            Hope::Dead
        }
    }
}
