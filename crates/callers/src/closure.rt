//! A caller of za_closure.

ghost use Rattle.std.specs.Prelude.{IsTrue, IsFalse, IfOk, MatchOption};
ghost use Rattle.za_alpha.specs.Words.{AreEquivalent};
ghost use Rattle.za_alpha.specs.Alphabet.{loc_of};
ghost use Rattle.za_dfa.specs.Automata.{is_accepted, IsTraceClosed};
ghost use Rattle.za_dfa.specs.Tables.{automaton_of};

use std::alloc::Global;
use za_alpha::{OutOfMemory, Word};
use za_closure::{Open, close};
use za_dfa::Dfa;

/// Two words of one trace that a language tells apart.
#[derive(Debug, Drop)]
pub struct Pair {
    pub accepted: Word,
    pub rejected: Word,
}

/// Two words of one trace of which one is accepted and the other isn't, and `None` exactly where the
/// language is closed, so that there are none.
pub fn told_apart(alloc: Global, dfa: &Dfa) -> Result<Option<Pair>, OutOfMemory>
    ensures { IfOk result (λ shown. MatchOption shown
        (IsTraceClosed (loc_of dfa.now.alphabet) (automaton_of dfa.now))
        (λ e. AreEquivalent (loc_of dfa.now.alphabet) e.accepted e.rejected
        × IsTrue (is_accepted (automaton_of dfa.now) e.accepted)
        × IsFalse (is_accepted (automaton_of dfa.now) e.rejected))) }
{
    let _states = dfa.states();
    let (left, right) = match close(alloc, dfa) {
        Ok(_) => return Ok(None),
        Err(open) => match open {
            Open::NotClosed { left, right } => (left, right),
            Open::OutOfMemory => return Err(OutOfMemory),
        },
    };
    if dfa.accepts(&left) {
        Ok(Some(Pair {
            accepted: left,
            rejected: right,
        }))
    } else {
        Ok(Some(Pair {
            accepted: right,
            rejected: left,
        }))
    }
}
