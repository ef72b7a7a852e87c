ghost use Rattle.std.specs.Prelude.{◌≡◌, ◌<◌, MatchResult, IfOk};
ghost use Rattle.za_alpha.specs.Alphabet.{loc_of};
ghost use Rattle.za_dfa.specs.Automata.{HasDiamonds};
ghost use Rattle.za_dfa.specs.Diamonds.{BreaksDiamond};
ghost use Rattle.za_dfa.specs.Tables.{automaton_of};

use crate::broken::first_broken;
use crate::dfa::Dfa;
use std::marker::Model;
use za_alpha::OutOfMemory;

/// A DFA in which two independent letters lead from each state to the same state in either order.
/// Its language is closed under trace equivalence.
#[derive(Debug, Drop)]
pub struct Closed {
    dfa: Dfa,
}

impl Model for Closed {
    ghost use Rattle.za_dfa.specs.Tables.{CompleteDfa};

    ghost Value = { CompleteDfa };

    ghost use Rattle.za_dfa.specs.Closed.{dfa_of, HasDiamondsInside};

    ghost view = { dfa_of };

    ghost invariant = { HasDiamondsInside };
}

impl Closed {
    /// The DFA as one whose diamonds are all there. It is handed back exactly where one is broken: a
    /// state from which two independent letters lead to two states, by their order.
    pub fn new(dfa: Dfa) -> Result<Closed, Dfa>
        ensures { MatchResult result
            (λ closed. (closed ≡ dfa) × HasDiamonds (loc_of dfa.alphabet) (automaton_of dfa))
            (λ refused. (refused ≡ dfa) × BreaksDiamond (loc_of dfa.alphabet) (automaton_of dfa)) }
    {
        match first_broken(&dfa) {
            None => Ok(Closed::of_diamonds(dfa)),
            Some(_) => Err(dfa),
        }
    }

    /// A DFA that is known to have all diamonds. Nothing is tested.
    pub fn of_diamonds(dfa: Dfa) -> Closed
        requires { HasDiamonds (loc_of dfa.alphabet) (automaton_of dfa) }
        ensures { result ≡ dfa }
    {
        Closed { dfa }
    }

    /// The DFA.
    pub fn dfa(&self) -> &Dfa
        ensures value { result.now ≡ self.now }
        ensures diamonds { HasDiamonds (loc_of self.now.alphabet) (automaton_of self.now) }
    {
        &self.dfa
    }

    /// An equal one.
    pub fn copy(&self) -> Result<Closed, OutOfMemory>
        ensures { IfOk result (λ closed. closed ≡ self.now) }
    {
        Ok(Closed::of_diamonds(self.dfa.copy()?))
    }

    /// The same table with start `q`, which is a state of it: it accepts the words that lead from `q` to an
    /// accepting state. Where `q` is the state after a word `w`, these are the words `v` of which `wv` is
    /// accepted: the left quotient of the language by `w`. It takes no memory.
    pub fn restart(self, q: u8) -> Closed
        requires { q < self.states }
        ensures { result ≡ record self { start = q } }
    {
        Closed {
            dfa: self.dfa.restart(q),
        }
    }
}
