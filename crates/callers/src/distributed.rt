//! A caller of za_theorem.

ghost use Rattle.std.specs.Prelude.{◌↔◌, length, IsTrue, IfOk};
ghost use Rattle.za_alpha.specs.Alphabet.{loc_of};
ghost use Rattle.za_dfa.specs.Automata.{is_accepted};
ghost use Rattle.za_dfa.specs.Tables.{automaton_of};
ghost use Rattle.za_theorem.specs.Languages.{IsDistributable};

use std::alloc::Global;
use za_alpha::OutOfMemory;
use za_closure::{Open, close, closed_languages};
use za_dfa::Dfa;
use za_theorem::zielonka;

/// Whether a deterministic asynchronous automaton accepts the language of the DFA.
pub fn can_be_distributed(alloc: Global, dfa: &Dfa) -> Result<bool, OutOfMemory>
    ensures { IfOk result (λ yes. IsTrue yes ↔ IsDistributable (loc_of dfa.now.alphabet)
        (length dfa.now.alphabet.letters) dfa.now.alphabet.processes (is_accepted (automaton_of dfa.now))) }
{
    zielonka();
    closed_languages();
    let _states = dfa.states();
    match close(alloc, dfa) {
        Ok(_) => Ok(true),
        Err(open) => match open {
            Open::NotClosed { left: _, right: _ } => Ok(false),
            Open::OutOfMemory => Err(OutOfMemory),
        },
    }
}
