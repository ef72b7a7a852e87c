//! A caller of za_min: hope.

ghost use Rattle.std.specs.Prelude.{◌↔◌, length, IsTrue, IfOk};
ghost use Rattle.za_alpha.specs.Words.{IsWord};
ghost use Rattle.za_dfa.specs.Tables.{automaton_of};
ghost use Rattle.za_min.specs.Live.{CanStillBeAccepted};

use std::alloc::Global;
use za_alpha::{OutOfMemory, Word};
use za_dfa::Dfa;
use za_min::{Hope, Live, alive_states_continue_words};

/// Whether the word can still be accepted: whether it is the beginning of an accepted one.
pub fn can_still_be_accepted(alloc: Global, dfa: &Dfa, w: &Word) -> Result<bool, OutOfMemory>
    requires { IsWord (length dfa.now.alphabet.letters) w.now }
    ensures { IfOk result (λ can. IsTrue can ↔ CanStillBeAccepted (automaton_of dfa.now) w.now) }
{
    alive_states_continue_words();
    let live = Live::of(alloc, dfa)?;
    let there = dfa.run(dfa.start(), w);
    match live.hope(there) {
        Hope::Alive => Ok(true),
        Hope::Dead => Ok(false),
    }
}
