ghost use Rattle.std.specs.Prelude.{◌≡◌, ℕ, ◌<◌, List, [], ◌∷◌, ◌++◌, length, IsTrue};
ghost use Rattle.za_alpha.specs.Words.{has};
ghost use Rattle.za_alpha.specs.Alphabet.{loc_of};
ghost use Rattle.za_order.specs.Labels.{label};
ghost use Rattle.za_dfa.specs.Automata.{walk};
ghost use Rattle.za_dfa.specs.Tables.{step_of};
ghost use Rattle.za_local.specs.Locals.{local_after, AreLocalsAfter, AreAllLocalsAfter, HasShape, view_state_after};

use crate::bench::Bench;
use crate::local::Local;
use crate::masks::{NO_MASKS, set_masks};
use za_alpha::{Letter, Procs};
use za_dfa::Closed;

/// Writes into `into` the local state of the participants of `a` after an event of `a`, which is the
/// same for each of them, and answers the label of the event: the transition of the distributed
/// automaton (Zielonka 1987). `bench` has the local states of the participants after some word, in
/// rising order of processes. `into` is for as many processes and states, and so it stays; what it held
/// before doesn't matter.
pub fn transit(closed: &Closed, a: Letter, bench: &Bench, into: &mut Local) -> u16
    requires letter { a.0 < length closed.now.alphabet.letters }
    requires locals { (w : List ℕ) × AreLocalsAfter closed.now w (loc_of closed.now.alphabet a.0) bench.now.locals }
    requires shape { HasShape closed.now.alphabet.processes closed.now.states into.old }
    ensures label { (w : List ℕ) → AreLocalsAfter closed.now w (loc_of closed.now.alphabet a.0) bench.now.locals →
        result ≡ label (loc_of closed.now.alphabet) closed.now.alphabet.processes (w ++ a.0 ∷ []) (length w) }
    ensures local { (w : List ℕ) → AreLocalsAfter closed.now w (loc_of closed.now.alphabet a.0) bench.now.locals →
        (x : ℕ) → IsTrue (has (loc_of closed.now.alphabet a.0) x) →
        into.new ≡ local_after closed.now (w ++ a.0 ∷ []) x }
    ensures shape { HasShape closed.now.alphabet.processes closed.now.states into.new }
{
    let alphabet = closed.dfa().alphabet();
    let mut masks = NO_MASKS;
    set_masks(alphabet, Some(a), bench.gossips(), &mut masks);
    za_residue::advance(closed, a, bench.residues(), &masks, &mut into.residues);
    za_gossip::advance(alphabet, a, bench.gossips(), &mut into.gossip)
}

/// Where a word leads from the start: `bench` has the local states of all processes after it, in rising
/// order.
pub fn verdict(closed: &Closed, bench: &Bench) -> u8
    requires { (w : List ℕ) × AreAllLocalsAfter closed.now w bench.now.locals }
    ensures { (w : List ℕ) → AreAllLocalsAfter closed.now w bench.now.locals →
        result ≡ walk (step_of closed.now) closed.now.start w }
{
    let mut masks = NO_MASKS;
    set_masks(closed.dfa().alphabet(), None, bench.gossips(), &mut masks);
    za_residue::join_all(closed, bench.residues(), &masks)
}

/// Where the events that a process knows lead from the start: `local` is its local state after some
/// word. It is a state of the automaton also where `local` is of no word.
pub fn view_state(closed: &Closed, local: &Local) -> u8
    requires { HasShape closed.now.alphabet.processes closed.now.states local.now }
    ensures within { result < closed.now.states }
    ensures state { (w : List ℕ) (p : ℕ) → local.now ≡ local_after closed.now w p →
        result ≡ view_state_after closed.now w p }
{
    local.residues.apply(Procs::none(), closed.dfa().start())
}
