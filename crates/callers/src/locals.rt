//! Callers of za_local.

ghost use Rattle.std.specs.Prelude.{◌≡◌, ◌<◌, ℕ, List, ◌∷◌, [], length, IsTrue, IfOk};
ghost use Rattle.za_alpha.specs.Words.{has};
ghost use Rattle.za_alpha.specs.Alphabet.{loc_of};
ghost use Rattle.za_dfa.specs.Automata.{is_accepted};
ghost use Rattle.za_dfa.specs.Tables.{accepts_at, automaton_of};
ghost use Rattle.za_local.specs.Locals.{local_after, view_state_after, HasShape, AreAllLocalsAfter};

use std::alloc::Global;
use za_alpha::{Letter, OutOfMemory};
use za_dfa::Closed;
use za_local::{Bench, Local, opening, transit, verdict, view_state};

/// The local state of each process of a letter when its event is the first of all.
pub fn after_first(alloc: Global, closed: &Closed, a: Letter) -> Result<Local, OutOfMemory>
    requires { a.0 < length closed.now.alphabet.letters }
    ensures { IfOk result (λ local. (x : ℕ) → IsTrue (has (loc_of closed.now.alphabet a.0) x) →
        local ≡ local_after closed.now (a.0 ∷ []) x) }
{
    let mut local = opening(alloc, closed)?;
    let mut bench = Bench::new(alloc, closed)?;
    let alphabet = closed.dfa().alphabet();
    let _letters = alphabet.letters();
    for _ in 0..alphabet.loc(a).count() {
        bench.add(&local);
    }
    transit(closed, a, &bench, &mut local);
    Ok(local)
}

/// Whether the events that a process knows, from its local state alone, lead to a state that accepts.
pub fn accepts_view(closed: &Closed, local: &Local) -> bool
    requires { HasShape closed.now.alphabet.processes closed.now.states local.now }
    ensures { (w : List ℕ) (p : ℕ) → local.now ≡ local_after closed.now w p →
        result ≡ accepts_at closed.now (view_state_after closed.now w p) }
{
    closed.dfa().accepting(view_state(closed, local))
}

/// Whether the automaton accepts a run, from the local states of its processes alone: the bench has
/// those of all of them, in rising order.
pub fn accepts_run(closed: &Closed, bench: &Bench) -> bool
    requires { (w : List ℕ) × AreAllLocalsAfter closed.now w bench.now.locals }
    ensures { (w : List ℕ) → AreAllLocalsAfter closed.now w bench.now.locals →
        result ≡ is_accepted (automaton_of closed.now) w }
{
    let dfa = closed.dfa();
    let _states = dfa.states();
    dfa.accepting(verdict(closed, bench))
}
