//! Callers of za_min.

ghost use Rattle.std.specs.Prelude.{◌≡◌, ◌≢◌, ◌≤◌, ◌++◌, List, ℕ, length, IfOk, MatchOption};
ghost use Rattle.za_alpha.specs.Words.{IsWord};
ghost use Rattle.za_dfa.specs.Automata.{is_accepted};
ghost use Rattle.za_dfa.specs.Tables.{CompleteDfa, automaton_of, IsComplete};
ghost use Rattle.za_min.specs.Minimal.{HaveSameLanguage};

use std::alloc::Global;
use za_alpha::{OutOfMemory, Word};
use za_dfa::Dfa;
use za_min::minimise;

/// How many states an automaton of the language needs: some complete one has so many, and none has
/// fewer.
pub fn states_needed(alloc: Global, dfa: &Dfa) -> Result<usize, OutOfMemory>
    ensures enough { IfOk result (λ n. (e : CompleteDfa) × IsComplete e × (e.alphabet ≡ dfa.now.alphabet)
        × HaveSameLanguage (automaton_of e) (automaton_of dfa.now) × (e.states ≡ n)) }
    ensures least { IfOk result (λ n. (e : CompleteDfa) → IsComplete e →
        e.alphabet ≡ dfa.now.alphabet →
        HaveSameLanguage (automaton_of e) (automaton_of dfa.now) → n ≤ e.states) }
{
    let minimal = minimise(alloc, dfa)?;
    Ok(minimal.dfa().states())
}

/// A word that makes a difference after two others: it continues exactly one of them to a word that
/// is accepted. `None` comes exactly where no word does, so that each stands for the other.
pub fn difference(alloc: Global, dfa: &Dfa, u: &Word, v: &Word) -> Result<Option<Word>, OutOfMemory>
    requires first { IsWord (length dfa.now.alphabet.letters) u.now }
    requires second { IsWord (length dfa.now.alphabet.letters) v.now }
    ensures { IfOk result (λ word. MatchOption word
        ((x : List ℕ) → IsWord (length dfa.now.alphabet.letters) x →
        is_accepted (automaton_of dfa.now) (u.now ++ x) ≡ is_accepted (automaton_of dfa.now) (v.now ++ x))
        (λ x. is_accepted (automaton_of dfa.now) (u.now ++ x) ≢ is_accepted (automaton_of dfa.now) (v.now ++ x))) }
{
    let minimal = minimise(alloc, dfa)?;
    let table = minimal.dfa();
    let q = table.run(table.start(), u);
    let r = table.run(table.start(), v);
    minimal.apart(q, r)
}
