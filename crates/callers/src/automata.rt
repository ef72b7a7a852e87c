//! Callers of za_dfa.

ghost use Rattle.std.specs.Prelude.{◌≡◌, ◌∷◌, [], true, ◌<◌, ◌==◌, ◌&&◌, not, nat_lt, ℕ};
ghost use Rattle.std.specs.Prelude.{List, All, Some, None, length, IfOk, if◌then◌else◌};
ghost use Rattle.za_alpha.specs.Words.{has, IsWord, AreEquivalent};
ghost use Rattle.za_alpha.specs.Alphabet.{loc_of};
ghost use Rattle.za_dfa.specs.Automata.{is_accepted};
ghost use Rattle.za_dfa.specs.Rows.{target_in};
ghost use Rattle.za_dfa.specs.Tables.{automaton_of};

use std::alloc::Global;
use za_alpha::{Alphabet, Letter, OutOfMemory, Word};
use za_dfa::{Closed, Dfa, DfaFault, Row, diamonds_close_the_language};

/// Whether the automaton accepts the trace of a word. One word is run, and the answer holds for
/// each word that is equivalent to it.
pub fn accepts_trace(closed: &Closed, w: &Word) -> bool
    requires { IsWord (length closed.now.alphabet.letters) w.now }
    ensures { (v : List ℕ) → IsWord (length closed.now.alphabet.letters) v →
        AreEquivalent (loc_of closed.now.alphabet) w.now v →
        result ≡ is_accepted (automaton_of closed.now) v }
{
    let dfa = closed.dfa();
    let _states = dfa.states();
    diamonds_close_the_language();
    dfa.accepts(w)
}

/// Rows that lead from state 0 back to it by each letter but one.
fn rows_without(alloc: Global, letters: u8, a: Letter) -> Result<Vec<Row>, OutOfMemory>
    ensures known { IfOk result (λ rows. All (λ (row : Row). row.letter.0 < letters) rows.items) }
    ensures targets { IfOk result (λ rows. (q b : ℕ) → target_in rows.items q b ≡
        (if q == 0 && (nat_lt b letters && not (b == a.0)) then Some 0 else None)) }
{
    let mut rows = Vec::new(alloc);
    for b in 0..letters {
        if b != a.0 {
            rows.push(Row {
                from: 0,
                letter: Letter(b),
                to: 0,
            })?;
        }
    }
    Ok(rows)
}

/// The state that accepts.
fn accepting(alloc: Global) -> Result<Vec<bool>, OutOfMemory>
    ensures { IfOk result (λ accepting. accepting.items ≡ true ∷ []) }
{
    Ok(vec![in alloc; true]?)
}

/// The automaton of the words without a letter: the letter has no row, so it leads to the added
/// state.
pub fn without(alloc: Global, alphabet: Alphabet, a: Letter) -> Result<Dfa, DfaFault>
    requires { a.0 < length alphabet.letters }
    ensures { IfOk result (λ d. (w : List ℕ) → IsWord (length d.alphabet.letters) w →
        is_accepted (automaton_of d) w ≡ not (has w a.0)) }
{
    let rows = rows_without(alloc, alphabet.letters() as u8, a)?;
    let accepting = accepting(alloc)?;
    Dfa::complete(alloc, alphabet, 1, 0, accepting, rows.as_slice())
}
