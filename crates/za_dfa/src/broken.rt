//! Finding the first broken diamond.

ghost use Rattle.std.specs.Prelude.{◌≡◌, ◌<◌, ◌↔◌, ℕ, IsTrue, MatchOption, length};
ghost use Rattle.za_alpha.specs.Alphabet.{loc_of};
ghost use Rattle.za_dfa.specs.Automata.{HasDiamonds};
ghost use Rattle.za_dfa.specs.Diamonds.{IsBrokenAt, IsFirstBroken};
ghost use Rattle.za_dfa.specs.Private.Diamonds.{IsFirstRight, IsFirstLeft};
ghost use Rattle.za_dfa.specs.Tables.{automaton_of};

use crate::dfa::Dfa;
use za_alpha::Letter;

/// A state, and two independent letters, the lesser on the left, that lead from it to two states by
/// their order.
#[derive(Clone, Copy, Debug, PartialEq, Eq)]
pub struct Diamond {
    pub state: u8,
    pub left: Letter,
    pub right: Letter,
}

/// Whether two letters, the lesser first, are independent and lead from a state to two states by their
/// order.
fn is_broken(dfa: &Dfa, q: u8, a: Letter, b: Letter) -> bool
    requires state { q < dfa.now.states }
    requires order { a.0 < b.0 }
    requires letter { b.0 < length dfa.now.alphabet.letters }
    ensures { IsTrue result ↔ IsBrokenAt (loc_of dfa.now.alphabet) (automaton_of dfa.now) q a.0 b.0 }
{
    dfa.alphabet().independent(a, b) && dfa.step(dfa.step(q, a), b) != dfa.step(dfa.step(q, b), a)
}

/// The least letter with which a letter has a broken diamond at a state, among the greater ones.
fn first_right(dfa: &Dfa, q: u8, a: Letter) -> Option<Letter>
    requires state { q < dfa.now.states }
    requires letter { a.0 < length dfa.now.alphabet.letters }
    ensures { MatchOption result
        ((b : ℕ) → ¬ IsBrokenAt (loc_of dfa.now.alphabet) (automaton_of dfa.now) q a.0 b)
        (λ b. IsFirstRight (loc_of dfa.now.alphabet) (automaton_of dfa.now) q a.0 b.0) }
{
    let letters = dfa.alphabet().letters() as u8;
    for b in a.0 + 1..letters {
        let b = Letter(b);
        if is_broken(dfa, q, a, b) {
            return Some(b);
        }
    }
    None
}

/// The first broken diamond at a state: its least letter, and then the other one.
fn first_at(dfa: &Dfa, q: u8) -> Option<Diamond>
    requires { q < dfa.now.states }
    ensures { MatchOption result
        ((a b : ℕ) → ¬ IsBrokenAt (loc_of dfa.now.alphabet) (automaton_of dfa.now) q a b)
        (λ first. (first.state ≡ q)
        × IsFirstLeft (loc_of dfa.now.alphabet) (automaton_of dfa.now) q first.left.0 first.right.0) }
{
    for a in 0..dfa.alphabet().letters() as u8 {
        let left = Letter(a);
        if let Some(right) = first_right(dfa, q, left) {
            return Some(Diamond {
                state: q,
                left,
                right,
            });
        }
    }
    None
}

/// The first broken diamond: at the least state, then of the least lesser letter, and then of the
/// least greater one. `None` comes exactly where two independent letters lead from each state to one
/// state in either order.
pub fn first_broken(dfa: &Dfa) -> Option<Diamond>
    ensures { MatchOption result
        (HasDiamonds (loc_of dfa.now.alphabet) (automaton_of dfa.now))
        (λ first. IsFirstBroken (loc_of dfa.now.alphabet) (automaton_of dfa.now)
        first.state first.left.0 first.right.0) }
{
    for q in 0..dfa.states() as u8 {
        if let Some(first) = first_at(dfa, q) {
            return Some(first);
        }
    }
    None
}
