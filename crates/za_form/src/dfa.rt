ghost use Rattle.std.specs.Prelude.{◌≡◌, ◌<◌, ◌^◌, suc, All, IfOk, MatchResult, length, map};
ghost use Rattle.za_expression.specs.Following.{accepts as accepts_value};
ghost use Rattle.za_form.specs.Automata.{IsValueDfa, IsWide};
ghost use Rattle.za_form.specs.Private.Numbers.{form_of, places_of};

use crate::fault::Wide;
use crate::form::Form;
use crate::places::accepts;
use crate::search::explore;
use crate::steps::masks_of;
use std::alloc::{AllocError, Global};
use za_alpha::Alphabet;
use za_dfa::Dfa;

/// Which of the values accept.
fn accepting_of(alloc: Global, form: &Form, states: &[u128]) -> Result<Vec<bool>, AllocError>
    requires { All (λ m. m < 2 ^ suc (length form.now)) states.now }
    ensures { IfOk result (λ accepting.
        accepting.items ≡ map (λ m. accepts_value (form_of form.now) (places_of (length form.now) m)) states.now) }
{
    let tree = form.tree();
    let mut accepting = Vec::with_capacity(alloc, states.len())?;
    for m in states {
        accepting.push(accepts(tree, *m))?;
    }
    Ok(accepting)
}

/// The DFA of an expression over an alphabet. Its states are the position values of words, numbered by the
/// shortlex-least words that have them, and it accepts exactly the words of the form's meaning (McNaughton
/// and Yamada 1960; Glushkov 1961). It isn't minimised. A name is its letter's number: one that is no letter
/// of the alphabet stands in no word. `States` comes exactly where there are more than 128 values. Want of
/// memory is the one free answer. After an error the alphabet is dropped.
pub fn dfa_of(alloc: Global, alphabet: Alphabet, form: &Form) -> Result<Dfa, Wide>
    ensures { MatchResult result
        (λ d. IsValueDfa alphabet form.now d)
        (λ e. IsWide form.now (length alphabet.letters) e) }
{
    let masks = masks_of(alloc, form, alphabet.letters())?;
    let found = explore(alloc, form, masks.as_slice())?;
    let accepting = accepting_of(alloc, form, found.states.as_slice())?;
    Ok(Dfa::of_table(alphabet, 0, accepting, found.targets))
}
