ghost use Rattle.std.specs.Prelude.{◌≡◌, ◌∷◌, ◌++◌, IfOk, IfErr, OnOk};
ghost use Rattle.za_alpha.specs.Alphabet.{loc_of};
ghost use Rattle.za_alpha.specs.Letters.{numbers};
ghost use Rattle.za_dfa.specs.Automata.{IsTraceClosed};
ghost use Rattle.za_dfa.specs.Diamonds.{IsFirstBroken};
ghost use Rattle.za_dfa.specs.Tables.{automaton_of};
ghost use Rattle.za_min.specs.Minimal.{IsMinimalOf};
ghost use Rattle.za_closure.specs.Breaks.{AreBreakWords, IsCause};

use std::alloc::Global;
use za_alpha::{Letter, OutOfMemory, Word};
use za_dfa::{Closed, Dfa, Diamond, first_broken};
use za_min::{Minimal, minimise};

/// Why a DFA gives no closed one.
#[derive(Debug, Drop)]
pub enum Open {
    /// The language isn't closed under trace equivalence: exactly one of these two equivalent words is
    /// accepted. They differ in the order of two neighbouring letters. The word before these is the
    /// shortlex-least, then the lesser letter is the least, then the other one, and then the word after
    /// them is the shortlex-least.
    NotClosed { left: Word, right: Word },
    /// The want of memory.
    OutOfMemory,
}

impl From<OutOfMemory> for Open {
    ghost use Rattle.std.specs.Prelude.{◌≡◌};
    ghost use Rattle.za_closure.specs.declared.closing.Open.TheVariants.{OutOfMemory};

    ghost from_gives = { λ _ e. e ≡ OutOfMemory };

    fn from(_error: OutOfMemory) -> Open {
        Open::OutOfMemory
    }
}

/// Appends letters to a word.
fn push_all(word: &mut Word, letters: &[Letter]) -> Result<(), OutOfMemory>
    ensures { OnOk result (word.new ≡ word.old ++ numbers letters.now) }
{
    for a in letters {
        word.push(*a)?;
    }
    Ok(())
}

/// A word, then two letters, then another word.
fn joined(
    alloc: Global,
    before: &[Letter],
    first: Letter,
    second: Letter,
    after: &[Letter],
) -> Result<Word, OutOfMemory>
    ensures { IfOk result (λ word. word ≡ numbers before.now ++ first.0 ∷ second.0 ∷ numbers after.now) }
{
    let mut word = Word::new(alloc);
    push_all(&mut word, before)?;
    word.push(first)?;
    word.push(second)?;
    push_all(&mut word, after)?;
    Ok(word)
}

/// The two words of the least break, which begins with the access word of the first broken diamond's
/// state.
fn words_of(alloc: Global, minimal: &Minimal, first: Diamond) -> Result<(Word, Word), OutOfMemory>
    requires { IsFirstBroken (loc_of minimal.now.dfa.alphabet) (automaton_of minimal.now.dfa)
        first.state first.left.0 first.right.0 }
    ensures { IfOk result (λ words. AreBreakWords minimal.now.dfa words.0 words.1) }
{
    let dfa = minimal.dfa();
    let Diamond { state, left, right } = first;
    let x = dfa.step(dfa.step(state, left), right);
    let y = dfa.step(dfa.step(state, right), left);
    let after = minimal.apart(x, y)?.unwrap();
    let before = minimal.access(state);
    let given = joined(alloc, before, left, right, after.letters())?;
    let swapped = joined(alloc, before, right, left, after.letters())?;
    Ok((given, swapped))
}

/// The minimal DFA of a DFA's language, where this is closed under trace equivalence. It is refused
/// exactly where it isn't, with two words that show it. Want of memory is the one free answer.
pub fn close(alloc: Global, dfa: &Dfa) -> Result<Closed, Open>
    ensures minimal { IfOk result (λ closed. IsMinimalOf closed dfa.now) }
    ensures closed { IfOk result (λ _. IsTraceClosed (loc_of dfa.now.alphabet) (automaton_of dfa.now)) }
    ensures refused { IfErr result (IsCause dfa.now) }
{
    let minimal = minimise(alloc, dfa)?;
    match first_broken(minimal.dfa()) {
        None => Ok(Closed::of_diamonds(minimal.into_dfa())),
        Some(first) => {
            let (left, right) = words_of(alloc, &minimal, first)?;
            Err(Open::NotClosed { left, right })
        }
    }
}
