//! A caller of za_alpha.

ghost use Rattle.std.specs.Prelude.{◌<◌, ◌↔◌, ◌++◌, ◌∷◌, [], length, IsTrue, IfOk};
ghost use Rattle.za_alpha.specs.Words.{IsWord, AreEquivalent};
ghost use Rattle.za_alpha.specs.Alphabet.{loc_of};

use za_alpha::{Alphabet, Letter, OutOfMemory, Word};

/// Whether it makes no difference, after the word, which of two letters comes first: whether the
/// two longer words are one trace.
pub fn may_swap(alphabet: &Alphabet, w: &Word, a: Letter, b: Letter) -> Result<bool, OutOfMemory>
    requires word { IsWord (length alphabet.now.letters) w.now }
    requires first { a.0 < length alphabet.now.letters }
    requires second { b.0 < length alphabet.now.letters }
    ensures { IfOk result (λ same. IsTrue same ↔
        AreEquivalent (loc_of alphabet.now) (w.now ++ a.0 ∷ b.0 ∷ []) (w.now ++ b.0 ∷ a.0 ∷ [])) }
{
    let mut one = w.copy()?;
    one.push(a)?;
    one.push(b)?;
    let mut other = w.copy()?;
    other.push(b)?;
    other.push(a)?;
    Ok(alphabet.same_trace(&one, &other))
}
