//! A caller of za_gossip.

ghost use Rattle.std.specs.Prelude.{◌≡◌, ◌<◌, ℕ, ◌∷◌, [], length, IsTrue, IfOk};
ghost use Rattle.za_alpha.specs.Words.{has};
ghost use Rattle.za_alpha.specs.Alphabet.{loc_of};
ghost use Rattle.za_gossip.specs.Rows.{rows_after};

use std::alloc::Global;
use za_alpha::{Alphabet, Letter, OutOfMemory};
use za_gossip::{Gossip, advance};

/// What the participants of a letter keep when its event is the first of all.
pub fn after_first(alloc: Global, alphabet: &Alphabet, a: Letter) -> Result<Gossip, OutOfMemory>
    requires { a.0 < length alphabet.now.letters }
    ensures { IfOk result (λ rows. (x : ℕ) → IsTrue (has (loc_of alphabet.now a.0) x) →
        rows ≡ rows_after (loc_of alphabet.now) alphabet.now.processes (a.0 ∷ []) x) }
{
    let n = alphabet.processes();
    let mut inputs = Vec::new(alloc);
    for _ in 0..alphabet.loc(a).count() {
        inputs.push(Gossip::blank(alloc, n)?)?;
    }
    let mut into = Gossip::blank(alloc, n)?;
    advance(alphabet, a, inputs.as_slice(), &mut into);
    Ok(into)
}
