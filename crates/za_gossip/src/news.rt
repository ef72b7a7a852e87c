ghost use Rattle.std.specs.Prelude.{◌≡◌, ℕ, ◌<◌, List, length, slice_get, Some};
ghost use Rattle.za_alpha.specs.Alphabet.{loc_of};
ghost use Rattle.za_order.specs.Views.{participants};
ghost use Rattle.za_order.specs.Locals.{best};
ghost use Rattle.za_gossip.specs.Rows.{AreRowsAfter};

use crate::gossip::Gossip;
use za_alpha::{Alphabet, Letter};

/// Who of the participants of `a` has the latest news of `r`: the index in `inputs` of the least one
/// that knows the latest event of `r` that each of them knows (Mukund and Sohoni 1997). `inputs` has
/// what each participant keeps after some word, in rising order of processes.
pub fn newest(alphabet: &Alphabet, a: Letter, inputs: &[Gossip], r: usize) -> usize
    requires letter { a.0 < length alphabet.now.letters }
    requires process { r < alphabet.now.processes }
    requires rows { (w : List ℕ) × AreRowsAfter alphabet.now w (loc_of alphabet.now a.0) inputs.now }
    ensures within { result < length inputs.now }
    ensures best { (w : List ℕ) → AreRowsAfter alphabet.now w (loc_of alphabet.now a.0) inputs.now →
        let who = participants (loc_of alphabet.now) w in
        let xs = loc_of alphabet.now a.0 in
        slice_get xs result ≡ Some (best who alphabet.now.processes (length w) xs r) }
{
    // A participant whose latest event of r another one doesn't know knows all that the other does
    // of r, so one pass finds who knows most.
    let n = alphabet.processes();
    let mut newest = 0;
    for y in 1..inputs.len() {
        if !inputs[newest].knows(n, r, inputs[y].primary()[r]) {
            newest = y;
        }
    }
    newest
}
