//! A caller of za_payload.

ghost use Rattle.std.specs.Prelude.{◌≡◌, ◌<◌, length, slice_index, IfOk};
ghost use Rattle.za_alpha.specs.Words.{IsWord};
ghost use Rattle.za_alpha.specs.Alphabet.{loc_of};
ghost use Rattle.za_payload.specs.Knowledge.{known_after};

use std::alloc::Global;
use za_alpha::{Alphabet, OutOfMemory, Word};
use za_payload::Circle;

/// The last reading of station `q` that station `p` has when all meetings are over, and `None` exactly
/// where no news of `q` has come to `p`. Stations meet in the order of the word, and at each meeting its
/// stations take one reading, which is theirs.
pub fn last_reading(
    alloc: Global,
    alphabet: &Alphabet,
    meetings: &Word,
    readings: &[u32],
    p: usize,
    q: usize,
) -> Result<Option<u32>, OutOfMemory>
    requires word { IsWord (length alphabet.now.letters) meetings.now }
    requires one_each { length readings.now ≡ length meetings.now }
    requires first { p < alphabet.now.processes }
    requires second { q < alphabet.now.processes }
    ensures { IfOk result (λ reading.
        reading ≡ known_after (loc_of alphabet.now) meetings.now (slice_index readings.now) p q) }
{
    let letters = meetings.letters();
    let mut circle = Circle::new(alloc, alphabet)?;
    for i in 0..letters.len() {
        circle.meet(alphabet, letters[i], readings[i]);
    }
    Ok(circle.known(p, q))
}
