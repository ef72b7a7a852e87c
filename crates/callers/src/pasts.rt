//! A caller of za_order.

ghost use Rattle.std.specs.Prelude.{◌<◌, ◌≤◌, ◌↔◌, length, IsTrue, IfOk};
ghost use Rattle.za_alpha.specs.Words.{IsWord};
ghost use Rattle.za_alpha.specs.Alphabet.{loc_of};
ghost use Rattle.za_order.specs.Views.{participants, Chain};

use std::alloc::Global;
use za_alpha::{Alphabet, OutOfMemory, Word};
use za_order::{past, past_is_chains};

/// Whether the event at position `i` of a word can have had to do with the one at `at`: whether a
/// chain of events leads from it to that one, in which neighbours share a process.
pub fn leads_to(
    alloc: Global,
    alphabet: &Alphabet,
    w: &Word,
    i: usize,
    at: usize,
) -> Result<bool, OutOfMemory>
    requires word { IsWord (length alphabet.now.letters) w.now }
    requires one { i < length w.now }
    requires other { at < length w.now }
    ensures { IfOk result (λ leads. IsTrue leads ↔
        Chain (participants (loc_of alphabet.now) w.now) i at) }
{
    past_is_chains();
    let _letters = alphabet.letters();
    let row = past(alloc, alphabet, w, at)?;
    Ok(row.has(i))
}
