ghost use Rattle.std.specs.Prelude.{◌≡◌, ◌<◌, length, IfOk};
ghost use Rattle.za_alpha.specs.Letters.{numbers};
ghost use Rattle.za_alpha.specs.Words.{IsWord};
ghost use Rattle.za_alpha.specs.Procs.{members};
ghost use Rattle.za_alpha.specs.Alphabet.{loc_of};
ghost use Rattle.za_order.specs.Views.{participants};
ghost use Rattle.za_order.specs.Past.{past_row};

use crate::bits::BitRow;
use std::alloc::Global;
use za_alpha::{Alphabet, Letter, OutOfMemory, Procs, Word};

/// Marks the past of the event at position `at` of a word of the alphabet: exactly the positions
/// from which a chain of events leads to it, in which neighbours share a process. The event itself
/// is among them. The row has a mark for each position of the word.
pub fn past(alloc: Global, alphabet: &Alphabet, w: &Word, at: usize) -> Result<BitRow, OutOfMemory>
    requires position { at < length w.now }
    requires word { IsWord (length alphabet.now.letters) w.now }
    ensures { IfOk result (λ row. row ≡ past_row alphabet.now w.now at) }
{
    let letters = w.letters();
    let mut marks = vec![in alloc; false; letters.len()]?;
    let mut known = participants_at(alphabet, letters, at);
    for i in (0..at + 1).rev() {
        let takes = participants_at(alphabet, letters, i);
        if takes.meets(known) {
            marks[i] = true;
            known = known.union(takes);
        }
    }
    Ok(BitRow::of(marks))
}

/// The participants of the event at position `i`.
fn participants_at(alphabet: &Alphabet, letters: &[Letter], i: usize) -> Procs
    requires position { i < length letters.now }
    requires word { IsWord (length alphabet.now.letters) (numbers letters.now) }
    ensures { members result ≡ participants (loc_of alphabet.now) (numbers letters.now) i }
{
    alphabet.loc(letters[i])
}
