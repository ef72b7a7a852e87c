//! A caller of za_views.

ghost use Rattle.std.specs.Prelude.{◌≡◌, ◌<◌, ◌≤◌, length, IfOk};
ghost use Rattle.za_alpha.specs.Words.{IsWord};
ghost use Rattle.za_alpha.specs.Alphabet.{loc_of};
ghost use Rattle.za_order.specs.Views.{participants};
ghost use Rattle.za_order.specs.Entries.{primary};

use std::alloc::Global;
use za_alpha::{Alphabet, OutOfMemory, Word};
use za_views::Marks;

/// The position of the latest event of process `q` that process `p` knows after the word, and
/// `None` exactly where it knows none.
pub fn news(
    alloc: Global,
    alphabet: &Alphabet,
    w: &Word,
    p: usize,
    q: usize,
) -> Result<Option<usize>, OutOfMemory>
    requires word { IsWord (length alphabet.now.letters) w.now }
    requires few { length w.now ≤ 65536 }
    requires first { p < alphabet.now.processes }
    requires second { q < alphabet.now.processes }
    ensures { IfOk result (λ event. event ≡
        primary (participants (loc_of alphabet.now) w.now) (length w.now) p q) }
{
    let mut marks = Marks::new(alloc, alphabet, w.len())?;
    let letters = w.letters();
    for a in letters {
        marks.push(*a);
    }
    Ok(marks.latest(p, q))
}
