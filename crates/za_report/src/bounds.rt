//! The printed bounds.

ghost use Rattle.std.specs.Prelude.{◌≡◌, ◌++◌, OnOk};
ghost use Rattle.za_text.specs.Printed.{line};
ghost use Rattle.za_report.specs.Texts.{bound_line};

use za_alpha::{Alphabet, OutOfMemory};
use za_write::push_number;

/// The line of the bounds on labels of letters and on records.
pub(crate) fn push_bounds(
    text: &mut Vec<u8>,
    alphabet: &Alphabet,
    cache: u8,
) -> Result<(), OutOfMemory>
    ensures { OnOk result (text.new.items ≡ text.old.items ++ line (bound_line alphabet.now cache)) }
{
    let n = alphabet.processes();
    text.extend_from_slice(b"bound labels")?;
    push_number(text, alphabet.letters() * (n.pow(3) + 1))?;
    text.extend_from_slice(b" records")?;
    push_number(text, n + 1 + (n + 1) * cache as usize)?;
    text.push(b'\n')?;
    Ok(())
}
