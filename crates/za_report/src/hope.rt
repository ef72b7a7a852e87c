//! The word of a hope.

ghost use Rattle.std.specs.Prelude.{◌≡◌, ◌++◌, ◌∷◌, [], OnOk};
ghost use Rattle.za_text.specs.Printed.{line, spaced};
ghost use Rattle.za_report.specs.Texts.{hope_word};
ghost use Rattle.za_report.specs.Audits.{hope_words};

use za_alpha::OutOfMemory;
use za_min::Hope;
use za_write::push_word;

/// The word of a hope.
fn word_of(hope: Hope) -> &'static [u8]
    ensures { result.now ≡ hope_word hope }
{
    match hope {
        Hope::Alive => b"alive",
        Hope::Dead => b"dead",
    }
}

/// The line of a hope.
pub(crate) fn push_hope_line(text: &mut Vec<u8>, hope: Hope) -> Result<(), OutOfMemory>
    ensures { OnOk result (text.new.items ≡ text.old.items ++ line (hope_word hope ∷ [])) }
{
    text.extend_from_slice(word_of(hope))?;
    text.push(b'\n')?;
    Ok(())
}

/// The word of a hope after a space, where there is one.
pub(crate) fn push_hope(text: &mut Vec<u8>, hope: Option<Hope>) -> Result<(), OutOfMemory>
    ensures { OnOk result (text.new.items ≡ text.old.items ++ spaced (hope_words hope)) }
{
    match hope {
        Some(hope) => push_word(text, word_of(hope)),
        None => Ok(()),
    }
}
