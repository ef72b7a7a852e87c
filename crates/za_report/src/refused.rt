//! The text of a document that is refused.

ghost use Rattle.std.specs.Prelude.{◌≡◌, IfOk};
ghost use Rattle.za_report.specs.Texts.{refused_text};

use std::alloc::Global;
use za_alpha::OutOfMemory;
use za_text::TextFault;
use za_write::{push_number, push_word};

/// The text of a document that is refused: its first wrong line, and what is wrong with it.
/// Want of memory is the one free answer.
pub fn refused_text(alloc: Global, fault: &TextFault) -> Result<Vec<u8>, OutOfMemory>
    ensures { IfOk result (λ text. text.items ≡ refused_text fault.now) }
{
    let mut text = Vec::from_slice(alloc, b"refused line")?;
    push_number(&mut text, fault.line as usize)?;
    text.push(b':')?;
    push_word(&mut text, fault.kind.text())?;
    text.push(b'\n')?;
    Ok(text)
}
