//! The text of a verdict on a claim.

ghost use Rattle.std.specs.Prelude.{◌≡◌, ◌++◌, IfOk, OnOk};
ghost use Rattle.za_text.specs.Printed.{spaced};
ghost use Rattle.za_audit.specs.Verdicts.{NamesLetterOf};
ghost use Rattle.za_report.specs.Audits.{audit_text, verdict_words};

use crate::hope::push_hope;
use std::alloc::Global;
use za_alpha::{Alphabet, OutOfMemory};
use za_audit::Audit;
use za_claim::answer_word;
use za_write::{push_number, push_word};

/// What a verdict says, each word after a space.
fn push_verdict(text: &mut Vec<u8>, alphabet: &Alphabet, audit: &Audit) -> Result<(), OutOfMemory>
    requires { NamesLetterOf alphabet.now audit.now }
    ensures { OnOk result (text.new.items ≡ text.old.items ++ spaced (verdict_words alphabet.now audit.now)) }
{
    match *audit {
        Audit::Yes { hope } => {
            text.extend_from_slice(b" yes")?;
            push_hope(text, hope)
        }
        Audit::BadLetter { at } => {
            text.extend_from_slice(b" bad letter")?;
            push_number(text, at)
        }
        Audit::BadLabel { at } => {
            text.extend_from_slice(b" bad label")?;
            push_number(text, at)
        }
        Audit::NotMaximal { letter } => {
            text.extend_from_slice(b" not maximal")?;
            push_word(text, alphabet.name(letter))
        }
        Audit::WrongAnswer { defined } => {
            text.extend_from_slice(b" wrong answer")?;
            push_word(text, answer_word(defined))
        }
    }
}

/// The text of a verdict on a claim about a job over the alphabet: that it is right, and where the run is
/// stuck whether it can still be saved; the position, from 0 on, of its first event that isn't right; the
/// letter that can still fire; or the job's answer. A letter that the verdict names is of the alphabet.
/// Want of memory is the one free answer.
pub fn audit_text(alloc: Global, alphabet: &Alphabet, audit: &Audit) -> Result<Vec<u8>, OutOfMemory>
    requires { NamesLetterOf alphabet.now audit.now }
    ensures { IfOk result (λ text. text.items ≡ audit_text alphabet.now audit.now) }
{
    let mut text = Vec::from_slice(alloc, b"audit")?;
    push_verdict(&mut text, alphabet, audit)?;
    text.push(b'\n')?;
    Ok(text)
}
