//! Callers of za_command and za_report.

ghost use Rattle.std.specs.Prelude.{◌≡◌, ◌<◌, None, Some, length, map, string_bytes, MatchBool, MatchOption, IfOk};
ghost use Rattle.za_command.specs.Plans.{plan_of};
ghost use Rattle.za_command.specs.declared.plan.Plan.{Plan};
ghost use Rattle.za_lang.specs.Documents.{fault_of};
ghost use Rattle.za_text.specs.declared.kind.TextFault.{TextFault};
ghost use Rattle.za_report.specs.Texts.{refused_text};

use std::alloc::Global;
use za_alpha::OutOfMemory;
use za_command::{WordsFault, read_words};
use za_lang::{JobFault, read_job};
use za_report::refused_text;

/// Whether command words, those after the program's name, are in a form of the program.
pub fn are_in_form(alloc: Global, words: &[String]) -> Result<bool, OutOfMemory>
    ensures { IfOk result (λ known. MatchBool known
        ((plan : Plan) × (plan_of (map string_bytes words.now) ≡ Some plan))
        (plan_of (map string_bytes words.now) ≡ None)) }
{
    match read_words(alloc, words) {
        Ok(_) => Ok(true),
        Err(WordsFault::Usage) => Ok(false),
        Err(WordsFault::OutOfMemory) => Err(OutOfMemory),
    }
}

/// What is wrong with a text, as the program says it, and `None` exactly where it is a document.
pub fn complaint(alloc: Global, bytes: &[u8]) -> Result<Option<Vec<u8>>, OutOfMemory>
    requires { length bytes.now < 4294967295 }
    ensures { IfOk result (λ said. MatchOption said
        (fault_of bytes.now ≡ None)
        (λ text. (fault : TextFault) × (fault_of bytes.now ≡ Some fault) × (text.items ≡ refused_text fault))) }
{
    match read_job(alloc, bytes) {
        Ok(_) => Ok(None),
        Err(JobFault::Text(fault)) => Ok(Some(refused_text(alloc, &fault)?)),
        Err(JobFault::OutOfMemory) => Err(OutOfMemory),
    }
}
