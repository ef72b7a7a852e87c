ghost use Rattle.std.specs.Prelude.{◌≡◌, ◌<◌, None, length, IfOk, MatchResult};
ghost use Rattle.za_lang.specs.Answers.{data_of};
ghost use Rattle.za_lang.specs.Jobs.{IsJob};
ghost use Rattle.za_expr.specs.Built.{IsBuilt, IsJobOf, IsBuildFault};
ghost use Rattle.za_expr.specs.Documents.{HasFault};

use crate::reading::take;
use std::alloc::Global;
use za_lang::{Job, JobFault, Reading, fault_at};
use za_print::print_job;
use za_text::{Kind, Lines, TextFault};

/// The job of a document with an expression.
fn read_expression(alloc: Global, bytes: &[u8]) -> Result<Job, JobFault>
    requires { length bytes.now < 4294967295 }
    ensures answer { MatchResult result
        (λ job. HasFault bytes.now None × IsJobOf bytes.now (data_of job))
        (IsBuildFault bytes.now) }
    ensures job { IfOk result (λ job. IsJob (data_of job)) }
{
    let mut lines = Lines::new(bytes);
    let mut reading = Reading::Header;
    'lines: while let Some(line) = lines.next() {
        if let Err(refusal) = take(&mut reading, alloc, &line) {
            return Err(fault_at(line.number, refusal));
        }
    }
    match reading.into_job() {
        Some(job) => Ok(job),
        None => Err(JobFault::Text(TextFault {
            line: lines.passed() + 1,
            kind: Kind::NoEnd,
        })),
    }
}

/// The text of the job that a document of fewer than 4,294,967,295 bytes says by an expression.
///
/// The document has the header `zla expr`, the `processes` and `letter` lines of version 2, one line `expr` with the
/// words of an expression, `script` lines and `end`. It is refused at the first line that is wrong, with the first of
/// that line's tests that fails, or, where no line is wrong and `end` is missing, at one more than the number of lines.
/// The text is the printed form of a job of version 2: the document's names, letters and scripts, and as the language
/// the expression's table by position values (McNaughton and Yamada 1960; Glushkov 1961), with all its rows. It isn't
/// minimised, nor tested for closure. Want of memory is the one free answer.
pub fn build(alloc: Global, bytes: &[u8]) -> Result<Vec<u8>, JobFault>
    requires { length bytes.now < 4294967295 }
    ensures { MatchResult result (λ text. IsBuilt bytes.now text.items) (IsBuildFault bytes.now) }
{
    let job = read_expression(alloc, bytes)?;
    match print_job(alloc, &job) {
        Ok(text) => Ok(text),
        Err(_error) => Err(JobFault::OutOfMemory),
    }
}
