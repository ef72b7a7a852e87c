//! What bytes come to before a command is answered: a job whose language is trace-closed, or a refusal.

ghost use Rattle.std.specs.Prelude.{◌≡◌, ◌≢◌, ◌<◌, IfOk, MatchResult, None, length};
ghost use Rattle.za_closure.specs.Breaks.{AreBreakWords};
ghost use Rattle.za_dfa.specs.Partials.{completion};
ghost use Rattle.za_lang.specs.Answers.{data_of, IsRefusedWith};
ghost use Rattle.za_lang.specs.Jobs.{IsJob};
ghost use Rattle.za_freeze.specs.Thawing.{frozen_job, reading_fault};
ghost use Rattle.za_report.specs.Texts.{open_text};
ghost use Rattle.zielonka.specs.Output.{fault_for, subject_of};
ghost use Rattle.zielonka.specs.Private.Saying.{AreJudged, IsJudged, subject_in};

use crate::request::Command;
use std::alloc::Global;
use za_alpha::{OutOfMemory, Word};
use za_claim::{Audited, Claim, read_audited};
use za_dfa::Closed;
use za_freeze::{ThawFault, Thawed, thaw};
use za_lang::{Job, JobFault, read_job};
use za_query::Said;
use za_report::{open_text, refused_text};
use za_text::{FirstWord, divide};

/// What bytes say to a command: a job, and to `audit` a claim about it too.
#[derive(Drop)]
struct Subject {
    job: Job,
    claim: Option<Claim>,
}

/// A job whose language is trace-closed, the minimal automaton of its language, and with `audit` a claim
/// about the job.
#[derive(Drop)]
pub(crate) struct ClosedJob {
    pub(crate) job: Job,
    pub(crate) claim: Option<Claim>,
    pub(crate) closed: Closed,
}

/// What bytes come to.
#[derive(Drop)]
pub(crate) enum Judged {
    /// A refusal is due.
    Refused(Said),
    /// A job that the command is to answer.
    Ready(ClosedJob),
    /// What is left of a job whose processes were frozen, which `thaw` is to answer.
    Rest(Thawed),
}

/// What bytes say to a command that reads the whole of a job.
fn read(alloc: Global, command: Command, bytes: &[u8]) -> Result<Subject, JobFault>
    requires short { length bytes.now < 4294967295 }
    requires whole { command ≢ Command.Thaw }
    ensures answer { MatchResult result
        (λ subject. (fault_for command bytes.now ≡ None) × (subject_in subject ≡ subject_of command bytes.now))
        (IsRefusedWith (fault_for command bytes.now)) }
    ensures job { IfOk result (λ subject. IsJob (data_of subject.job)) }
{
    if let Command::Audit = command {
        let Audited { job, claim } = read_audited(alloc, bytes)?;
        Ok(Subject {
            job,
            claim: Some(claim),
        })
    } else {
        let job = read_job(alloc, bytes)?;
        Ok(Subject { job, claim: None })
    }
}

/// What a job comes to, whatever the command is.
fn judge_subject(alloc: Global, subject: Subject) -> Result<Judged, OutOfMemory>
    requires { IsJob (data_of subject.job) }
    ensures { IfOk result (IsJudged (subject_in subject)) }
{
    let Subject { job, claim } = subject;
    match za_query::judge(alloc, &job)? {
        za_query::Judged::Open(said) => Ok(Judged::Refused(said)),
        za_query::Judged::Closed(closed) => Ok(Judged::Ready(ClosedJob { job, claim, closed })),
    }
}

/// What bytes come to that are to say the whole of a job.
fn judge_whole(alloc: Global, command: Command, bytes: &[u8]) -> Result<Judged, OutOfMemory>
    requires short { length bytes.now < 4294967295 }
    requires whole { command ≢ Command.Thaw }
    ensures { IfOk result (AreJudged command bytes.now) }
{
    match read(alloc, command, bytes) {
        Ok(subject) => judge_subject(alloc, subject),
        Err(fault) => match fault {
            JobFault::Text(fault) => Ok(Judged::Refused(Said {
                status: 4,
                text: refused_text(alloc, &fault)?,
            })),
            JobFault::OutOfMemory => Err(OutOfMemory),
        },
    }
}

/// The job of a frozen text whose lines are right up to its cut line: those before it say it.
fn frozen_job(alloc: Global, bytes: &[u8]) -> Result<Job, OutOfMemory>
    requires short { length bytes.now < 4294967295 }
    requires right { reading_fault bytes.now ≡ None }
    ensures { IfOk result (λ job. data_of job ≡ frozen_job bytes.now) }
{
    match read_job(alloc, divide(bytes, &FirstWord(b"cut")).before) {
        Ok(job) => Ok(job),
        Err(fault) => match fault {
            JobFault::Text(_) => unreachable!(),
            JobFault::OutOfMemory => Err(OutOfMemory),
        },
    }
}

/// What is said to a frozen text of a job with an open language.
fn open_rest(alloc: Global, bytes: &[u8], left: &Word, right: &Word) -> Result<Said, OutOfMemory>
    requires short { length bytes.now < 4294967295 }
    requires right { reading_fault bytes.now ≡ None }
    requires words { AreBreakWords (completion (frozen_job bytes.now).lang) left.now right.now }
    ensures status { IfOk result (λ said. said.status ≡ 5) }
    ensures text { IfOk result (λ said.
        said.text.items ≡ open_text (frozen_job bytes.now).lang.alphabet left.now right.now) }
{
    let job = frozen_job(alloc, bytes)?;
    let text = open_text(alloc, job.lang.alphabet(), left, right)?;
    Ok(Said { status: 5, text })
}

/// What a frozen text comes to.
fn judge_frozen(alloc: Global, bytes: &[u8]) -> Result<Judged, OutOfMemory>
    requires { length bytes.now < 4294967295 }
    ensures { IfOk result (AreJudged Command.Thaw bytes.now) }
{
    match thaw(alloc, bytes) {
        Ok(rest) => Ok(Judged::Rest(rest)),
        Err(fault) => match fault {
            ThawFault::Text(fault) => Ok(Judged::Refused(Said {
                status: 4,
                text: refused_text(alloc, &fault)?,
            })),
            ThawFault::NotClosed { left, right } => {
                Ok(Judged::Refused(open_rest(alloc, bytes, &left, &right)?))
            }
            ThawFault::OutOfMemory => Err(OutOfMemory),
        },
    }
}

/// What bytes come to.
pub(crate) fn judge(alloc: Global, command: Command, bytes: &[u8]) -> Result<Judged, OutOfMemory>
    requires { length bytes.now < 4294967295 }
    ensures { IfOk result (AreJudged command bytes.now) }
{
    if let Command::Thaw = command {
        judge_frozen(alloc, bytes)
    } else {
        judge_whole(alloc, command, bytes)
    }
}
