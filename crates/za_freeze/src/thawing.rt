//! Frozen texts are read, and what is left of their jobs.

ghost use Rattle.std.specs.Prelude.{◌≡◌, ◌<◌, ◌≤◌, None, OnOk, IfOk, IfErr, MatchResult, length};
ghost use Rattle.za_dfa.specs.Automata.{walk};
ghost use Rattle.za_dfa.specs.Partials.{completion};
ghost use Rattle.za_dfa.specs.Tables.{step_of};
ghost use Rattle.za_closure.specs.Breaks.{IsCause};
ghost use Rattle.za_script.specs.ScriptLists.{FitAlphabet};
ghost use Rattle.za_script.specs.Rests.{rest_of};
ghost use Rattle.za_lang.specs.Answers.{data_of};
ghost use Rattle.za_lang.specs.Jobs.{IsJob};
ghost use Rattle.za_freeze.specs.Frozen.{woven_of, cut_word, frozen_text, IsAutomatonOf, IsThawed};
ghost use Rattle.za_freeze.specs.Thawing.{reading_fault, frozen_job, cut_of, IsRefusedFor};
ghost use Rattle.za_freeze.specs.Private.Reading.{IsUnread, IsUnlike};

use crate::comparing::first_other;
use crate::cutting::cut_said;
use crate::freezing::text_after;
use crate::playing::{first_letters, locals_after, state_after};
use std::alloc::Global;
use za_alpha::{OutOfMemory, Word};
use za_closure::{Open, close};
use za_dfa::Closed;
use za_lang::{Job, JobFault, Refusal, fault_at, read_job};
use za_script::{Scripts, Woven, weave};
use za_text::{FirstWord, Kind, TextFault, divide};

/// Why a text isn't thawed.
#[derive(Debug, Drop)]
pub enum ThawFault {
    /// The first wrong line, and the first of its tests that fails.
    Text(TextFault),
    /// The job's language isn't closed under trace equivalence: exactly one of these two equivalent words
    /// is accepted. They are those that `close` tells.
    NotClosed { left: Word, right: Word },
    /// Want of memory is the one free answer.
    OutOfMemory,
}

impl From<OutOfMemory> for ThawFault {
    ghost use Rattle.std.specs.Prelude.{◌≡◌};
    ghost use Rattle.za_freeze.specs.declared.thawing.ThawFault.TheVariants.{OutOfMemory};

    ghost from_gives = { λ _ e. e ≡ OutOfMemory };

    fn from(_error: OutOfMemory) -> ThawFault {
        ThawFault::OutOfMemory
    }
}

/// A job whose processes were frozen, and what is left of it: the minimal automaton of its language,
/// started at the state to which the events lead, and the scripts without the letters of these events.
#[derive(Debug, Drop)]
pub struct Thawed {
    pub job: Job,
    pub closed: Closed,
    pub rest: Scripts,
}

impl From<JobFault> for ThawFault {
    ghost use Rattle.std.specs.Prelude.{◌≡◌};
    ghost use Rattle.za_freeze.specs.Private.Reading.{fault_of_job};

    ghost from_gives = { λ fault e. e ≡ fault_of_job fault };

    fn from(fault: JobFault) -> ThawFault {
        match fault {
            JobFault::Text(fault) => ThawFault::Text(fault),
            JobFault::OutOfMemory => ThawFault::OutOfMemory,
        }
    }
}

impl From<Open> for ThawFault {
    ghost use Rattle.std.specs.Prelude.{◌≡◌};
    ghost use Rattle.za_freeze.specs.Private.Reading.{fault_of_language};

    ghost from_gives = { λ cause e. e ≡ fault_of_language cause };

    fn from(cause: Open) -> ThawFault {
        match cause {
            Open::NotClosed { left, right } => ThawFault::NotClosed { left, right },
            Open::OutOfMemory => ThawFault::OutOfMemory,
        }
    }
}

/// What a text says before its lines are compared: a job, what its scripts weave to, and after how many
/// events of that it was frozen.
#[derive(Drop)]
pub(crate) struct Said {
    pub(crate) job: Job,
    pub(crate) woven: Woven,
    pub(crate) cut: u32,
}

/// Reads the job of a frozen text and its cut line.
fn read_cut(alloc: Global, bytes: &[u8]) -> Result<Said, JobFault>
    requires { length bytes.now < 4294967295 }
    ensures answer { MatchResult result
        (λ s. (reading_fault bytes.now ≡ None)
        × (data_of s.job ≡ frozen_job bytes.now) × (s.cut ≡ cut_of bytes.now))
        (IsUnread bytes.now) }
    ensures job { IfOk result (λ s. IsJob (data_of s.job)) }
    ensures woven { IfOk result (λ s. s.woven.word ≡ woven_of (data_of s.job)) }
    ensures within { IfOk result (λ s. s.cut ≤ length (woven_of (data_of s.job))) }
{
    let divided = divide(bytes, &FirstWord(b"cut"));
    let job = read_job(alloc, divided.before)?;
    let Some(line) = divided.line else {
        return Err(JobFault::Text(TextFault {
            line: divided.after.passed() + 1,
            kind: Kind::NoEnd,
        }));
    };
    let Ok(woven) = weave(alloc, job.lang.alphabet(), &job.scripts) else {
        return Err(JobFault::OutOfMemory);
    };
    match cut_said(&line, woven.word().len()) {
        Ok(cut) => Ok(Said { job, woven, cut }),
        Err(kind) => Err(fault_at(line.number, Refusal::Wrong(kind))),
    }
}

/// The minimal automaton of the job's language, where this is trace-closed.
fn automaton_of(alloc: Global, job: &Job) -> Result<Closed, Open>
    ensures closed { IfOk result (IsAutomatonOf (data_of job.now)) }
    ensures refused { IfErr result (IsCause (completion job.now.lang.table)) }
{
    let dfa = job.lang.dfa()?;
    close(alloc, &dfa)
}

/// What is left of a job after the events of a text: the state to which they lead, and the scripts.
#[derive(Drop)]
struct Left {
    state: u8,
    rest: Scripts,
}

/// Compares a text with the frozen text of the job and the number that it says, and tells what is left.
fn compared(alloc: Global, bytes: &[u8], said: &Said, closed: &Closed) -> Result<Left, ThawFault>
    requires short { length bytes.now < 4294967295 }
    requires job { IsJob (data_of said.now.job) }
    requires woven { said.now.woven.word ≡ woven_of (data_of said.now.job) }
    requires alphabet { closed.now.alphabet ≡ said.now.job.lang.table.alphabet }
    ensures text { OnOk result (bytes.now ≡ frozen_text (data_of said.now.job) closed.now said.now.cut) }
    ensures state { IfOk result (λ l.
        l.state ≡ walk (step_of closed.now) closed.now.start (cut_word (data_of said.now.job) said.now.cut)) }
    ensures within { IfOk result (λ l. l.state < closed.now.states) }
    ensures rest { IfOk result (λ l. l.rest ≡ rest_of said.now.job.lang.table.alphabet said.now.job.scripts
        (cut_word (data_of said.now.job) said.now.cut)) }
    ensures refused { IfErr result
        (IsUnlike (frozen_text (data_of said.now.job) closed.now said.now.cut) bytes.now) }
{
    let letters = first_letters(said.woven.word().letters(), said.cut as usize);
    let locals = locals_after(alloc, closed, letters)?;
    let own = text_after(alloc, &said.job, closed, letters, locals.as_slice())?;
    if let Some(line) = first_other(bytes, own.as_slice()) {
        let kind = Kind::NotOwn;
        return Err(ThawFault::Text(TextFault { line, kind }));
    }
    let state = state_after(alloc, closed, locals.as_slice())?;
    let rest = said.job.scripts.rest(said.job.lang.alphabet(), letters)?;
    Ok(Left { state, rest })
}

/// What is left of the job of a frozen text of fewer than 4,294,967,295 bytes: the minimal automaton of its language,
/// started at the state that the frozen local states together say (Mukund 2012), and what is left of the scripts.
///
/// The text is refused as its job is, whose lines are those before the first that begins with `cut`; or as
/// this line is, of which `NoSuchCut` says that fewer events fire; where there is no such line, at one more
/// than the number of lines. Then the language has to be closed. Last comes the first line that isn't that
/// of the frozen text of this job and this number. Want of memory is the one free answer.
pub fn thaw(alloc: Global, bytes: &[u8]) -> Result<Thawed, ThawFault>
    requires { length bytes.now < 4294967295 }
    ensures thawed { IfOk result (λ t. IsThawed bytes.now (data_of t.job) t.closed t.rest) }
    ensures job { IfOk result (λ t. IsJob (data_of t.job)) }
    ensures fit { IfOk result (λ t. FitAlphabet t.closed.alphabet t.rest) }
    ensures refused { IfErr result (IsRefusedFor bytes.now) }
{
    let said = read_cut(alloc, bytes)?;
    let closed = automaton_of(alloc, &said.job)?;
    let left = compared(alloc, bytes, &said, &closed)?;
    Ok(Thawed {
        job: said.job,
        closed: closed.restart(left.state),
        rest: left.rest,
    })
}
