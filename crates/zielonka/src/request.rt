//! What the command words ask for.

ghost use Rattle.std.specs.Prelude.{◌≡◌, IfOk, map, string_bytes};
ghost use Rattle.zielonka.specs.Requests.{are_for_threads, has_form, is_for_threads, request_by, request_in};
ghost use Rattle.zielonka.specs.Requests.{request_of};

use std::alloc::Global;
use za_alpha::OutOfMemory;
use za_command::{Plan, WordsFault, read_words};
use za_query::Query;

/// The calls that take command words. Each has the forms that it answers; other words are none to it.
#[derive(Clone, Copy, Debug, PartialEq, Eq)]
pub enum Call {
    /// `plain` has all forms but those of `run`, `journal` and `thaw`.
    Plain,
    /// `threaded` has the forms of `run`, `journal` and `thaw`.
    Threaded,
    /// `top` has all forms.
    Top,
}

/// A command that reads a job, with so many rows of a cache, 0 to 64. `Audit` reads a claim about it too, and
/// `Thaw` what its processes know after the first events of its weave.
#[derive(Clone, Copy, Debug, PartialEq, Eq)]
pub enum Command {
    Solo { cache: u8 },
    Run { cache: u8 },
    Check { cache: u8 },
    Locals { cache: u8 },
    Journal { cache: u8 },
    Audit,
    Thaw,
}

/// What command words ask of a call.
#[derive(Clone, Copy, Debug, PartialEq, Eq)]
pub enum Request {
    /// They are in no form: the usage line.
    Usage,
    /// A command that reads a job.
    Answer(Command),
    /// What is asked of a text without a run of its scripts.
    Ask(Query),
    /// The job that is generated from a number.
    Generate { number: u32 },
}

/// Whether a plan is answered on threads.
fn is_for_threads(plan: Plan) -> bool
    ensures { result ≡ is_for_threads plan }
{
    match plan {
        Plan::Run { .. } | Plan::Journal { .. } | Plan::Thaw => true,
        Plan::Solo { .. }
        | Plan::Check { .. }
        | Plan::Locals { .. }
        | Plan::Audit
        | Plan::Build
        | Plan::News
        | Plan::Gen { .. }
        | Plan::Freeze { .. } => false,
    }
}

/// Whether a call has the form of a plan.
fn has_form(call: Call, plan: Plan) -> bool
    ensures { result ≡ has_form call plan }
{
    match call {
        Call::Plain => !is_for_threads(plan),
        Call::Threaded => is_for_threads(plan),
        Call::Top => true,
    }
}

/// What a plan asks for.
fn request_by(plan: Plan) -> Request
    ensures { result ≡ request_by plan }
{
    match plan {
        Plan::Solo { cache } => Request::Answer(Command::Solo { cache }),
        Plan::Run { cache } => Request::Answer(Command::Run { cache }),
        Plan::Check { cache } => Request::Answer(Command::Check { cache }),
        Plan::Locals { cache } => Request::Answer(Command::Locals { cache }),
        Plan::Journal { cache } => Request::Answer(Command::Journal { cache }),
        Plan::Audit => Request::Answer(Command::Audit),
        Plan::Build => Request::Ask(Query::Build),
        Plan::News => Request::Ask(Query::News),
        Plan::Thaw => Request::Answer(Command::Thaw),
        Plan::Gen { number } => Request::Generate { number },
        Plan::Freeze { cut } => Request::Ask(Query::Freeze { cut }),
    }
}

/// What a plan asks of a call.
fn request_of(call: Call, plan: Plan) -> Request
    ensures { result ≡ request_of call plan }
{
    if has_form(call, plan) {
        request_by(plan)
    } else {
        Request::Usage
    }
}

/// What command words ask of a call.
pub(crate) fn request_in(
    alloc: Global,
    call: Call,
    words: &[String],
) -> Result<Request, OutOfMemory>
    ensures { IfOk result (λ request. request ≡ request_in call (map string_bytes words.now)) }
{
    match read_words(alloc, words) {
        Ok(plan) => Ok(request_of(call, plan)),
        Err(fault) => match fault {
            WordsFault::Usage => Ok(Request::Usage),
            WordsFault::OutOfMemory => Err(OutOfMemory),
        },
    }
}

/// Whether command words are in a form that is answered on threads.
pub(crate) fn are_for_threads(alloc: Global, words: &[String]) -> Result<bool, OutOfMemory>
    ensures { IfOk result (λ threads. threads ≡ are_for_threads (map string_bytes words.now)) }
{
    match read_words(alloc, words) {
        Ok(plan) => Ok(is_for_threads(plan)),
        Err(fault) => match fault {
            WordsFault::Usage => Ok(false),
            WordsFault::OutOfMemory => Err(OutOfMemory),
        },
    }
}
