//! What is due for a job whose language is trace-closed.

ghost use Rattle.std.specs.Prelude.{◌≡◌, ◌≢◌, ℕ, IfOk, List, Option, Some, is_some, length, true, false, ◌↔◌};
ghost use Rattle.za_claim.specs.Claims.{ClaimData};
ghost use Rattle.za_lang.specs.Answers.{data_of};
ghost use Rattle.za_lang.specs.Jobs.{IsJob};
ghost use Rattle.za_alpha.specs.Words.{IsWord};
ghost use Rattle.za_dfa.specs.Automata.{walk};
ghost use Rattle.za_dfa.specs.Tables.{automaton_of, step_of};
ghost use Rattle.za_hope.specs.Hopes.{GoesWith};
ghost use Rattle.za_hope.specs.Jobs.{HasHope};
ghost use Rattle.za_min.specs.Live.{IsHope};
ghost use Rattle.za_script.specs.ScriptLists.{FitAlphabet};
ghost use Rattle.za_script.specs.Woven.{IsWeave};
ghost use Rattle.za_report.specs.Texts.{answer_text};
ghost use Rattle.za_table.specs.Ends.{answer_in};
ghost use Rattle.zielonka.specs.Journals.{fired_events};
ghost use Rattle.zielonka.specs.Output.{IsAnswered, status_of, status_of_verdict, woven_of};
ghost use Rattle.zielonka.specs.Shown.{IsRestOf, IsRunOf, TellsAnswer, TellsWhole, journal_text_of, runs_on_threads};
ghost use Rattle.zielonka.specs.Private.Saying.{IsCompiled, IsRestBy, IsMadeOfShown, IsRestMadeOfShown, IsRest};

use crate::judging::ClosedJob;
use crate::request::Command;
use crate::status::Shown;
use std::alloc::Global;
use std::sync::Wait;
use std::thread::Threads;
use za_alpha::OutOfMemory;
use za_audit::{Audit, audit};
use za_claim::{Claim, Event, print_claim};
use za_dfa::Closed;
use za_freeze::Thawed;
use za_hall::HallEnded;
use za_hope::hope_of;
use za_lang::Job;
use za_min::Hope;
use za_query::Said;
use za_report::{answer_text, audit_text, check_text, locals_text};
use za_runner::Gate;
use za_script::{Answer, Woven, weave};
use za_table::Ended;

/// What is due for a job: what is said, and the finished run of which it was made.
#[derive(Drop)]
pub(crate) struct Output {
    pub(crate) said: Said,
    pub(crate) shown: Shown,
}

/// The number that an answer ends with.
fn status_of(answer: Answer) -> u8
    ensures { result ≡ status_of answer }
{
    match answer {
        Answer::Accept => 0,
        Answer::Reject => 1,
        Answer::Stuck => 3,
    }
}

/// The run of a job's scripts on one thread, on its minimal automaton.
fn run_alone(alloc: Global, it: &ClosedJob, cache: u8) -> Result<Ended, OutOfMemory>
    requires { IsCompiled it.now }
    ensures run { IfOk result (λ run. IsRunOf (data_of it.now.job) run) }
    ensures journal { IfOk result (λ run. run.state.journal ≡ woven_of (data_of it.now.job)) }
    ensures dfa { IfOk result (λ run. run.given.dfa ≡ it.now.closed) }
{
    let closed = it.closed.copy()?;
    let scripts = it.job.scripts.copy()?;
    za_table::solo(alloc, closed, scripts, cache)
}

/// The same with a thread for each process.
fn run_on_threads<R: Threads + Wait + Sync, G: Gate>(
    rt: &R,
    alloc: Global,
    it: &ClosedJob,
    cache: u8,
    gate: &G,
) -> Result<HallEnded, OutOfMemory>
    requires { IsCompiled it.now }
    ensures { IfOk result (λ run. IsRunOf (data_of it.now.job) run) }
{
    let closed = it.closed.copy()?;
    let scripts = it.job.scripts.copy()?;
    za_runner::run(rt, alloc, closed, scripts, cache, gate)
}

/// The hope that goes with an answer: where scripts are stuck, that of the state to which their woven word leads.
fn hope_after(
    alloc: Global,
    closed: &Closed,
    woven: &Woven,
    answer: Answer,
) -> Result<Option<Hope>, OutOfMemory>
    requires { IsWord (length closed.now.alphabet.letters) woven.now.word }
    ensures { IfOk result (GoesWith (IsHope (automaton_of closed.now)
        (walk (step_of closed.now) closed.now.start woven.now.word)) answer) }
{
    let dfa = closed.dfa();
    let state = dfa.run(dfa.start(), woven.word());
    hope_of(alloc, dfa, state, answer)
}

/// The hope that goes with an answer to a job's scripts, by their weave.
fn hope_with(
    alloc: Global,
    it: &ClosedJob,
    woven: &Woven,
    answer: Answer,
) -> Result<Option<Hope>, OutOfMemory>
    requires job { IsCompiled it.now }
    requires woven { woven.now.word ≡ woven_of (data_of it.now.job) }
    ensures { IfOk result (HasHope (data_of it.now.job) answer) }
{
    hope_after(alloc, &it.closed, woven, answer)
}

/// The text of an answer to a job's scripts and of the hope that goes with it, by their weave.
fn answered(
    alloc: Global,
    job: &Job,
    woven: &Woven,
    answer: Answer,
    hope: Option<Hope>,
    cache: u8,
) -> Result<Said, OutOfMemory>
    requires job { IsJob (data_of job.now) }
    requires weave { IsWeave job.now.lang.table.alphabet job.now.scripts woven.now }
    requires stuck { answer ≡ Answer.Stuck ↔ woven.now.whole ≡ false }
    requires hope { HasHope (data_of job.now) answer hope }
    ensures status { IfOk result (λ said. said.status ≡ status_of answer) }
    ensures text { IfOk result (λ said. said.text.items
        ≡ answer_text (data_of job.now).naming.names (data_of job.now).lang.alphabet (data_of job.now).scripts
        (woven_of (data_of job.now)) answer hope cache) }
{
    let text = answer_text(
        alloc,
        job.lang.names(),
        job.lang.alphabet(),
        &job.scripts,
        woven,
        answer,
        hope,
        cache,
    )?;
    Ok(Said {
        status: status_of(answer),
        text,
    })
}

/// The answer of a finished run, and its text. The weave says in which order the letters are told that were
/// fired where the scripts are stuck, and what hope there is; it is made when the run is over.
fn told(alloc: Global, it: &ClosedJob, run: &Ended, cache: u8) -> Result<Said, OutOfMemory>
    requires job { IsCompiled it.now }
    requires run { IsRunOf (data_of it.now.job) run.now }
    ensures answered { IfOk result (λ said. (claim : Option ClaimData) →
        IsAnswered (data_of it.now.job) claim (Command.Solo cache) said.status said.text.items) }
    ensures made { IfOk result (λ said.
        TellsAnswer (data_of it.now.job).naming.names run.now cache said.text.items) }
{
    let job = &it.job;
    let woven = weave(alloc, job.lang.alphabet(), &job.scripts)?;
    let answer = run.answer();
    let hope = hope_with(alloc, it, &woven, answer)?;
    answered(alloc, job, &woven, answer, hope, cache)
}

/// The answer to the scripts, run on one thread.
fn solo(alloc: Global, it: &ClosedJob, cache: u8) -> Result<Output, OutOfMemory>
    requires { IsCompiled it.now }
    ensures answered { IfOk result (λ output.
        IsAnswered (data_of it.now.job) it.now.claim (Command.Solo cache) output.said.status output.said.text.items) }
    ensures made { IfOk result (λ output.
        IsMadeOfShown (Command.Solo cache) (data_of it.now.job) output.said.text.items output.shown) }
{
    let ended = run_alone(alloc, it, cache)?;
    let said = told(alloc, it, &ended, cache)?;
    Ok(Output {
        said,
        shown: Shown::Solo(ended),
    })
}

/// The answer to the scripts, run on threads.
fn run<R: Threads + Wait + Sync, G: Gate>(
    rt: &R,
    alloc: Global,
    it: &ClosedJob,
    cache: u8,
    gate: &G,
) -> Result<Output, OutOfMemory>
    requires { IsCompiled it.now }
    ensures answered { IfOk result (λ output.
        IsAnswered (data_of it.now.job) it.now.claim (Command.Run cache) output.said.status output.said.text.items) }
    ensures made { IfOk result (λ output.
        IsMadeOfShown (Command.Run cache) (data_of it.now.job) output.said.text.items output.shown) }
{
    let closed = run_on_threads(rt, alloc, it, cache, gate)?;
    let said = told(alloc, it, closed.ended(), cache)?;
    Ok(Output {
        said,
        shown: Shown::Hall(closed),
    })
}

/// How many states the minimal automaton has.
fn check(alloc: Global, it: &ClosedJob, cache: u8) -> Result<Output, OutOfMemory>
    requires { IsCompiled it.now }
    ensures answered { IfOk result (λ output.
        IsAnswered (data_of it.now.job) it.now.claim (Command.Check cache) output.said.status output.said.text.items) }
    ensures made { IfOk result (λ output.
        IsMadeOfShown (Command.Check cache) (data_of it.now.job) output.said.text.items output.shown) }
{
    let text = check_text(
        alloc,
        it.job.lang.alphabet(),
        it.closed.dfa().states(),
        cache,
    )?;
    Ok(Output {
        said: Said { status: 0, text },
        shown: Shown::Nothing,
    })
}

/// The local states at the end of a run of the scripts.
fn locals(alloc: Global, it: &ClosedJob, cache: u8) -> Result<Output, OutOfMemory>
    requires { IsCompiled it.now }
    ensures answered { IfOk result (λ output.
        IsAnswered (data_of it.now.job) it.now.claim (Command.Locals cache) output.said.status output.said.text.items) }
    ensures made { IfOk result (λ output.
        IsMadeOfShown (Command.Locals cache) (data_of it.now.job) output.said.text.items output.shown) }
{
    let ended = run_alone(alloc, it, cache)?;
    let text = locals_text(alloc, &it.closed, &ended)?;
    Ok(Output {
        said: Said { status: 0, text },
        shown: Shown::Solo(ended),
    })
}

/// The events of a finished run in the order in which they were fired, with their labels.
fn fired_events(alloc: Global, run: &Ended) -> Result<Vec<Event>, OutOfMemory>
    ensures { IfOk result (λ events. events.items ≡ fired_events run.now.given.dfa.alphabet run.now.state.journal) }
{
    let mut events = Vec::new(alloc);
    for (at, letter) in run.word().letters().iter().enumerate() {
        let label = run.label(at);
        events.push(Event {
            letter: *letter,
            label,
        })?;
    }
    Ok(events)
}

/// The journal of a finished run as a claim: its answer, and its events in order with their labels.
fn recorded(alloc: Global, job: &Job, run: &Ended) -> Result<Said, OutOfMemory>
    requires job { IsJob (data_of job.now) }
    requires run { IsRunOf (data_of job.now) run.now }
    ensures status { IfOk result (λ said. said.status ≡ status_of (answer_in run.now)) }
    ensures made { IfOk result (λ said. said.text.items ≡ journal_text_of run.now) }
{
    let events = fired_events(alloc, run)?;
    let answer = run.answer();
    let text = print_claim(alloc, job.lang.alphabet(), answer, events.as_slice())?;
    let status = status_of(answer);
    Ok(Said { status, text })
}

/// The journal of a run on threads.
fn journal<R: Threads + Wait + Sync, G: Gate>(
    rt: &R,
    alloc: Global,
    it: &ClosedJob,
    cache: u8,
    gate: &G,
) -> Result<Output, OutOfMemory>
    requires { IsCompiled it.now }
    ensures answered { IfOk result (λ output. IsAnswered (data_of it.now.job) it.now.claim (Command.Journal cache)
        output.said.status output.said.text.items) }
    ensures made { IfOk result (λ output.
        IsMadeOfShown (Command.Journal cache) (data_of it.now.job) output.said.text.items output.shown) }
{
    let closed = run_on_threads(rt, alloc, it, cache, gate)?;
    let said = recorded(alloc, &it.job, closed.ended())?;
    let shown = Shown::Hall(closed);
    Ok(Output { said, shown })
}

/// The number that a verdict ends with.
fn status_of_verdict(verdict: &Audit) -> u8
    ensures { result ≡ status_of_verdict verdict.now }
{
    match verdict {
        Audit::Yes { .. } => 0,
        Audit::BadLetter { .. }
        | Audit::BadLabel { .. }
        | Audit::NotMaximal { .. }
        | Audit::WrongAnswer { .. } => 1,
    }
}

/// The verdict on a claim about the job.
fn judged(alloc: Global, it: &ClosedJob, claim: &Claim) -> Result<Output, OutOfMemory>
    requires job { IsCompiled it.now }
    requires claim { it.now.claim ≡ Some claim.now }
    ensures answered { IfOk result (λ output.
        IsAnswered (data_of it.now.job) it.now.claim Command.Audit output.said.status output.said.text.items) }
    ensures made { IfOk result (λ output.
        IsMadeOfShown Command.Audit (data_of it.now.job) output.said.text.items output.shown) }
{
    let verdict = audit(alloc, &it.job, claim)?;
    let text = audit_text(alloc, it.job.lang.alphabet(), &verdict)?;
    Ok(Output {
        said: Said {
            status: status_of_verdict(&verdict),
            text,
        },
        shown: Shown::Nothing,
    })
}

/// What a command answers that waits for nobody.
pub(crate) fn answer_alone(
    alloc: Global,
    command: Command,
    it: &ClosedJob,
) -> Result<Output, OutOfMemory>
    requires job { IsCompiled it.now }
    requires alone { runs_on_threads command ≡ false }
    requires claim { command ≡ Command.Audit → is_some it.now.claim ≡ true }
    ensures answered { IfOk result (λ output.
        IsAnswered (data_of it.now.job) it.now.claim command output.said.status output.said.text.items) }
    ensures made { IfOk result (λ output.
        IsMadeOfShown command (data_of it.now.job) output.said.text.items output.shown) }
{
    match command {
        Command::Solo { cache } => solo(alloc, it, cache),
        Command::Check { cache } => check(alloc, it, cache),
        Command::Locals { cache } => locals(alloc, it, cache),
        Command::Audit => match &it.claim {
            Some(claim) => judged(alloc, it, claim),
            None => unreachable!(),
        },
        Command::Run { .. } | Command::Journal { .. } | Command::Thaw => unreachable!(),
    }
}

/// What a command answers on threads.
pub(crate) fn answer_on_threads<R: Threads + Wait + Sync, G: Gate>(
    rt: &R,
    alloc: Global,
    command: Command,
    it: &ClosedJob,
    gate: &G,
) -> Result<Output, OutOfMemory>
    requires job { IsCompiled it.now }
    requires threads { runs_on_threads command ≡ true }
    requires whole { command ≢ Command.Thaw }
    ensures answered { IfOk result (λ output.
        IsAnswered (data_of it.now.job) it.now.claim command output.said.status output.said.text.items) }
    ensures made { IfOk result (λ output.
        IsMadeOfShown command (data_of it.now.job) output.said.text.items output.shown) }
{
    match command {
        Command::Run { cache } => run(rt, alloc, it, cache, gate),
        Command::Journal { cache } => journal(rt, alloc, it, cache, gate),
        Command::Solo { .. }
        | Command::Check { .. }
        | Command::Locals { .. }
        | Command::Audit
        | Command::Thaw => unreachable!(),
    }
}

/// The run of what is left of a job, with a thread for each process.
fn run_rest<R: Threads + Wait + Sync, G: Gate>(
    rt: &R,
    alloc: Global,
    it: &Thawed,
    gate: &G,
) -> Result<HallEnded, OutOfMemory>
    requires fit { FitAlphabet it.now.closed.alphabet it.now.rest }
    ensures { IfOk result (λ run. (bytes : List ℕ) → IsRestBy bytes it.now →
        IsRestOf bytes (data_of it.now.job) run) }
{
    let closed = it.closed.copy()?;
    let rest = it.rest.copy()?;
    za_runner::run(rt, alloc, closed, rest, 0, gate)
}

/// The hope that goes with an answer to what is left of a job, by the weave of that.
fn hope_of_rest(alloc: Global, it: &Thawed, answer: Answer) -> Result<Option<Hope>, OutOfMemory>
    requires { IsRest it.now }
    ensures { IfOk result (HasHope (data_of it.now.job) answer) }
{
    let woven = weave(alloc, it.closed.dfa().alphabet(), &it.rest)?;
    hope_after(alloc, &it.closed, &woven, answer)
}

/// The answer of a finished run of what is left of a job, and its text, which is that of the whole job.
fn told_of_rest(alloc: Global, it: &Thawed, run: &Ended) -> Result<Said, OutOfMemory>
    requires rest { IsRest it.now }
    requires run { (bytes : List ℕ) → IsRestBy bytes it.now → IsRestOf bytes (data_of it.now.job) run.now }
    ensures answered { IfOk result (λ said. (claim : Option ClaimData) →
        IsAnswered (data_of it.now.job) claim Command.Thaw said.status said.text.items) }
    ensures made { IfOk result (λ said. TellsWhole (data_of it.now.job) run.now said.text.items) }
{
    let job = &it.job;
    let answer = run.answer();
    let hope = hope_of_rest(alloc, it, answer)?;
    let whole = weave(alloc, job.lang.alphabet(), &job.scripts)?;
    answered(alloc, job, &whole, answer, hope, 0)
}

/// The answer to a job whose processes were frozen: what is left of it is run on threads.
pub(crate) fn answer_rest<R: Threads + Wait + Sync, G: Gate>(
    rt: &R,
    alloc: Global,
    it: &Thawed,
    gate: &G,
) -> Result<Output, OutOfMemory>
    requires rest { IsRest it.now }
    ensures answered { IfOk result (λ output. (claim : Option ClaimData) →
        IsAnswered (data_of it.now.job) claim Command.Thaw output.said.status output.said.text.items) }
    ensures made { IfOk result (λ output. (bytes : List ℕ) → IsRestBy bytes it.now →
        IsRestMadeOfShown bytes (data_of it.now.job) output.said.text.items output.shown) }
{
    let hall = run_rest(rt, alloc, it, gate)?;
    let said = told_of_rest(alloc, it, hall.ended())?;
    Ok(Output {
        said,
        shown: Shown::Hall(hall),
    })
}
