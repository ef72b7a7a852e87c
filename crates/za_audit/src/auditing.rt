ghost use Rattle.std.specs.Prelude.{◌≡◌, ◌≢◌, ◌<◌, ◌≤◌, [], IfOk, MatchBool, MatchOption, length};
ghost use Rattle.std.specs.Prelude.{if◌then◌else◌};
ghost use Rattle.za_alpha.specs.Words.{IsWord};
ghost use Rattle.za_alpha.specs.Alphabet.{loc_of, IsDistributed};
ghost use Rattle.za_dfa.specs.Automata.{walk, IsTraceClosed};
ghost use Rattle.za_dfa.specs.Tables.{step_of};
ghost use Rattle.za_script.specs.ScriptLists.{FitAlphabet};
ghost use Rattle.za_lang.specs.Answers.{data_of};
ghost use Rattle.za_views.specs.Marks.{unmarked};
ghost use Rattle.za_claim.specs.Claims.{event_letters};
ghost use Rattle.za_claim.specs.Limits.{most_events};
ghost use Rattle.za_audit.specs.Private.Standing.{AreCounts, IsFault};
ghost use Rattle.za_audit.specs.Verdicts.{automaton, AreRight, AreWhole, IsVerdict, NamesLetterOf};

use crate::counts::{are_used_up, count, is_next, least_next};
use crate::verdict::Audit;
use std::alloc::Global;
use za_alpha::{MOST_PROCESSES, OutOfMemory};
use za_claim::{Claim, Event};
use za_dfa::Dfa;
use za_hope::hope_of;
use za_lang::Job;
use za_script::Answer;
use za_views::Marks;

/// The first event that isn't right, if there is one. Else the counts are those of all events.
fn first_fault(
    job: &Job,
    events: &[Event],
    marks: &mut Marks,
    counts: &mut [usize],
) -> Option<Audit>
    requires fit { FitAlphabet job.now.lang.table.alphabet job.now.scripts }
    requires alphabet { IsDistributed job.now.lang.table.alphabet }
    requires short { length events.now ≤ most_events }
    requires marks { marks.old ≡ unmarked job.now.lang.table.alphabet (length events.now) }
    requires counts { AreCounts job.now.lang.table.alphabet [] counts.old }
    ensures { MatchOption result
        (AreRight (data_of job.now) events.now (length events.now)
        × AreCounts job.now.lang.table.alphabet (event_letters events.now) counts.new)
        (IsFault (data_of job.now) events.now) }
{
    let alphabet = job.lang.alphabet();
    for (at, event) in events.iter().enumerate() {
        if !is_next(alphabet, &job.scripts, counts, event.letter) {
            return Some(Audit::BadLetter { at });
        }
        let label = marks.push(event.letter);
        if label != event.label {
            return Some(Audit::BadLabel { at });
        }
        count(alphabet, event.letter, counts);
    }
    None
}

/// The state of a DFA after the events' letters.
fn state_after(dfa: &Dfa, events: &[Event]) -> u8
    requires { IsWord (length dfa.now.alphabet.letters) (event_letters events.now) }
    ensures value { result ≡ walk (step_of dfa.now) dfa.now.start (event_letters events.now) }
    ensures within { result < dfa.now.states }
{
    let mut state = dfa.start();
    for event in events {
        state = dfa.step(state, event.letter);
    }
    state
}

/// Whether two answers are the same.
fn are_same(one: Answer, other: Answer) -> bool
    ensures { MatchBool result (one ≡ other) (one ≢ other) }
{
    one == other
}

/// The answer of a run to its end, by whether the scripts are used up and whether its word is accepted.
fn answer_of(whole: bool, accepted: bool) -> Answer
    ensures { result ≡ (if whole then (if accepted then Answer.Accept else Answer.Reject) else Answer.Stuck) }
{
    if !whole {
        Answer::Stuck
    } else if accepted {
        Answer::Accept
    } else {
        Answer::Reject
    }
}

/// The verdict on events that are a run of the job to its end.
fn answered(alloc: Global, job: &Job, claim: &Claim, counts: &[usize]) -> Result<Audit, OutOfMemory>
    requires fit { FitAlphabet job.now.lang.table.alphabet job.now.scripts }
    requires alphabet { IsDistributed job.now.lang.table.alphabet }
    requires closed { IsTraceClosed (loc_of job.now.lang.table.alphabet) (automaton (data_of job.now)) }
    requires counts { AreCounts job.now.lang.table.alphabet (event_letters claim.now.events) counts.now }
    requires whole { AreWhole (data_of job.now) claim.now.events }
    ensures { IfOk result (IsVerdict (data_of job.now) claim.now) }
{
    let dfa = job.lang.dfa()?;
    let state = state_after(&dfa, claim.events());
    let defined = answer_of(are_used_up(&job.scripts, counts), dfa.accepting(state));
    if are_same(defined, claim.answer()) {
        let hope = hope_of(alloc, &dfa, state, defined)?;
        Ok(Audit::Yes { hope })
    } else {
        Ok(Audit::WrongAnswer { defined })
    }
}

/// The verdict on a claim, from the empty word on.
fn audited(
    alloc: Global,
    job: &Job,
    claim: &Claim,
    marks: &mut Marks,
    counts: &mut [usize],
) -> Result<Audit, OutOfMemory>
    requires fit { FitAlphabet job.now.lang.table.alphabet job.now.scripts }
    requires alphabet { IsDistributed job.now.lang.table.alphabet }
    requires closed { IsTraceClosed (loc_of job.now.lang.table.alphabet) (automaton (data_of job.now)) }
    requires marks { marks.old ≡ unmarked job.now.lang.table.alphabet (length claim.now.events) }
    requires counts { AreCounts job.now.lang.table.alphabet [] counts.old }
    ensures { IfOk result (IsVerdict (data_of job.now) claim.now) }
{
    if let Some(fault) = first_fault(job, claim.events(), marks, counts) {
        return Ok(fault);
    }
    if let Some(letter) = least_next(job.lang.alphabet(), &job.scripts, counts) {
        return Ok(Audit::NotMaximal { letter });
    }
    answered(alloc, job, claim, counts)
}

/// The verdict on a claim about a job whose scripts fit its alphabet and whose language is
/// trace-closed, as `close` of the completed DFA tells.
///
/// The first event that isn't right is named, the letter tested first and then the label; else the least
/// letter that can still fire; else the job's answer, where another is claimed; else the claim is right,
/// and of a stuck one it is told whether the run can still be saved. Each event is appended to marks by
/// positions, compared with the next letters of its processes, and followed by one step of the DFA, so the
/// time is linear in the number of events. Want of memory is the one free answer.
#[tactic(auto, using(crate::proofs::VerdictLemmas::verdict_names))]
pub fn audit(alloc: Global, job: &Job, claim: &Claim) -> Result<Audit, OutOfMemory>
    requires fit { FitAlphabet job.now.lang.table.alphabet job.now.scripts }
    requires closed { IsTraceClosed (loc_of job.now.lang.table.alphabet) (automaton (data_of job.now)) }
    ensures verdict { IfOk result (IsVerdict (data_of job.now) claim.now) }
    ensures letter { IfOk result (NamesLetterOf job.now.lang.table.alphabet) }
{
    let mut marks = Marks::new(alloc, job.lang.alphabet(), claim.events().len())?;
    let mut counts = [0; MOST_PROCESSES];
    audited(alloc, job, claim, &mut marks, &mut counts)
}
