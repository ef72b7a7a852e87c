ghost use Rattle.std.specs.Prelude.{◌≡◌, ◌<◌, ◌≤◌, None, OnOk, IfOk, length, MatchResult, []};
ghost use Rattle.std.specs.Option.{option_or};
ghost use Rattle.za_text.specs.Lines.{lines_of, raw};
ghost use Rattle.za_lang.specs.Answers.{data_of, IsRefusedWith};
ghost use Rattle.za_lang.specs.Documents.{words_in};
ghost use Rattle.za_lang.specs.Jobs.{IsJob};
ghost use Rattle.za_lang.specs.Gathering.{IsWrong};
ghost use Rattle.za_claim.specs.Audited.{audited_claim, claim_said, audited_fault, audited_job};
ghost use Rattle.za_claim.specs.Claims.{AreClaimedEvents};
ghost use Rattle.za_claim.specs.Grammar.{claim_faults_from, claim_fault_at, claim_order_fault, claim_own_fault};
ghost use Rattle.za_claim.specs.Private.Reading.{more_claimed, more_claimed_by, said_so_far};

use crate::claim::{Claim, Event};
use crate::line_tests::{answer_said, event_said};
use crate::order::{Head, Place, head_of, next_place, order_fault};
use std::alloc::Global;
use za_alpha::Alphabet;
use za_lang::{
    Job, JobFault, Refusal, Version, Words, end_line_fault, fault_at, is_comment, read_job,
};
use za_script::Answer;
use za_text::{FirstWord, Kind, Line, Lines, TextFault, are_allowed, divide};

/// What the lines so far have said: a claim that grows. Its answer is stuck until a line says it.
#[derive(Drop)]
pub(crate) struct Reading {
    pub(crate) place: Place,
    pub(crate) answer: Answer,
    pub(crate) events: Vec<Event>,
}

impl Reading {
    /// What a line says but for its place, by its first word and the words after it.
    #[tactic(auto, using(crate::proofs::Saying::one_event_more))]
    fn take_said(&mut self, alphabet: &Alphabet, head: Head, words: Words) -> Result<(), Refusal>
        requires { AreClaimedEvents alphabet.now self.old.events.items }
        ensures whole { OnOk result (AreClaimedEvents alphabet.now self.new.events.items) }
        ensures taken { let s = said_so_far self.old in
            let t = more_claimed_by alphabet.now s head words.entry in
            MatchResult result
            (λ _. (claim_own_fault alphabet.now s head words.entry ≡ None)
            × (said_so_far self.new ≡ record t { place = s.place }))
            (IsWrong (claim_own_fault alphabet.now s head words.entry)) }
    {
        match head {
            Head::Claim => {
                self.answer = answer_said(words)?;
                Ok(())
            }
            Head::Fire => {
                let event = event_said(alphabet, self.events.len(), words)?;
                self.events.push(event)?;
                Ok(())
            }
            Head::End => match end_line_fault(words) {
                None => Ok(()),
                Some(kind) => Err(Refusal::Wrong(kind)),
            },
            Head::Other => Err(Refusal::Wrong(Kind::OutOfOrder)),
        }
    }

    /// What a line says, by its first word and the words after it.
    fn take_words(&mut self, alphabet: &Alphabet, head: Head, words: Words) -> Result<(), Refusal>
        requires { AreClaimedEvents alphabet.now self.old.events.items }
        ensures whole { OnOk result (AreClaimedEvents alphabet.now self.new.events.items) }
        ensures taken { let s = said_so_far self.old in
            let fault = option_or (claim_order_fault s.place head) (claim_own_fault alphabet.now s head words.entry) in
            MatchResult result
            (λ _. (fault ≡ None) × (said_so_far self.new ≡ more_claimed_by alphabet.now s head words.entry))
            (IsWrong fault) }
    {
        if let Some(kind) = order_fault(self.place, head) {
            return Err(Refusal::Wrong(kind));
        }
        self.take_said(alphabet, head, words)?;
        self.place = next_place(self.place, head);
        Ok(())
    }

    /// What a line says, or its first test that fails.
    #[tactic(auto, unfolding(crate::specs::Grammar::claim_fault_at))]
    fn take(&mut self, version: Version, alphabet: &Alphabet, line: &Line) -> Result<(), Refusal>
        requires { AreClaimedEvents alphabet.now self.old.events.items }
        ensures whole { OnOk result (AreClaimedEvents alphabet.now self.new.events.items) }
        ensures taken { let s = said_so_far self.old in
            let fault = claim_fault_at version alphabet.now s (raw line.now) in
            MatchResult result
            (λ _. (fault ≡ None)
            × (said_so_far self.new ≡ more_claimed alphabet.now s (words_in version (raw line.now))))
            (IsWrong fault) }
    {
        if !line.whole {
            return Err(Refusal::Wrong(Kind::Cut));
        }
        if !are_allowed(line.text) {
            return Err(Refusal::Wrong(Kind::BadByte));
        }
        let mut words = Words::new(line);
        let Some(first) = words.next() else {
            return Ok(());
        };
        if is_comment(version, first) {
            return Ok(());
        }
        self.take_words(alphabet, head_of(first), words)
    }
}

/// Reads the lines that are left as a claim about a job of the version and over the alphabet.
fn read_claim(
    alloc: Global,
    version: Version,
    alphabet: &Alphabet,
    lines: &mut Lines,
) -> Result<Claim, JobFault>
    ensures events { IfOk result (λ claim. AreClaimedEvents alphabet.now claim.events) }
    ensures answer { let all = lines_of lines.old.rest in
        let fault = claim_faults_from version alphabet.now lines.old.passed [] all in
        MatchResult result
        (λ claim. (fault ≡ None) × (claim ≡ claim_said version alphabet.now all))
        (IsRefusedWith fault) }
{
    let mut reading = Reading {
        place: Place::AtClaim,
        answer: Answer::Stuck,
        events: Vec::new(alloc),
    };
    'lines: while let Some(line) = lines.next() {
        if let Err(refusal) = reading.take(version, alphabet, &line) {
            return Err(fault_at(line.number, refusal));
        }
    }
    match reading.place {
        Place::AfterEnd => Ok(Claim::new(reading.answer, reading.events)),
        _ => Err(JobFault::Text(TextFault {
            line: lines.passed() + 1,
            kind: Kind::NoEnd,
        })),
    }
}

/// A job, and a claim about it.
#[derive(Debug, Drop)]
pub struct Audited {
    pub job: Job,
    pub claim: Claim,
}

/// Reads an audited text of fewer than 4,294,967,295 bytes: a job, whose last line is the first of the
/// text whose first word is `end`, and a claim about it. It is refused as its job is, and else at the
/// first line of its claim that is wrong, with the first of that line's tests that fails, or, where no
/// line is wrong and the claim's `end` is missing, at one more than the number of lines. Want of memory
/// is the one free answer.
pub fn read_audited(alloc: Global, bytes: &[u8]) -> Result<Audited, JobFault>
    requires { length bytes.now < 4294967295 }
    ensures answer { MatchResult result
        (λ a. (audited_fault bytes.now ≡ None)
        × (data_of a.job ≡ audited_job bytes.now) × (a.claim ≡ audited_claim bytes.now))
        (IsRefusedWith (audited_fault bytes.now)) }
    ensures job { IfOk result (λ a. IsJob (data_of a.job)) }
    ensures events { IfOk result (λ a. AreClaimedEvents a.job.lang.table.alphabet a.claim.events) }
{
    let mut divided = divide(bytes, &FirstWord(b"end"));
    let job = read_job(alloc, divided.through)?;
    let version = job.lang.lines_version();
    let claim = read_claim(alloc, version, job.lang.alphabet(), &mut divided.after)?;
    Ok(Audited { job, claim })
}
