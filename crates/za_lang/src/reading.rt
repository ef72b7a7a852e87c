ghost use Rattle.std.specs.Prelude.{◌≡◌, ◌<◌, ◌+◌, ℕ, None, Some, false, length};
ghost use Rattle.std.specs.Prelude.{IfOk, MatchOption, MatchResult, OnOk};
ghost use Rattle.std.specs.Option.{option_or};
ghost use Rattle.za_text.specs.Lines.{raw};
ghost use Rattle.za_text.specs.Words.{words_of};
ghost use Rattle.za_lang.specs.Answers.{data_of, IsRefused};
ghost use Rattle.za_text.specs.declared.kind.Kind.TheVariants.{NoEnd};
ghost use Rattle.za_lang.specs.declared.order.Place.TheVariants.{AfterEnd};
ghost use Rattle.za_lang.specs.declared.reading.Reading.TheVariants.{Body};
ghost use Rattle.za_lang.specs.declared.version.Version.{Version};
ghost use Rattle.za_lang.specs.Documents.{Said, begins_comment, end_fault, fault_of, job_of, line_fault, own_fault};
ghost use Rattle.za_lang.specs.Documents.{version_by, version_said, words_in};
ghost use Rattle.za_lang.specs.Jobs.{IsJob};
ghost use Rattle.za_lang.specs.Order.{order_fault};
ghost use Rattle.za_lang.specs.Gathering.{more, more_said, IsWrong};
ghost use Rattle.za_lang.specs.Reading.{is_late, reading_place, reading_version, Awaits, IsReading, Keeps};

use crate::fault::{JobFault, Refusal, fault_at};
use crate::gather::take_line;
use crate::job::Job;
use crate::letters::{after_letters, place_of};
use crate::line_tests::header_said;
use crate::names::names_said;
use crate::order::{Head, Place, head_of, next_place, order_fault};
use crate::version::Version;
use crate::words::Words;
use std::alloc::Global;
use std::mem;
use za_alpha::Letters;
use za_text::{Kind, Line, Lines, Names, TextFault, are_allowed};

/// What the lines so far have said: nothing, the version, processes and letters, or, from the states
/// line on, a job. Readers of other documents with such lines go on from it.
#[derive(Drop)]
pub enum Reading {
    Header,
    Processes(Version),
    Letters {
        version: Version,
        names: Names,
        letters: Letters,
    },
    Body {
        place: Place,
        job: Job,
    },
}

/// Whether the first word of a line begins a comment, which only version 2 has: with a `#`.
pub fn is_comment(version: Version, word: &[u8]) -> bool
    ensures { result ≡ begins_comment version word.now }
{
    match version {
        Version::One => false,
        Version::Two => match word {
            [first, ..] => *first == b'#',
            [] => false,
        },
    }
}

impl Reading {
    /// Where the document has come to.
    pub fn place(&self) -> Place
        ensures { result ≡ reading_place self.now }
    {
        match self {
            Reading::Header => Place::AtHeader,
            Reading::Processes(_version) => Place::AtProcesses,
            Reading::Letters { letters, .. } => place_of(letters),
            Reading::Body { place, .. } => *place,
        }
    }

    /// The version of the document, as far as it is known: comments stand only after a header.
    fn version(&self) -> Version
        ensures { (s : Said) → Keeps self.now s → result ≡ reading_version self.now s.naming.version }
    {
        match self {
            Reading::Header => Version::One,
            Reading::Processes(version) => *version,
            Reading::Letters { version, .. } => *version,
            Reading::Body { job, .. } => job.lang.lines_version(),
        }
    }

    /// What a line up to the states line says, by its first word and the words after it.
    fn opened(self, alloc: Global, head: Head, words: Words) -> Result<Reading, Refusal>
        requires whole { IsReading self }
        requires opening { is_late (reading_place self) ≡ false }
        requires order { order_fault (reading_place self) head ≡ None }
        ensures whole { IfOk result IsReading }
        ensures taken { (s : Said) → Keeps self s → Awaits self (version_said head words.entry) s.naming.version →
            MatchResult result
            (λ reading. (own_fault s head words.entry ≡ None)
            × Keeps reading (more_said s head words.entry)
            × ((later version : Version) → Awaits reading later version))
            (IsWrong (own_fault s head words.entry)) }
    {
        match self {
            Reading::Header => Ok(Reading::Processes(header_said(words)?)),
            Reading::Processes(version) => {
                let names = names_said(alloc, version, words)?;
                let letters = Letters::new(alloc, names.len());
                Ok(Reading::Letters {
                    version,
                    names,
                    letters,
                })
            }
            Reading::Letters {
                version,
                names,
                letters,
            } => after_letters(letters, alloc, version, names, head, words),
            Reading::Body { .. } => unreachable!(),
        }
    }

    /// Takes what a line up to the states line says, by its first word and the words after it. It isn't inlined, since
    /// each line would then pay for the place of the reading that moves here.
    #[inline(never)]
    fn open(&mut self, alloc: Global, head: Head, words: Words) -> Result<(), Refusal>
        requires whole { IsReading self.old }
        requires opening { is_late (reading_place self.old) ≡ false }
        requires order { order_fault (reading_place self.old) head ≡ None }
        ensures whole { OnOk result (IsReading self.new) }
        ensures taken { (s : Said) → Keeps self.old s →
            Awaits self.old (version_said head words.entry) s.naming.version →
            MatchResult result
            (λ _. (own_fault s head words.entry ≡ None)
            × Keeps self.new (more_said s head words.entry)
            × ((later version : Version) → Awaits self.new later version))
            (IsWrong (own_fault s head words.entry)) }
    {
        *self = mem::replace(self, Reading::Header).opened(alloc, head, words)?;
        Ok(())
    }

    /// Takes what a line says, by its first word and the words after it. After an error the reading is not to be
    /// used again.
    pub fn take_words(&mut self, alloc: Global, head: Head, words: Words) -> Result<(), Refusal>
        requires { IsReading self.old }
        ensures whole { OnOk result (IsReading self.new) }
        ensures taken { (s : Said) → Keeps self.old s →
            Awaits self.old (version_said head words.entry) s.naming.version →
            MatchResult result
            (λ _. (option_or (order_fault s.place head) (own_fault s head words.entry) ≡ None)
            × Keeps self.new (more_said s head words.entry)
            × ((later version : Version) → Awaits self.new later version))
            (IsWrong (option_or (order_fault s.place head) (own_fault s head words.entry))) }
    {
        if let Some(kind) = order_fault(self.place(), head) {
            return Err(Refusal::Wrong(kind));
        }
        // Most lines are of the body, and its job isn't moved.
        if let Reading::Body { place, job } = self {
            take_line(job, head, words)?;
            *place = next_place(*place, head);
            return Ok(());
        }
        self.open(alloc, head, words)
    }

    /// Takes what a line says, or tells its first test that fails.
    #[tactic(auto, unfolding(crate::specs::Documents::line_fault))]
    fn take(&mut self, alloc: Global, line: &Line) -> Result<(), Refusal>
        requires { IsReading self.old }
        ensures whole { OnOk result (IsReading self.new) }
        ensures taken { (s : Said) → (later : Version) → Keeps self.old s →
            Awaits self.old (version_by later (words_of line.now.text.now)) s.naming.version →
            MatchResult result
            (λ _. (line_fault s (raw line.now) ≡ None)
            × Keeps self.new (more s (words_in s.naming.version (raw line.now)))
            × Awaits self.new later s.naming.version)
            (IsWrong (line_fault s (raw line.now))) }
    {
        if !line.whole {
            return Err(Refusal::Wrong(Kind::Cut));
        }
        if !are_allowed(line.text) {
            return Err(Refusal::Wrong(Kind::BadByte));
        }
        let mut words = Words::new(line);
        let Some(first) = words.next() else {
            return Ok(());
        };
        if is_comment(self.version(), first) {
            return Ok(());
        }
        self.take_words(alloc, head_of(first), words)
    }

    /// The job, if the document has come to its end.
    pub fn into_job(self) -> Option<Job>
        ensures { MatchOption result
            ((n : ℕ) → end_fault (reading_place self) n ≡ Some (record { line = n + 1; kind = NoEnd }))
            (λ job. self ≡ Body AfterEnd job) }
    {
        match self {
            Reading::Body { place, job } => match place {
                Place::AfterEnd => Some(job),
                _ => None,
            },
            _ => None,
        }
    }
}

/// The job that a document of fewer than 4,294,967,295 bytes says. It is refused at the first line that
/// is wrong, with the first of that line's tests that fails, or, where no line is wrong and `end` is
/// missing, at one more than the number of lines. Want of memory is the one free answer.
pub fn read_job(alloc: Global, bytes: &[u8]) -> Result<Job, JobFault>
    requires { length bytes.now < 4294967295 }
    ensures answer { MatchResult result
        (λ job. (fault_of bytes.now ≡ None) × (data_of job ≡ job_of bytes.now))
        (IsRefused bytes.now) }
    ensures job { IfOk result (λ job. IsJob (data_of job)) }
{
    let mut lines = Lines::new(bytes);
    let mut reading = Reading::Header;
    'lines: while let Some(line) = lines.next() {
        if let Err(refusal) = reading.take(alloc, &line) {
            return Err(fault_at(line.number, refusal));
        }
    }
    match reading.into_job() {
        Some(job) => Ok(job),
        None => Err(JobFault::Text(TextFault {
            line: lines.passed() + 1,
            kind: Kind::NoEnd,
        })),
    }
}
