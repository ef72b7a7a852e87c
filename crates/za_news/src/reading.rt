ghost use Rattle.std.specs.Prelude.{◌≡◌, ◌<◌, ◌++◌, ℕ, None, IfOk, OnOk, MatchResult, length};
ghost use Rattle.za_text.specs.Lines.{lines_of, raw};
ghost use Rattle.za_lang.specs.Answers.{data_of, IsRefusedWith};
ghost use Rattle.za_lang.specs.Documents.{words_in};
ghost use Rattle.za_lang.specs.Jobs.{IsJob};
ghost use Rattle.za_lang.specs.Gathering.{IsWrong};
ghost use Rattle.za_news.specs.Readings.{list_of};
ghost use Rattle.za_news.specs.Grammar.{numbers_by, numbers_said, read_line_kind, reading_faults, reading_place_by};
ghost use Rattle.za_news.specs.Grammar.{reading_words_fault, next_reading_place, readings_said};
ghost use Rattle.za_news.specs.NewsTexts.{news_fault, news_job, news_readings};
ghost use Rattle.za_news.specs.declared.order.Place.TheVariants.{AtReadings};

use crate::job::NewsJob;
use crate::order::{Head, Place, head_of};
use crate::read_line::take_read;
use crate::readings::Readings;
use std::alloc::Global;
use za_lang::{JobFault, Refusal, Version, Words, end_line_fault, fault_at, is_comment, read_job};
use za_text::{Kind, Line, LineTest, Lines, Names, TextFault, are_allowed, divide};

/// The test whether the words of a line are `readings` alone.
struct ReadingsLine;

impl LineTest for ReadingsLine {
    ghost use Rattle.za_news.specs.NewsTexts.{is_readings_line};

    ghost passing = { λ _ l. is_readings_line l };

    fn passes(&self, line: &Line) -> bool {
        let mut words = Words::new(line);
        match words.next() {
            Some(word) => word == b"readings".as_slice() && words.next().is_none(),
            None => false,
        }
    }
}

/// What the lines so far have said: readings that grow.
#[derive(Drop)]
struct Reading {
    place: Place,
    readings: Readings,
}

impl Reading {
    /// Takes what a line says, by its first word and the words after it.
    fn take_words(&mut self, names: &Names, head: Head, words: Words) -> Result<(), Refusal>
        requires { length self.old.readings ≡ length names.now }
        ensures size { OnOk result (length self.new.readings ≡ length names.now) }
        ensures taken { let fault = reading_words_fault names.now self.old.place head words.entry in
            MatchResult result
            (λ _. (fault ≡ None) × (self.new.place ≡ next_reading_place self.old.place head)
            × ((q : ℕ) → list_of self.new.readings q
            ≡ list_of self.old.readings q ++ numbers_said names.now q head words.entry))
            (IsWrong fault) }
    {
        match self.place {
            Place::AtReadings => match head {
                Head::Read => take_read(&mut self.readings, names, words),
                Head::End => match end_line_fault(words) {
                    None => {
                        self.place = Place::AfterEnd;
                        Ok(())
                    }
                    Some(kind) => Err(Refusal::Wrong(kind)),
                },
                Head::Other => Err(Refusal::Wrong(Kind::OutOfOrder)),
            },
            Place::AfterEnd => Err(Refusal::Wrong(Kind::Trailing)),
        }
    }

    /// Takes what a line says, or tells its first test that fails.
    #[tactic(auto, unfolding(crate::specs::Grammar::read_line_kind))]
    fn take(&mut self, version: Version, names: &Names, line: &Line) -> Result<(), Refusal>
        requires { length self.old.readings ≡ length names.now }
        ensures size { OnOk result (length self.new.readings ≡ length names.now) }
        ensures taken { let words = words_in version (raw line.now) in
            let fault = read_line_kind version names.now self.old.place (raw line.now) in
            MatchResult result
            (λ _. (fault ≡ None) × (self.new.place ≡ reading_place_by self.old.place words)
            × ((q : ℕ) → list_of self.new.readings q
            ≡ list_of self.old.readings q ++ numbers_by names.now q words))
            (IsWrong fault) }
    {
        if !line.whole {
            return Err(Refusal::Wrong(Kind::Cut));
        }
        if !are_allowed(line.text) {
            return Err(Refusal::Wrong(Kind::BadByte));
        }
        let mut words = Words::new(line);
        let Some(first) = words.next() else {
            return Ok(());
        };
        if is_comment(version, first) {
            return Ok(());
        }
        self.take_words(names, head_of(first), words)
    }
}

/// Reads the lines that are left as readings of the processes of a job of the version.
fn read_readings(
    alloc: Global,
    version: Version,
    names: &Names,
    lines: &mut Lines,
) -> Result<Readings, JobFault>
    ensures { let all = lines_of lines.old.rest in
        let fault = reading_faults version names.now AtReadings lines.old.passed all in
        MatchResult result
        (λ readings. (fault ≡ None) × (readings ≡ readings_said version names.now all))
        (IsRefusedWith fault) }
{
    let Ok(readings) = Readings::empty(alloc, names.len()) else {
        return Err(JobFault::OutOfMemory);
    };
    let mut reading = Reading {
        place: Place::AtReadings,
        readings,
    };
    'lines: while let Some(line) = lines.next() {
        if let Err(refusal) = reading.take(version, names, &line) {
            return Err(fault_at(line.number, refusal));
        }
    }
    match reading.place {
        Place::AfterEnd => Ok(reading.readings),
        Place::AtReadings => Err(JobFault::Text(TextFault {
            line: lines.passed() + 1,
            kind: Kind::NoEnd,
        })),
    }
}

/// Reads a text of fewer than 4,294,967,295 bytes as a job with readings: the job up to the first line
/// whose only word is `readings`, and after this line `read` lines and `end`. It is refused as its job
/// is. Else it is refused at that line where it isn't whole, or at the first line after it that is wrong,
/// with the first of that line's tests that fails. Where no line is wrong and the `end` of the readings
/// or the line before them is missing, it is refused at one more than the number of lines. Want of memory
/// is the one free answer.
pub fn read_news(alloc: Global, bytes: &[u8]) -> Result<NewsJob, JobFault>
    requires { length bytes.now < 4294967295 }
    ensures answer { MatchResult result
        (λ news. (news_fault bytes.now ≡ None)
        × (data_of news.job ≡ news_job bytes.now) × (news.readings ≡ news_readings bytes.now))
        (IsRefusedWith (news_fault bytes.now)) }
    ensures job { IfOk result (λ news. IsJob (data_of news.job)) }
{
    let mut divided = divide(bytes, &ReadingsLine);
    let job = read_job(alloc, divided.before)?;
    let Some(line) = divided.line else {
        return Err(JobFault::Text(TextFault {
            line: divided.after.passed() + 1,
            kind: Kind::NoEnd,
        }));
    };
    if !line.whole {
        return Err(JobFault::Text(TextFault {
            line: line.number,
            kind: Kind::Cut,
        }));
    }
    let version = job.lang.lines_version();
    let readings = read_readings(alloc, version, job.lang.names(), &mut divided.after)?;
    Ok(NewsJob { job, readings })
}
