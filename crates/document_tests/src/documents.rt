//! Documents: the kind of each refusal, the order of tests, each limit, and what a job says.

use crate::common::{assert_script, job_of, target};
use std::alloc::{AllocError, Global};
use std::process::Abort;
use std::test::Fail;
use za_alpha::Letter;
use za_dfa::Dfa;
use za_lang::{Job, JobFault, Lang, read_job};
use za_text::Kind;

const MOST_BYTES: usize = 4294967294;

/// Two processes, letters a, b and c, and two states.
static LINES: [&[u8]; 17] = [
    b"zla 1",
    b"processes 2",
    b"letter a 0",
    b"letter b 1",
    b"letter c 0 1",
    b"states 2",
    b"start 0",
    b"accept 0",
    b"row 0 a 1",
    b"row 0 b 0",
    b"row 0 c 0",
    b"row 1 a 0",
    b"row 1 b 1",
    b"row 1 c 1",
    b"script 0 a c a",
    b"script 1 b c",
    b"end",
];

/// The lines with that of this number in place of their own.
fn text_with(alloc: Global, number: usize, line: &[u8]) -> Result<Vec<u8>, AllocError> {
    let mut text = Vec::new(alloc);
    for (i, own) in LINES.iter().enumerate() {
        text.extend_from_slice(if i + 1 == number { line } else { own })?;
        text.push(b'\n')?;
    }
    Ok(text)
}

/// What is refused: the line and the kind, line 0 for nothing.
fn refusal(alloc: Global, text: &[u8]) -> (u32, Option<Kind>) {
    if MOST_BYTES < text.len() {
        return (98, None);
    }
    match read_job(alloc, text) {
        Ok(_job) => (0, None),
        Err(JobFault::Text(fault)) => (fault.line, Some(fault.kind)),
        Err(JobFault::OutOfMemory) => (99, None),
    }
}

/// The number of a line, what stands in its place, and what is refused then.
type Case = (usize, &'static [u8], (u32, Option<Kind>));

fn refusal_with(
    alloc: Global,
    number: usize,
    line: &[u8],
) -> Result<(u32, Option<Kind>), AllocError> {
    Ok(refusal(alloc, &text_with(alloc, number, line)?))
}

fn assert_cases(rt: &impl Abort, alloc: Global, cases: &[Case]) -> Result<(), Fail> {
    for (number, line, refused) in cases {
        let seen = refusal_with(alloc, *number, line)?;
        assert_eq!(rt; seen, *refused, "{line:?}");
    }
    Ok(())
}

static ANY_LINE: [Case; 12] = [
    (7, b"start 0\r", (7, Some(Kind::BadByte))),
    (1, b"zla 3", (1, Some(Kind::Header))),
    (1, b"zla", (1, Some(Kind::Header))),
    (1, b"zla 1 1", (1, Some(Kind::Header))),
    (6, b"start 0\nstates 2", (6, Some(Kind::OutOfOrder))),
    (9, b"accept 0 x y", (9, Some(Kind::OutOfOrder))),
    (9, b"row 0 a", (9, Some(Kind::WordCount))),
    (9, b"row 0 a 1 1", (9, Some(Kind::WordCount))),
    (17, b"end 0", (17, Some(Kind::WordCount))),
    (17, b"", (18, Some(Kind::NoEnd))),
    (17, b"end\nend", (18, Some(Kind::Trailing))),
    (17, b"end\n \t\n", (0, None)),
];

#[test]
fn kinds_of_any_line(rt: HostRuntime) -> Result<(), Fail> {
    assert_cases(&rt, rt.alloc(), &ANY_LINE)
}

static NUMBERS_AND_LETTERS: [Case; 16] = [
    (2, b"processes two", (2, Some(Kind::BadNumber))),
    (2, b"processes 0", (2, Some(Kind::ProcessCount))),
    (2, b"processes 7", (2, Some(Kind::ProcessCount))),
    (2, b"processes 6", (0, None)),
    (3, b"letter 1a", (3, Some(Kind::BadName))),
    (4, b"letter a", (4, Some(Kind::RepeatedName))),
    (4, b"letter b", (4, Some(Kind::EmptyLoc))),
    (4, b"letter", (4, Some(Kind::WordCount))),
    (5, b"letter c 0 x", (5, Some(Kind::BadNumber))),
    (5, b"letter c 0 2", (5, Some(Kind::NoSuchProcess))),
    (5, b"letter c 2 x", (5, Some(Kind::NoSuchProcess))),
    (5, b"letter c 1 0 1", (0, None)),
    (6, b"states 02", (6, Some(Kind::BadNumber))),
    (6, b"states 33", (6, Some(Kind::StateCount))),
    (6, b"states 32", (0, None)),
    (6, b"states 0", (6, Some(Kind::StateCount))),
];

#[test]
fn kinds_of_numbers_and_letters(rt: HostRuntime) -> Result<(), Fail> {
    assert_cases(&rt, rt.alloc(), &NUMBERS_AND_LETTERS)
}

static STATES_ROWS_AND_SCRIPTS: [Case; 14] = [
    (7, b"start 2", (7, Some(Kind::NoSuchState))),
    (8, b"accept 0 0 2", (8, Some(Kind::NoSuchState))),
    (8, b"accept", (0, None)),
    (9, b"row 0 d 1", (9, Some(Kind::NoSuchLetter))),
    (9, b"row 2 d 9", (9, Some(Kind::NoSuchState))),
    (9, b"row 0 a x", (9, Some(Kind::BadNumber))),
    (9, b"row 0 a 1\nrow 0 a 0", (10, Some(Kind::TwoTargets))),
    (14, b"row 1 c 1\nrow 0 a 0", (15, Some(Kind::TwoTargets))),
    (9, b"row 0 a 1\nrow 0 a 1", (0, None)),
    (15, b"script 0 a b a", (15, Some(Kind::NotOfProcess))),
    (15, b"script 0 a d a", (15, Some(Kind::NoSuchLetter))),
    (15, b"script 2 a", (15, Some(Kind::NoSuchProcess))),
    (15, b"script", (15, Some(Kind::WordCount))),
    (15, b"script 0\nrow 0 a 1", (16, Some(Kind::OutOfOrder))),
];

#[test]
fn kinds_of_states_rows_and_scripts(rt: HostRuntime) -> Result<(), Fail> {
    assert_cases(&rt, rt.alloc(), &STATES_ROWS_AND_SCRIPTS)
}

/// The line of a script of so many letters `a`.
fn script_line(alloc: Global, count: usize) -> Result<Vec<u8>, AllocError> {
    let mut line = Vec::from_slice(alloc, b"script 0")?;
    for _ in 0..count {
        line.extend_from_slice(b" a")?;
    }
    Ok(line)
}

/// How many letters a script has, and what is refused.
static LONG_SCRIPTS: [(usize, (u32, Option<Kind>)); 3] = [
    (65537, (15, Some(Kind::ScriptsFull))),
    (65534, (0, None)),
    (65535, (16, Some(Kind::ScriptsFull))),
];

#[test]
fn scripts_have_65536_letters_at_most(rt: HostRuntime) -> Result<(), Fail> {
    for (count, refused) in &LONG_SCRIPTS {
        let line = script_line(rt.alloc(), *count)?;
        assert_eq!(rt; refusal_with(rt.alloc(), 15, &line)?, *refused);
    }
    Ok(())
}

/// Letter lines: c, the first so many of 30 further letters, and other lines.
fn letters(alloc: Global, count: usize, more: &[u8]) -> Result<Vec<u8>, AllocError> {
    let mut lines = Vec::from_slice(alloc, b"letter c 0 1")?;
    for i in 0..count.min(30) {
        lines.extend_from_slice(b"\nletter x")?;
        lines.push(b'a' + (i / 10) as u8)?;
        lines.push(b'0' + (i % 10) as u8)?;
        lines.extend_from_slice(b" 0")?;
    }
    lines.extend_from_slice(more)?;
    Ok(lines)
}

/// How many further letters there are, other lines, and what is refused.
static MANY_LETTERS: [Case; 3] = [
    (29, b"", (0, None)),
    (30, b"", (35, Some(Kind::LetterCount))),
    (29, b"\nletter 1a", (35, Some(Kind::LetterCount))),
];

#[test]
fn letters_are_32_at_most(rt: HostRuntime) -> Result<(), Fail> {
    for (count, more, refused) in &MANY_LETTERS {
        let lines = letters(rt.alloc(), *count, more)?;
        assert_eq!(rt; refusal_with(rt.alloc(), 5, &lines)?, *refused);
    }
    Ok(())
}

fn line_feeds(text: &[u8]) -> usize {
    text.iter().filter(|b| **b == b'\n').count()
}

/// What a text is refused with that ends before its last `end`.
fn cut_short(text: &[u8]) -> (u32, Option<Kind>) {
    let line = line_feeds(text).min(1000) as u32 + 1;
    match text {
        [.., last] => {
            if *last == b'\n' {
                (line, Some(Kind::NoEnd))
            } else {
                (line, Some(Kind::Cut))
            }
        }
        [] => (line, Some(Kind::NoEnd)),
    }
}

#[test]
fn every_prefix_is_refused(rt: HostRuntime) -> Result<(), Fail> {
    let text = text_with(rt.alloc(), 0, b"")?;
    for k in 0..text.len() {
        let part = &text[..k];
        assert_eq!(rt; refusal(rt.alloc(), part), cut_short(part), "{k}");
    }
    assert_eq!(rt; refusal(rt.alloc(), &text), (0, None));
    Ok(())
}

/// The job of the lines with that of this number in place of their own.
fn job_with(rt: &impl Abort, alloc: Global, number: usize, line: &[u8]) -> Result<Job, Fail> {
    Ok(job_of(rt, alloc, &text_with(alloc, number, line)?))
}

fn assert_head(rt: &impl Abort, lang: &Lang) {
    let alphabet = lang.alphabet();
    assert_eq!(rt; (alphabet.processes(), alphabet.letters()), (2, 3));
    assert_eq!(rt; (alphabet.find(b"c"), lang.start()), (Some(Letter(2)), 0));
    assert!(rt; lang.states() == 2);
    assert_eq!(rt; (lang.accepting(0), lang.accepting(1)), (true, false));
}

/// A state, a letter, and the target.
type Cell = (u8, u8, u8);

fn assert_targets(rt: &impl Abort, lang: &Lang, cells: &[Cell]) {
    for (q, a, r) in cells {
        assert_eq!(rt; target(rt, lang, *q, *a), Some(*r), "at {q} {a}");
    }
}

static CELLS: [Cell; 6] = [
    (0, 0, 1),
    (0, 1, 0),
    (0, 2, 0),
    (1, 0, 0),
    (1, 1, 1),
    (1, 2, 1),
];

#[test]
fn what_a_job_says(rt: HostRuntime) -> Result<(), Fail> {
    let job = job_with(&rt, rt.alloc(), 0, b"")?;
    assert_head(&rt, &job.lang);
    assert_targets(&rt, &job.lang, &CELLS);
    assert_script(&rt, &job, 0, &[0, 2, 0]);
    assert_script(&rt, &job, 1, &[1, 2]);
    Ok(())
}

/// The number of a line, what stands in its place, a process, and its script.
static SCRIPTS: [(usize, &[u8], usize, &[u8]); 3] = [
    (16, JOINED, 0, &[0, 2, 0, 2]),
    (16, JOINED, 1, &[1, 2, 1]),
    (15, b"", 0, &[]),
];

const JOINED: &[u8] = b"\n \t \nscript\t1  b\n\tscript 0 c\nscript 1 c b ";

#[test]
fn script_lines_of_one_process_are_joined(rt: HostRuntime) -> Result<(), Fail> {
    for (number, line, p, letters) in &SCRIPTS {
        let job = job_with(&rt, rt.alloc(), *number, line)?;
        assert_script(&rt, &job, *p, letters);
    }
    Ok(())
}

/// The automaton of the lines without the first row, which leads to an added state.
fn completed(rt: &impl Abort, alloc: Global) -> Result<Dfa, Fail> {
    let job = job_with(rt, alloc, 9, b"\n")?;
    assert_eq!(rt; target(rt, &job.lang, 0, 0), None);
    Ok(job.lang.dfa()?)
}

static COMPLETED: [Cell; 5] = [(0, 0, 2), (0, 1, 0), (1, 0, 0), (2, 0, 2), (2, 1, 2)];

fn assert_completed(rt: &impl Abort, lang: &Lang) {
    assert!(rt; lang.states() == 3);
    assert_eq!(rt; (lang.alphabet().processes(), lang.start()), (2, 0));
    assert_eq!(rt;
        (lang.accepting(0), lang.accepting(1), lang.accepting(2)),
        (true, false, false)
    );
    assert_targets(rt, lang, &COMPLETED);
}

/// The language of the automaton.
fn of_completed(rt: &impl Abort, alloc: Global) -> Result<Lang, Fail> {
    let dfa = completed(rt, alloc)?;
    let alphabet = dfa.alphabet();
    assert!(rt; dfa.states() == 3 && alphabet.processes() == 2 && alphabet.letters() == 3);
    Ok(Lang::of(alloc, &dfa)?)
}

#[test]
fn the_language_of_a_dfa(rt: HostRuntime) -> Result<(), Fail> {
    let lang = of_completed(&rt, rt.alloc())?;
    assert_completed(&rt, &lang);
    assert_eq!(rt; lang.dfa()?.states(), 3);
    Ok(())
}
