//! Frozen texts, and what they are thawed to.

use samples::{A, C};
use std::alloc::Global;
use std::process::Abort;
use std::test::Fail;
use za_alpha::{Letter, Word};
use za_closure::close;
use za_freeze::*;
use za_lang::read_job;
use za_print::print_job;
use za_text::{Kind, TextFault};

/// Two processes with a letter each and one that they share.
const JOB: &str = "zla 1\nprocesses 2\nletter a 0\nletter b 1\nletter c 0 1\nstates 2\nstart 0\n\
    accept 0\nrow 0 a 1\nrow 0 b 0\nrow 0 c 0\nrow 1 a 0\nrow 1 b 1\nrow 1 c 1\n\
    script 0 a c a\nscript 1 b c\nend\n";

/// The same, frozen after two events.
const FROZEN: &str = "zla 1\nprocesses 2\nletter a 0\nletter b 1\nletter c 0 1\nstates 2\nstart 0\n\
    accept 0\nrow 0 a 1\nrow 0 b 0\nrow 0 c 0\nrow 1 a 0\nrow 1 b 1\nrow 1 c 1\n\
    script 0 a c a\nscript 1 b c\nend\n\
    cut 2\nat 0 1 a.0 - view 1\nat 1 1 - b.0 view 0\nend\n";

/// Two processes that wait for each other after `b`.
const STUCK: &str = "zla 1\nprocesses 2\nletter a 0\nletter b 1\nletter c 0 1\nstates 2\nstart 0\n\
    accept 0\nrow 0 a 1\nrow 0 b 0\nrow 0 c 0\nrow 1 a 0\nrow 1 b 1\nrow 1 c 1\n\
    script 0 c a\nscript 1 b\nend\n";

const STUCK_FROZEN: &str =
    "zla 1\nprocesses 2\nletter a 0\nletter b 1\nletter c 0 1\nstates 2\nstart 0\n\
    accept 0\nrow 0 a 1\nrow 0 b 0\nrow 0 c 0\nrow 1 a 0\nrow 1 b 1\nrow 1 c 1\n\
    script 0 c a\nscript 1 b\nend\n\
    cut 1\nat 0 0 - - view 0\nat 1 1 - b.0 view 0\nend\n";

/// The frozen text of the job of a document.
fn frozen(rt: &impl Abort, alloc: Global, text: &str, k: u32) -> Result<Vec<u8>, Fail> {
    let bytes = text.as_bytes();
    assert!(rt; bytes.len() < 4294967295);
    let job = read_job(alloc, bytes).ok().ok_or("refused")?;
    let closed = close(alloc, &job.lang.dfa()?)?;
    assert!(rt; job.scripts.fits(job.lang.alphabet()));
    Ok(freeze(alloc, &job, &closed, k)?)
}

/// A job, a cut, and the frozen text.
static FREEZINGS: [(&str, u32, &str); 2] = [(JOB, 2, FROZEN), (STUCK, 9, STUCK_FROZEN)];

#[test]
fn jobs_are_frozen(rt: HostRuntime) -> Result<(), Fail> {
    for (job, k, text) in &FREEZINGS {
        let own = frozen(&rt, rt.alloc(), job, *k)?;
        assert!(rt; own.as_slice() == text.as_bytes(), "{k}");
    }
    Ok(())
}

/// What the job's text and more behind it are thawed to.
fn thawed(alloc: Global, job: &str, more: &str) -> Result<Thawed, ThawFault> {
    let mut text = match Vec::from_slice(alloc, job.as_bytes()) {
        Ok(text) => text,
        Err(_) => return Err(ThawFault::OutOfMemory),
    };
    if text.extend_from_slice(more.as_bytes()).is_err() || text.len() >= 4294967295 {
        return Err(ThawFault::OutOfMemory);
    }
    thaw(alloc, text.as_slice())
}

/// The printed form of the job that the text is thawed to, and the state at which the automaton starts.
fn job_in(rt: &impl Abort, alloc: Global, text: &str) -> Result<(Vec<u8>, u8), Fail> {
    let thawed = thawed(alloc, text, "").ok().ok_or("refused")?;
    assert!(rt; thawed.job.scripts.fits(thawed.job.lang.alphabet()));
    let printed = print_job(alloc, &thawed.job)?;
    Ok((printed, thawed.closed.dfa().start()))
}

/// For each process the letters that are left of its script where the text is thawed.
fn rest_in(alloc: Global, text: &str) -> Result<Vec<Word>, Fail> {
    let rest = thawed(alloc, text, "").ok().ok_or("refused")?.rest;
    let mut words = Vec::new(alloc);
    for p in 0..rest.processes() {
        words.push(rest.script(p).copy()?)?;
    }
    Ok(words)
}

/// A frozen text, its job, and the state from which that goes on.
static THAWINGS: [(&str, &str, u8); 2] = [(FROZEN, JOB, 1), (STUCK_FROZEN, STUCK, 0)];

#[test]
fn frozen_jobs_are_thawed(rt: HostRuntime) -> Result<(), Fail> {
    for (text, job, start) in &THAWINGS {
        let (printed, starts_at) = job_in(&rt, rt.alloc(), text)?;
        assert!(rt; printed.as_slice() == job.as_bytes(), "{text}");
        assert_eq!(rt; starts_at, *start, "{text}");
    }
    Ok(())
}

/// A frozen text, and what is left of both scripts.
static RESTS: [(&str, &[Letter], &[Letter]); 2] = [
    (FROZEN, &[C, A], &[C]),
    (STUCK_FROZEN, &[C, A], &[]),
];

#[test]
fn rests_of_scripts_are_thawed(rt: HostRuntime) -> Result<(), Fail> {
    for (text, first, second) in &RESTS {
        let rest = rest_in(rt.alloc(), text)?;
        assert_eq!(rt; rest.len(), 2, "{text}");
        assert!(rt; rest[0].letters() == *first, "{text}");
        assert!(rt; rest[1].letters() == *second, "{text}");
    }
    Ok(())
}

/// The refusal of the job's text with more behind it, where a line is wrong.
fn refusal(alloc: Global, more: &str) -> Option<TextFault> {
    match thawed(alloc, JOB, more) {
        Err(ThawFault::Text(fault)) => Some(fault),
        _ => None,
    }
}

/// What follows the job's text, the line that is wrong, and why.
static REFUSALS: [(&str, u32, Kind); 14] = [
    ("", 18, Kind::NoEnd),
    ("\n", 19, Kind::NoEnd),
    ("cut 2", 18, Kind::Cut),
    ("cut 2\r\n", 18, Kind::BadByte),
    ("\ncut\n", 19, Kind::WordCount),
    ("cut 2 2\n", 18, Kind::WordCount),
    ("cut 02\n", 18, Kind::BadNumber),
    (
        "cut 5\nat 0 1 a.0 - view 1\nat 1 1 - b.0 view 0\nend\n",
        18,
        Kind::NoSuchCut,
    ),
    (
        "cut 3\nat 0 1 a.0 - view 1\nat 1 1 - b.0 view 0\nend\n",
        19,
        Kind::NotOwn,
    ),
    (
        "cut  2\nat 0 1 a.0 - view 1\nat 1 1 - b.0 view 0\nend\n",
        18,
        Kind::NotOwn,
    ),
    (
        "cut 2\nat 0 1 a.0 - view 1\nat 1 1 - b.0 view 1\nend\n",
        20,
        Kind::NotOwn,
    ),
    (
        "cut 2\nat 0 1 a.0 - view 1\nat 1 1 - b.0 view 0\n",
        21,
        Kind::NotOwn,
    ),
    (
        "cut 2\nat 0 1 a.0 - view 1\nat 1 1 - b.0 view 0\nend",
        21,
        Kind::NotOwn,
    ),
    (
        "cut 2\nat 0 1 a.0 - view 1\nat 1 1 - b.0 view 0\nend\n\n",
        22,
        Kind::NotOwn,
    ),
];

#[test]
fn other_texts_are_refused_at_a_line(rt: HostRuntime) {
    for (more, line, kind) in &REFUSALS {
        let fault = TextFault {
            line: *line,
            kind: *kind,
        };
        assert_eq!(rt; refusal(rt.alloc(), more), Some(fault), "{more}");
    }
}

/// The order of `a` and `b` tells: after `b` alone state 1 is left.
const OPEN: &str = "zla 1\nprocesses 2\nletter a 0\nletter b 1\nletter c 0 1\nstates 2\nstart 0\n\
    accept 0\nrow 0 a 1\nrow 0 b 0\nrow 0 c 0\nrow 1 a 0\nrow 1 b 0\nrow 1 c 1\n\
    script 0 a c a\nscript 1 b c\nend\n";

/// How many letters the two words have that show that the job's language is open.
fn apart(alloc: Global, job: &str, more: &str) -> Option<(usize, usize)> {
    match thawed(alloc, job, more) {
        Err(ThawFault::NotClosed { left, right }) => Some((left.len(), right.len())),
        _ => None,
    }
}

#[test]
fn an_open_language_is_refused_before_lines_are_compared(rt: HostRuntime) {
    assert_eq!(rt; apart(rt.alloc(), OPEN, "cut 2\nend\n"), Some((2, 2)));
}
