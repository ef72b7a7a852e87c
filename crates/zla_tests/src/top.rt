//! Whole runs of the top call: words and a text in memory, a status and what is written.

use samples::documents::{
    LAST, LOCK, LOCK_SCRIPTS, MERGED, OPEN, OPEN_AFTER_C, RING, STUCK_SCRIPTS, TWO, TWO_SCRIPTS,
    WITHOUT_B,
};
use std::alloc::{AllocError, Global};
use std::process::Abort;
use std::test::Fail;
use za_base::{MemSink, MemSource};
use zielonka::{MOST_BYTES, plain};

/// The most bytes that one call of the source gives and of the sink takes, and which read and which write
/// fails, from 1 on.
#[derive(Clone, Copy)]
pub(crate) struct Streams {
    reads: usize,
    writes: usize,
    failing_read: u64,
    failing_write: u64,
}

pub(crate) const WHOLE: Streams = Streams {
    reads: 64,
    writes: 64,
    failing_read: 0,
    failing_write: 0,
};

pub(crate) const SOLO: &[&str] = &["solo"];

const CHECK: &[&str] = &["check"];

const LOCALS: &[&str] = &["locals"];

pub(crate) const AUDIT: &[&str] = &["audit"];

fn strings(alloc: Global, texts: &[&str]) -> Result<Vec<String>, AllocError> {
    let mut strings = Vec::new(alloc);
    for text in texts {
        strings.push(String::from_str(alloc, text)?)?;
    }
    Ok(strings)
}

/// The lines of a job, and more lines.
pub(crate) fn joined(alloc: Global, head: &str, tail: &str) -> Result<Vec<u8>, AllocError> {
    let mut text = Vec::from_slice(alloc, head.as_bytes())?;
    text.extend_from_slice(tail.as_bytes())?;
    Ok(text)
}

fn source_of(
    rt: &impl Abort,
    alloc: Global,
    streams: Streams,
    text: Vec<u8>,
) -> Result<MemSource, AllocError> {
    assert!(rt; 0 < streams.reads);
    let failing = vec![in alloc; streams.failing_read]?;
    Ok(MemSource::new(text, streams.reads, failing))
}

fn sink_of(rt: &impl Abort, alloc: Global, streams: Streams) -> Result<MemSink, Fail> {
    assert!(rt; 0 < streams.writes);
    let failing = vec![in alloc; streams.failing_write]?;
    Ok(MemSink::new(alloc, 400, streams.writes, failing)?)
}

/// Runs the program over a text, and compares its status and what it wrote.
pub(crate) fn assert_run(
    rt: &impl Abort,
    alloc: Global,
    words: &[&str],
    streams: Streams,
    text: Vec<u8>,
    status: u8,
    written: &str,
) -> Result<(), Fail> {
    assert_bytes(rt, alloc, words, streams, text, status, written.as_bytes())
}

/// The same with bytes in place of a text.
pub(crate) fn assert_bytes(
    rt: &impl Abort,
    alloc: Global,
    words: &[&str],
    streams: Streams,
    text: Vec<u8>,
    status: u8,
    written: &[u8],
) -> Result<(), Fail> {
    let mut source = source_of(rt, alloc, streams, text)?;
    let mut sink = sink_of(rt, alloc, streams)?;
    let words = strings(alloc, words)?;
    let outcome = plain(alloc, words.as_slice(), &mut source, &mut sink);
    assert_eq!(rt; sink.bytes(), written);
    assert_eq!(rt; outcome.status.0, status);
    Ok(())
}

/// The words of a run, the lines of a job and of its scripts, the status, and what is written.
type Case = (
    &'static [&'static str],
    &'static str,
    &'static str,
    u8,
    &'static str,
);

fn assert_case(rt: &impl Abort, alloc: Global, streams: Streams, case: &Case) -> Result<(), Fail> {
    let (words, head, scripts, status, written) = *case;
    let text = joined(alloc, head, scripts)?;
    assert_run(rt, alloc, words, streams, text, status, written)
}

pub(crate) const ACCEPTED: &str = "accept\nfired 4\nbound labels 27 records 3\n";

const NONE_FIRED: &str = "accept\nfired 0\nbound labels 27 records 3\n";

const BROKEN: &str = "not closed\nleft a b\nright b a\n";

static ANSWERS: [Case; 23] = [
    // both processes use up their scripts
    (SOLO, TWO, TWO_SCRIPTS, 0, ACCEPTED),
    (
        SOLO,
        TWO,
        "script 0 a c\nscript 1 b c\nend\n",
        1,
        "reject\nfired 3\nbound labels 27 records 3\n",
    ),
    (
        SOLO,
        TWO,
        STUCK_SCRIPTS,
        3,
        "stuck\nfired 1\nbound labels 27 records 3\n\
        process 0 fired 0 waits c\nprocess 1 fired 1 ended\ntrace b\nalive\n",
    ),
    // the same, but no accepted word has a `b`
    (
        SOLO,
        WITHOUT_B,
        STUCK_SCRIPTS,
        3,
        "stuck\nfired 1\nbound labels 27 records 3\n\
        process 0 fired 0 waits c\nprocess 1 fired 1 ended\ntrace b\ndead\n",
    ),
    // stuck at once, in an accepting state
    (
        SOLO,
        TWO,
        "script 0 c\nend\n",
        3,
        "stuck\nfired 0\nbound labels 27 records 3\n\
        process 0 fired 0 waits c\nprocess 1 fired 0 ended\ntrace\nalive\n",
    ),
    // scripts without letters, and no scripts
    (SOLO, TWO, "script 0\nscript 1\nend\n", 0, NONE_FIRED),
    (SOLO, TWO, "end\n", 0, NONE_FIRED),
    // the language is closed, though a diamond of the given automaton is broken
    (
        SOLO,
        MERGED,
        "script 0 a\nscript 1 b\nend\n",
        0,
        "accept\nfired 2\nbound labels 18 records 3\n",
    ),
    // a job with missing rows; a client that works without the lock
    (
        SOLO,
        LOCK,
        LOCK_SCRIPTS,
        0,
        "accept\nfired 6\nbound labels 168 records 4\n",
    ),
    (
        SOLO,
        LOCK,
        "script 0 work0 lock0 unlock0\nscript 1 lock1 work1 unlock1\n\
        script 2 lock1 unlock1 lock0 unlock0\nend\n",
        1,
        "reject\nfired 6\nbound labels 168 records 4\n",
    ),
    (
        CHECK,
        TWO,
        STUCK_SCRIPTS,
        0,
        "closed\nstates 2\nbound labels 27 records 3\n",
    ),
    (
        CHECK,
        MERGED,
        "end\n",
        0,
        "closed\nstates 4\nbound labels 18 records 3\n",
    ),
    (
        CHECK,
        LOCK,
        "end\n",
        0,
        "closed\nstates 4\nbound labels 168 records 4\n",
    ),
    (CHECK, OPEN, "end\n", 5, BROKEN),
    (SOLO, OPEN, "end\n", 5, BROKEN),
    (SOLO, LAST, "end\n", 5, BROKEN),
    (LOCALS, OPEN, "end\n", 5, BROKEN),
    (
        CHECK,
        OPEN_AFTER_C,
        "end\n",
        5,
        "not closed\nleft c a b c\nright c b a c\n",
    ),
    // the second `a` has label 0 again: after `c` the first is out of everybody's news
    (
        LOCALS,
        TWO,
        TWO_SCRIPTS,
        0,
        "p0 a.0 c.0 view 0\np1 c.0 c.0 view 1\n",
    ),
    // stuck all the same
    (
        LOCALS,
        TWO,
        STUCK_SCRIPTS,
        0,
        "p0 - - view 0\np1 - b.0 view 0\n",
    ),
    // at `f` process 0 knows `e` as the newest event of process 3, and process 2 knows `d`
    (
        LOCALS,
        RING,
        "script 0 e f\nscript 1 d c\nscript 2 c f\nscript 3 e d\nend\n",
        0,
        "p0 f.0 c.0 f.0 d.0 view 0\np1 e.0 c.0 c.0 d.0 view 1\n\
        p2 f.0 c.0 f.0 d.0 view 0\np3 e.0 d.0 - d.0 view 0\n",
    ),
    // a right claim of a stuck run, which can or can not be saved
    (
        AUDIT,
        TWO,
        "script 0 c a\nscript 1 b\nend\n\
        claim stuck\nfire b.0\nend\n",
        0,
        "audit yes alive\n",
    ),
    (
        AUDIT,
        WITHOUT_B,
        "script 0 c a\nscript 1 b\nend\n\
        claim stuck\nfire b.0\nend\n",
        0,
        "audit yes dead\n",
    ),
];

#[test]
fn whole_texts(rt: HostRuntime) -> Result<(), Fail> {
    for case in &ANSWERS {
        assert_case(&rt, rt.alloc(), WHOLE, case)?;
    }
    Ok(())
}

const USAGE: &str =
    "usage: zla solo|run|check|locals|journal [--cache C], zla audit|build|news|thaw, zla gen N, zla freeze K\n";

/// Words for which nothing is read.
static UNREAD: [Case; 9] = [
    (&[], "", "", 2, USAGE),
    (&["solo", "extra"], "", "", 2, USAGE),
    (&["--help"], "", "", 2, USAGE),
    (&["audit", "--cache", "1"], "", "", 2, USAGE),
    (&["run", "--cache", "65"], "", "", 2, USAGE),
    (&["run", "--cache", "1", "--cache=1"], "", "", 2, USAGE),
    (&["gen", "07"], "", "", 2, USAGE),
    // forms of the commands on threads
    (&["run"], "", "", 2, USAGE),
    (&["journal", "--cache=1"], "", "", 2, USAGE),
];

/// Streams that take so many bytes a call, and of which these calls fail.
pub(crate) fn taking(
    reads: usize,
    writes: usize,
    failing_read: u64,
    failing_write: u64,
) -> Streams {
    Streams {
        reads,
        writes,
        failing_read,
        failing_write,
    }
}

#[test]
fn words_for_which_nothing_is_read(rt: HostRuntime) -> Result<(), Fail> {
    for case in &UNREAD {
        assert_case(&rt, rt.alloc(), taking(64, 64, 1, 0), case)?;
    }
    Ok(())
}

/// What `taking` takes, and a case.
static FAILING: [((usize, usize, u64, u64), Case); 6] = [
    // the second read
    ((64, 64, 2, 0), (SOLO, TWO, TWO_SCRIPTS, 6, "")),
    // the first write, of which nothing is taken: it isn't tried again
    ((64, 64, 0, 1), (SOLO, TWO, TWO_SCRIPTS, 7, "")),
    ((64, 64, 2, 0), (AUDIT, TWO, TWO_SCRIPTS, 6, "")),
    // the second write, of an answer and of refusals
    ((64, 5, 0, 2), (SOLO, TWO, TWO_SCRIPTS, 7, "accep")),
    ((1, 7, 0, 2), (CHECK, OPEN, "end", 7, "refused")),
    ((1, 7, 0, 2), (AUDIT, OPEN, "end\nend\n", 7, "refused")),
];

#[test]
fn streams_that_fail(rt: HostRuntime) -> Result<(), Fail> {
    for ((reads, writes, failing_read, failing_write), case) in &FAILING {
        let streams = taking(*reads, *writes, *failing_read, *failing_write);
        assert_case(&rt, rt.alloc(), streams, case)?;
    }
    Ok(())
}

/// How many line feeds a text has, the status, and what is written.
static LENGTHS: [(usize, u8, &str); 3] = [
    (MOST_BYTES + 1, 9, "refused: more than 1048576 bytes\n"),
    (MOST_BYTES, 4, "refused line 1048577: end is missing\n"),
    (0, 4, "refused line 1: end is missing\n"),
];

#[test]
fn one_byte_too_many(rt: HostRuntime) -> Result<(), Fail> {
    for (len, status, text) in &LENGTHS {
        let bytes = vec![in rt.alloc(); 10u8; *len]?;
        let streams = taking(65536, 64, 0, 0);
        assert_run(&rt, rt.alloc(), SOLO, streams, bytes, *status, text)?;
    }
    Ok(())
}
