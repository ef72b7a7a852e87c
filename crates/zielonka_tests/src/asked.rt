//! What is asked of a text without a run of its scripts.

use crate::top::{TWO, USAGE, assert_said, said_by_plain, said_by_threaded};
use std::alloc::Global;
use std::process::Abort;
use std::sync::Wait;
use std::test::Fail;
use std::thread::Threads;

/// A document with the expression of all words over two letters.
const ALL_WORDS: &str = "zla expr\nprocesses left right\nletter a left\nletter b right\n\
    expr ( a | b ) *\nscript left a\nscript right b\nend\n";

const ALL_WORDS_BUILT: &str = "zla 2\nprocesses left right\nletter a left\nletter b right\n\
    states 3\nstart 0\naccept 0 1 2\nrow 0 a 1\nrow 0 b 2\nrow 1 a 1\nrow 1 b 2\nrow 2 a 1\nrow 2 b 2\n\
    script left a\nscript right b\nend\n";

/// The job of two with readings.
const TWO_READINGS: &str =
    "zla 1\nprocesses 2\nletter a 0\nletter b 1\nletter c 0 1\nstates 2\nstart 0\n\
    accept 0\nrow 0 a 1\nrow 0 b 0\nrow 0 c 0\nrow 1 a 0\nrow 1 b 1\nrow 1 c 1\n\
    script 0 a c a\nscript 1 b c\nend\nreadings\nread 0 10 20 30\nread 1 5\nend\n";

/// The same frozen after two events.
const TWO_FROZEN: &str =
    "zla 1\nprocesses 2\nletter a 0\nletter b 1\nletter c 0 1\nstates 2\nstart 0\n\
    accept 0\nrow 0 a 1\nrow 0 b 0\nrow 0 c 0\nrow 1 a 0\nrow 1 b 1\nrow 1 c 1\n\
    script 0 a c a\nscript 1 b c\nend\n\
    cut 2\nat 0 1 a.0 - view 1\nat 1 1 - b.0 view 0\nend\n";

/// Command words, the text, the status, and what is written.
type Case = (&'static [&'static str], &'static str, u8, &'static str);

static CASES: [Case; 4] = [
    (&["build"], ALL_WORDS, 0, ALL_WORDS_BUILT),
    (&["news"], TWO_READINGS, 0, "known 0 30 20\nknown 1 20 20\n"),
    (&["freeze", "2"], TWO, 0, TWO_FROZEN),
    (&["news"], TWO, 4, "refused line 18: end is missing\n"),
];

fn assert_plain(rt: &impl Abort, alloc: Global, case: &Case) -> Result<(), Fail> {
    let (texts, document, status, text) = *case;
    let run = said_by_plain(alloc, texts, document.as_bytes(), 1024)?;
    assert_said(rt, &run, status, text);
    Ok(())
}

#[test]
fn plain_replies(rt: HostRuntime) -> Result<(), Fail> {
    for case in &CASES {
        assert_plain(&rt, rt.alloc(), case)?;
    }
    Ok(())
}

fn assert_no_form_of_threaded<R: Abort + Threads + Wait + Sync>(
    rt: &R,
    alloc: Global,
    texts: &[&str],
) -> Result<(), Fail> {
    let run = said_by_threaded(rt, alloc, texts, Vec::new(alloc), 200)?;
    assert_said(rt, &run, 2, USAGE);
    Ok(())
}

#[test]
fn threaded_has_none_of_these_forms(rt: HostRuntime) -> Result<(), Fail> {
    for case in &CASES {
        assert_no_form_of_threaded(&rt, rt.alloc(), case.0)?;
    }
    Ok(())
}
