//! Frozen texts, and how their jobs go on.

use crate::journals::OPEN;
use crate::top::{
    ACCEPTED, Ran, TWO, TWO_STUCK, USAGE, assert_said, joined, said_by_plain, said_by_threaded,
};
use std::alloc::Global;
use std::process::Abort;
use std::sync::Wait;
use std::test::Fail;
use std::thread::Threads;

/// The job of two processes after two events.
const AFTER_TWO: &str = "cut 2\nat 0 1 a.0 - view 1\nat 1 1 - b.0 view 0\nend\n";

/// A document, the lines after it, the room of the sink, the status, what is written, and what is shown.
type Case = (&'static str, &'static str, usize, u8, &'static str, Ran);

static CASES: [Case; 8] = [
    (TWO, AFTER_TWO, 64, 0, ACCEPTED, Ran::OnThreads(2)),
    // the run is shown though its text was not written whole
    (TWO, AFTER_TWO, 5, 7, "accep", Ran::OnThreads(2)),
    // nothing is left of the run
    (
        TWO_STUCK,
        "cut 1\nat 0 0 - - view 0\nat 1 1 - b.0 view 0\nend\n",
        200,
        3,
        "stuck\nfired 1\nbound labels 27 records 3\n\
        process 0 fired 0 waits c\nprocess 1 fired 1 ended\ntrace b\nalive\n",
        Ran::OnThreads(0),
    ),
    (
        TWO,
        "cut 3\nat 0 1 a.0 - view 1\nat 1 1 - b.0 view 0\nend\n",
        64,
        4,
        "refused line 19: not the frozen text\n",
        Ran::Nothing,
    ),
    (
        TWO,
        "cut 5\nat 0 1 a.0 - view 1\nat 1 1 - b.0 view 0\nend\n",
        64,
        4,
        "refused line 18: no such cut\n",
        Ran::Nothing,
    ),
    (
        TWO,
        "",
        64,
        4,
        "refused line 18: end is missing\n",
        Ran::Nothing,
    ),
    // an open language is told, and the lines after the cut line aren't looked at
    (
        OPEN,
        "cut 0\nend\n",
        64,
        5,
        "not closed\nleft a b\nright b a\n",
        Ran::Nothing,
    ),
    // but the cut line is
    (
        OPEN,
        "cut 1\nend\n",
        64,
        4,
        "refused line 11: no such cut\n",
        Ran::Nothing,
    ),
];

fn assert_case<R: Abort + Threads + Wait + Sync>(
    rt: &R,
    alloc: Global,
    case: &Case,
) -> Result<(), Fail> {
    let (document, more, room, status, text, ran) = *case;
    let frozen = joined(alloc, document.as_bytes(), more.as_bytes())?;
    let run = said_by_threaded(rt, alloc, &["thaw"], frozen, room)?;
    assert_eq!(rt; run.ran, ran);
    assert_said(rt, &run, status, text);
    Ok(())
}

#[test]
fn frozen_jobs_go_on(rt: HostRuntime) -> Result<(), Fail> {
    for case in &CASES {
        assert_case(&rt, rt.alloc(), case)?;
    }
    Ok(())
}

#[test]
fn plain_has_no_form_of_thaw(rt: HostRuntime) -> Result<(), Fail> {
    let run = said_by_plain(rt.alloc(), &["thaw"], b"", 200)?;
    assert_said(&rt, &run, 2, USAGE);
    Ok(())
}
