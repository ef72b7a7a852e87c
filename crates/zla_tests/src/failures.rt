//! Reads and writes that fail at each call in turn, every beginning of a job, and lists that are too long.

use crate::top::{ACCEPTED, AUDIT, SOLO, Streams, WHOLE, assert_bytes, assert_run, joined, taking};
use samples::documents::{TWO, TWO_SCRIPTS};
use std::alloc::{AllocError, Global};
use std::process::Abort;
use std::test::Fail;

/// Runs `solo` over the job of two processes, which has 171 bytes.
fn assert_solo(
    rt: &impl Abort,
    alloc: Global,
    streams: Streams,
    status: u8,
    written: &[u8],
) -> Result<(), Fail> {
    let text = joined(alloc, TWO, TWO_SCRIPTS)?;
    assert_bytes(rt, alloc, SOLO, streams, text, status, written)
}

/// How many bytes a call of the source gives, and how many calls read the job to its end.
static READS: [(usize, u64); 3] = [(1, 172), (7, 26), (64, 4)];

/// Each of so many reads fails in turn. The read that finds the end is the last.
fn assert_reads(rt: &impl Abort, alloc: Global, piece: usize, calls: u64) -> Result<(), Fail> {
    for call in 0..calls {
        assert_solo(rt, alloc, taking(piece, 64, call + 1, 0), 6, b"")?;
    }
    let streams = taking(piece, 64, calls.saturating_add(1), 0);
    assert_solo(rt, alloc, streams, 0, ACCEPTED.as_bytes())
}

#[test]
fn each_read_fails_in_turn(rt: HostRuntime) -> Result<(), Fail> {
    for (piece, calls) in &READS {
        assert_reads(&rt, rt.alloc(), *piece, *calls)?;
    }
    Ok(())
}

/// The answer, which has 41 bytes, to a sink that takes so many a call: the call that finds `at` bytes taken fails.
fn assert_cut(rt: &impl Abort, alloc: Global, piece: usize, at: usize) -> Result<(), Fail> {
    let answer = ACCEPTED.as_bytes();
    assert!(rt; 0 < piece && at < answer.len());
    let streams = taking(64, piece, 0, (at / piece + 1) as u64);
    assert_solo(rt, alloc, streams, 7, &answer[..at])
}

/// How many bytes a call of the sink takes, and how many calls take the answer.
static WRITES: [(usize, u64); 3] = [(1, 41), (5, 9), (64, 1)];

#[test]
fn each_write_fails_in_turn(rt: HostRuntime) -> Result<(), Fail> {
    for (piece, calls) in &WRITES {
        for call in 0..*calls {
            assert_cut(
                &rt,
                rt.alloc(),
                *piece,
                (call as usize).saturating_mul(*piece),
            )?;
        }
    }
    Ok(())
}

/// The call that fails isn't made: the whole answer is taken before.
#[test]
fn no_write_is_made_after_the_last(rt: HostRuntime) -> Result<(), Fail> {
    for (piece, calls) in &WRITES {
        let streams = taking(64, *piece, 0, calls.saturating_add(1));
        assert_solo(&rt, rt.alloc(), streams, 0, ACCEPTED.as_bytes())?;
    }
    Ok(())
}

/// The text of the refusal of a text that ends before its last `end`.
fn refusal(alloc: Global, text: &[u8]) -> Result<String, AllocError> {
    let ended = text.iter().filter(|b| **b == b'\n').count();
    let kind = match text {
        [.., b'\n'] | [] => "end is missing",
        _ => "line is cut",
    };
    format!(in alloc; "refused line {}: {kind}\n", ended.saturating_add(1))
}

fn assert_beginning(rt: &impl Abort, alloc: Global, text: &[u8]) -> Result<(), Fail> {
    let said = refusal(alloc, text)?;
    let text = Vec::from_slice(alloc, text)?;
    assert_run(rt, alloc, SOLO, WHOLE, text, 4, said.as_str())
}

#[test]
fn each_beginning_is_refused(rt: HostRuntime) -> Result<(), Fail> {
    let whole = joined(rt.alloc(), TWO, TWO_SCRIPTS)?;
    let whole = whole.as_slice();
    for k in 0..whole.len() {
        assert_beginning(&rt, rt.alloc(), &whole[..k])?;
    }
    Ok(())
}

/// The command words, the parts of a text, and what is written.
type List = (
    &'static [&'static str],
    &'static str,
    &'static str,
    usize,
    &'static str,
    &'static str,
);

/// The job of two up to its scripts, a line, so many copies of a part, and the rest.
fn repeated(alloc: Global, list: &List) -> Result<Vec<u8>, AllocError> {
    let (_, line, part, count, rest, _) = *list;
    let mut text = joined(alloc, TWO, line)?;
    for _ in 0..count {
        text.extend_from_slice(part.as_bytes())?;
    }
    text.extend_from_slice(rest.as_bytes())?;
    Ok(text)
}

static LISTS: [List; 4] = [
    (
        SOLO,
        "script 0",
        " a",
        65537,
        "\nend\n",
        "refused line 15: more than 65536 script letters\n",
    ),
    (
        AUDIT,
        "script 0 a c a\nscript 1 b c\nend\nclaim accept\n",
        "fire a.0\n",
        65537,
        "end\n",
        "refused line 65555: more than 65536 events\n",
    ),
    (
        AUDIT,
        "script 0 a c a\nscript 1 b c\nend\nclaim accept\n",
        "fire a.9\n",
        1,
        "end\n",
        "refused line 19: no such label\n",
    ),
    (
        AUDIT,
        "script 0 a c a\nscript 1 b c\nend\n",
        "claim yes\n",
        1,
        "end\n",
        "refused line 18: no such answer\n",
    ),
];

#[test]
fn lists_that_are_too_long(rt: HostRuntime) -> Result<(), Fail> {
    for list in &LISTS {
        let text = repeated(rt.alloc(), list)?;
        assert_run(&rt, rt.alloc(), list.0, WHOLE, text, 4, list.5)?;
    }
    Ok(())
}
