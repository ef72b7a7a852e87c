//! What the program says of documents: each kind of refusal, lines that change nothing, the limits.

use crate::limits::{Limits, at_the_limits};
use crate::top::{SOLO, WHOLE, assert_run, joined};
use samples::documents::{OPEN, TWO, TWO_SCRIPTS};
use std::alloc::{AllocError, Global};
use std::process::Abort;
use std::test::Fail;

/// Which lines of the job of two processes are changed, from one on and so many, the lines in their place,
/// the status, and what is written.
type Change = (usize, usize, &'static str, u8, &'static str);

/// The text with a change.
fn changed(alloc: Global, text: &[u8], change: &Change) -> Result<Vec<u8>, AllocError> {
    let (from, count, lines, _, _) = *change;
    let mut new = Vec::new(alloc);
    let mut at = 1usize;
    if from == 1 {
        new.extend_from_slice(lines.as_bytes())?;
    }
    for byte in text {
        if at < from || from.saturating_add(count) <= at {
            new.push(*byte)?;
        }
        if *byte == b'\n' {
            at = at.saturating_add(1);
            if at == from {
                new.extend_from_slice(lines.as_bytes())?;
            }
        }
    }
    Ok(new)
}

const ACCEPTED: &str = "accept\nfired 4\nbound labels 27 records 3\n";

static CHANGES: [Change; 31] = [
    // each kind of refusal
    (7, 1, "start 0\r\n", 4, "refused line 7: bad byte\n"),
    (
        1,
        1,
        "zla 3\n",
        4,
        "refused line 1: header is not zla 1 or 2\n",
    ),
    (
        6,
        2,
        "start 0\nstates 2\n",
        4,
        "refused line 6: line is out of order\n",
    ),
    (
        9,
        1,
        "row 0 a\n",
        4,
        "refused line 9: wrong number of words\n",
    ),
    (17, 1, "", 4, "refused line 17: end is missing\n"),
    (17, 1, "end", 4, "refused line 17: line is cut\n"),
    (18, 0, "end\n", 4, "refused line 18: text after end\n"),
    (6, 1, "states 02\n", 4, "refused line 6: bad number\n"),
    (3, 1, "letter 1a 9\n", 4, "refused line 3: bad name\n"),
    (
        2,
        1,
        "processes 7\n",
        4,
        "refused line 2: processes not in 1 to 6\n",
    ),
    (
        4,
        1,
        "letter a 1\n",
        4,
        "refused line 4: name is repeated\n",
    ),
    (
        4,
        1,
        "letter b\n",
        4,
        "refused line 4: letter without process\n",
    ),
    (
        5,
        1,
        "letter c 0 2\n",
        4,
        "refused line 5: no such process\n",
    ),
    (
        6,
        1,
        "states 33\n",
        4,
        "refused line 6: states not in 1 to 32\n",
    ),
    (7, 1, "start 2\n", 4, "refused line 7: no such state\n"),
    (9, 1, "row 0 d 1\n", 4, "refused line 9: no such letter\n"),
    (10, 0, "row 0 a 0\n", 4, "refused line 10: two targets\n"),
    (
        15,
        1,
        "script 0 a b a\n",
        4,
        "refused line 15: letter not of this process\n",
    ),
    (
        6,
        0,
        "letter x0 0\nletter x1 0\nletter x2 0\nletter x3 0\nletter x4 0\nletter x5 0\n\
        letter x6 0\nletter x7 0\nletter x8 0\nletter x9 0\nletter x10 0\nletter x11 0\n\
        letter x12 0\nletter x13 0\nletter x14 0\nletter x15 0\nletter x16 0\nletter x17 0\n\
        letter x18 0\nletter x19 0\nletter x20 0\nletter x21 0\nletter x22 0\nletter x23 0\n\
        letter x24 0\nletter x25 0\nletter x26 0\nletter x27 0\nletter x28 0\nletter x29 0\n",
        4,
        "refused line 35: more than 32 letters\n",
    ),
    // numbers out of range, and one that is none
    (
        2,
        1,
        "processes 4294967295\n",
        4,
        "refused line 2: processes not in 1 to 6\n",
    ),
    (
        2,
        1,
        "processes 4294967296\n",
        4,
        "refused line 2: bad number\n",
    ),
    // a byte that isn't allowed is told before what else is wrong, and a cut line before that
    (18, 0, "\u{7f}\n", 4, "refused line 18: bad byte\n"),
    (17, 1, "e\u{7f}", 4, "refused line 17: line is cut\n"),
    (
        1,
        1,
        "zla 1 1\n",
        4,
        "refused line 1: header is not zla 1 or 2\n",
    ),
    // the job as it is; an equal row again, and a process named twice
    (1, 0, "", 0, ACCEPTED),
    (10, 0, "row 0 a 1\n", 0, ACCEPTED),
    (5, 1, "letter c 1 0 1\n", 0, ACCEPTED),
    // a script in two lines, with another between; a script for each process, the second of them again
    (
        15,
        2,
        "script 0 a\nscript 1 b c\nscript 0 c a\n",
        0,
        ACCEPTED,
    ),
    (16, 1, "script 1 b\nscript 1 c\n", 0, ACCEPTED),
    // tabs, spaces and lines without words
    (8, 1, "\n \t\naccept\t 0   0\n\n", 0, ACCEPTED),
    (18, 0, "\n  \n", 0, ACCEPTED),
];

fn assert_change(rt: &impl Abort, alloc: Global, text: &[u8], change: &Change) -> Result<(), Fail> {
    let new = changed(alloc, text, change)?;
    assert_run(rt, alloc, SOLO, WHOLE, new, change.3, change.4)
}

#[test]
fn documents_line_by_line(rt: HostRuntime) -> Result<(), Fail> {
    let text = joined(rt.alloc(), TWO, TWO_SCRIPTS)?;
    for change in &CHANGES {
        assert_change(&rt, rt.alloc(), text.as_slice(), change)?;
    }
    Ok(())
}

#[test]
fn the_first_wrong_line_comes_before_the_language(rt: HostRuntime) -> Result<(), Fail> {
    let open = joined(rt.alloc(), OPEN, "end\nend\n")?;
    let said = "refused line 11: text after end\n";
    assert_run(&rt, rt.alloc(), SOLO, WHOLE, open, 4, said)
}

/// Six processes, 32 letters of one process each in turn, and 32 states in a ring. State 6 accepts.
static LIMITS: Limits = Limits {
    head: "zla 1\nprocesses 6\n",
    name: "",
    processes: 6,
    letters: 32,
    states: 32,
};

#[test]
fn a_document_at_the_limits(rt: HostRuntime) -> Result<(), Fail> {
    let text = at_the_limits(rt.alloc(), &LIMITS)?;
    let said = "accept\nfired 6\nbound labels 6944 records 7\n";
    assert_run(&rt, rt.alloc(), SOLO, WHOLE, text, 0, said)
}
