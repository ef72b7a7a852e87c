//! Replies to what is asked of a text.

use std::alloc::Global;
use std::process::Abort;
use std::test::Fail;
use za_lang::read_job;
use za_query::*;

/// A document with the expression of all words over two letters of two processes, and the job that it says.
const ALL_WORDS: &str = "zla expr\nprocesses left right\nletter a left\nletter b right\n\
    expr ( a | b ) *\nscript left a\nscript right b\nend\n";

const ALL_WORDS_BUILT: &str = "zla 2\nprocesses left right\nletter a left\nletter b right\n\
    states 3\nstart 0\naccept 0 1 2\nrow 0 a 1\nrow 0 b 2\nrow 1 a 1\nrow 1 b 2\nrow 2 a 1\nrow 2 b 2\n\
    script left a\nscript right b\nend\n";

const NO_FORM: &str = "zla expr\nprocesses left right\nletter a left\nletter b right\n\
    expr a |\nscript left a\nscript right b\nend\n";

/// One whose language isn't trace-closed. After `b`, and after `a a`, no occurrence is left.
const IN_TURN: &str =
    "zla expr\nprocesses left right\nletter a left\nletter b right\nexpr ( a b ) *\nend\n";

const IN_TURN_BUILT: &str = "zla 2\nprocesses left right\nletter a left\nletter b right\n\
    states 4\nstart 0\naccept 0 3\nrow 0 a 1\nrow 0 b 2\nrow 1 a 2\nrow 1 b 3\nrow 2 a 2\nrow 2 b 2\n\
    row 3 a 1\nrow 3 b 2\nscript left\nscript right\nend\n";

/// Two processes with a letter each and one that they share, and readings of them.
const TWO: &str = "zla 1\nprocesses 2\nletter a 0\nletter b 1\nletter c 0 1\nstates 2\nstart 0\n\
    accept 0\nrow 0 a 1\nrow 0 b 0\nrow 0 c 0\nrow 1 a 0\nrow 1 b 1\nrow 1 c 1\n\
    script 0 a c a\nscript 1 b c\nend\n";

const TWO_READINGS: &str =
    "zla 1\nprocesses 2\nletter a 0\nletter b 1\nletter c 0 1\nstates 2\nstart 0\n\
    accept 0\nrow 0 a 1\nrow 0 b 0\nrow 0 c 0\nrow 1 a 0\nrow 1 b 1\nrow 1 c 1\n\
    script 0 a c a\nscript 1 b c\nend\nreadings\nread 0 10 20 30\nread 1 5\nend\n";

const TWO_FROZEN: &str =
    "zla 1\nprocesses 2\nletter a 0\nletter b 1\nletter c 0 1\nstates 2\nstart 0\n\
    accept 0\nrow 0 a 1\nrow 0 b 0\nrow 0 c 0\nrow 1 a 0\nrow 1 b 1\nrow 1 c 1\n\
    script 0 a c a\nscript 1 b c\nend\n\
    cut 2\nat 0 1 a.0 - view 1\nat 1 1 - b.0 view 0\nend\n";

/// Each `b` follows an `a`, and each `a` a `b`: `a b` is accepted, and `b a` is not.
const OPEN: &str = "zla 1\nprocesses 2\nletter a 0\nletter b 1\nstates 2\nstart 0\naccept 0\n\
    row 0 a 1\nrow 1 b 0\nend\n";

const OPEN_READINGS: &str =
    "zla 1\nprocesses 2\nletter a 0\nletter b 1\nstates 2\nstart 0\naccept 0\n\
    row 0 a 1\nrow 1 b 0\nend\nreadings\nend\n";

const NOT_CLOSED: &str = "not closed\nleft a b\nright b a\n";

/// What is asked, of which text, the status, and what is written.
type Case = (Query, &'static str, u8, &'static str);

static CASES: [Case; 9] = [
    (Query::Build, ALL_WORDS, 0, ALL_WORDS_BUILT),
    (Query::Build, NO_FORM, 4, "refused line 5: bad expression\n"),
    // whether its language is closed isn't asked
    (Query::Build, IN_TURN, 0, IN_TURN_BUILT),
    (
        Query::News,
        TWO_READINGS,
        0,
        "known 0 30 20\nknown 1 20 20\n",
    ),
    (Query::News, TWO, 4, "refused line 18: end is missing\n"),
    (Query::News, OPEN_READINGS, 5, NOT_CLOSED),
    (Query::Freeze { cut: 2 }, TWO, 0, TWO_FROZEN),
    (
        Query::Freeze { cut: 2 },
        "zla 1\n",
        4,
        "refused line 2: end is missing\n",
    ),
    (Query::Freeze { cut: 0 }, OPEN, 5, NOT_CLOSED),
];

fn assert_reply(rt: &impl Abort, alloc: Global, case: &Case) -> Result<(), Fail> {
    let (query, text, status, written) = *case;
    let bytes = text.as_bytes();
    assert!(rt; bytes.len() < 4294967295);
    let said = reply(alloc, query, bytes)?;
    assert_eq!(rt; said.status, status);
    assert_eq!(rt; said.text.as_slice(), written.as_bytes());
    Ok(())
}

#[test]
fn replies(rt: HostRuntime) -> Result<(), Fail> {
    for case in &CASES {
        assert_reply(&rt, rt.alloc(), case)?;
    }
    Ok(())
}

/// What the language of a document's job comes to.
fn judged(rt: &impl Abort, alloc: Global, text: &str) -> Result<Judged, Fail> {
    let bytes = text.as_bytes();
    assert!(rt; bytes.len() < 4294967295);
    let job = read_job(alloc, bytes).ok().ok_or("refused")?;
    Ok(judge(alloc, &job)?)
}

fn assert_closed(rt: &impl Abort, alloc: Global, text: &str, states: usize) -> Result<(), Fail> {
    match judged(rt, alloc, text)? {
        Judged::Closed(closed) => assert_eq!(rt; closed.dfa().states(), states),
        Judged::Open(_) => panic!(rt; "open"),
    }
    Ok(())
}

fn assert_open(rt: &impl Abort, alloc: Global, text: &str, said: &str) -> Result<(), Fail> {
    match judged(rt, alloc, text)? {
        Judged::Open(open) => {
            assert_eq!(rt; open.status, 5);
            assert_eq!(rt; open.text.as_slice(), said.as_bytes());
        }
        Judged::Closed(_) => panic!(rt; "closed"),
    }
    Ok(())
}

#[test]
fn languages_are_judged(rt: HostRuntime) -> Result<(), Fail> {
    // the words with evenly many `a`
    assert_closed(&rt, rt.alloc(), TWO, 2)?;
    assert_open(&rt, rt.alloc(), OPEN, NOT_CLOSED)
}
