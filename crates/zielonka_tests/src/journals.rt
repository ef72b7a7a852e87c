//! Journals, and what `audit` says of them and of other claims.

use crate::top::{APART, Ran, Said, TWO, assert_said, is_set_in_time, joined, run_top};
use std::alloc::Global;
use std::process::Abort;
use std::sync::Wait;
use std::sync::atomic::AtomicU64;
use std::sync::atomic::Ordering::SeqCst;
use std::test::Fail;
use std::thread::Threads;
use za_base::MemSink;
use za_gen::job_of;
use zielonka::{Gate, OpenGate, Status};

/// Each `b` follows an `a`, and each `a` a `b`: `a b` is accepted, and `b a` is not.
pub(crate) const OPEN: &str =
    "zla 1\nprocesses 2\nletter a 0\nletter b 1\nstates 2\nstart 0\naccept 0\n\
    row 0 a 1\nrow 1 b 0\nend\n";

/// The job of two in version 2.
const NAMED: &str = "zla 2\n# two sides\nprocesses left right\nletter a left\nletter b right\n\
    letter c left right\nstates 2\nstart 0\naccept 0\nrow 0 a 1\nrow 0 b 0\nrow 0 c 0\n\
    row 1 a 0\nrow 1 b 1\nrow 1 c 1\nscript left a c a\nscript right b c\nend\n# the end\n";

/// A document, a claim about its job, the status, and what is written.
type Case = (&'static str, &'static str, u8, &'static str);

static CLAIMS: [Case; 12] = [
    (
        TWO,
        "claim accept\nfire b.0\nfire a.0\nfire c.0\nfire a.0\nend\n",
        0,
        "audit yes\n",
    ),
    (
        TWO,
        "claim accept\nfire b.0\nfire a.0\nfire c.0\nfire a.1\nend\n",
        1,
        "audit bad label 3\n",
    ),
    (
        TWO,
        "claim accept\nfire c.0\nend\n",
        1,
        "audit bad letter 0\n",
    ),
    (
        TWO,
        "claim accept\nfire a.0\nfire b.0\nfire c.0\nend\n",
        1,
        "audit not maximal a\n",
    ),
    (
        TWO,
        "claim reject\nfire b.0\nfire a.0\nfire c.0\nfire a.0\nend\n",
        1,
        "audit wrong answer accept\n",
    ),
    (
        NAMED,
        "# of the run\nclaim accept\nfire b.0\nfire a.0\nfire c.0\nfire a.0\nend\n",
        0,
        "audit yes\n",
    ),
    // wrong lines: they are counted from the first of the document, whose own come first
    (TWO, "claim yes\n", 4, "refused line 18: no such answer\n"),
    (
        TWO,
        "claim accept\nfire a\n",
        4,
        "refused line 19: bad event\n",
    ),
    (
        TWO,
        "claim accept\nend\nend\n",
        4,
        "refused line 20: text after end\n",
    ),
    (
        "zla 1\nend\n",
        "claim yes\n",
        4,
        "refused line 2: line is out of order\n",
    ),
    // a language that isn't closed, after all wrong lines
    (
        OPEN,
        "claim accept\nend\n",
        5,
        "not closed\nleft a b\nright b a\n",
    ),
    (OPEN, "claim yes\n", 4, "refused line 11: no such answer\n"),
];

/// Audits a document and what follows it.
fn audited<R: Abort + Threads + Wait + Sync>(
    rt: &R,
    alloc: Global,
    document: &[u8],
    claim: &[u8],
) -> Result<Said, Fail> {
    let text = joined(alloc, document, claim)?;
    assert!(rt; text.len() < 400_000);
    run_top(rt, alloc, &["audit"], text, 64, &OpenGate)
}

fn assert_claim<R: Abort + Threads + Wait + Sync>(
    rt: &R,
    alloc: Global,
    case: &Case,
) -> Result<(), Fail> {
    let (document, claim, status, text) = *case;
    let run = audited(rt, alloc, document.as_bytes(), claim.as_bytes())?;
    assert_said(rt, &run, status, text);
    assert_eq!(rt; run.ran, Ran::Nothing);
    Ok(())
}

#[test]
fn what_is_said_of_claims(rt: HostRuntime) -> Result<(), Fail> {
    for case in &CLAIMS {
        assert_claim(&rt, rt.alloc(), case)?;
    }
    Ok(())
}

/// The journal of the scripts of a document, run on threads.
fn journal_of<R: Abort + Threads + Wait + Sync>(
    rt: &R,
    alloc: Global,
    texts: &[&str],
    document: &[u8],
    fired: usize,
) -> Result<MemSink, Fail> {
    let copy = Vec::from_slice(alloc, document)?;
    let run = run_top(rt, alloc, texts, copy, 400_000, &OpenGate)?;
    assert_eq!(rt; run.status, Status(0));
    assert_eq!(rt; run.ran, Ran::OnThreads(fired));
    Ok(run.sink)
}

/// Has this journal audited.
fn assert_audited_yes<R: Abort + Threads + Wait + Sync>(
    rt: &R,
    alloc: Global,
    texts: &[&str],
    document: &[u8],
    fired: usize,
) -> Result<(), Fail> {
    let journal = journal_of(rt, alloc, texts, document, fired)?;
    let run = audited(rt, alloc, document, journal.bytes())?;
    assert_said(rt, &run, 0, "audit yes\n");
    Ok(())
}

/// The command words of journals, without and with a cache.
static WORDS: [&[&str]; 2] = [&["journal"], &["journal", "--cache", "16"]];

/// In whatever order the threads fired the letters.
#[test]
fn journals_are_right(rt: HostRuntime) -> Result<(), Fail> {
    for texts in &WORDS {
        for document in &[TWO, NAMED] {
            assert_audited_yes(&rt, rt.alloc(), texts, document.as_bytes(), 4)?;
        }
    }
    Ok(())
}

/// The same of the generated job of 7.
#[test]
fn a_large_journal_is_right(rt: HostRuntime) -> Result<(), Fail> {
    let large = job_of(rt.alloc(), 7)?;
    for texts in &WORDS {
        assert_audited_yes(&rt, rt.alloc(), texts, large.as_slice(), 20000)?;
    }
    Ok(())
}

/// The other process waits before its step 0 until this one comes to its step 1.
#[derive(Drop)]
struct First {
    process: usize,
    has_stepped: AtomicU64,
}

impl Gate for First {
    fn before(&self, p: usize, at: usize) {
        if p == self.process && at == 1 {
            self.has_stepped.store(1, SeqCst);
        }
        if p != self.process && at == 0 {
            is_set_in_time(&self.has_stepped);
        }
    }
}

/// Runs two processes that share no letter, of which this one comes first, and compares their journal.
fn assert_order<R: Abort + Threads + Wait + Sync>(
    rt: &R,
    alloc: Global,
    process: usize,
    text: &str,
) -> Result<(), Fail> {
    let gate = First {
        process,
        has_stepped: AtomicU64::new(0),
    };
    let document = Vec::from_slice(alloc, APART.as_bytes())?;
    let run = run_top(rt, alloc, &["journal"], document, 64, &gate)?;
    assert_said(rt, &run, 0, text);
    Ok(())
}

/// Who comes first, and the journal.
static ORDERS: [(usize, &str); 2] = [
    (1, "claim accept\nfire b.0\nfire a.0\nend\n"),
    (0, "claim accept\nfire a.0\nfire b.0\nend\n"),
];

#[test]
fn a_journal_has_the_order_of_the_threads(rt: HostRuntime) -> Result<(), Fail> {
    for (process, text) in &ORDERS {
        assert_order(&rt, rt.alloc(), *process, text)?;
    }
    Ok(())
}
