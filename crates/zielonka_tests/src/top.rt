//! Commands over small jobs and the generated one, on one thread and on threads.

ghost use Rattle.std.specs.Prelude.{IfOk};
ghost use Rattle.za_script.specs.ScriptLists.{FitAlphabet};

use std::alloc::{AllocError, Global};
use std::process::Abort;
use std::sync::Wait;
use std::sync::atomic::AtomicU64;
use std::sync::atomic::Ordering::SeqCst;
use std::test::Fail;
use std::thread::{Threads, yield_now};
use za_base::{MemSink, MemSource};
use za_closure::close;
use za_dfa::Closed;
use za_gen::job_of;
use za_lang::read_job;
use za_script::{Answer, Scripts};
use za_table::Ended;
use zielonka::{Gate, OpenGate, Outcome, Shown, Status, plain, threaded, top};

/// Two processes with a letter each and one that they share. Words with an even number of `a` are accepted.
pub(crate) const TWO: &str =
    "zla 1\nprocesses 2\nletter a 0\nletter b 1\nletter c 0 1\nstates 2\nstart 0\naccept 0\n\
    row 0 a 1\nrow 0 b 0\nrow 0 c 0\nrow 1 a 0\nrow 1 b 1\nrow 1 c 1\n\
    script 0 a c a\nscript 1 b c\nend\n";

/// The same with scripts of which process 0 waits for a partner that has ended.
pub(crate) const TWO_STUCK: &str =
    "zla 1\nprocesses 2\nletter a 0\nletter b 1\nletter c 0 1\nstates 2\nstart 0\naccept 0\n\
    row 0 a 1\nrow 0 b 0\nrow 0 c 0\nrow 1 a 0\nrow 1 b 1\nrow 1 c 1\n\
    script 0 c a\nscript 1 b\nend\n";

/// Each of three processes waits for its neighbour in a ring.
const RING: &str =
    "zla 1\nprocesses 3\nletter x 0 1\nletter y 1 2\nletter z 0 2\nstates 1\nstart 0\naccept 0\n\
    row 0 x 0\nrow 0 y 0\nrow 0 z 0\nscript 0 x z\nscript 1 y x\nscript 2 z y\nend\n";

/// Two clients and a lock that take turns.
const LOCK: &str = "zla 1\nprocesses 3\nletter lock0 0 2\nletter unlock0 0 2\nletter lock1 1 2\n\
    letter unlock1 1 2\nletter work0 0\nletter work1 1\nstates 3\nstart 0\naccept 0\n\
    row 0 lock0 1\nrow 1 work0 1\nrow 1 unlock0 0\nrow 0 lock1 2\nrow 2 work1 2\nrow 2 unlock1 0\n\
    script 0 lock0 work0 unlock0\nscript 1 lock1 work1 unlock1\n\
    script 2 lock1 unlock1 lock0 unlock0\nend\n";

/// The same, but client 0 works before it has the lock.
const LOCK_BROKEN: &str =
    "zla 1\nprocesses 3\nletter lock0 0 2\nletter unlock0 0 2\nletter lock1 1 2\n\
    letter unlock1 1 2\nletter work0 0\nletter work1 1\nstates 3\nstart 0\naccept 0\n\
    row 0 lock0 1\nrow 1 work0 1\nrow 1 unlock0 0\nrow 0 lock1 2\nrow 2 work1 2\nrow 2 unlock1 0\n\
    script 0 work0 lock0 unlock0\nscript 1 lock1 work1 unlock1\n\
    script 2 lock1 unlock1 lock0 unlock0\nend\n";

/// One process with a letter, of which an even number is accepted.
const THREE_TIMES: &str =
    "zla 1\nprocesses 1\nletter a 0\nstates 2\nstart 0\naccept 0\nrow 0 a 1\nrow 1 a 0\nscript 0 a a a\nend\n";

/// Two processes with a letter each, and one state.
pub(crate) const APART: &str =
    "zla 1\nprocesses 2\nletter a 0\nletter b 1\nstates 1\nstart 0\naccept 0\n\
    row 0 a 0\nrow 0 b 0\nscript 0 a\nscript 1 b\nend\n";

pub(crate) fn strings(alloc: Global, texts: &[&str]) -> Result<Vec<String>, AllocError> {
    let mut strings = Vec::new(alloc);
    for text in texts {
        strings.push(String::from_str(alloc, text)?)?;
    }
    Ok(strings)
}

/// What is shown: nothing, or a run of so many letters.
#[derive(Clone, Copy, Debug, PartialEq, Eq)]
pub(crate) enum Ran {
    Nothing,
    Alone(usize),
    OnThreads(usize),
}

fn shown(outcome: &Outcome) -> Ran {
    match &outcome.shown {
        Shown::Nothing => Ran::Nothing,
        Shown::Solo(ended) => Ran::Alone(ended.word().len()),
        Shown::Hall(closed) => Ran::OnThreads(closed.ended().word().len()),
    }
}

/// Command words, the lines of a job, the room of the sink, the status, what is written, and what is shown.
type Case = (
    &'static [&'static str],
    &'static str,
    usize,
    u8,
    &'static str,
    Ran,
);

pub(crate) const ACCEPTED: &str = "accept\nfired 4\nbound labels 27 records 3\n";

const REUSED: &str = "claim reject\nfire a.0\nfire a.1\nfire a.0\nend\n";

const LOCAL_STATES: &str = "p0 a.0 c.0 view 0\np1 c.0 c.0 view 1\n";

static CASES: [Case; 22] = [
    (&["solo"], TWO, 64, 0, ACCEPTED, Ran::Alone(4)),
    (&["run"], TWO, 64, 0, ACCEPTED, Ran::OnThreads(4)),
    // the bound counts the rows of the cache
    (
        &["--cache=4", "solo"],
        TWO,
        64,
        0,
        "accept\nfired 4\nbound labels 27 records 15\n",
        Ran::Alone(4),
    ),
    (
        &["run", "--cache", "64"],
        TWO,
        64,
        0,
        "accept\nfired 4\nbound labels 27 records 195\n",
        Ran::OnThreads(4),
    ),
    (
        &["check", "--cache", "64"],
        TWO,
        64,
        0,
        "closed\nstates 2\nbound labels 27 records 195\n",
        Ran::Nothing,
    ),
    (&["locals"], TWO, 64, 0, LOCAL_STATES, Ran::Alone(4)),
    (
        &["locals", "--cache=1"],
        TWO,
        64,
        0,
        LOCAL_STATES,
        Ran::Alone(4),
    ),
    // the run is shown though its text was not written whole
    (&["solo"], TWO, 5, 7, "accep", Ran::Alone(4)),
    (&["run"], TWO, 5, 7, "accep", Ran::OnThreads(4)),
    (
        &["run"],
        TWO_STUCK,
        200,
        3,
        "stuck\nfired 1\nbound labels 27 records 3\n\
        process 0 fired 0 waits c\nprocess 1 fired 1 ended\ntrace b\nalive\n",
        Ran::OnThreads(1),
    ),
    (
        &["run"],
        RING,
        200,
        3,
        "stuck\nfired 0\nbound labels 84 records 4\nprocess 0 fired 0 waits x\n\
        process 1 fired 0 waits y\nprocess 2 fired 0 waits z\ntrace\nalive\n",
        Ran::OnThreads(0),
    ),
    (
        &["run"],
        LOCK,
        64,
        0,
        "accept\nfired 6\nbound labels 168 records 4\n",
        Ran::OnThreads(6),
    ),
    (
        &["run"],
        LOCK_BROKEN,
        64,
        1,
        "reject\nfired 6\nbound labels 168 records 4\n",
        Ran::OnThreads(6),
    ),
    // a label is used again once its event is out of everybody's news
    (&["journal"], THREE_TIMES, 64, 1, REUSED, Ran::OnThreads(3)),
    (
        &["journal", "--cache=1"],
        THREE_TIMES,
        64,
        1,
        REUSED,
        Ran::OnThreads(3),
    ),
    (
        &["journal"],
        TWO_STUCK,
        64,
        3,
        "claim stuck\nfire b.0\nend\n",
        Ran::OnThreads(1),
    ),
    (
        &["journal"],
        RING,
        64,
        3,
        "claim stuck\nend\n",
        Ran::OnThreads(0),
    ),
    (
        &["journal"],
        LOCK,
        200,
        0,
        "claim accept\nfire lock1.0\nfire work1.0\nfire unlock1.0\n\
        fire lock0.0\nfire work0.0\nfire unlock0.0\nend\n",
        Ran::OnThreads(6),
    ),
    (&["journal"], TWO_STUCK, 5, 7, "claim", Ran::OnThreads(1)),
    // texts that are no document, and no document with a claim
    (
        &["run"],
        "zla 1\n",
        64,
        4,
        "refused line 2: end is missing\n",
        Ran::Nothing,
    ),
    (
        &["journal"],
        "zla 1\n",
        64,
        4,
        "refused line 2: end is missing\n",
        Ran::Nothing,
    ),
    (
        &["audit"],
        TWO,
        64,
        4,
        "refused line 18: end is missing\n",
        Ran::Nothing,
    ),
];

/// How a call ended: its status, what is shown, and what it wrote.
#[derive(Drop)]
pub(crate) struct Said {
    pub(crate) status: Status,
    pub(crate) ran: Ran,
    pub(crate) sink: MemSink,
}

/// The outcome of a call that wrote to this sink. The run that it shows is let go here, and nowhere else.
fn let_go(outcome: Outcome, sink: MemSink) -> Said {
    let (status, ran) = (outcome.status, shown(&outcome));
    drop(outcome);
    Said { status, ran, sink }
}

/// Where a document comes from, and a sink with so much room.
fn streams(alloc: Global, document: Vec<u8>, room: usize) -> Result<(MemSource, MemSink), Fail> {
    let sink = MemSink::new(alloc, room, 256, Vec::new(alloc))?;
    Ok((MemSource::new(document, 4096, Vec::new(alloc)), sink))
}

/// A text and what follows it.
pub(crate) fn joined(alloc: Global, head: &[u8], tail: &[u8]) -> Result<Vec<u8>, AllocError> {
    let mut text = Vec::from_slice(alloc, head)?;
    text.extend_from_slice(tail)?;
    Ok(text)
}

/// Runs the program over a document, with so much room for its text.
pub(crate) fn run_top<R: Threads + Wait + Sync, G: Gate>(
    rt: &R,
    alloc: Global,
    texts: &[&str],
    document: Vec<u8>,
    room: usize,
    gate: &G,
) -> Result<Said, Fail> {
    let words = strings(alloc, texts)?;
    let (mut source, mut sink) = streams(alloc, document, room)?;
    let outcome = top(rt, alloc, words.as_slice(), &mut source, &mut sink, gate);
    Ok(let_go(outcome, sink))
}

/// The same by `plain` alone.
pub(crate) fn said_by_plain(
    alloc: Global,
    texts: &[&str],
    document: &[u8],
    room: usize,
) -> Result<Said, Fail> {
    let words = strings(alloc, texts)?;
    let (mut source, mut sink) = streams(alloc, Vec::from_slice(alloc, document)?, room)?;
    let outcome = plain(alloc, words.as_slice(), &mut source, &mut sink);
    Ok(let_go(outcome, sink))
}

/// The same by `threaded` alone.
pub(crate) fn said_by_threaded<R: Threads + Wait + Sync>(
    rt: &R,
    alloc: Global,
    texts: &[&str],
    document: Vec<u8>,
    room: usize,
) -> Result<Said, Fail> {
    let words = strings(alloc, texts)?;
    let (mut source, mut sink) = streams(alloc, document, room)?;
    let outcome = threaded(
        rt,
        alloc,
        words.as_slice(),
        &mut source,
        &mut sink,
        &OpenGate,
    );
    Ok(let_go(outcome, sink))
}

pub(crate) fn assert_said(rt: &impl Abort, run: &Said, status: u8, text: &str) {
    assert_eq!(rt; run.status, Status(status));
    assert_eq!(rt; run.sink.bytes(), text.as_bytes());
}

fn assert_case<R: Abort + Threads + Wait + Sync>(
    rt: &R,
    alloc: Global,
    case: &Case,
) -> Result<(), Fail> {
    let (texts, document, room, status, text, ran) = *case;
    let document = Vec::from_slice(alloc, document.as_bytes())?;
    let run = run_top(rt, alloc, texts, document, room, &OpenGate)?;
    assert_said(rt, &run, status, text);
    assert_eq!(rt; run.ran, ran);
    Ok(())
}

#[test]
fn the_commands_over_small_jobs(rt: HostRuntime) -> Result<(), Fail> {
    for case in &CASES {
        assert_case(&rt, rt.alloc(), case)?;
    }
    Ok(())
}

pub(crate) const USAGE: &str =
    "usage: zla solo|run|check|locals|journal [--cache C], zla audit|build|news|thaw, zla gen N, zla freeze K\n";

#[test]
fn plain_has_no_form_of_run(rt: HostRuntime) -> Result<(), Fail> {
    let run = said_by_plain(rt.alloc(), &["run"], b"", 200)?;
    assert_said(&rt, &run, 2, USAGE);
    Ok(())
}

#[test]
fn threaded_has_no_form_of_solo(rt: HostRuntime) -> Result<(), Fail> {
    let run = said_by_threaded(&rt, rt.alloc(), &["solo"], Vec::new(rt.alloc()), 200)?;
    assert_said(&rt, &run, 2, USAGE);
    Ok(())
}

/// How often a gate lets others run before it gives up.
const LIMIT: u64 = 10_000_000;

/// Waits until the flag is set. It says whether it was, within the limit.
pub(crate) fn is_set_in_time(flag: &AtomicU64) -> bool {
    for _ in 0..LIMIT {
        if flag.load(SeqCst) == 1 {
            return true;
        }
        yield_now();
    }
    false
}

/// Each of two processes waits until the other has come to the gate.
#[derive(Drop)]
struct Meeting {
    first: AtomicU64,
    second: AtomicU64,
    met: AtomicU64,
}

impl Gate for Meeting {
    fn before(&self, p: usize, at: usize) {
        if at > 0 {
            return;
        }
        let (mine, other) = if p == 0 {
            (&self.first, &self.second)
        } else {
            (&self.second, &self.first)
        };
        mine.store(1, SeqCst);
        if is_set_in_time(other) {
            self.met.fetch_add(1, SeqCst);
        }
    }
}

#[test]
fn processes_run_side_by_side(rt: HostRuntime) -> Result<(), Fail> {
    let alloc = rt.alloc();
    let gate = Meeting {
        first: AtomicU64::new(0),
        second: AtomicU64::new(0),
        met: AtomicU64::new(0),
    };
    let document = Vec::from_slice(alloc, APART.as_bytes())?;
    let run = run_top(&rt, alloc, &["run"], document, 64, &gate)?;
    assert_said(&rt, &run, 0, "accept\nfired 2\nbound labels 18 records 3\n");
    assert_eq!(rt; gate.met.load(SeqCst), 2);
    Ok(())
}

/// The job of two, and its minimal automaton.
fn two(rt: &impl Abort, alloc: Global) -> Result<(Closed, Scripts), Fail>
    ensures { IfOk result (λ r. FitAlphabet r.0.alphabet r.1) }
{
    let Ok(job) = read_job(alloc, TWO.as_bytes()) else {
        panic!(rt; "a job is refused")
    };
    let dfa = job.lang.dfa()?;
    let Ok(closed) = close(alloc, &dfa) else {
        panic!(rt; "a closed language is refused")
    };
    assert!(rt; job.scripts.fits(closed.dfa().alphabet()));
    Ok((closed, job.scripts))
}

/// It is accepted, and four letters fire.
fn assert_accepted(rt: &impl Abort, ended: &Ended) {
    assert_eq!(rt; ended.answer(), Answer::Accept);
    assert_eq!(rt; ended.word().len(), 4);
}

#[test]
fn the_crates_below_on_one_thread(rt: HostRuntime) -> Result<(), Fail> {
    let (closed, scripts) = two(&rt, rt.alloc())?;
    let ended = za_table::solo(rt.alloc(), closed, scripts, 0)?;
    assert_accepted(&rt, &ended);
    drop(ended);
    Ok(())
}

#[test]
fn the_crates_below_on_threads(rt: HostRuntime) -> Result<(), Fail> {
    let (closed, scripts) = two(&rt, rt.alloc())?;
    let hall = za_runner::run(&rt, rt.alloc(), closed, scripts, 0, &OpenGate)?;
    assert_accepted(&rt, hall.ended());
    drop(hall);
    Ok(())
}

/// What `gen 7` writes, though no read would succeed.
fn generated(alloc: Global) -> Result<Said, Fail> {
    let words = strings(alloc, &["gen", "7"])?;
    let mut source = MemSource::new(Vec::new(alloc), 1, vec![in alloc; 1]?);
    let mut sink = MemSink::new(alloc, 65536, 4096, Vec::new(alloc))?;
    let outcome = plain(alloc, words.as_slice(), &mut source, &mut sink);
    Ok(let_go(outcome, sink))
}

#[test]
fn the_generated_job_is_written(rt: HostRuntime) -> Result<(), Fail> {
    let run = generated(rt.alloc())?;
    let job = job_of(rt.alloc(), 7)?;
    assert_eq!(rt; run.status, Status(0));
    assert!(rt; run.sink.bytes() == job.as_slice());
    Ok(())
}

/// Runs a command over the generated job of 7, and compares what it writes.
fn assert_generated<R: Abort + Threads + Wait + Sync>(
    rt: &R,
    alloc: Global,
    texts: &[&str],
    text: &str,
) -> Result<(), Fail> {
    let run = run_top(rt, alloc, texts, job_of(alloc, 7)?, 64, &OpenGate)?;
    assert_said(rt, &run, 0, text);
    Ok(())
}

const PLAINLY: &str = "accept\nfired 20000\nbound labels 520 records 5\n";

const CACHED: &str = "accept\nfired 20000\nbound labels 520 records 85\n";

/// Command words, and what is written.
static GENERATED: [(&[&str], &str); 5] = [
    (&["solo"], PLAINLY),
    (&["run"], PLAINLY),
    (&["solo", "--cache", "16"], CACHED),
    (&["run", "--cache", "16"], CACHED),
    (&["check"], "closed\nstates 8\nbound labels 520 records 5\n"),
];

/// Its scripts are accepted, and all 20,000 letters fire; the minimal automaton has 8 states.
#[test]
fn the_generated_job_of_7(rt: HostRuntime) -> Result<(), Fail> {
    for (texts, text) in &GENERATED {
        assert_generated(&rt, rt.alloc(), texts, text)?;
    }
    Ok(())
}
