//! Runs with a thread for each process: their words and answers.

use crate::jobs::assert_accepted;
use samples::{A, B, C, Named, alphabet_of, closed_of, dfa_of, scripts_of};
use std::alloc::Global;
use std::process::Abort;
use std::sync::Wait;
use std::sync::atomic::AtomicU64;
use std::sync::atomic::Ordering::SeqCst;
use std::test::Fail;
use std::thread::{Threads, yield_now};
use za_alpha::Letter;
use za_dfa::Closed;
use za_hall::HallEnded;
use za_runner::{Gate, OpenGate, run};
use za_script::Answer;

/// A number of processes, their letters, and an automaton, whose start is state 0.
struct Rule {
    processes: usize,
    letters: &'static [Named],
    accepting: &'static [bool],
    targets: &'static [u8],
}

fn ruled(alloc: Global, rule: &Rule) -> Result<Closed, Fail> {
    let alphabet = alphabet_of(alloc, rule.processes, rule.letters)?;
    let dfa = dfa_of(alloc, alphabet, 0, rule.accepting, rule.targets)?;
    closed_of(dfa)
}

/// Runs these scripts with a thread for each process.
fn run_on<R: Abort + Threads + Wait + Sync, G: Gate>(
    rt: &R,
    alloc: Global,
    rule: &Rule,
    letters: &[(usize, Letter)],
    gate: &G,
) -> Result<HallEnded, Fail> {
    let closed = ruled(alloc, rule)?;
    let scripts = scripts_of(alloc, closed.dfa().alphabet(), letters)?;
    Ok(run(rt, alloc, closed, scripts, 0, gate)?)
}

/// How often a gate lets others run before it gives up.
const LIMIT: u64 = 10_000_000;

/// Waits until the flag is set. It says whether it was, within the limit.
fn is_set_in_time(flag: &AtomicU64) -> bool {
    for _ in 0..LIMIT {
        if flag.load(SeqCst) == 1 {
            return true;
        }
        yield_now();
    }
    false
}

/// Two processes with a letter each, whose process is named twice, and one state to which both lead.
static APART: Rule = Rule {
    processes: 2,
    letters: &[(b"a", &[0, 0]), (b"b", &[1, 1])],
    accepting: &[true],
    targets: &[0, 0],
};

/// The script `a` of process 0 and `b` of process 1.
static A_AND_B: [(usize, Letter); 2] = [(0, A), (1, B)];

/// The other process waits before its step 0 until this one comes to its step 1.
#[derive(Drop)]
struct First {
    process: usize,
    has_stepped: AtomicU64,
}

impl Gate for First {
    fn before(&self, p: usize, at: usize) {
        if p == self.process && at == 1 {
            self.has_stepped.store(1, SeqCst);
        }
        if p != self.process && at == 0 {
            is_set_in_time(&self.has_stepped);
        }
    }
}

/// The word of two processes, of which this one is the first.
fn assert_follows<R: Abort + Threads + Wait + Sync>(
    rt: &R,
    alloc: Global,
    process: usize,
    word: &[u8],
) -> Result<(), Fail> {
    let gate = First {
        process,
        has_stepped: AtomicU64::new(0),
    };
    let ended = run_on(rt, alloc, &APART, &A_AND_B, &gate)?;
    assert_accepted(rt, ended.ended(), word);
    drop(ended);
    Ok(())
}

#[test]
fn the_word_follows_the_workers(rt: HostRuntime) -> Result<(), Fail> {
    assert_follows(&rt, rt.alloc(), 1, &[1, 0])?;
    assert_follows(&rt, rt.alloc(), 0, &[0, 1])
}

/// Each of two processes waits until the other has come to the gate.
#[derive(Drop)]
struct Meeting {
    first: AtomicU64,
    second: AtomicU64,
    met: AtomicU64,
}

impl Gate for Meeting {
    fn before(&self, p: usize, at: usize) {
        if at > 0 {
            return;
        }
        let (mine, other) = if p == 0 {
            (&self.first, &self.second)
        } else {
            (&self.second, &self.first)
        };
        mine.store(1, SeqCst);
        if is_set_in_time(other) {
            self.met.fetch_add(1, SeqCst);
        }
    }
}

fn assert_answer(rt: &impl Abort, ended: &HallEnded, answer: Answer, count: usize) {
    assert_eq!(rt; ended.ended().answer(), answer);
    assert_eq!(rt; ended.ended().word().len(), count);
}

#[test]
fn workers_run_side_by_side(rt: HostRuntime) -> Result<(), Fail> {
    let gate = Meeting {
        first: AtomicU64::new(0),
        second: AtomicU64::new(0),
        met: AtomicU64::new(0),
    };
    let ended = run_on(&rt, rt.alloc(), &APART, &A_AND_B, &gate)?;
    assert_answer(&rt, &ended, Answer::Accept, 2);
    assert_eq!(rt; gate.met.load(SeqCst), 2);
    drop(ended);
    Ok(())
}

const D: Letter = Letter(3);

const E: Letter = Letter(4);

const F: Letter = Letter(5);

/// Two clients and a lock, which is process 2: `a` and `b` lock and unlock for client 0, `c` and `d`
/// for client 1, and `e` and `f` are their work. State 1 is that client 0 has the lock, 2 that client 1 has it,
/// and 3 that a letter was out of turn.
static TWO_CLIENTS: Rule = Rule {
    processes: 3,
    letters: &[
        (b"a", &[0, 2]),
        (b"b", &[0, 2]),
        (b"c", &[1, 2]),
        (b"d", &[1, 2]),
        (b"e", &[0, 0]),
        (b"f", &[1, 1]),
    ],
    accepting: &[true, false, false, false],
    targets: &[
        1, 3, 2, 3, 3, 3, // nobody has the lock
        3, 0, 3, 3, 1, 3, // client 0
        3, 3, 3, 0, 3, 2, // client 1
        3, 3, 3, 3, 3, 3,
    ],
};

static LOCKED: [(usize, Letter); 10] = [
    (0, A),
    (0, E),
    (0, B),
    (1, C),
    (1, F),
    (1, D),
    (2, C),
    (2, D),
    (2, A),
    (2, B),
];

#[test]
fn a_lock_and_its_clients(rt: HostRuntime) -> Result<(), Fail> {
    let ended = run_on(&rt, rt.alloc(), &TWO_CLIENTS, &LOCKED, &OpenGate)?;
    assert_accepted(&rt, ended.ended(), &[2, 5, 3, 0, 4, 1]);
    drop(ended);
    Ok(())
}

static EARLY: [(usize, Letter); 10] = [
    (0, E),
    (0, A),
    (0, B),
    (1, C),
    (1, F),
    (1, D),
    (2, C),
    (2, D),
    (2, A),
    (2, B),
];

#[test]
fn a_client_that_works_before_it_locks(rt: HostRuntime) -> Result<(), Fail> {
    let ended = run_on(&rt, rt.alloc(), &TWO_CLIENTS, &EARLY, &OpenGate)?;
    assert_answer(&rt, &ended, Answer::Reject, 6);
    drop(ended);
    Ok(())
}

/// Ten processes in a ring, a letter for each two that are neighbours, and one state.
static RING_OF_TEN: Rule = Rule {
    processes: 10,
    letters: &[
        (b"a", &[0, 1]),
        (b"b", &[1, 2]),
        (b"c", &[2, 3]),
        (b"d", &[3, 4]),
        (b"e", &[4, 5]),
        (b"f", &[5, 6]),
        (b"g", &[6, 7]),
        (b"h", &[7, 8]),
        (b"i", &[8, 9]),
        (b"j", &[9, 0]),
    ],
    accepting: &[true],
    targets: &[0; 10],
};

/// Process 0 begins with the first letter and ends with the last; each other one has its two in order.
static ROUND: [(usize, Letter); 20] = [
    (0, A),
    (0, Letter(9)),
    (1, A),
    (1, B),
    (2, B),
    (2, C),
    (3, C),
    (3, D),
    (4, D),
    (4, E),
    (5, E),
    (5, F),
    (6, F),
    (6, Letter(6)),
    (7, Letter(6)),
    (7, Letter(7)),
    (8, Letter(7)),
    (8, Letter(8)),
    (9, Letter(8)),
    (9, Letter(9)),
];

#[test]
fn a_ring_of_ten(rt: HostRuntime) -> Result<(), Fail> {
    let ended = run_on(&rt, rt.alloc(), &RING_OF_TEN, &ROUND, &OpenGate)?;
    assert_accepted(&rt, ended.ended(), &[0, 1, 2, 3, 4, 5, 6, 7, 8, 9]);
    drop(ended);
    Ok(())
}
