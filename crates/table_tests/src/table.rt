//! A table: arrivals, ends and letters step by step, letters in hand, and runs by one thread.

ghost use Rattle.std.specs.Prelude.{◌≡◌, ◌<◌, IfOk, Some, length};
ghost use Rattle.za_machine.specs.Hands.{hand};
ghost use Rattle.za_shared.specs.Records.{IsTransition};

use crate::jobs::{assert_accepted, table_of};
use samples::{A, B, C, ONE_PROCESS, alphabet_of, closed_of, dfa_of, scripts_of, to_and_fro};
use std::alloc::Global;
use std::process::Abort;
use std::test::Fail;
use za_alpha::{Letter, Procs};
use za_local::{Bench, Local, opening, transit};
use za_script::Answer;
use za_table::{Arrival, Ended, Table, solo};

/// A step at a table, or something that is seen there.
enum Step {
    /// A process arrives, with this answer.
    Arrive(usize, Arrival),
    /// A process ends.
    End(usize),
    /// A letter is fired, and stands at this place.
    Fire(Letter, usize),
    /// So many records are live.
    Live(usize),
}

fn assert_process(rt: &impl Abort, table: &Table, p: usize)
    ensures { p < table.now.given.dfa.alphabet.processes }
{
    assert!(rt; p < table.closed().dfa().alphabet().processes());
}

fn assert_letter(rt: &impl Abort, table: &Table, a: Letter)
    ensures { a.0 < length table.now.given.dfa.alphabet.letters }
{
    assert!(rt; (a.0 as usize) < table.closed().dfa().alphabet().letters());
}

fn arrive(rt: &impl Abort, table: &mut Table, p: usize, answer: Arrival) {
    assert_process(rt, table, p);
    assert!(rt; table.next(p).is_some());
    assert!(rt; !table.arrived(p));
    assert_eq!(rt; table.arrive(p), answer);
}

fn end(rt: &impl Abort, table: &mut Table, p: usize) {
    assert_process(rt, table, p);
    assert!(rt; table.next(p).is_none());
    assert!(rt; !table.ended(p));
    table.end(p);
}

fn fire(rt: &impl Abort, table: &mut Table, a: Letter, at: usize) {
    assert_letter(rt, table, a);
    assert!(rt; table.complete(a));
    assert!(rt; table.in_hand(a).is_none());
    assert_eq!(rt; table.fire(a), at);
}

fn take_step(rt: &impl Abort, table: &mut Table, step: &Step) {
    match step {
        Step::Arrive(p, answer) => arrive(rt, table, *p, *answer),
        Step::End(p) => end(rt, table, *p),
        Step::Fire(a, at) => fire(rt, table, *a, *at),
        Step::Live(count) => assert_eq!(rt; table.live(), *count),
    }
}

fn take_steps(rt: &impl Abort, table: &mut Table, steps: &[Step]) {
    for step in steps {
        take_step(rt, table, step);
    }
}

/// What a table that is over comes to.
fn ended(rt: &impl Abort, table: Table) -> Ended {
    assert!(rt; table.over());
    table.into_ended()
}

/// The scripts `c a` and `b`.
static CA_B: [(usize, Letter); 3] = [(0, C), (0, A), (1, B)];

/// Process 0 arrives at `c`, for which process 1 is missing.
const SHORT: Step = Step::Arrive(
    0,
    Arrival::Short {
        letter: C,
        missing: Procs(0b10),
    },
);

static UNTIL_B: [Step; 3] = [
    SHORT,
    Step::Arrive(1, Arrival::Complete(B)),
    Step::Fire(B, 0),
];

#[test]
fn two_processes_stuck_after_b(rt: HostRuntime) -> Result<(), Fail> {
    let closed = to_and_fro(rt.alloc())?;
    let mut table = table_of(rt.alloc(), closed, &CA_B, 0)?;
    take_steps(&rt, &mut table, &UNTIL_B);
    assert!(rt; !table.over());
    end(&rt, &mut table, 1);
    let ended = ended(&rt, table);
    assert_eq!(rt; ended.answer(), Answer::Stuck);
    drop(ended);
    Ok(())
}

/// A table for the scripts `a c a` and `b c`, at the start.
fn opened(alloc: Global) -> Result<Table, Fail> {
    table_of(alloc, to_and_fro(alloc)?, &ACA_BC, 0)
}

/// The scripts `a c a` and `b c`.
static ACA_BC: [(usize, Letter); 5] = [(0, A), (0, C), (0, A), (1, B), (1, C)];

static ABCA: [Step; 14] = [
    Step::Live(1),
    Step::Arrive(0, Arrival::Complete(A)),
    Step::Fire(A, 0),
    Step::Live(2),
    Step::Arrive(1, Arrival::Complete(B)),
    Step::Fire(B, 1),
    Step::Live(2),
    SHORT,
    Step::Arrive(1, Arrival::Complete(C)),
    Step::Fire(C, 2),
    Step::Live(1),
    Step::Arrive(0, Arrival::Complete(A)),
    Step::Fire(A, 3),
    Step::Live(2),
];

/// How often a process has fired, and where its latest event stands.
fn assert_fired(rt: &impl Abort, table: &Table, p: usize, count: usize, at: Option<usize>) {
    assert_process(rt, table, p);
    assert_eq!(rt; table.fired_at(p), at);
    assert_eq!(rt; table.count(p), count);
}

#[test]
fn live_records(rt: HostRuntime) -> Result<(), Fail> {
    let mut table = opened(rt.alloc())?;
    assert_eq!(rt; table.bound(), 3);
    take_steps(&rt, &mut table, &ABCA);
    assert_fired(&rt, &table, 1, 2, Some(2));
    drop(table);
    Ok(())
}

/// A table of one process and one state, for the script `a a a a`, with one line of a cache.
fn four(alloc: Global) -> Result<Table, Fail> {
    let alphabet = alphabet_of(alloc, 1, &ONE_PROCESS)?;
    let dfa = dfa_of(alloc, alphabet, 0, &[true], &[0])?;
    table_of(alloc, closed_of(dfa)?, &AAAA, 1)
}

static AAAA: [(usize, Letter); 4] = [(0, A), (0, A), (0, A), (0, A)];

static FOUR: [Step; 14] = [
    Step::Live(1),
    Step::Arrive(0, Arrival::Complete(A)),
    Step::Fire(A, 0),
    Step::Live(2),
    Step::Arrive(0, Arrival::Complete(A)),
    Step::Fire(A, 1),
    Step::Live(2),
    Step::Arrive(0, Arrival::Complete(A)),
    Step::Fire(A, 2),
    Step::Live(2),
    Step::Arrive(0, Arrival::Complete(A)),
    Step::Fire(A, 3),
    Step::Live(2),
    Step::End(0),
];

fn assert_labels(rt: &impl Abort, ended: &Ended, labels: &[u16]) {
    assert_eq!(rt; ended.word().len(), labels.len());
    for (at, label) in labels.iter().enumerate() {
        assert!(rt; at < ended.word().len());
        assert_eq!(rt; ended.label(at), *label);
    }
}

#[test]
fn labels_come_round(rt: HostRuntime) -> Result<(), Fail> {
    let mut table = four(rt.alloc())?;
    assert_eq!(rt; table.bound(), 4);
    take_steps(&rt, &mut table, &FOUR);
    let ended = ended(&rt, table);
    assert_labels(&rt, &ended, &[0, 1, 0, 1]);
    drop(ended);
    Ok(())
}

/// Puts a letter, which is complete, into the hand of process 0, and computes its transition.
fn take(
    rt: &impl Abort,
    alloc: Global,
    table: &mut Table,
    a: Letter,
) -> Result<(Bench, Local), Fail>
    ensures given { table.new.given ≡ table.old.given }
    ensures held { IfOk result (λ _. hand table.new.hands a.0 ≡ Some 0) }
    ensures processes { IfOk result (λ r. r.0.processes ≡ table.new.given.dfa.alphabet.processes) }
    ensures states { IfOk result (λ r. r.0.states ≡ table.new.given.dfa.states) }
    ensures letter { IfOk result (λ _. a.0 < length table.new.given.dfa.alphabet.letters) }
    ensures made { IfOk result (λ r. IsTransition table.new.given.dfa a.0 r.0.locals r.1) }
{
    let mut bench = Bench::new(alloc, table.closed())?;
    let mut made = opening(alloc, table.closed())?;
    assert!(rt; (a.0 as usize) < table.closed().dfa().alphabet().letters());
    assert!(rt; table.closed().dfa().alphabet().loc(a).has(0));
    assert!(rt; table.complete(a));
    assert!(rt; table.in_hand(a).is_none());
    table.take_up(a, 0, &mut bench);
    transit(table.closed(), a, &bench, &mut made);
    Ok((bench, made))
}

/// A letter is in hand of process 0, and the table isn't over.
fn assert_taken(rt: &impl Abort, table: &Table, a: Letter)
    requires { a.0 < length table.now.given.dfa.alphabet.letters }
{
    assert_eq!(rt; table.in_hand(a), Some(0));
    assert!(rt; table.missing(a).is_empty());
    assert!(rt; !table.over());
}

fn assert_in_no_hand(rt: &impl Abort, table: &Table, a: Letter) {
    assert_letter(rt, table, a);
    assert_eq!(rt; table.in_hand(a), None);
}

fn assert_local(rt: &impl Abort, table: &Table, p: usize, made: &Local) {
    assert_process(rt, table, p);
    assert!(rt; *table.local(p) == *made);
}

static AT_A: [Step; 1] = [Step::Arrive(0, Arrival::Complete(A))];

/// Process 0, which has arrived at `a`, takes it up and settles it by what it has made.
fn settle_made(rt: &impl Abort, alloc: Global, table: &mut Table) -> Result<(), Fail> {
    let (bench, made) = take(rt, alloc, table, A)?;
    assert_eq!(rt; bench.len(), 1);
    assert_taken(rt, table, A);
    assert_eq!(rt; table.settle(A, 0, &bench, &made), 0);
    assert_in_no_hand(rt, table, A);
    assert_local(rt, table, 0, &made);
    drop(bench);
    drop(made);
    Ok(())
}

#[test]
fn settled_by_what_was_made(rt: HostRuntime) -> Result<(), Fail> {
    let mut table = opened(rt.alloc())?;
    take_steps(&rt, &mut table, &AT_A);
    let tried = settle_made(&rt, rt.alloc(), &mut table);
    drop(table);
    tried
}

/// Settles a letter by a bench that was cleared: the transition is computed again.
fn settle_anew(table: &mut Table, a: Letter, bench: &mut Bench, made: &Local) -> usize
    requires held { hand table.old.hands a.0 ≡ Some 0 }
    requires processes { bench.old.processes ≡ table.old.given.dfa.alphabet.processes }
    requires states { bench.old.states ≡ table.old.given.dfa.states }
{
    bench.clear();
    table.settle(a, 0, bench, made)
}

/// Both processes arrive at `c`, once `a` and `b` have fired.
static AT_C: [Step; 6] = [
    Step::Arrive(0, Arrival::Complete(A)),
    Step::Fire(A, 0),
    Step::Arrive(1, Arrival::Complete(B)),
    Step::Fire(B, 1),
    SHORT,
    Step::Arrive(1, Arrival::Complete(C)),
];

/// Both processes have the local state that was made, and nobody has `c` in hand.
fn assert_made_for_both(rt: &impl Abort, table: &Table, made: &Local) {
    assert_in_no_hand(rt, table, C);
    assert_local(rt, table, 0, made);
    assert_local(rt, table, 1, made);
    assert_eq!(rt; table.live(), 1);
}

/// Takes up `c`, at which both have arrived, and settles it by a bench that was cleared.
fn settle_cleared(rt: &impl Abort, alloc: Global, table: &mut Table) -> Result<(), Fail> {
    let (mut bench, made) = take(rt, alloc, table, C)?;
    assert_eq!(rt; settle_anew(table, C, &mut bench, &made), 2);
    assert_eq!(rt; bench.len(), 0);
    assert_made_for_both(rt, table, &made);
    drop(bench);
    drop(made);
    Ok(())
}

#[test]
fn settled_though_the_bench_was_cleared(rt: HostRuntime) -> Result<(), Fail> {
    let mut table = opened(rt.alloc())?;
    take_steps(&rt, &mut table, &AT_C);
    let tried = settle_cleared(&rt, rt.alloc(), &mut table);
    drop(table);
    tried
}

/// Puts a letter back that process 0 has in hand: nobody then has it, and it is complete.
fn put_back(rt: &impl Abort, table: &mut Table, a: Letter)
    requires { hand table.old.hands a.0 ≡ Some 0 }
{
    table.put_back(a);
    assert_in_no_hand(rt, table, a);
    assert_letter(rt, table, a);
    assert!(rt; table.complete(a));
}

/// Takes up `c`, at which both have arrived, puts it back, and fires it.
fn fire_after_all(rt: &impl Abort, alloc: Global, table: &mut Table) -> Result<(), Fail> {
    let (bench, made) = take(rt, alloc, table, C)?;
    put_back(rt, table, C);
    fire(rt, table, C, 2);
    assert_made_for_both(rt, table, &made);
    drop(bench);
    drop(made);
    Ok(())
}

#[test]
fn put_back_and_fired_after_all(rt: HostRuntime) -> Result<(), Fail> {
    let mut table = opened(rt.alloc())?;
    take_steps(&rt, &mut table, &AT_C);
    let tried = fire_after_all(&rt, rt.alloc(), &mut table);
    drop(table);
    tried
}

/// The run of the scripts `a c a` and `b c` by one thread.
fn alone(rt: &impl Abort, alloc: Global) -> Result<Ended, Fail>
    ensures { IfOk result (λ e. e.given.dfa.alphabet.processes ≡ 2) }
{
    let closed = to_and_fro(alloc)?;
    assert!(rt; closed.dfa().alphabet().processes() == 2);
    let scripts = scripts_of(alloc, closed.dfa().alphabet(), &ACA_BC)?;
    Ok(solo(alloc, closed, scripts, 0)?)
}

#[test]
fn accepted_by_solo(rt: HostRuntime) -> Result<(), Fail> {
    let ended = alone(&rt, rt.alloc())?;
    assert_accepted(&rt, &ended, &[0, 1, 2, 0]);
    assert_eq!(rt; ended.count(0), 3);
    assert!(rt; ended.local(0) != ended.local(1));
    drop(ended);
    Ok(())
}
