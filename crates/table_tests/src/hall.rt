//! Desks of a hall: what each step answers, and how halls are closed and given up.

ghost use Rattle.std.specs.Prelude.{◌≡◌, ℕ, None, IfOk, All};
ghost use Rattle.za_hall.specs.Halls.{IsOf};
ghost use Rattle.za_machine.specs.Hands.{hand};

use crate::jobs::{assert_accepted, table_of};
use samples::{A, B, C, one_state};
use std::alloc::Global;
use std::process::Abort;
use std::sync::Wait;
use std::test::Fail;
use za_alpha::{Letter, Procs};
use za_hall::{CloseWhy, Desk, Hall, HallEnded, Turn};
use za_table::{Ended, Table};

/// A hall for these scripts, and its desks.
fn opened(alloc: Global, letters: &[(usize, Letter)]) -> Result<(Hall, Vec<Desk>), Fail>
    ensures { IfOk result (λ r. All (λ d. IsOf d r.0) r.1.items) }
{
    let closed = one_state(alloc)?;
    let table = table_of(alloc, closed, letters, 0)?;
    Ok(Hall::open(alloc, table)?)
}

/// The script `a` of process 0 and `b` of process 1.
static A_AND_B: [(usize, Letter); 2] = [(0, A), (1, B)];

/// A process, and what its desk answers.
type Taken = (usize, Turn);

/// Lets the desks try, each in its turn, and compares the answers.
fn try_all(rt: &impl Abort, hall: &Hall, desks: &mut Vec<Desk>, turns: &[Taken])
    requires { All (λ d. IsOf d hall.now) desks.old.items }
    ensures { All (λ d. IsOf d hall.now) desks.new.items }
{
    for (p, turn) in turns {
        assert!(rt; *p < desks.len());
        let answer = desks[*p].try_step(hall);
        assert_eq!(rt; answer, *turn);
    }
}

/// The same by steps that may wait.
fn step_all(rt: &(impl Abort + Wait), hall: &Hall, desks: &mut Vec<Desk>, turns: &[Taken])
    requires { All (λ d. IsOf d hall.now) desks.old.items }
    ensures { All (λ d. IsOf d hall.now) desks.new.items }
{
    for (p, turn) in turns {
        assert!(rt; *p < desks.len());
        let answer = desks[*p].step(rt, hall);
        assert_eq!(rt; answer, *turn);
    }
}

/// Closes the hall, which all desks have seen over.
fn closed(rt: &impl Abort, hall: Hall, desks: Vec<Desk>) -> HallEnded
    requires { All (λ d. IsOf d hall) desks.items }
{
    match hall.close(desks) {
        Ok(ended) => ended,
        Err(refused) => panic!(rt; "{:?}", refused.why),
    }
}

/// The run of a closed hall has accepted `b a`.
fn assert_closed(rt: &impl Abort, hall: Hall, desks: Vec<Desk>)
    requires { All (λ d. IsOf d hall) desks.items }
{
    let ended = closed(rt, hall, desks);
    assert_accepted(rt, ended.ended(), &[1, 0]);
    drop(ended);
}

/// Tries to close a hall that isn't to be closed, and hands it back.
fn refused(rt: &impl Abort, hall: Hall, desks: Vec<Desk>, why: CloseWhy) -> (Hall, Vec<Desk>)
    requires { All (λ d. IsOf d hall) desks.items }
    ensures { All (λ d. IsOf d result.0) result.1.items }
{
    match hall.close(desks) {
        Ok(_) => panic!(rt; "it was closed"),
        Err(refused) => {
            assert_eq!(rt; refused.why, why);
            (refused.hall, refused.desks)
        }
    }
}

/// Opens a hall for the scripts and lets its desks try.
fn try_on(
    rt: &impl Abort,
    alloc: Global,
    letters: &[(usize, Letter)],
    turns: &[Taken],
) -> Result<(), Fail> {
    let (hall, mut desks) = opened(alloc, letters)?;
    try_all(rt, &hall, &mut desks, turns);
    drop(desks);
    drop(hall);
    Ok(())
}

fn assert_seen_over(rt: &impl Abort, desks: &[Desk]) {
    assert!(rt; desks.iter().all(|desk| desk.seen_over()));
}

/// Process 1 has ended, and process 0 has fired.
static FIRST: [Taken; 3] = [
    (1, Turn::Fired { at: 0 }),
    (1, Turn::Ended),
    (0, Turn::Fired { at: 1 }),
];

/// Both see that all is over, again and again.
static REST: [Taken; 5] = [
    (0, Turn::Ended),
    (0, Turn::Over),
    (1, Turn::Over),
    (0, Turn::Over),
    (1, Turn::Over),
];

#[test]
fn two_desks_take_turns_and_the_hall_is_closed(rt: HostRuntime) -> Result<(), Fail> {
    let (hall, mut desks) = opened(rt.alloc(), &A_AND_B)?;
    try_all(&rt, &hall, &mut desks, &FIRST);
    let (hall, mut desks) = refused(&rt, hall, desks, CloseWhy::NotOver { process: 0 });
    try_all(&rt, &hall, &mut desks, &REST);
    assert_seen_over(&rt, &desks);
    assert_closed(&rt, hall, desks);
    Ok(())
}

/// Each process fires and ends, and then sees that all is over: first process 1, which ended first.
static STEPS: [Taken; 6] = [
    (1, Turn::Fired { at: 0 }),
    (1, Turn::Ended),
    (0, Turn::Fired { at: 1 }),
    (0, Turn::Ended),
    (1, Turn::Over),
    (0, Turn::Over),
];

#[test]
fn steps_of_two_desks_on_one_thread(rt: HostRuntime) -> Result<(), Fail> {
    let (hall, mut desks) = opened(rt.alloc(), &A_AND_B)?;
    step_all(&rt, &hall, &mut desks, &STEPS);
    drop(desks);
    drop(hall);
    Ok(())
}

/// What a desk answers that waits for process 1 at `c`.
const WAITING: Turn = Turn::Waiting {
    letter: C,
    missing: Procs(0b10),
    by: None,
};

/// The scripts `a c a` and `b c`.
static ACA_BC: [(usize, Letter); 5] = [(0, A), (0, C), (0, A), (1, B), (1, C)];

static BOTH: [Taken; 12] = [
    (0, Turn::Fired { at: 0 }),
    (0, WAITING),
    (0, WAITING),
    (1, Turn::Fired { at: 1 }),
    (1, Turn::Fired { at: 2 }),
    (1, Turn::Ended),
    (0, Turn::Fired { at: 2 }),
    (1, Turn::Ended),
    (0, Turn::Fired { at: 3 }),
    (0, Turn::Ended),
    (0, Turn::Over),
    (1, Turn::Over),
];

#[test]
fn a_letter_of_both_is_waited_for(rt: HostRuntime) -> Result<(), Fail> {
    try_on(&rt, rt.alloc(), &ACA_BC, &BOTH)
}

/// The scripts `c` and `b`.
static C_AND_B: [(usize, Letter); 2] = [(0, C), (1, B)];

/// Process 0 comes to `c` before process 1 has ended.
static EARLY: [Taken; 5] = [
    (0, WAITING),
    (1, Turn::Fired { at: 0 }),
    (1, Turn::Ended),
    (1, Turn::Over),
    (0, Turn::Over),
];

/// It comes to `c` once process 1 has ended.
static LATE: [Taken; 4] = [
    (1, Turn::Fired { at: 0 }),
    (1, Turn::Ended),
    (0, Turn::Over),
    (1, Turn::Over),
];

#[test]
fn a_letter_that_is_never_complete(rt: HostRuntime) -> Result<(), Fail> {
    try_on(&rt, rt.alloc(), &C_AND_B, &EARLY)?;
    try_on(&rt, rt.alloc(), &C_AND_B, &LATE)
}

/// Each process fires and ends, and then sees that all is over: first process 0.
static TURNS: [Taken; 6] = [
    (1, Turn::Fired { at: 0 }),
    (1, Turn::Ended),
    (0, Turn::Fired { at: 1 }),
    (0, Turn::Ended),
    (0, Turn::Over),
    (1, Turn::Over),
];

#[test]
fn desks_are_handed_in_in_any_order(rt: HostRuntime) -> Result<(), Fail> {
    let (hall, mut desks) = opened(rt.alloc(), &A_AND_B)?;
    try_all(&rt, &hall, &mut desks, &TURNS);
    assert!(rt; desks.len() == 2);
    desks.swap(0, 1);
    assert_closed(&rt, hall, desks);
    Ok(())
}

fn remove_first(rt: &impl Abort, hall: &Hall, desks: &mut Vec<Desk>)
    requires { All (λ d. IsOf d hall.now) desks.old.items }
    ensures { All (λ d. IsOf d hall.now) desks.new.items }
{
    assert!(rt; !desks.is_empty());
    drop(desks.swap_remove(0));
}

#[test]
fn a_hall_is_not_closed_without_a_desk(rt: HostRuntime) -> Result<(), Fail> {
    let (hall, mut desks) = opened(rt.alloc(), &A_AND_B)?;
    remove_first(&rt, &hall, &mut desks);
    let (hall, desks) = refused(&rt, hall, desks, CloseWhy::Missing { process: 0 });
    drop(desks);
    drop(hall);
    Ok(())
}

/// The table of a hall that is given up.
fn given_up(rt: &impl Abort, hall: Hall, desks: Vec<Desk>) -> Table
    requires { All (λ d. IsOf d hall) desks.items }
    ensures { (a : ℕ) → hand result.hands a ≡ None }
{
    match hall.abandon(desks) {
        Ok(table) => table,
        Err(_) => panic!(rt; "a desk is missing"),
    }
}

/// Process 1 has fired once.
fn assert_fired(rt: &impl Abort, table: &Table) {
    assert!(rt; 1 < table.closed().dfa().alphabet().processes());
    assert_eq!(rt; table.count(1), 1);
}

/// What a run comes to that goes on without the desks.
fn finished(mut table: Table) -> Ended
    requires { (a : ℕ) → hand table.hands a ≡ None }
{
    table.finish();
    table.into_ended()
}

#[test]
fn a_hall_is_given_up_midway(rt: HostRuntime) -> Result<(), Fail> {
    let (hall, mut desks) = opened(rt.alloc(), &A_AND_B)?;
    try_all(&rt, &hall, &mut desks, &[(1, Turn::Fired { at: 0 })]);
    let table = given_up(&rt, hall, desks);
    assert_fired(&rt, &table);
    let ended = finished(table);
    assert_accepted(&rt, &ended, &[1, 0]);
    drop(ended);
    Ok(())
}

#[test]
fn a_hall_is_not_given_up_without_a_desk(rt: HostRuntime) -> Result<(), Fail> {
    let (hall, mut desks) = opened(rt.alloc(), &A_AND_B)?;
    drop(desks.pop());
    match hall.abandon(desks) {
        Ok(_) => panic!(rt; "it was given up"),
        Err(refused) => {
            assert_eq!(rt; refused.why, CloseWhy::Missing { process: 1 });
            drop(refused);
        }
    }
    Ok(())
}
