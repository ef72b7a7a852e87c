//! A run: a worker for each desk.
ghost use Rattle.std.specs.Prelude.{◌≡◌, ◌⊎◌, ℕ, ◌+◌, ◌≤◌, [], length, map, All, IfOk, true, vec_capacity};
ghost use Rattle.za_alpha.specs.Words.{has};
ghost use Rattle.za_script.specs.ScriptLists.{FitAlphabet};
ghost use Rattle.za_table.specs.Ends.{IsEnded, HasAnswer};
ghost use Rattle.za_hall.specs.Halls.{IsOf, AreDesks};
ghost use Rattle.za_table.specs.Tables.{machine_of};
ghost use Rattle.za_runner.specs.Private.Lists.{desk_numbers, AreOf, AreIn, promised};

use crate::gate::Gate;
use crate::steps::step_all;
use crate::worker::{OwnDesk, Worked, start};
use std::alloc::Global;
use std::sync::Wait;
use std::sync::atomic::AtomicU64;
use std::thread::{self, PromisedHandle, Scope, Threads};
use za_alpha::OutOfMemory;
use za_dfa::Closed;
use za_hall::{Desk, Hall, HallEnded};
use za_script::Scripts;
use za_table::Table;

type Handle = PromisedHandle<Worked, OwnDesk>;

/// Starts a worker for each desk. Desks whose workers were called off come to `mine`.
fn start_all<'s, E, R: Threads + Wait + Sync, G: Gate>(
    rt: &'s R,
    scope: &Scope<'s, E>,
    hall: &'s Hall,
    gate: &'s G,
    flags: &'s Vec<AtomicU64>,
    mut desks: Vec<Desk>,
    handles: &mut Vec<Handle>,
    mine: &mut Vec<Desk>,
)
    requires of { AreOf hall.now desks.items }
    requires flags { length desks.items ≤ length flags.now.items }
    requires empty { (handles.old.items ≡ []) × (mine.old.items ≡ []) }
    requires room { (length desks.items ≤ vec_capacity handles.old) × (length desks.items ≤ vec_capacity mine.old) }
    ensures of { AreOf hall.now mine.new.items × All (λ h. IsOf h.promise.0.value hall.now) handles.new.items }
    ensures all { AreIn (desk_numbers desks.items) (map promised handles.new.items) (desk_numbers mine.new.items) }
    ensures room { length handles.new.items + length mine.new.items ≤ vec_capacity mine.new }
{
    while let Some(desk) = desks.pop() {
        match start(rt, scope, hall, gate, &flags[desks.len()], desk) {
            Ok(handle) => handles.push_reserved(handle),
            Err(worked) => mine.push_reserved(worked.desk),
        }
    }
}

/// Joins the workers, whose desks come to `mine`.
fn join_all<R: Threads + Wait>(rt: &R, hall: &Hall, mut handles: Vec<Handle>, mine: &mut Vec<Desk>)
    requires of { AreOf hall.now mine.old.items × All (λ h. IsOf h.promise.0.value hall.now) handles.items }
    requires room { length handles.items + length mine.old.items ≤ vec_capacity mine.old }
    ensures of { AreOf hall.now mine.new.items }
    ensures all { (p : ℕ) →
        (has (map promised handles.items) p ≡ true) ⊎ (has (desk_numbers mine.old.items) p ≡ true) →
        has (desk_numbers mine.new.items) p ≡ true }
{
    while let Some(handle) = handles.pop() {
        let Worked {
            desk,
            called_off: _,
        } = handle.join(rt);
        mine.push_reserved(desk);
    }
}

/// Runs all desks with a worker each, and hands them back.
fn run_in<'s, E, R: Threads + Wait + Sync, G: Gate>(
    rt: &'s R,
    scope: &Scope<'s, E>,
    hall: &'s Hall,
    gate: &'s G,
    flags: &'s Vec<AtomicU64>,
    desks: Vec<Desk>,
    mut handles: Vec<Handle>,
    mut mine: Vec<Desk>,
) -> Vec<Desk>
    requires of { AreOf hall.now desks.items }
    requires flags { length desks.items ≤ length flags.now.items }
    requires empty { (handles.items ≡ []) × (mine.items ≡ []) }
    requires room { (length desks.items ≤ vec_capacity handles) × (length desks.items ≤ vec_capacity mine) }
    ensures of { AreOf hall.now result.items }
    ensures all { (p : ℕ) → has (desk_numbers desks.items) p ≡ true → has (desk_numbers result.items) p ≡ true }
{
    start_all(rt, scope, hall, gate, flags, desks, &mut handles, &mut mine);
    step_all(rt, hall, &mut mine);
    join_all(rt, hall, handles, &mut mine);
    mine
}

/// The same in a scope of its own. Each desk has then seen that all is over.
fn run_all<R: Threads + Wait + Sync, G: Gate>(
    rt: &R,
    hall: &Hall,
    gate: &G,
    flags: &Vec<AtomicU64>,
    desks: Vec<Desk>,
    handles: Vec<Handle>,
    mine: Vec<Desk>,
) -> Vec<Desk>
    requires of { AreOf hall.now desks.items }
    requires flags { length desks.items ≤ length flags.now.items }
    requires empty { (handles.items ≡ []) × (mine.items ≡ []) }
    requires room { (length desks.items ≤ vec_capacity handles) × (length desks.items ≤ vec_capacity mine) }
    ensures of { AreOf hall.now result.items }
    ensures all { (p : ℕ) → has (desk_numbers desks.items) p ≡ true → has (desk_numbers result.items) p ≡ true }
    ensures over { All (λ d. d.view.over ≡ true) result.items }
{
    let mut back = thread::scope(
        thread::scope_env(),
        rt,
        |scope| -> Vec<Desk>
            requires of { AreOf hall.now desks.items }
            requires flags { length desks.items ≤ length flags.now.items }
            requires empty { (handles.items ≡ []) × (mine.items ≡ []) }
            requires room { (length desks.items ≤ vec_capacity handles) × (length desks.items ≤ vec_capacity mine) }
            ensures of { AreOf hall.entry.now result.items }
            ensures all { (p : ℕ) → has (desk_numbers desks.items) p ≡ true → has (desk_numbers result.items) p ≡ true }
        { run_in(rt, scope, hall, gate, flags, desks, handles, mine) },
    );
    step_all(rt, hall, &mut back);
    back
}

/// A flag for each worker.
fn flags(alloc: Global, count: usize) -> Result<Vec<AtomicU64>, OutOfMemory>
    ensures { IfOk result (λ v. length v.items ≡ count) }
{
    let mut flags = Vec::with_capacity(alloc, count)?;
    for _ in 0..count {
        flags.push_reserved(AtomicU64::new(0));
    }
    Ok(flags)
}

/// What a run needs beside its hall: a flag for each worker, and room for their handles and for the
/// desks that come back.
#[derive(Drop)]
struct Rooms {
    flags: Vec<AtomicU64>,
    handles: Vec<Handle>,
    mine: Vec<Desk>,
}

/// All memory that a run needs beside its hall.
fn make_rooms(alloc: Global, count: usize) -> Result<Rooms, OutOfMemory>
    ensures flags { IfOk result (λ r. length r.flags.items ≡ count) }
    ensures empty { IfOk result (λ r. (r.handles.items ≡ []) × (r.mine.items ≡ [])) }
    ensures room { IfOk result (λ r. (count ≤ vec_capacity r.handles) × (count ≤ vec_capacity r.mine)) }
{
    let flags = flags(alloc, count)?;
    let handles = Vec::with_capacity(alloc, count)?;
    let mine = Vec::with_capacity(alloc, count)?;
    Ok(Rooms {
        flags,
        handles,
        mine,
    })
}

/// Runs all desks of a hall, and closes it.
fn run_hall<R: Threads + Wait + Sync, G: Gate>(
    rt: &R,
    hall: Hall,
    desks: Vec<Desk>,
    gate: &G,
    rooms: Rooms,
) -> HallEnded
    requires desks { AreDesks hall (machine_of hall.given).processes desks.items }
    requires flags { length desks.items ≤ length rooms.flags.items }
    requires empty { (rooms.handles.items ≡ []) × (rooms.mine.items ≡ []) }
    requires room { (length desks.items ≤ vec_capacity rooms.handles)
        × (length desks.items ≤ vec_capacity rooms.mine) }
    ensures given { result.given ≡ hall.given }
    ensures over { IsEnded result }
    ensures answer { HasAnswer result }
{
    let Rooms {
        flags,
        handles,
        mine,
    } = rooms;
    let back = run_all(rt, &hall, gate, &flags, desks, handles, mine);
    match hall.close(back) {
        Ok(ended) => ended,
        Err(_) => unreachable!(),
    }
}

/// Runs the scripts with a thread for each process, until all is over. Worker `p` is a thread that owns
/// the desk of process `p`: it passes `gate` before each of its steps, and steps until all is over. Where
/// a thread can't be started, its worker is called off, and the caller steps that desk itself; there is
/// no error for it. No clause speaks of threads or of the gate. The scripts fit the alphabet; up to `cache`
/// transitions are kept.
///
/// If it returns, the table of the closed hall is over. Want of memory is the one free answer; it comes
/// before any step, and then nothing was run.
pub fn run<R: Threads + Wait + Sync, G: Gate>(
    rt: &R,
    alloc: Global,
    closed: Closed,
    scripts: Scripts,
    cache: u8,
    gate: &G,
) -> Result<HallEnded, OutOfMemory>
    requires { FitAlphabet closed.alphabet scripts }
    ensures given { IfOk result (λ e. e.given ≡ record { dfa = closed; scripts = scripts }) }
    ensures over { IfOk result IsEnded }
    ensures answer { IfOk result HasAnswer }
{
    let count = closed.dfa().alphabet().processes();
    let table = Table::open(alloc, closed, scripts, cache)?;
    let rooms = make_rooms(alloc, count)?;
    let (hall, desks) = Hall::open(alloc, table)?;
    Ok(run_hall(rt, hall, desks, gate, rooms))
}
