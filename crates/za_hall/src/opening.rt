//! Opening a hall.
ghost use Rattle.std.specs.Prelude.{◌≡◌, ◌∷◌, ◌<◌, List, IfOk, false, length};
ghost use Rattle.za_machine.specs.Machine.{initial};
ghost use Rattle.za_local.specs.Locals.{HasShape};
ghost use Rattle.za_table.specs.Tables.{IsTable};
ghost use Rattle.za_hall.specs.Views.{Note};
ghost use Rattle.za_hall.specs.Own.{machine};
ghost use Rattle.za_hall.specs.Steps.{blank_note, blank_notes, first_view, left_of};
ghost use Rattle.za_hall.specs.Halls.{IsNewDesk, AreDesks};
ghost use Rattle.za_hall.specs.Private.Serving.{FitsDfa};
ghost use Rattle.za_hall.specs.Private.Inside.{hall_of};

use crate::bell::Bell;
use crate::desk::{Desk, DeskParts};
use crate::hall::{Hall, HallParts, HallRule, Opening};
use crate::view::Known;
use atomic_table::{Seat, Table as Board};
use crossbeam_utils::CachePadded;
use std::alloc::Global;
use std::snapshot::Snapshot;
use za_alpha::OutOfMemory;
use za_local::{Bench, Local, opening};
use za_table::Table;

/// A desk for the process, whose number is the first of the seat's.
fn cut(
    hall: &HallParts,
    rest: &mut Seat<Option<Table>, Known>,
    process: usize,
    bench: Bench,
    made: Local,
) -> Desk
    requires inside { process < hall.now.processes }
    requires hall { rest.old.table_id ≡ hall.now.board.shared.table_id }
    requires job { rest.old.me.0.given ≡ (hall_of hall.now).given }
    requires next { (ns : List Note) × (rest.old.me.0.notes ≡ blank_note process ∷ ns) }
    requires free { (rest.old.me.0.holds ≡ false) × (rest.old.me.0.over ≡ false) }
    requires bench { FitsDfa hall.now.closed bench }
    requires made { HasShape hall.now.closed.alphabet.processes hall.now.closed.states made }
    ensures desk { IsNewDesk (hall_of hall.now) process result }
    ensures rest { (rest.new.table_id ≡ rest.old.table_id) × (rest.new.me.0 ≡ left_of rest.old.me.0) }
{
    let seat = hall.board.shared.split_seat::<Opening>(rest);
    Desk {
        parts: DeskParts {
            process,
            told: 0,
            letter: None,
            over: false,
            ended: false,
            bench,
            made,
            seat,
        },
    }
}

/// A desk for each process, in order.
fn cut_all(
    alloc: Global,
    hall: &HallParts,
    rest: &mut Seat<Option<Table>, Known>,
) -> Result<Vec<Desk>, OutOfMemory>
    requires hall { rest.old.table_id ≡ hall.now.board.shared.table_id }
    requires job { rest.old.me.0.given ≡ (hall_of hall.now).given }
    requires new { rest.old.me.0.notes ≡ blank_notes 0 (hall_of hall.now).given.dfa.alphabet.processes }
    requires free { (rest.old.me.0.holds ≡ false) × (rest.old.me.0.over ≡ false) }
    ensures { IfOk result
        (λ desks. AreDesks (hall_of hall.now) (hall_of hall.now).given.dfa.alphabet.processes desks.items) }
{
    let mut desks = Vec::with_capacity(alloc, hall.processes)?;
    for process in 0..hall.processes {
        let bench = Bench::new(alloc, &hall.closed)?;
        let made = opening(alloc, &hall.closed)?;
        desks.push_reserved(cut(hall, rest, process, bench, made));
    }
    Ok(desks)
}

/// A bell for each process.
fn bells(alloc: Global, count: usize) -> Result<Vec<CachePadded<Bell>>, OutOfMemory>
    ensures { IfOk result (λ bells. length bells.items ≡ count) }
{
    let mut bells = Vec::with_capacity(alloc, count)?;
    for _ in 0..count {
        bells.push_reserved(CachePadded::new(Bell::new()));
    }
    Ok(bells)
}

/// The board on which the table lies, and a seat for all processes.
fn board_of(
    alloc: Global,
    table: Table,
) -> Result<
    (
        Board<Option<Table>, Known, Snapshot<Table>, HallRule, Global>,
        Seat<Option<Table>, Known>,
    ),
    OutOfMemory,
>
    requires new { table.state ≡ initial (machine table) }
    requires table { IsTable table }
    ensures sized { IfOk result (λ r. (r.0.shared.table_id.words ≡ 1) × (r.0.shared.table_id.slots ≡ 1)) }
    ensures key { IfOk result (λ r. r.0.shared.key.value ≡ table) }
    ensures board { IfOk result (λ r. r.1.table_id ≡ r.0.shared.table_id) }
    ensures seat { IfOk result (λ r. r.1.me.0 ≡ first_view table) }
{
    let key = Snapshot::of(&table);
    let mut slots = Vec::with_capacity(alloc, 1)?;
    slots.push_reserved(Some(table));
    match Board::new(alloc, &[0], slots, &key) {
        Ok(made) => Ok(made),
        Err(_) => Err(OutOfMemory),
    }
}

/// The hall, and a seat for all processes.
fn seated(
    alloc: Global,
    table: Table,
) -> Result<(HallParts, Seat<Option<Table>, Known>), OutOfMemory>
    requires new { table.state ≡ initial (machine table) }
    ensures job { IfOk result (λ r. (hall_of r.0).given ≡ table.given) }
    ensures hall { IfOk result (λ r. r.1.table_id ≡ r.0.board.shared.table_id) }
    ensures seat { IfOk result (λ r. (r.1.me.0.given ≡ (hall_of r.0).given)
        × (r.1.me.0.notes ≡ blank_notes 0 (hall_of r.0).given.dfa.alphabet.processes)
        × (r.1.me.0.holds ≡ false) × (r.1.me.0.over ≡ false)) }
{
    let processes = table.closed().dfa().alphabet().processes();
    let closed = table.closed().copy()?;
    let bells = bells(alloc, processes)?;
    let (board, seat) = board_of(alloc, table)?;
    let hall = HallParts {
        board,
        processes,
        closed,
        bells,
    };
    Ok((hall, seat))
}

impl Hall {
    /// Opens a hall for a table at its start, at which nobody has arrived or ended and nothing has
    /// fired, with a desk for each process, in order. All memory is taken here: later no call of the
    /// hall or its desks asks for any. Want of memory is the one free answer.
    pub fn open(alloc: Global, table: Table) -> Result<(Hall, Vec<Desk>), OutOfMemory>
        requires { table.state ≡ initial (machine table) }
        ensures job { IfOk result (λ r. r.0.given ≡ table.given) }
        ensures desks { IfOk result (λ r. AreDesks r.0 (machine table).processes r.1.items) }
    {
        let (parts, mut seat) = seated(alloc, table)?;
        let desks = cut_all(alloc, &parts, &mut seat)?;
        Ok((Hall { parts }, desks))
    }
}
