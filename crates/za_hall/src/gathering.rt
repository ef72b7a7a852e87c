//! The table of a hall, once the desks of all processes are handed in.
ghost use Rattle.std.specs.Prelude.{◌≡◌, ◌≢◌, ◌<◌, ℕ, [], ◌∷◌, map, length, All, Any, true, false, None};
ghost use Rattle.za_hall.specs.Private.Serving.{note_number};
ghost use Rattle.za_machine.specs.Machine.{IsOver, IsMachineState};
ghost use Rattle.za_machine.specs.Hands.{hand};
ghost use Rattle.za_hall.specs.Own.{machine};
ghost use Rattle.za_hall.specs.Rule.{IsCovered, NoteOk};
ghost use Rattle.za_hall.specs.Answers.{note_of};
ghost use Rattle.za_hall.specs.Halls.{IsOf, HasDesks};
ghost use Rattle.za_hall.specs.Private.Inside.{hall_of};

use crate::desk::{Desk, DeskParts};
use crate::hall::{Closing, HallParts};
use crate::view::Known;
use atomic_table::Seat;
use za_alpha::Letter;
use za_table::Table;

/// The seat of a desk.
fn seat_of(desk: Desk) -> Seat<Option<Table>, Known>
    ensures name { result.table_id ≡ desk.name }
    ensures view { result.me.0 ≡ desk.view }
    ensures free { (result.me.0.holds ≡ false) × (result.me.1 ≡ []) }
    ensures number { map note_number result.me.0.notes ≡ desk.number ∷ [] }
{
    let Desk { parts } = desk;
    let DeskParts {
        process: _,
        told: _,
        letter: _,
        over: _,
        ended: _,
        bench: _,
        made: _,
        seat,
    } = parts;
    seat
}

/// The table as it stands, once the desks of all processes are handed in.
pub(crate) fn gather(hall: HallParts, mut desks: Vec<Desk>) -> Table
    requires some { 0 < length desks.items }
    requires of { All (λ d. IsOf d (hall_of hall)) desks.items }
    requires all { HasDesks (hall_of hall).given.dfa.alphabet.processes desks.items }
    ensures job { result.given ≡ (hall_of hall).given }
    ensures reached { IsMachineState (machine result) result.state }
    ensures covered { IsCovered result }
    ensures numbers { All (λ d. (note_of d.view).number ≡ d.number) desks.items }
    ensures notes { All (λ d. NoteOk result (note_of d.view)) desks.items }
    ensures over { Any (λ d. d.view.over ≡ true) desks.items → IsOver (machine result) result.state }
{
    let Some(first) = desks.pop() else {
        unreachable!()
    };
    let HallParts {
        board,
        processes: _,
        closed: _,
        bells: _,
    } = hall;
    let mut seat = seat_of(first);
    while let Some(desk) = desks.pop() {
        board.shared.join_seat::<Closing>(&mut seat, seat_of(desk));
    }
    let mut closed = board.close_with(seat);
    let slot = closed.take(0);
    closed.free();
    slot.unwrap()
}

/// Takes the letter out of the hand that it is in, if it is in one.
fn free_letter(table: &mut Table, a: Letter)
    requires letter { a.0 < (machine table.old).letters }
    ensures rest { (table.new.given ≡ table.old.given) × (table.new.state ≡ table.old.state) }
    ensures size { length table.new.hands ≡ length table.old.hands }
    ensures free { hand table.new.hands a.0 ≡ None }
    ensures others { (b : ℕ) → b ≢ a.0 → hand table.new.hands b ≡ hand table.old.hands b }
{
    if table.in_hand(a).is_some() {
        table.put_back(a);
    }
}

/// Takes all letters out of the hands that they are in.
pub(crate) fn free_letters(table: &mut Table)
    ensures rest { (table.new.given ≡ table.old.given) × (table.new.state ≡ table.old.state) }
    ensures free { (a : ℕ) → hand table.new.hands a ≡ None }
{
    let letters = table.closed().dfa().alphabet().letters() as u8;
    for a in 0..letters {
        free_letter(table, Letter(a));
    }
}
