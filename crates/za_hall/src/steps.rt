//! The two steps of a turn: to take the table, and to give it back.
ghost use Rattle.std.specs.Prelude.{◌≡◌, ◌⊎◌, ◌↔◌, [], ◌∷◌, true, false, cond, MatchResult, IsTrue, None};
ghost use Rattle.za_machine.specs.Machine.{IsOver};
ghost use Rattle.za_table.specs.Tables.{TableState};
ghost use Rattle.za_hall.specs.Views.{Note};
ghost use Rattle.za_hall.specs.Own.{machine, Own};
ghost use Rattle.za_hall.specs.Steps.{TookHand, Gave, Taken, tried, given_back};

use crate::hall::HallParts;
use crate::view::Known;
use atomic_table::{Play, Seat};
use za_table::Table;

pub(crate) struct Taking;

impl Play<Option<Table>, Known> for Taking {
    ghost then = { λ _. TookHand };
}

pub(crate) struct Giving;

impl Play<Option<Table>, Known> for Giving {
    ghost then = { λ _. Gave };
}

/// Takes the turn, with the table, or says what the word was.
pub(crate) fn take(hall: &HallParts, seat: &mut Seat<Option<Table>, Known>) -> Result<(), u64>
    requires hall { seat.old.table_id ≡ hall.now.board.shared.table_id }
    requires note { (n : Note) × (seat.old.me.0.notes ≡ n ∷ []) }
    requires free { (seat.old.me.0.holds ≡ false) × (seat.old.me.1 ≡ []) }
    ensures hall { seat.new.table_id ≡ seat.old.table_id }
    ensures found { MatchResult result
        (λ _. (t : TableState) × (seat.new.me ≡ (tried 0 t seat.old.me.0, (0, Some t) ∷ [])) × Taken t seat.old.me.0)
        (λ n. ((n ≡ 1) ⊎ (n ≡ 2)) × ((t : TableState) × (seat.new.me ≡ (tried n t seat.old.me.0, [])))) }
{
    let found = hall.board.shared.compare_exchange::<Taking>(seat, 0, 0, 1);
    if found == 0 { Ok(()) } else { Err(found) }
}

/// Gives the turn back, with the word 2 if the table is over.
pub(crate) fn give(hall: &HallParts, seat: &mut Seat<Option<Table>, Known>, over: bool)
    requires hall { seat.old.table_id ≡ hall.now.board.shared.table_id }
    requires holds { seat.old.me.0.holds ≡ true }
    requires own { (n : Note) × (t : TableState) × (seat.old.me.0.notes ≡ n ∷ [])
        × (seat.old.me.1 ≡ (0, Some t) ∷ []) × Own n.number seat.old.me.0.took t
        × (IsTrue over ↔ IsOver (machine t) t.state) }
    ensures hall { seat.new.table_id ≡ seat.old.table_id }
    ensures given { (t : TableState) → seat.old.me.1 ≡ (0, Some t) ∷ [] →
        seat.new.me ≡ (given_back (cond over 2 0) t seat.old.me.0, []) }
{
    let word = if over { 2 } else { 0 };
    hall.board.shared.store::<Giving>(seat, 0, word);
}
