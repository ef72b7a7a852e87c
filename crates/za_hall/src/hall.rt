//! The hall, which has the table while no desk holds the turn.
ghost use Rattle.std.specs.Prelude.{◌≡◌, ◌<◌, ℕ, length, Some};
ghost use Rattle.za_hall.specs.Private.Serving.{letter_number};

use crate::bell::Bell;
use crate::view::Known;
use atomic_table::{Join, Split, Table as Board, TableRule};
use crossbeam_utils::CachePadded;
use std::alloc::Global;
use std::marker::Model;
use std::snapshot::Snapshot;
use za_alpha::{Letter, Procs};
use za_dfa::Closed;
use za_table::Table;

pub(crate) struct HallRule;

impl TableRule<Option<Table>, Known, Snapshot<Table>> for HallRule {
    ghost use Rattle.za_hall.specs.Rule.{Kept};
    ghost use Rattle.za_hall.specs.Steps.{first_view};

    ghost holds = { λ key. Kept key.value.given };

    ghost first = { λ key. first_view key.value };
}

pub(crate) struct Opening;

impl Split<Known> for Opening {
    ghost use Rattle.za_hall.specs.Steps.{left_of, right_of};

    ghost left = { left_of };

    ghost right = { right_of };
}

pub(crate) struct Closing;

impl Join<Known> for Closing {
    ghost use Rattle.za_hall.specs.Steps.{both_of, spent_view};

    ghost both = { both_of };

    ghost spent = { spent_view };
}

/// One word, which is 0 where the turn is free, 1 where a desk holds it and 2 where all is over, and
/// one slot for the table.
#[derive(Drop)]
pub(crate) struct HallParts {
    pub(crate) board: Board<Option<Table>, Known, Snapshot<Table>, HallRule, Global>,
    pub(crate) processes: usize,
    // The table's automaton, for transitions that are computed while others have the table.
    pub(crate) closed: Closed,
    // One for each process, for its desk to wait on.
    pub(crate) bells: Vec<CachePadded<Bell>>,
    ghost sized: { (board.shared.table_id.words ≡ 1) × (board.shared.table_id.slots ≡ 1) },
    ghost of_job: { (processes ≡ board.shared.key.value.given.dfa.alphabet.processes) × (0 < processes)
        × (closed ≡ board.shared.key.value.given.dfa) },
    ghost belled: { length bells.items ≡ processes },
}

impl HallParts {
    /// Rings for these processes, but not for the one that rings.
    fn ring_those(&self, who: Procs, by: usize) {
        for p in 0..self.processes {
            if p != by && who.has(p) {
                self.bells[p].ring();
            }
        }
    }

    /// Rings for all processes, but not for the one that rings.
    fn ring_all(&self, by: usize) {
        for p in 0..self.processes {
            if p != by {
                self.bells[p].ring();
            }
        }
    }

    /// Rings for those that a hold of the process `by` has news for: for all where all is over, and
    /// else for the processes of the letter that it settled. A desk that only looked must not wake the
    /// others: it would be woken by them in turn.
    pub(crate) fn tell(&self, settled: Option<Letter>, over: bool, by: usize)
        requires { (a : ℕ) → letter_number settled ≡ Some a → a < length self.now.closed.alphabet.letters }
    {
        if over {
            self.ring_all(by);
        } else if let Some(letter) = settled {
            self.ring_those(self.closed.dfa().alphabet().loc(letter), by);
        }
    }
}

/// A hall has the table of a job, at which the processes take turns, each from its desk. Between any
/// two turns the table is in a state of the core machine.
#[derive(Drop)]
pub struct Hall {
    pub(crate) parts: HallParts,
}

impl Model for Hall {
    ghost use Rattle.za_hall.specs.Halls.{HallState};

    ghost Value = { HallState };

    ghost use Rattle.za_hall.specs.Private.Inside.{hall_of};

    ghost view = { λ h. hall_of h.parts };
}
