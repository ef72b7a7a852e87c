//! A desk, from which one process takes its turns.
ghost use Rattle.std.specs.Prelude.{◌≡◌, ◌<◌, ℕ, ◌∷◌, [], map, Some};
ghost use Rattle.za_shared.specs.Records.{IsTransition};
ghost use Rattle.za_local.specs.Locals.{HasShape};
ghost use Rattle.za_hall.specs.Private.Serving.{Rests, FitsDfa, letter_number, note_number};

use crate::view::Known;
use atomic_table::Seat;
use std::marker::Model;
use za_alpha::Letter;
use za_local::{Bench, Local};
use za_table::Table;

#[derive(Drop)]
pub(crate) struct DeskParts {
    pub(crate) process: usize,
    // How many firings it has told of.
    pub(crate) told: usize,
    // The letter in hand: it is complete, and its transition lies in `made`.
    pub(crate) letter: Option<Letter>,
    pub(crate) over: bool,
    // Whether its process has ended.
    pub(crate) ended: bool,
    pub(crate) bench: Bench,
    pub(crate) made: Local,
    pub(crate) seat: Seat<Option<Table>, Known>,
    ghost rests: { Rests process told (letter_number letter) over ended seat.me },
    ghost inside: { process < seat.me.0.given.dfa.alphabet.processes },
    ghost fits: { FitsDfa seat.me.0.given.dfa bench
        × HasShape seat.me.0.given.dfa.alphabet.processes seat.me.0.given.dfa.states made },
    ghost ready: { (a : ℕ) → letter_number letter ≡ Some a → IsTransition seat.me.0.given.dfa a bench.locals made },
}

/// The desk of one process of a hall. It makes the arrivals and the ending of its process, and the
/// firings of the letters that it takes up.
#[derive(Drop)]
pub struct Desk {
    pub(crate) parts: DeskParts,
}

impl Model for Desk {
    ghost use Rattle.za_hall.specs.Halls.{DeskState};

    ghost Value = { DeskState };

    ghost use Rattle.za_hall.specs.Private.Inside.{desk_of};

    ghost view = { λ d. desk_of d.parts };
}

impl Desk {
    /// The process whose desk this is.
    pub fn number(&self) -> usize
        ensures value { result ≡ self.now.number }
        ensures alone { map (λ n. n.number) self.now.view.notes ≡ result ∷ [] }
    {
        self.parts.process
    }

    /// Whether the desk has seen that all is over: then it answers so for good.
    pub fn seen_over(&self) -> bool
        ensures { result ≡ self.now.view.over }
    {
        self.parts.over
    }
}
