//! What closing a hall answers.
ghost use Rattle.std.specs.Prelude.{◌≡◌};

use crate::desk::Desk;
use crate::hall::Hall;
use std::marker::Model;
use za_table::Ended;

/// What the table of a closed hall has come to. It comes from `Hall::close` alone.
#[derive(Drop)]
pub struct HallEnded {
    pub(crate) table: Ended,
}

impl Model for HallEnded {
    ghost use Rattle.za_table.specs.Ends.{EndedState};

    ghost Value = { EndedState };

    ghost view = { λ e. e.table };
}

impl HallEnded {
    /// The table that is over.
    pub fn ended(&self) -> &Ended
        ensures { result.now ≡ self.now }
    {
        &self.table
    }
}

/// Why a hall isn't closed.
#[derive(Clone, Copy, Debug, PartialEq, Eq)]
pub enum CloseWhy {
    /// The least process without a desk.
    Missing { process: usize },
    /// The least process whose desk has not seen that all is over.
    NotOver { process: usize },
}

/// The hall and the desks as they were, and why the hall isn't closed.
#[derive(Drop)]
pub struct CloseRefused {
    pub why: CloseWhy,
    pub hall: Hall,
    pub desks: Vec<Desk>,
}
