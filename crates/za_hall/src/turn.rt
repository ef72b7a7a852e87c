use za_alpha::{Letter, Procs};

/// What a step of a desk answers.
#[derive(Clone, Copy, Debug, PartialEq, Eq)]
pub enum Turn {
    /// The process has fired: its last event stands at this place of the journal.
    Fired {
        at: usize,
    },
    /// The script of the process is used up, and it has ended.
    Ended,
    /// The process has arrived at the letter and waits: for the missing processes, or where none is
    /// missing for the one that has the letter in hand.
    Waiting {
        letter: Letter,
        missing: Procs,
        by: Option<usize>,
    },
    /// Another desk held the turn.
    Busy,
    /// Nothing will happen any more.
    Over,
}
