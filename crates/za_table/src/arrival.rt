use za_alpha::{Letter, Procs};

/// What the arrival of a process comes to.
#[derive(Clone, Copy, Debug, PartialEq, Eq)]
pub enum Arrival {
    /// All processes of this letter have arrived at it.
    Complete(Letter),
    /// Processes of the letter have not arrived at it: these.
    Short { letter: Letter, missing: Procs },
}
