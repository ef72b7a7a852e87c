use thiserror::Error;
use za_alpha::{Letter, OutOfMemory};

/// Why a number of states, a start and these rows make no DFA. A place `at` counts rows from 0.
#[derive(Clone, Copy, Debug, PartialEq, Eq, Error)]
pub enum DfaFault {
    /// The number of states isn't in 1 to 128.
    #[error("states not in 1 to 128")]
    StateCount,
    /// The start isn't below the number of states.
    #[error("no such start")]
    NoSuchStart,
    /// The row leads from or to a state that isn't below the number of states.
    #[error("row {at}: no such state")]
    NoSuchState {
        at: usize,
    },
    /// An earlier row has the same state and letter and another target.
    #[error("row {at}: two targets")]
    TwoTargets {
        at: usize,
        state: u32,
        letter: Letter,
    },
    /// Memory was refused.
    #[error("out of memory")]
    OutOfMemory,
}

impl From<OutOfMemory> for DfaFault {
    ghost use Rattle.std.specs.Prelude.{◌≡◌};
    ghost use Rattle.za_dfa.specs.declared.fault.DfaFault.TheVariants.{OutOfMemory};

    ghost from_gives = { λ _ e. e ≡ OutOfMemory };

    fn from(_error: OutOfMemory) -> DfaFault {
        DfaFault::OutOfMemory
    }
}

/// The letter leads from the state to another state already.
#[derive(Clone, Copy, Debug, PartialEq, Eq, Error)]
#[error("two targets")]
pub struct TwoTargets;
