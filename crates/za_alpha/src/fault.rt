use std::alloc::{AllocError, AllocFailed};
use thiserror::Error;

/// Memory was refused.
#[derive(Clone, Copy, Debug, PartialEq, Eq, Error)]
#[error("out of memory")]
pub struct OutOfMemory;

impl From<AllocError> for OutOfMemory {
    fn from(_error: AllocError) -> OutOfMemory {
        OutOfMemory
    }
}

impl<T: Drop> From<AllocFailed<T>> for OutOfMemory {
    fn from(_error: AllocFailed<T>) -> OutOfMemory {
        OutOfMemory
    }
}

/// What is wrong with the name of one letter more.
#[derive(Clone, Copy, Debug, PartialEq, Eq)]
pub enum NameFault {
    /// It isn't a name: 1 to 32 letters, digits and underscores, the first no digit.
    Bad,
    /// A letter has the name.
    Repeated,
}

/// Why a number of processes and these rows make no alphabet. A place `at` counts rows from 0.
#[derive(Clone, Copy, Debug, PartialEq, Eq, Error)]
pub enum AlphaFault {
    /// The number of processes isn't in 1 to 10.
    #[error("processes not in 1 to 10")]
    ProcessCount,
    /// The number of rows isn't in 1 to 128.
    #[error("letters not in 1 to 128")]
    LetterCount,
    /// The row's name isn't a name: 1 to 32 letters, digits and underscores, the first no digit.
    #[error("letter {at}: bad name")]
    BadName { at: usize },
    /// An earlier row has the same name.
    #[error("letter {at}: name is repeated")]
    RepeatedName { at: usize },
    /// The row names no process.
    #[error("letter {at}: letter without process")]
    EmptyLoc { at: usize },
    /// The row names a process that isn't below the number of processes.
    #[error("letter {at}: no such process")]
    NoSuchProcess { at: usize },
    /// Memory was refused.
    #[error("out of memory")]
    OutOfMemory,
}

impl From<OutOfMemory> for AlphaFault {
    ghost use Rattle.std.specs.Prelude.{◌≡◌};
    ghost use Rattle.za_alpha.specs.declared.fault.AlphaFault.TheVariants.{OutOfMemory};

    ghost from_gives = { λ _ e. e ≡ OutOfMemory };

    fn from(_error: OutOfMemory) -> AlphaFault {
        AlphaFault::OutOfMemory
    }
}
