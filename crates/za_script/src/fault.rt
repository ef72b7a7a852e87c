use thiserror::Error;
use za_alpha::{Letter, OutOfMemory};

/// The most letters of all scripts together.
pub const MOST_SCRIPT_LETTERS: usize = 65536;

/// Why a letter can't be appended to a script.
#[derive(Clone, Copy, Debug, PartialEq, Eq, Error)]
pub enum ScriptFault {
    /// The letter isn't one of this process.
    #[error("letter {letter:?} not of process {process}")]
    Foreign { process: usize, letter: Letter },
    /// The scripts have 65,536 letters already.
    #[error("more than 65536 script letters")]
    Full,
    /// Memory was refused.
    #[error("out of memory")]
    OutOfMemory,
}

impl From<OutOfMemory> for ScriptFault {
    ghost use Rattle.std.specs.Prelude.{◌≡◌};
    ghost use Rattle.za_script.specs.declared.fault.ScriptFault.TheVariants.{OutOfMemory};

    ghost from_gives = { λ _ e. e ≡ OutOfMemory };

    fn from(_error: OutOfMemory) -> ScriptFault {
        ScriptFault::OutOfMemory
    }
}
