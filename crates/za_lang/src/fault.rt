ghost use Rattle.std.specs.Prelude.{◌≡◌};
ghost use Rattle.za_lang.specs.Answers.{fault_at};

use std::alloc::{AllocError, AllocFailed};
use za_alpha::{NameFault, OutOfMemory};
use za_dfa::TwoTargets;
use za_script::ScriptFault;
use za_text::{Kind, TextFault};

/// Why bytes are no job.
#[derive(Clone, Copy, Debug, PartialEq, Eq)]
pub enum JobFault {
    /// The first wrong line, and the first of its tests that fails; or, where no line is wrong, that
    /// `end` is missing, at one more than the number of lines.
    Text(TextFault),
    /// Want of memory is the one free answer.
    OutOfMemory,
}

/// Why a line isn't taken.
#[derive(Clone, Copy, Debug, PartialEq, Eq)]
pub enum Refusal {
    /// The first of its tests that fails.
    Wrong(Kind),
    /// Want of memory is the one free answer.
    OutOfMemory,
}

/// A refusal, at the line of this number.
pub fn fault_at(line: u32, refusal: Refusal) -> JobFault
    ensures { result ≡ fault_at line refusal }
{
    match refusal {
        Refusal::Wrong(kind) => JobFault::Text(TextFault { line, kind }),
        Refusal::OutOfMemory => JobFault::OutOfMemory,
    }
}

impl From<OutOfMemory> for Refusal {
    ghost use Rattle.std.specs.Prelude.{◌≡◌};
    ghost use Rattle.za_lang.specs.declared.fault.Refusal.TheVariants.{OutOfMemory};

    ghost from_gives = { λ _ e. e ≡ OutOfMemory };

    fn from(_error: OutOfMemory) -> Refusal {
        Refusal::OutOfMemory
    }
}

impl From<AllocError> for Refusal {
    ghost use Rattle.std.specs.Prelude.{◌≡◌};
    ghost use Rattle.za_lang.specs.declared.fault.Refusal.TheVariants.{OutOfMemory};

    ghost from_gives = { λ _ e. e ≡ OutOfMemory };

    fn from(_error: AllocError) -> Refusal {
        Refusal::OutOfMemory
    }
}

impl<T: Drop> From<AllocFailed<T>> for Refusal {
    ghost use Rattle.std.specs.Prelude.{◌≡◌};
    ghost use Rattle.za_lang.specs.declared.fault.Refusal.TheVariants.{OutOfMemory};

    ghost from_gives = { λ _ e. e ≡ OutOfMemory };

    fn from(_error: AllocFailed<T>) -> Refusal {
        Refusal::OutOfMemory
    }
}

impl From<Kind> for Refusal {
    ghost use Rattle.std.specs.Prelude.{◌≡◌};
    ghost use Rattle.za_lang.specs.declared.fault.Refusal.TheVariants.{Wrong};

    ghost from_gives = { λ kind e. e ≡ Wrong kind };

    fn from(kind: Kind) -> Refusal {
        Refusal::Wrong(kind)
    }
}

impl From<NameFault> for Refusal {
    ghost use Rattle.std.specs.Prelude.{◌≡◌};
    ghost use Rattle.za_lang.specs.declared.fault.Refusal.TheVariants.{Wrong};
    ghost use Rattle.za_lang.specs.Tests.{kind_of_name};

    ghost from_gives = { λ fault e. e ≡ Wrong (kind_of_name fault) };

    fn from(fault: NameFault) -> Refusal {
        match fault {
            NameFault::Bad => Refusal::Wrong(Kind::BadName),
            NameFault::Repeated => Refusal::Wrong(Kind::RepeatedName),
        }
    }
}

impl From<TwoTargets> for Refusal {
    ghost use Rattle.std.specs.Prelude.{◌≡◌};
    ghost use Rattle.za_text.specs.declared.kind.Kind.TheVariants as kind;
    ghost use Rattle.za_lang.specs.declared.fault.Refusal.TheVariants.{Wrong};

    ghost from_gives = { λ _ e. e ≡ Wrong kind.TwoTargets };

    fn from(_error: TwoTargets) -> Refusal {
        Refusal::Wrong(Kind::TwoTargets)
    }
}

impl From<ScriptFault> for Refusal {
    ghost use Rattle.std.specs.Prelude.{◌≡◌};
    ghost use Rattle.za_lang.specs.Answers.{refusal_of_step};

    ghost from_gives = { λ fault e. e ≡ refusal_of_step fault };

    fn from(fault: ScriptFault) -> Refusal {
        match fault {
            ScriptFault::Foreign { .. } => Refusal::Wrong(Kind::NotOfProcess),
            ScriptFault::Full => Refusal::Wrong(Kind::ScriptsFull),
            ScriptFault::OutOfMemory => Refusal::OutOfMemory,
        }
    }
}
