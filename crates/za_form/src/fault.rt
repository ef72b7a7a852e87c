use std::alloc::{AllocError, AllocFailed};
use thiserror::Error;
use za_alpha::OutOfMemory;

/// Why a text is no expression. The faults are tested in this order.
#[derive(Clone, Copy, Debug, PartialEq, Eq, Error)]
pub enum FormFault {
    /// The text has more than 64 tokens.
    #[error("more than 64 expression words")]
    Full,
    /// A token is none of `1`, `(`, `)`, `{`, `}`, `|`, `*`, `&` and `!`, and no letter's name.
    #[error("no such letter")]
    NoSuchLetter,
    /// The tokens aren't a form.
    #[error("bad expression")]
    NotAForm,
    /// Memory was refused.
    #[error("out of memory")]
    OutOfMemory,
}

impl From<OutOfMemory> for FormFault {
    ghost use Rattle.std.specs.Prelude.{◌≡◌};
    ghost use Rattle.za_form.specs.declared.fault.FormFault.TheVariants.{OutOfMemory};

    ghost from_gives = { λ _ e. e ≡ OutOfMemory };

    fn from(_error: OutOfMemory) -> FormFault {
        FormFault::OutOfMemory
    }
}

impl From<AllocError> for FormFault {
    ghost use Rattle.std.specs.Prelude.{◌≡◌};
    ghost use Rattle.za_form.specs.declared.fault.FormFault.TheVariants.{OutOfMemory};

    ghost from_gives = { λ _ e. e ≡ OutOfMemory };

    fn from(_error: AllocError) -> FormFault {
        FormFault::OutOfMemory
    }
}

/// Why an expression has no table.
#[derive(Clone, Copy, Debug, PartialEq, Eq, Error)]
pub enum Wide {
    /// The position values are more than 128.
    #[error("more than 128 states")]
    States,
    /// Memory was refused.
    #[error("out of memory")]
    OutOfMemory,
}

impl From<AllocError> for Wide {
    ghost use Rattle.std.specs.Prelude.{◌≡◌};
    ghost use Rattle.za_form.specs.declared.fault.Wide.TheVariants.{OutOfMemory};

    ghost from_gives = { λ _ e. e ≡ OutOfMemory };

    fn from(_error: AllocError) -> Wide {
        Wide::OutOfMemory
    }
}

impl<T: Drop> From<AllocFailed<T>> for Wide {
    ghost use Rattle.std.specs.Prelude.{◌≡◌};
    ghost use Rattle.za_form.specs.declared.fault.Wide.TheVariants.{OutOfMemory};

    ghost from_gives = { λ _ e. e ≡ OutOfMemory };

    fn from(_error: AllocFailed<T>) -> Wide {
        Wide::OutOfMemory
    }
}
