//! The limits of documents, by their version.

ghost use Rattle.std.specs.Prelude.{◌≡◌};
ghost use Rattle.za_lang.specs.Limits.{document_letters, document_states};
ghost use Rattle.za_lang.specs.Tests.{many_letters, wrong_states};

use crate::version::Version;
use za_text::Kind;

/// The most processes in version 1.
pub(crate) const PLAIN_PROCESSES: u32 = 6;

/// The most letters in version 1.
const PLAIN_LETTERS: usize = 32;

/// The most states in version 1.
const PLAIN_STATES: u32 = 32;

/// The most processes in version 2.
pub(crate) const WIDE_PROCESSES: usize = 10;

/// The most letters in version 2.
const WIDE_LETTERS: usize = 128;

/// The most states in version 2.
const WIDE_STATES: u32 = 128;

/// The most letters.
pub(crate) fn most_letters(version: Version) -> usize
    ensures { result ≡ document_letters version }
{
    match version {
        Version::One => PLAIN_LETTERS,
        Version::Two => WIDE_LETTERS,
    }
}

/// The most states.
pub(crate) fn most_states(version: Version) -> u32
    ensures { result ≡ document_states version }
{
    match version {
        Version::One => PLAIN_STATES,
        Version::Two => WIDE_STATES,
    }
}

/// That there are too many letters.
pub(crate) fn many_letters(version: Version) -> Kind
    ensures { result ≡ many_letters version }
{
    match version {
        Version::One => Kind::LetterCount,
        Version::Two => Kind::WideLetters,
    }
}

/// That there are no states, or too many.
pub(crate) fn wrong_states(version: Version) -> Kind
    ensures { result ≡ wrong_states version }
{
    match version {
        Version::One => Kind::StateCount,
        Version::Two => Kind::WideStates,
    }
}
