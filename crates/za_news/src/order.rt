ghost use Rattle.std.specs.Prelude.{◌≡◌};
ghost use Rattle.za_news.specs.Grammar.{reading_head};

/// What the first word of a line of readings says it is.
#[derive(Clone, Copy, Debug, PartialEq, Eq)]
pub(crate) enum Head {
    Read,
    End,
    Other,
}

/// Where readings have come to.
#[derive(Clone, Copy, Debug, PartialEq, Eq)]
pub(crate) enum Place {
    AtReadings,
    AfterEnd,
}

pub(crate) fn head_of(word: &[u8]) -> Head
    ensures { result ≡ reading_head word.now }
{
    if word == b"read".as_slice() {
        Head::Read
    } else if word == b"end".as_slice() {
        Head::End
    } else {
        Head::Other
    }
}
