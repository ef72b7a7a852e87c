/// A sign of an expression: a letter's name, or one of the nine symbols.
#[derive(Clone, Copy, Debug, PartialEq, Eq)]
pub enum Sign {
    /// A letter, by its number in the alphabet.
    Name(u8),
    /// `1`, the empty word.
    Empty,
    /// `(`.
    Open,
    /// `)`.
    Close,
    /// `{`.
    Begin,
    /// `}`.
    End,
    /// `|`, union.
    Bar,
    /// `*`, repetition.
    Times,
    /// `&`, intersection.
    Ampersand,
    /// `!`, complement.
    Bang,
}
