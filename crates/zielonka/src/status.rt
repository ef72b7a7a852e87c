use za_hall::HallEnded;
use za_table::Ended;

/// The number that the process ends with.
///
/// | Number | Meaning |
/// |---|---|
/// | 0, 1, 3 | accept or done, or an audit that says yes; reject, or an audit that doesn't; stuck |
/// | 2 | usage: the words are in no form of the call |
/// | 4 | the input isn't what the words ask for: a document, one with what follows it, a frozen text |
/// | 5 | the language is not closed under trace equivalence |
/// | 6, 7 | a read, a write failed |
/// | 8 | want of memory |
/// | 9 | the input has more than 1,048,576 bytes |
#[derive(Clone, Copy, Debug, PartialEq, Eq)]
pub struct Status(pub u8);

/// The finished run from which the text was made.
#[derive(Drop)]
pub enum Shown {
    /// None: no scripts were to be run, or the text is that of a refusal.
    Nothing,
    /// One on one thread.
    Solo(Ended),
    /// That of a hall, with a thread for each process.
    Hall(HallEnded),
}

/// How a run of the program ended.
#[derive(Drop)]
pub struct Outcome {
    pub status: Status,
    pub shown: Shown,
}
