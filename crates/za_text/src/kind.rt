ghost use Rattle.std.specs.Prelude.{◌≡◌};
ghost use Rattle.za_text.specs.Kinds.{kind_text};

/// What is wrong with a line of a document.
#[derive(Clone, Copy, Debug, PartialEq, Eq)]
pub enum Kind {
    /// The line isn't whole: no line feed ends it.
    Cut,
    /// The line has a byte other than tab and 32 to 126.
    BadByte,
    /// The first line with words is neither `zla 1` nor `zla 2`.
    Header,
    /// The first word doesn't stand at this place.
    OutOfOrder,
    /// A line that begins so has another number of words.
    WordCount,
    /// The text ends where an `end` is missing.
    NoEnd,
    /// A word follows the last `end`.
    Trailing,
    /// A word that must be a number isn't one.
    BadNumber,
    /// The letter's or the process's name isn't a name.
    BadName,
    /// Version 1: the number of processes isn't in 1 to 6.
    ProcessCount,
    /// Version 1: the line is the 33rd letter line.
    LetterCount,
    /// An earlier letter has the name.
    RepeatedName,
    /// No process follows the letter's name.
    EmptyLoc,
    /// Version 1: the number isn't below the number of processes; version 2: no process has the name.
    NoSuchProcess,
    /// Version 1: the number of states isn't in 1 to 32.
    StateCount,
    /// The number isn't below the number of states.
    NoSuchState,
    /// No letter has the name.
    NoSuchLetter,
    /// An earlier row has the state and letter and another target.
    TwoTargets,
    /// The script's process is no process of the letter.
    NotOfProcess,
    /// The script letters read before and those of this item are more than 65,536.
    ScriptsFull,
    /// The claim's word is none of `accept`, `reject` and `stuck`.
    NoSuchAnswer,
    /// The line is the 65,537th fire line.
    ClaimFull,
    /// The fire line's word has no point.
    BadEvent,
    /// The label is above the cube of the number of processes.
    NoSuchLabel,
    /// Version 2: more than 10 names stand in the processes line.
    WideProcesses,
    /// Version 2: an earlier process name of the line is the same.
    RepeatedProcess,
    /// Version 2: the line is the 129th letter line.
    WideLetters,
    /// Version 2: the number of states isn't in 1 to 128.
    WideStates,
    /// Version 2: the part of a script's item after its `*` isn't a number, or is 0.
    BadRepeat,
    /// A document with an expression: the first line with words isn't `zla expr`.
    ExprHeader,
    /// More than 64 words follow `expr`.
    ExprFull,
    /// The words after `expr` aren't an expression.
    BadExpr,
    /// The expression has more than 128 position values, which are the states of its table.
    ExprStates,
    /// The cut line's number is above the number of events that fire.
    NoSuchCut,
    /// The line is the first that isn't the frozen text's of this job and this number.
    NotOwn,
}

/// The first wrong line of a text, by its number from 1 on, and what is wrong with it.
#[derive(Clone, Copy, Debug, PartialEq, Eq)]
pub struct TextFault {
    pub line: u32,
    pub kind: Kind,
}

impl Kind {
    /// The text that names the kind, in ASCII and without a line feed.
    pub fn text(self) -> &'static [u8]
        ensures { result.now ≡ kind_text self }
    {
        match self {
            Kind::Cut => b"line is cut",
            Kind::BadByte => b"bad byte",
            Kind::Header => b"header is not zla 1 or 2",
            Kind::OutOfOrder => b"line is out of order",
            Kind::WordCount => b"wrong number of words",
            Kind::NoEnd => b"end is missing",
            Kind::Trailing => b"text after end",
            Kind::BadNumber => b"bad number",
            Kind::BadName => b"bad name",
            Kind::ProcessCount => b"processes not in 1 to 6",
            Kind::LetterCount => b"more than 32 letters",
            Kind::RepeatedName => b"name is repeated",
            Kind::EmptyLoc => b"letter without process",
            Kind::NoSuchProcess => b"no such process",
            Kind::StateCount => b"states not in 1 to 32",
            Kind::NoSuchState => b"no such state",
            Kind::NoSuchLetter => b"no such letter",
            Kind::TwoTargets => b"two targets",
            Kind::NotOfProcess => b"letter not of this process",
            Kind::ScriptsFull => b"more than 65536 script letters",
            Kind::NoSuchAnswer => b"no such answer",
            Kind::ClaimFull => b"more than 65536 events",
            Kind::BadEvent => b"bad event",
            Kind::NoSuchLabel => b"no such label",
            Kind::WideProcesses => b"processes not in 1 to 10",
            Kind::RepeatedProcess => b"process is repeated",
            Kind::WideLetters => b"more than 128 letters",
            Kind::WideStates => b"states not in 1 to 128",
            Kind::BadRepeat => b"bad repeat",
            Kind::ExprHeader => b"header is not zla expr",
            Kind::ExprFull => b"more than 64 expression words",
            Kind::BadExpr => b"bad expression",
            Kind::ExprStates => b"more than 128 states",
            Kind::NoSuchCut => b"no such cut",
            Kind::NotOwn => b"not the frozen text",
        }
    }
}
