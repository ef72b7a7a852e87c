use za_alpha::Letter;
use za_min::Hope;
use za_script::Answer;

/// The verdict on a claim. Positions of events count from 0.
#[derive(Clone, Copy, Debug, PartialEq, Eq)]
pub enum Audit {
    /// The events are a run of the job to its end with the labels by definition, and the answer is the
    /// job's. Where it is stuck, the hope tells whether the run can still be saved; else there is none.
    Yes { hope: Option<Hope> },
    /// The first event that isn't right, at this position, has a letter that can't fire after the
    /// letters before it: it isn't the next letter of all its processes.
    BadLetter { at: usize },
    /// The first event that isn't right, at this position, has another label than the one by definition.
    BadLabel { at: usize },
    /// All events are right, and this is the least letter that can fire after them.
    NotMaximal { letter: Letter },
    /// All events are right, and no letter can fire after them, but this is the job's answer.
    WrongAnswer { defined: Answer },
}
