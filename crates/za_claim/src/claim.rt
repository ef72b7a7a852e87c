ghost use Rattle.std.specs.Prelude.{◌≡◌, ◌≤◌, length};
ghost use Rattle.za_claim.specs.Limits.{most_events};

use std::marker::Model;
use za_alpha::Letter;
use za_script::Answer;

/// The most events of a claim.
pub const MOST_EVENTS: usize = 65536;

/// A firing of a letter, with the label that is claimed for it.
#[derive(Clone, Copy, Debug, PartialEq, Eq)]
pub struct Event {
    pub letter: Letter,
    pub label: u16,
}

/// What is claimed of a run: its answer, and its events in the order in which they happened.
#[derive(Debug, Drop)]
pub struct Claim {
    answer: Answer,
    events: Vec<Event>,
}

impl Model for Claim {
    ghost use Rattle.za_claim.specs.Claims.{ClaimData};
    ghost use Rattle.za_claim.specs.Private.Inside.{claim_inside, IsShort};

    ghost Value = { ClaimData };

    ghost view = { claim_inside };

    ghost invariant = { IsShort };
}

impl Claim {
    /// The claim of an answer and of at most 65,536 events.
    pub fn new(answer: Answer, events: Vec<Event>) -> Claim
        requires { length events.items ≤ most_events }
        ensures answer { result.answer ≡ answer }
        ensures events { result.events ≡ events.items }
    {
        Claim { answer, events }
    }

    /// The answer that is claimed.
    pub fn answer(&self) -> Answer
        ensures { result ≡ self.now.answer }
    {
        self.answer
    }

    /// The events, at most 65,536.
    pub fn events(&self) -> &[Event]
        ensures value { result.now ≡ self.now.events }
        ensures short { length self.now.events ≤ most_events }
    {
        self.events.as_slice()
    }
}
