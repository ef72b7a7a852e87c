//! A step of a desk.
ghost use Rattle.std.specs.Prelude.{◌≡◌, ◌⊎◌, ◌<◌, ◌↔◌, ℕ, length, true, false, Some};
ghost use Rattle.za_alpha.specs.Alphabet.{loc_of};
ghost use Rattle.za_local.specs.Locals.{AreLocalsAfter, HasShape};
ghost use Rattle.za_shared.specs.Records.{IsTransition};
ghost use Rattle.std.specs.Prelude.{List};
ghost use Rattle.za_hall.specs.Answers.{with_fired, note_of, Try, Call, Stays, ArrivesOnce, EndsOnce};
ghost use Rattle.za_hall.specs.Answers.{GaveEnded, GaveFired, EndsStep};
ghost use Rattle.za_hall.specs.Halls.{IsOf, IsSameDesk, fired};
ghost use Rattle.za_hall.specs.Private.Serving.{letter_number, letter_after, answered};
ghost use Rattle.za_hall.specs.Private.Inside.{hall_of, desk_of};

use crate::bell::Bell;
use crate::desk::{Desk, DeskParts};
use crate::hall::{Hall, HallParts};
use crate::serving::{Served, serve};
use crate::steps::{give, take};
use crate::turn::Turn;
use crossbeam_utils::Backoff;
use std::sync::Wait;
use za_alpha::Letter;
use za_dfa::Closed;
use za_local::{Bench, Local, transit};

/// The letter that the hold took up.
fn taken_up(served: &Served) -> Option<Letter>
    ensures { result ≡ letter_after served.now }
{
    match served {
        Served::TookUp(letter) => Some(*letter),
        Served::Fired(_) | Served::Ended => None,
        Served::Waiting {
            letter: _,
            missing: _,
            by: _,
        } => None,
    }
}

/// What the hold answers, and nothing where it took a letter up.
fn answer(served: Served, over: bool) -> Option<Turn>
    ensures { result ≡ answered served over }
{
    match served {
        Served::Fired(at) => Some(Turn::Fired { at }),
        Served::Ended => Some(Turn::Ended),
        Served::TookUp(_) => None,
        Served::Waiting {
            letter,
            missing,
            by,
        } => Some(if over {
            Turn::Over
        } else {
            Turn::Waiting {
                letter,
                missing,
                by,
            }
        }),
    }
}

/// What a step does after a try.
#[derive(Clone, Copy)]
enum Pause {
    None,
    Short,
    Long,
}

/// Whether a step goes on after this answer, of a process that had or hadn't ended before.
fn pause_after(turn: Turn, had_ended: bool) -> Pause
    ensures { (result ≡ Pause.None) ↔ EndsStep had_ended turn }
{
    match turn {
        Turn::Fired { at: _ } | Turn::Over => Pause::None,
        Turn::Busy => Pause::Short,
        Turn::Waiting {
            letter: _,
            missing: _,
            by: _,
        } => Pause::Long,
        Turn::Ended => { if had_ended { Pause::Long } else { Pause::None } }
    }
}

/// The transition of a letter that was taken up, if there is one.
fn compute(closed: &Closed, letter: Option<Letter>, bench: &Bench, made: &mut Local)
    requires taken { (a : ℕ) → letter_number letter ≡ Some a → (a < length closed.now.alphabet.letters)
        × ((w : List ℕ) × AreLocalsAfter closed.now w (loc_of closed.now.alphabet a) bench.now.locals) }
    requires shape { HasShape closed.now.alphabet.processes closed.now.states made.old }
    ensures shape { HasShape closed.now.alphabet.processes closed.now.states made.new }
    ensures made { (a : ℕ) → letter_number letter ≡ Some a → IsTransition closed.now a bench.now.locals made.new }
{
    if let Some(letter) = letter {
        transit(closed, letter, bench, made);
    }
}

impl DeskParts {
    /// Tries the turn once, and does what is to be done. It answers nothing where it took a letter
    /// up, whose transition it has then computed.
    fn hold(&mut self, hall: &HallParts) -> Option<Turn>
        requires { IsOf (desk_of self.old) (hall_of hall.now) }
        ensures desk { IsSameDesk (desk_of self.old) (desk_of self.new) }
        ensures tried { Try self.old.process (desk_of self.old).view result (desk_of self.new).view }
    {
        if let Err(found) = take(hall, &mut self.seat) {
            self.over = found == 2;
            return Some(if found == 2 { Turn::Over } else { Turn::Busy });
        }
        let settled = self.letter;
        let Some(table) = self.seat.slot_mut(&hall.board.shared, 0) else {
            unreachable!()
        };
        let served = serve(
            table,
            self.process,
            self.told,
            self.letter,
            &mut self.bench,
            &self.made,
        );
        self.told = table.count(self.process);
        self.over = table.over();
        self.ended = table.ended(self.process);
        give(hall, &mut self.seat, self.over);
        hall.tell(settled, self.over, self.process);
        self.letter = taken_up(&served);
        compute(&hall.closed, self.letter, &self.bench, &mut self.made);
        answer(served, self.over)
    }

    /// Settles the letter that was taken up, if the turn can be had.
    fn hold_again(&mut self, hall: &HallParts) -> Turn
        requires of { IsOf (desk_of self.old) (hall_of hall.now) }
        requires taken { (a : ℕ) × ((note_of (desk_of self.old).view).hand ≡ Some a) }
        ensures desk { IsSameDesk (desk_of self.old) (desk_of self.new) }
        ensures tried { Try self.old.process (desk_of self.old).view (Some result) (desk_of self.new).view }
    {
        match self.hold(hall) {
            Some(turn) => turn,
            None => unreachable!(),
        }
    }
}

impl DeskParts {
    /// What the desk waits on.
    fn bell_of<'h>(&self, hall: &'h HallParts) -> &'h Bell
        requires { IsOf (desk_of self.now) (hall_of hall.now) }
    {
        &hall.bells[self.process]
    }
}

impl Desk {
    /// Tries to have the turn and does what is to be done for its process. It waits for nobody, and
    /// the desk doesn't hold the turn afterwards. The desk is of this hall. It tries once, and a second
    /// time where the first took a letter up; where it has seen that all is over, it tries nothing and
    /// answers so.
    ///
    /// It answers `Fired` where the process has an event that it has not told of yet, or settles the
    /// letter that it has in hand; `Waiting` where it has arrived; `Ended` where it has ended; `Over`
    /// where all is over. `Busy` comes exactly where the last try found that another desk held the turn.
    pub fn try_step(&mut self, hall: &Hall) -> Turn
        requires { IsOf self.old hall.now }
        ensures desk { IsSameDesk self.old self.new }
        ensures seen { self.old.view.over ≡ true → (result ≡ Turn.Over) × (self.new ≡ self.old) }
        ensures call { self.old.view.over ≡ false → Call self.old.number self.old.view result self.new.view }
        ensures fired { fired self.new ≡ with_fired (Some result) (fired self.old) }
        ensures fires { (at : ℕ) → (result ≡ Turn.Fired at) ↔
            ((self.old.view.over ≡ false) × GaveFired self.old.number self.old.view at self.new.view) }
        ensures ended { (result ≡ Turn.Ended) ↔
            ((self.old.view.over ≡ false) × GaveEnded self.old.number self.new.view) }
        ensures busy { (result ≡ Turn.Busy) ↔ ((self.old.view.over ≡ false) × (self.new.view.found ≡ 1)) }
        ensures free { self.new.view.holds ≡ false }
        ensures over { (result ≡ Turn.Over) → self.new.view.over ≡ true }
    {
        if self.parts.over {
            return Turn::Over;
        }
        match self.parts.hold(&hall.parts) {
            Some(turn) => turn,
            None => self.parts.hold_again(&hall.parts),
        }
    }

    /// Steps, and waits until a firing of its process, its ending or the end of all can be told. The
    /// desk is of this hall. It answers `Fired`, `Ended` or `Over`; a process that had ended before is
    /// answered `Over` alone. Between two tries it may park.
    pub fn step<R: Wait>(&mut self, rt: &R, hall: &Hall) -> Turn
        requires { IsOf self.old hall.now }
        ensures desk { IsSameDesk self.old self.new }
        ensures fired { fired self.new ≡ with_fired (Some result) (fired self.old) }
        ensures answer { EndsStep (note_of self.old.view).ended result }
        ensures once { Stays self.old.view self.new.view ⊎ ArrivesOnce self.old.view self.new.view
            ⊎ EndsOnce self.old.view self.new.view }
        ensures fires { (at : ℕ) → (result ≡ Turn.Fired at) ↔
            ((self.old.view.over ≡ false) × GaveFired self.old.number self.old.view at self.new.view) }
        ensures ended { (result ≡ Turn.Ended) ↔ EndsOnce self.old.view self.new.view }
        ensures free { self.new.view.holds ≡ false }
        ensures over { (result ≡ Turn.Over) → self.new.view.over ≡ true }
    {
        let had_ended = self.parts.ended;
        let bell = self.parts.bell_of(&hall.parts);
        let backoff = Backoff::new();
        for _ in rt.forever() {
            let heard = bell.count();
            let turn = self.try_step(hall);
            match pause_after(turn, had_ended) {
                Pause::None => return turn,
                Pause::Short => backoff.snooze(),
                Pause::Long => bell.wait(rt, heard),
            }
        }
        unreachable!()
    }
}
