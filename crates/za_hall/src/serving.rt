//! What a process does at the table while it holds the turn.
ghost use Rattle.std.specs.Prelude.{◌≡◌, ◌⊎◌, ◌+◌, ◌<◌, ◌≤◌, ℕ, true, false, None, Some, MatchOption};
ghost use Rattle.za_alpha.specs.Alphabet.{loc_of};
ghost use Rattle.za_local.specs.Locals.{AreLocalsAfter};
ghost use Rattle.za_shared.specs.Records.{IsTransition};
ghost use Rattle.za_machine.specs.Machine.{is_in, fired_by, IsMachineState};
ghost use Rattle.za_machine.specs.Hands.{hand};
ghost use Rattle.za_hall.specs.Own.{machine, Own};
ghost use Rattle.za_hall.specs.Rule.{IsFit, IsCovered};
ghost use Rattle.za_hall.specs.Steps.{hand_of};
ghost use Rattle.za_hall.specs.Answers.{IsLast};
ghost use Rattle.za_hall.specs.Private.Serving.{FitsDfa, TellsServed, letter_after, letter_number};

use za_alpha::{Letter, Procs};
use za_local::{Bench, Local};
use za_table::{Arrival, Table};

/// What one hold did.
#[derive(Clone, Copy)]
pub(crate) enum Served {
    Fired(usize),
    Waiting {
        letter: Letter,
        missing: Procs,
        by: Option<usize>,
    },
    Ended,
    TookUp(Letter),
}

/// Where the last event of the process stands, if that was not told of.
fn untold(table: &Table, process: usize, told: usize) -> Option<usize>
    requires inside { process < (machine table.now).processes }
    requires told { (told ≤ fired_by (machine table.now) table.now.state.journal process)
        × (fired_by (machine table.now) table.now.state.journal process ≤ told + 1) }
    requires whole { (is_in table.now.state.arrived process ≡ true) ⊎ (is_in table.now.state.ended process ≡ true) →
        fired_by (machine table.now) table.now.state.journal process ≡ told }
    ensures { MatchOption result (fired_by (machine table.now) table.now.state.journal process ≡ told)
        (λ k. IsLast process told k table.now × (is_in table.now.state.arrived process ≡ false)
        × (is_in table.now.state.ended process ≡ false)) }
{
    if told < table.count(process) {
        table.fired_at(process)
    } else {
        None
    }
}

/// What a process does that has no letter in hand.
fn arrive_or_end(table: &mut Table, process: usize, told: usize, bench: &mut Bench) -> Served
    requires inside { process < (machine table.old).processes }
    requires told { fired_by (machine table.old) table.old.state.journal process ≡ told }
    requires fit { IsFit (machine table.old) }
    requires reached { IsMachineState (machine table.old) table.old.state }
    requires covered { IsCovered table.old }
    requires free { (a : ℕ) → hand table.old.hands a ≡ Some process → ⊥ }
    requires bench { FitsDfa table.old.given.dfa bench.old }
    ensures own { Own process table.old table.new }
    ensures answer { TellsServed result told process table.new }
    ensures hand { hand_of table.new process ≡ letter_number (letter_after result) }
    ensures bench { FitsDfa table.old.given.dfa bench.new }
    ensures taken { (a : ℕ) → letter_number (letter_after result) ≡ Some a → (a < (machine table.old).letters)
        × AreLocalsAfter table.old.given.dfa table.old.state.journal (loc_of table.old.given.dfa.alphabet a)
        bench.new.locals }
{
    if table.ended(process) {
        return Served::Ended;
    }
    let Some(letter) = table.next(process) else {
        table.end(process);
        return Served::Ended;
    };
    if table.arrived(process) {
        return Served::Waiting {
            letter,
            missing: table.missing(letter),
            by: table.in_hand(letter),
        };
    }
    match table.arrive(process) {
        Arrival::Complete(letter) => {
            table.take_up(letter, process, bench);
            Served::TookUp(letter)
        }
        Arrival::Short { letter, missing } => Served::Waiting {
            letter,
            missing,
            by: None,
        },
    }
}

/// One hold of a process, which has told of so many of its events.
pub(crate) fn serve(
    table: &mut Table,
    process: usize,
    told: usize,
    letter: Option<Letter>,
    bench: &mut Bench,
    made: &Local,
) -> Served
    requires inside { process < (machine table.old).processes }
    requires told { (told ≤ fired_by (machine table.old) table.old.state.journal process)
        × (fired_by (machine table.old) table.old.state.journal process ≤ told + 1) }
    requires whole { (is_in table.old.state.arrived process ≡ true) ⊎ (is_in table.old.state.ended process ≡ true) →
        fired_by (machine table.old) table.old.state.journal process ≡ told }
    requires fit { IsFit (machine table.old) }
    requires reached { IsMachineState (machine table.old) table.old.state }
    requires covered { IsCovered table.old }
    requires held { (a : ℕ) → letter_number letter ≡ Some a → hand table.old.hands a ≡ Some process }
    requires free { (a : ℕ) → hand table.old.hands a ≡ Some process → letter_number letter ≡ Some a }
    requires bench { FitsDfa table.old.given.dfa bench.old }
    requires ready { (a : ℕ) → letter_number letter ≡ Some a →
        IsTransition table.old.given.dfa a bench.old.locals made.now }
    ensures own { Own process table.old table.new }
    ensures answer { TellsServed result told process table.new }
    ensures hand { hand_of table.new process ≡ letter_number (letter_after result) }
    ensures bench { FitsDfa table.old.given.dfa bench.new }
    ensures taken { (a : ℕ) → letter_number (letter_after result) ≡ Some a →
        (letter_number letter ≡ None) × (a < (machine table.old).letters)
        × AreLocalsAfter table.old.given.dfa table.old.state.journal (loc_of table.old.given.dfa.alphabet a)
        bench.new.locals }
{
    if let Some(held) = letter {
        return Served::Fired(table.settle(held, process, bench, made));
    }
    if let Some(at) = untold(table, process, told) {
        return Served::Fired(at);
    }
    arrive_or_end(table, process, told, bench)
}
