//! What changes a table.

ghost use Rattle.std.specs.Prelude.{◌≡◌, ℕ, ◌<◌, ◌∷◌, ◌++◌, [], length, slice_index, slice_set, vec_capacity};
ghost use Rattle.std.specs.Prelude.{IsTrue, true, Some, None};
ghost use Rattle.std.specs.List.{list_all};
ghost use Rattle.za_alpha.specs.Words.{has};
ghost use Rattle.za_alpha.specs.Letters.{numbers};
ghost use Rattle.za_alpha.specs.Procs.{members};
ghost use Rattle.za_alpha.specs.Alphabet.{loc_of};
ghost use Rattle.za_dfa.specs.Automata.{HasDiamonds};
ghost use Rattle.za_dfa.specs.Tables.{automaton_of};
ghost use Rattle.za_script.specs.ScriptLists.{script_of};
ghost use Rattle.za_script.specs.Answer.{IsAnswer};
ghost use Rattle.za_machine.specs.Machine.{IsOver, IsAllowed, fired_by, Arrive, Fire, End, arrive, fire, end_at};
ghost use Rattle.za_machine.specs.Hands.{hand, IsInHand};
ghost use Rattle.za_machine.specs.Answer.{answer_at};
ghost use Rattle.za_local.specs.Locals.{AreLocalsAfter, AreAllLocalsAfter};
ghost use Rattle.za_shared.specs.Records.{locals_of, IsTransition, HasFired};
ghost use Rattle.za_table.specs.Tables.{machine_of, label_at, IsTable};
ghost use Rattle.za_table.specs.Answers.{IsArrival};
ghost use Rattle.za_table.specs.Private.Steps.{HasAppended};

use crate::arrival::Arrival;
use crate::labels::latest_label;
use crate::lists::without;
use crate::progress::Progress;
use crate::table::Table;
use za_alpha::{Letter, Procs};
use za_local::{Bench, Local};
use za_script::Answer;
use za_shared::SharedLocals;

impl Table {
    /// Lets the process arrive at its next letter. It has one, and has not arrived. The answer says
    /// whether the letter is then complete, or which of its processes are missing; one that waits at
    /// another letter is.
    pub fn arrive(&mut self, p: usize) -> Arrival
        requires { IsAllowed (machine_of self.old.given) self.old.state (Arrive p) }
        ensures rest { self.new ≡ record self.old { state = arrive p self.old.state } }
        ensures answer { IsArrival (machine_of self.new.given) self.new.state p result }
    {
        let Some(letter) = self.next(p) else {
            unreachable!()
        };
        let at = letter.0 as usize;
        let missing = without(self.missing[at], p);
        self.progress.arrived[p] = true;
        self.missing[at] = missing;
        arrival_at(letter, missing)
    }

    /// Ends the process, whose script is used up. It has not ended.
    pub fn end(&mut self, p: usize)
        requires { IsAllowed (machine_of self.old.given) self.old.state (End p) }
        ensures { self.new ≡ record self.old { state = end_at p self.old.state } }
    {
        self.progress.ended[p] = true;
    }

    /// Fires a complete letter that nobody has in hand: appends its event to the journal, gives all its
    /// processes their new local state, and clears their arrivals. It answers the place of the event.
    pub fn fire(&mut self, a: Letter) -> usize
        requires allowed { IsAllowed (machine_of self.old.given) self.old.state (Fire a.0) }
        requires free { hand self.old.hands a.0 ≡ None }
        ensures given { self.new.given ≡ self.old.given }
        ensures state { self.new.state ≡ fire (loc_of self.old.given.dfa.alphabet) a.0 self.old.state }
        ensures hands { self.new.hands ≡ self.old.hands }
        ensures shared { HasFired self.old.shared self.new.shared a.0 }
        ensures at { result ≡ length self.old.state.journal }
    {
        let participants = self.participants(a);
        self.shared.fire(a, participants);
        self.missing[a.0 as usize] = participants;
        append(&self.shared, &mut self.progress, a)
    }

    /// Puts a complete letter, which nobody has in hand, into the hand of one of its processes, and
    /// copies of its processes' local states onto the bench, in rising order, in place of what it had.
    /// The bench is for the table's processes and states.
    pub fn take_up(&mut self, a: Letter, by: usize, bench: &mut Bench)
        requires own { IsInHand (machine_of self.old.given) self.old.state a.0 by }
        requires free { hand self.old.hands a.0 ≡ None }
        requires processes { bench.old.processes ≡ self.old.given.dfa.alphabet.processes }
        requires states { bench.old.states ≡ self.old.given.dfa.states }
        ensures rest { self.new ≡ record self.old { hands = slice_set self.old.hands a.0 (Some by) } }
        ensures locals { AreLocalsAfter self.old.given.dfa self.old.state.journal
            (loc_of self.old.given.dfa.alphabet a.0) bench.new.locals }
        ensures processes { bench.new.processes ≡ bench.old.processes }
        ensures states { bench.new.states ≡ bench.old.states }
    {
        let participants = self.participants(a);
        self.shared.gather_into(participants, bench);
        self.hands[a.0 as usize] = Some(by);
    }

    /// Fires a letter that the process has in hand, as `fire` does; nobody then has it in hand. `made`
    /// is the transition of the local states on the bench. It is used where these are those of the
    /// letter's processes, and else the transition is computed again. The bench is for the table's
    /// processes and states.
    pub fn settle(&mut self, a: Letter, by: usize, bench: &Bench, made: &Local) -> usize
        requires held { hand self.old.hands a.0 ≡ Some by }
        requires processes { bench.now.processes ≡ self.old.given.dfa.alphabet.processes }
        requires states { bench.now.states ≡ self.old.given.dfa.states }
        requires made { IsTransition self.old.given.dfa a.0 bench.now.locals made.now }
        ensures given { self.new.given ≡ self.old.given }
        ensures state { self.new.state ≡ fire (loc_of self.old.given.dfa.alphabet) a.0 self.old.state }
        ensures hands { self.new.hands ≡ slice_set self.old.hands a.0 None }
        ensures shared { HasFired self.old.shared self.new.shared a.0 }
        ensures at { result ≡ length self.old.state.journal }
    {
        let participants = self.participants(a);
        self.shared.settle(a, participants, bench, made);
        let letter = a.0 as usize;
        self.hands[letter] = None;
        self.missing[letter] = participants;
        append(&self.shared, &mut self.progress, a)
    }

    /// Nobody has the letter in hand any more, which somebody has.
    pub fn put_back(&mut self, a: Letter)
        requires { (p : ℕ) × (hand self.old.hands a.0 ≡ Some p) }
        ensures { self.new ≡ record self.old { hands = slice_set self.old.hands a.0 None } }
    {
        self.hands[a.0 as usize] = None;
    }

    /// Whether every process has ended.
    fn have_all_ended(&self) -> bool
        ensures { result ≡ list_all (λ e. e) self.now.state.ended }
    {
        self.progress.ended.iter().all(|ended| *ended)
    }

    /// What the local states and the endings say: stuck where a process has not ended, and else as the
    /// automaton says of the journal.
    fn read_answer(&mut self) -> Answer
        ensures rest { self.new ≡ self.old }
        ensures value { result ≡ answer_at (automaton_of self.old.given.dfa) self.old.state }
        ensures table { IsTable self.old }
        ensures diamonds { HasDiamonds (loc_of self.old.given.dfa.alphabet) (automaton_of self.old.given.dfa) }
    {
        let state = self.shared.verdict();
        let accepts = self.closed().dfa().accepting(state);
        if !self.have_all_ended() {
            return Answer::Stuck;
        }
        if accepts {
            Answer::Accept
        } else {
            Answer::Reject
        }
    }

    /// The answer of a table that is over: stuck where a process has not ended, and else as the
    /// automaton says of the journal. It is read from the local states of all processes.
    pub fn answer(&mut self) -> Answer
        requires { IsOver (machine_of self.old.given) self.old.state }
        ensures rest { self.new ≡ self.old }
        ensures value { result ≡ answer_at (automaton_of self.old.given.dfa) self.old.state }
        ensures answer { IsAnswer (loc_of self.old.given.dfa.alphabet) (automaton_of self.old.given.dfa)
            (script_of self.old.given.scripts) result }
    {
        self.read_answer()
    }
}

/// What an arrival at a letter comes to, after which these processes are missing.
fn arrival_at(letter: Letter, missing: Procs) -> Arrival
    ensures complete { members missing ≡ [] → result ≡ Arrival.Complete letter }
    ensures short { ¬ (members missing ≡ []) → result ≡ Arrival.Short letter missing }
{
    if missing.is_empty() {
        return Arrival::Complete(letter);
    }
    Arrival::Short { letter, missing }
}

/// Appends the event of the letter, after which the processes have these local states, and answers its
/// place.
fn append(shared: &SharedLocals, progress: &mut Progress, a: Letter) -> usize
    requires letter { a.0 < length shared.now.dfa.alphabet.letters }
    requires locals { AreAllLocalsAfter shared.now.dfa
        (numbers progress.old.journal.items ++ a.0 ∷ []) (locals_of shared.now) }
    requires journal { length progress.old.journal.items < vec_capacity progress.old.journal }
    requires labels { length progress.old.labels.items < vec_capacity progress.old.labels }
    requires each { length progress.old.counts.items ≡ shared.now.dfa.alphabet.processes }
    requires counts { (p : ℕ) → IsTrue (has (loc_of shared.now.dfa.alphabet a.0) p) →
        slice_index progress.old.counts.items p < usize.MAX }
    requires arrived { length progress.old.arrived.items ≡ length progress.old.counts.items }
    requires latest { length progress.old.latest.items ≡ length progress.old.counts.items }
    ensures appended { HasAppended progress.old progress.new a.0
        (label_at shared.now.dfa (numbers progress.old.journal.items ++ a.0 ∷ []) (length progress.old.journal.items))
        (loc_of shared.now.dfa.alphabet a.0) }
    ensures at { result ≡ length progress.old.journal.items }
{
    let label = latest_label(shared, a);
    let participants = shared.closed().dfa().alphabet().loc(a);
    progress.append(a, label, participants)
}
