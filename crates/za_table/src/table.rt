//! What a table has, and what it tells.

ghost use Rattle.std.specs.Prelude.{◌≡◌, ℕ, ◌<◌, ◌≤◌, ◌↔◌, ◌&&◌, ◌||◌, ◌⊎◌, [], length, option_map};
ghost use Rattle.std.specs.Prelude.{IfOk, IfSome, IsSome, IsNone, IsTrue, true, Some, None};
ghost use Rattle.za_alpha.specs.Limits.{most_letters, most_processes};
ghost use Rattle.za_alpha.specs.Words.{has, projection};
ghost use Rattle.za_alpha.specs.Procs.{members};
ghost use Rattle.za_alpha.specs.Search.{least};
ghost use Rattle.za_alpha.specs.Alphabet.{loc_of};
ghost use Rattle.za_script.specs.ScriptLists.{script_of, IsLetterOf, FitAlphabet};
ghost use Rattle.za_records.specs.Shelf.{live};
ghost use Rattle.za_local.specs.Locals.{local_after};
ghost use Rattle.za_machine.specs.Machine.{initial, next, fired_by, is_in, is_complete, IsOver};
ghost use Rattle.za_machine.specs.Hands.{hand, no_hands, IsInHand};
ghost use Rattle.za_shared.specs.Records.{bound, AreOpened};
ghost use Rattle.za_table.specs.Tables.{machine_of, last_event, IsTable};
ghost use Rattle.za_table.specs.Answers.{AreMissing};

use crate::lists::missing_at_first;
use crate::progress::{Progress, nones};
use std::alloc::Global;
use std::marker::Model;
use za_alpha::{Letter, OutOfMemory, Procs};
use za_dfa::Closed;
use za_local::Local;
use za_script::Scripts;
use za_shared::SharedLocals;

/// A state of the core machine for an automaton and scripts, one for each process: a journal of the
/// letters that were fired, who has arrived at its next letter and who has ended. For each process
/// the table keeps its local state after the journal, and for each letter who has it in hand. So it is
/// an asynchronous automaton at work (Zielonka 1987), by the local states of Mukund 2012.
#[derive(Drop)]
pub struct Table {
    pub(crate) shared: SharedLocals,
    pub(crate) scripts: Scripts,
    pub(crate) progress: Progress,
    pub(crate) hands: Vec<Option<usize>>,
    /// For each letter, its processes that have not arrived at it.
    pub(crate) missing: Vec<Procs>,
}

impl Model for Table {
    ghost use Rattle.za_table.specs.Tables.{TableState};

    ghost Value = { TableState };

    ghost use Rattle.za_table.specs.Private.Inside.{table_in, IsTableInside};

    ghost view = { table_in };

    ghost invariant = { IsTableInside };
}

impl Table {
    /// A table at the start: the journal is empty, nobody has arrived or ended or has a letter in hand,
    /// and every process has the opening local state. The scripts fit the automaton's alphabet: one for each
    /// process, of letters in which it takes part. The table keeps up to `cache` transitions. All memory
    /// is taken here, for the whole journal too, but what lines of the cache ask for; where these are
    /// refused any, a line is not kept. Want of memory is the one free answer.
    pub fn open(
        alloc: Global,
        closed: Closed,
        scripts: Scripts,
        cache: u8,
    ) -> Result<Table, OutOfMemory>
        requires { FitAlphabet closed.alphabet scripts }
        ensures given { IfOk result (λ t. t.given ≡ record { dfa = closed; scripts = scripts }) }
        ensures state { IfOk result (λ t. t.state ≡ initial (machine_of t.given)) }
        ensures hands { IfOk result (λ t. t.hands ≡ no_hands (machine_of t.given)) }
        ensures shared { IfOk result (λ t. AreOpened closed cache t.shared) }
    {
        let letters = closed.dfa().alphabet().letters();
        let progress = Progress::start(alloc, scripts.processes(), scripts.total())?;
        let hands = nones(alloc, letters)?;
        let missing = missing_at_first(alloc, closed.dfa().alphabet())?;
        let shared = SharedLocals::open(alloc, closed, cache)?;
        Ok(Table {
            shared,
            scripts,
            progress,
            hands,
            missing,
        })
    }

    /// The automaton.
    pub fn closed(&self) -> &Closed
        ensures value { result.now ≡ self.now.given.dfa }
        ensures table { IsTable self.now }
    {
        self.shared.closed()
    }

    /// How many processes there are.
    pub(crate) fn processes(&self) -> usize
        ensures value { result ≡ self.now.given.dfa.alphabet.processes }
        ensures few { result ≤ most_processes }
        ensures table { IsTable self.now }
    {
        self.closed().dfa().alphabet().processes()
    }

    /// How many letters there are.
    pub(crate) fn letters(&self) -> usize
        ensures value { result ≡ length self.now.given.dfa.alphabet.letters }
        ensures few { result ≤ most_letters }
        ensures table { IsTable self.now }
    {
        self.closed().dfa().alphabet().letters()
    }

    /// The processes of a letter.
    pub(crate) fn participants(&self, a: Letter) -> Procs
        requires { a.0 < length self.now.given.dfa.alphabet.letters }
        ensures { members result ≡ loc_of self.now.given.dfa.alphabet a.0 }
    {
        self.closed().dfa().alphabet().loc(a)
    }

    /// How many records of local states are live.
    pub fn live(&self) -> usize
        ensures value { result ≡ live self.now.shared.shelf }
        ensures within { result ≤ bound self.now.given.dfa.alphabet.processes self.now.shared.cache }
        ensures table { IsTable self.now }
    {
        self.shared.live()
    }

    /// How many records there may be at most: one for each process and one more, and as many again
    /// for each line of the cache.
    pub fn bound(&self) -> usize
        ensures { result ≡ bound self.now.given.dfa.alphabet.processes self.now.shared.cache }
    {
        self.shared.bound()
    }

    /// The local state of the process after the journal.
    pub fn local(&self, p: usize) -> &Local
        requires { p < self.now.given.dfa.alphabet.processes }
        ensures { result.now ≡ local_after self.now.given.dfa self.now.state.journal p }
    {
        self.shared.local(p)
    }

    /// How many events of the process are in the journal.
    pub fn count(&self, p: usize) -> usize
        requires { p < self.now.given.dfa.alphabet.processes }
        ensures { result ≡ fired_by (machine_of self.now.given) self.now.state.journal p }
    {
        self.progress.counts[p]
    }

    /// The place in the journal of the latest event of the process, and `None` exactly where it has
    /// none.
    pub fn fired_at(&self, p: usize) -> Option<usize>
        requires { p < self.now.given.dfa.alphabet.processes }
        ensures { result ≡ last_event (machine_of self.now.given) self.now.state.journal p }
    {
        self.progress.latest[p]
    }

    /// The letter of the script of the process behind those that are in the journal.
    fn letter_behind(&self, p: usize) -> Option<Letter>
        requires { p < self.now.given.dfa.alphabet.processes }
        ensures value { option_map (λ (a : Letter). a.0) result ≡
            next (machine_of self.now.given) self.now.state.journal p }
        ensures table { IsTable self.now }
    {
        self.scripts
            .script(p)
            .letters()
            .get(self.progress.counts[p])
            .copied()
    }

    /// The next letter of the process, one of its letters, and `None` exactly where its script is used
    /// up. Where there is one the process may arrive, if it has not; where there is none it may end.
    pub fn next(&self, p: usize) -> Option<Letter>
        requires { p < self.now.given.dfa.alphabet.processes }
        ensures value { option_map (λ (a : Letter). a.0) result ≡
            next (machine_of self.now.given) self.now.state.journal p }
        ensures own { IfSome result (λ a. IsLetterOf self.now.given.dfa.alphabet p a.0) }
        ensures left { IsSome result → fired_by (machine_of self.now.given) self.now.state.journal p <
            length (script_of self.now.given.scripts p) }
        ensures used_up { IsNone result → projection (loc_of self.now.given.dfa.alphabet) p self.now.state.journal ≡
            script_of self.now.given.scripts p }
    {
        self.letter_behind(p)
    }

    /// Whether the process has arrived at its next letter.
    pub fn arrived(&self, p: usize) -> bool
        requires { p < self.now.given.dfa.alphabet.processes }
        ensures { result ≡ is_in self.now.state.arrived p }
    {
        self.progress.arrived[p]
    }

    /// Whether the process has ended.
    pub fn ended(&self, p: usize) -> bool
        requires { p < self.now.given.dfa.alphabet.processes }
        ensures { result ≡ is_in self.now.state.ended p }
    {
        self.progress.ended[p]
    }

    /// Who has the letter in hand, and `None` exactly where nobody has.
    pub fn in_hand(&self, a: Letter) -> Option<usize>
        requires { a.0 < length self.now.given.dfa.alphabet.letters }
        ensures value { result ≡ hand self.now.hands a.0 }
        ensures complete { (p : ℕ) → hand self.now.hands a.0 ≡ Some p →
            IsInHand (machine_of self.now.given) self.now.state a.0 p }
    {
        self.hands[a.0 as usize]
    }

    /// The processes of the letter that have not arrived at it.
    pub fn missing(&self, a: Letter) -> Procs
        requires { a.0 < length self.now.given.dfa.alphabet.letters }
        ensures missing { AreMissing (machine_of self.now.given) self.now.state a.0 result }
        ensures none { (members result ≡ []) ↔ (is_complete (machine_of self.now.given) self.now.state a.0 ≡ true) }
    {
        self.missing[a.0 as usize]
    }

    /// Whether all processes of the letter have arrived at it.
    pub fn complete(&self, a: Letter) -> bool
        requires { a.0 < length self.now.given.dfa.alphabet.letters }
        ensures { result ≡ is_complete (machine_of self.now.given) self.now.state a.0 }
    {
        self.missing(a).is_empty()
    }

    /// The letter at which the process waits, if that is complete and below `first`; else `first`.
    fn lesser_complete(&self, first: usize, p: usize) -> usize
        requires process { p < self.now.given.dfa.alphabet.processes }
        requires small { first ≤ length self.now.given.dfa.alphabet.letters }
        ensures least { result ≤ first }
        ensures found { (result ≡ first) ⊎
            (is_complete (machine_of self.now.given) self.now.state result ≡ true) }
        ensures covers { (a : ℕ) → is_complete (machine_of self.now.given) self.now.state a ≡ true →
            IsTrue (has (loc_of self.now.given.dfa.alphabet a) p) → result ≤ a }
    {
        let Some(a) = self.next(p) else {
            return first;
        };
        if (a.0 as usize) < first && self.complete(a) {
            return a.0 as usize;
        }
        first
    }

    /// The least complete letter, and the number of letters where there is none.
    pub(crate) fn first_complete(&self) -> usize
        ensures table { IsTable self.now }
        ensures first { result ≡ least (is_complete (machine_of self.now.given) self.now.state)
            (length self.now.given.dfa.alphabet.letters) }
        ensures small { result ≤ most_letters }
    {
        let mut first = self.letters();
        for p in 0..self.processes() {
            first = self.lesser_complete(first, p);
        }
        first
    }

    /// Whether each process has arrived or ended.
    fn are_settled(&self) -> bool
        ensures { IsTrue result ↔ ((p : ℕ) → p < self.now.given.dfa.alphabet.processes →
            (is_in self.now.state.arrived p || is_in self.now.state.ended p) ≡ true) }
    {
        for p in 0..self.processes() {
            if !self.arrived(p) && !self.ended(p) {
                return false;
            }
        }
        true
    }

    /// Whether no letter is complete and each process has arrived or ended.
    pub fn over(&self) -> bool
        ensures over { IsTrue result ↔ IsOver (machine_of self.now.given) self.now.state }
        ensures table { IsTable self.now }
    {
        self.first_complete() == self.letters() && self.are_settled()
    }
}
