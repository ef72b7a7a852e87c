//! The local states of all processes, and how letters change them.

ghost use Rattle.std.specs.Prelude.{◌≡◌, ◌<◌, ◌≤◌, ◌+◌, ℕ, List, [], ◌∷◌, Some, None, IsTrue, MatchBool, IfOk, IfSome};
ghost use Rattle.std.specs.Prelude.{length, map, slice_index};
ghost use Rattle.std.specs.Map.{lookup};
ghost use Rattle.za_alpha.specs.Limits.{most_processes};
ghost use Rattle.za_alpha.specs.Words.{has};
ghost use Rattle.za_alpha.specs.Procs.{members};
ghost use Rattle.za_alpha.specs.Alphabet.{loc_of};
ghost use Rattle.za_dfa.specs.Automata.{walk};
ghost use Rattle.za_dfa.specs.Tables.{step_of};
ghost use Rattle.za_records.specs.Shelf.{count, live};
ghost use Rattle.za_local.specs.Locals.{HasShape, local_after, AreLocalsAfter, AreAllLocalsAfter};
ghost use Rattle.za_cache.specs.Lines.{is_key};
ghost use Rattle.za_shared.specs.Holders.{value, values_at};
ghost use Rattle.za_shared.specs.Records.{bound, locals_of, AreRecords, AreOpened, AreOfAWord};
ghost use Rattle.za_shared.specs.Records.{IsTransition, IsRemembered, HasFired};
ghost use Rattle.za_shared.specs.Private.Steps.{key_given, last_of, IsMade, IsUsable};
ghost use Rattle.za_shared.specs.Private.Steps.{HasAdopted, HasEntered};

use crate::holders::{hold_for, hold_line, leave, let_go, let_go_kept, shelve};
use crate::marks::mark_of;
use crate::opening::{openings, rows_for};
use crate::seats::{are_on, choose, gather, gather_all, give, turn, vacate};
use smallvec::SmallVec;
use std::alloc::Global;
use std::marker::Model;
use za_alpha::{Letter, OutOfMemory, Procs};
use za_cache::{RowKey, Rows};
use za_dfa::Closed;
use za_local::{Bench, Local, opening, transit, verdict};
use za_records::{Key, Shelf};

/// A transition that was made elsewhere: the local states that it is of, and the one that it gives.
#[derive(Clone, Copy)]
struct Made<'a> {
    bench: &'a Bench,
    output: &'a Local,
}

/// The local states of all processes of an automaton, as counted records. The holders of a record are
/// the processes whose local state it is and the cached transitions that name it. Equal local states
/// are one record, and one that nobody holds is used again.
#[derive(Drop)]
pub struct SharedLocals {
    closed: Closed,
    shelf: Shelf<Local>,
    spares: Vec<Local>,
    /// The key that the call in progress holds: none between two calls.
    own: Option<u32>,
    keys: Vec<u32>,
    rows: Option<Rows>,
    bench: Bench,
    /// By key, the mark of its record, if it is live.
    marks: Vec<u32>,
}

impl Model for SharedLocals {
    ghost use Rattle.za_shared.specs.Records as spec;

    ghost Value = { spec.Records };

    ghost use Rattle.za_shared.specs.Private.Inside.{records_in, AreRecordsInside};

    ghost view = { records_in };

    ghost invariant = { AreRecordsInside };
}

impl SharedLocals {
    /// All processes share the opening local state, and up to `cache` transitions are kept. All memory
    /// is taken here, but what lines of the cache ask for. Want of memory is the one free answer.
    pub fn open(alloc: Global, closed: Closed, cache: u8) -> Result<SharedLocals, OutOfMemory>
        ensures { IfOk result (λ r. AreOpened closed cache r) }
    {
        let _states = closed.dfa().states();
        let n = closed.dfa().alphabet().processes();
        let bound = n + 1 + (n + 1) * cache as usize;
        let mut shelf = Shelf::new(alloc, bound)?;
        let spares = openings(alloc, &closed, bound - 1)?;
        let first = opening(alloc, &closed)?;
        let marks = vec![in alloc; mark_of(&first); bound]?;
        let key = shelf.put(first, n as u32);
        let keys = vec![in alloc; key.0; n]?;
        let rows = rows_for(alloc, cache)?;
        let bench = Bench::new(alloc, &closed)?;
        Ok(SharedLocals {
            closed,
            shelf,
            spares,
            own: None,
            keys,
            rows,
            bench,
            marks,
        })
    }

    /// The automaton.
    pub fn closed(&self) -> &Closed
        ensures value { result.now ≡ self.now.dfa }
        ensures records { AreRecords self.now }
    {
        &self.closed
    }

    /// How many records are live.
    pub fn live(&self) -> usize
        ensures value { result ≡ live self.now.shelf }
        ensures few { result ≤ bound self.now.dfa.alphabet.processes self.now.cache }
    {
        self.shelf.live()
    }

    /// How many records there may be: one for each process and one more, and as many again for each
    /// line of the cache.
    pub fn bound(&self) -> usize
        ensures { result ≡ bound self.now.dfa.alphabet.processes self.now.cache }
    {
        self.shelf.capacity()
    }

    /// The local state of a process.
    pub fn local(&self, p: usize) -> &Local
        requires { p < self.now.dfa.alphabet.processes }
        ensures value { result.now ≡ value self.now.shelf (slice_index self.now.keys p) }
        ensures after { (w : List ℕ) → AreAllLocalsAfter self.now.dfa w (locals_of self.now) →
            result.now ≡ local_after self.now.dfa w p }
    {
        self.shelf.get(Key(self.keys[p]))
    }

    /// Puts copies of these processes' local states onto a bench, in rising order, in place of what it
    /// had. The bench is for as many processes and states. It takes no memory.
    pub fn gather_into(&self, participants: Procs, bench: &mut Bench)
        requires processes { bench.old.processes ≡ self.now.dfa.alphabet.processes }
        requires states { bench.old.states ≡ self.now.dfa.states }
        requires within { (p : ℕ) → IsTrue (has (members participants) p) → p < self.now.dfa.alphabet.processes }
        ensures bench { bench.new ≡
            record bench.old { locals = values_at self.now.shelf self.now.keys (members participants) } }
        ensures after { (w : List ℕ) → AreAllLocalsAfter self.now.dfa w (locals_of self.now) →
            AreLocalsAfter self.now.dfa w (members participants) bench.new.locals }
    {
        gather(&self.shelf, &self.keys, participants, bench);
    }

    /// Where the word leads from the start after which the processes have their local states. It reads
    /// these alone, and leaves all as it was. It takes no memory.
    pub fn verdict(&mut self) -> u8
        requires { AreOfAWord self.old }
        ensures state { (w : List ℕ) → AreAllLocalsAfter self.old.dfa w (locals_of self.old) →
            result ≡ walk (step_of self.old.dfa) self.old.dfa.start w }
        ensures rest { self.new ≡ self.old }
    {
        gather_all(&self.shelf, &self.keys, &mut self.bench);
        verdict(&self.closed, &self.bench)
    }

    /// Fires a letter by its line, where there is one: the participants get its output. It names their
    /// records, so all of these stay live. Where there is no line all is as it was.
    fn fire_again(&mut self, line: &RowKey, participants: Procs) -> bool
        requires letter { line.now.letter < length self.old.dfa.alphabet.letters }
        requires participants { members participants ≡ loc_of self.old.dfa.alphabet line.now.letter }
        requires free { self.old.own ≡ [] }
        requires inputs { line.now.inputs.items ≡ map (λ p. slice_index self.old.keys p) (members participants) }
        ensures { MatchBool result
            ((HasFired self.old self.new line.now.letter) × (AreRecords self.new))
            ((lookup (is_key line.now.letter line.now.inputs.items) self.old.lines ≡ None) × (self.new ≡ self.old)) }
    {
        let Some(rows) = &mut self.rows else {
            return false;
        };
        let Some(key) = rows.find_row(line) else {
            return false;
        };
        let inputs = line.inputs.as_slice();
        hold_for(&mut self.shelf, key, inputs.len() as u32);
        leave(&mut self.shelf, inputs);
        turn(&mut self.keys, participants, key);
        true
    }

    /// Computes the transition into the last spare record. It copies the participants' local states
    /// alone, onto the bench.
    fn compute(&mut self, a: Letter, participants: Procs)
        requires letter { a.0 < length self.old.dfa.alphabet.letters }
        requires participants { members participants ≡ loc_of self.old.dfa.alphabet a.0 }
        requires free { self.old.own ≡ [] }
        requires locals { AreOfAWord self.old }
        ensures rest { self.new ≡ record self.old { spares = self.new.spares } }
        ensures some { 0 < length self.new.spares }
        ensures transition { IsTransition self.old.dfa a.0
            (values_at self.old.shelf self.old.keys (members participants)) (last_of self.new.spares) }
    {
        let _live = self.shelf.live();
        gather(&self.shelf, &self.keys, participants, &mut self.bench);
        let last = self.spares.len() - 1;
        transit(&self.closed, a, &self.bench, &mut self.spares[last]);
    }

    /// Copies a local state into the last spare record.
    fn copy_in(&mut self, made: &Local)
        requires free { self.old.own ≡ [] }
        requires shape { HasShape self.old.dfa.alphabet.processes self.old.dfa.states made.now }
        ensures rest { self.new ≡ record self.old { spares = self.new.spares } }
        ensures some { 0 < length self.new.spares }
        ensures copied { last_of self.new.spares ≡ made.now }
    {
        let _live = self.shelf.live();
        let last = self.spares.len() - 1;
        self.spares[last].copy_from(made);
    }

    /// The transition stands in the last spare record from then on: what was made, where its bench has
    /// the participants' local states, and else it is computed now.
    fn take_or_compute(&mut self, a: Letter, participants: Procs, made: Option<Made>)
        requires letter { a.0 < length self.old.dfa.alphabet.letters }
        requires participants { members participants ≡ loc_of self.old.dfa.alphabet a.0 }
        requires free { self.old.own ≡ [] }
        requires locals { AreOfAWord self.old }
        requires made { IfSome made (λ m. IsMade self.old.dfa a.0 m.bench.now m.output.now) }
        ensures rest { self.new ≡ record self.old { spares = self.new.spares } }
        ensures some { 0 < length self.new.spares }
        ensures transition { IsTransition self.old.dfa a.0
            (values_at self.old.shelf self.old.keys (members participants)) (last_of self.new.spares) }
    {
        if let Some(made) = made {
            if are_on(&self.shelf, &self.keys, participants, made.bench) {
                self.copy_in(made.output);
                return;
            }
        }
        self.compute(a, participants);
    }

    /// The call holds a record that equals the last spare one from then on: one that is live, or the
    /// spare itself.
    fn adopt(&mut self)
        requires free { self.old.own ≡ [] }
        requires some { 0 < length self.old.spares }
        ensures { HasAdopted self.old self.new }
    {
        if let Some(made) = self.spares.pop() {
            let key = shelve(&mut self.shelf, &mut self.spares, &mut self.marks, made, 1);
            self.own = Some(key);
        }
    }

    /// Keeps the line of a transition whose output the call holds.
    fn remember(&mut self, a: Letter, inputs: &[u32], output: u32)
        requires few { length inputs.now ≤ self.old.dfa.alphabet.processes }
        requires held { self.old.own ≡ output ∷ [] }
        requires live { (k : ℕ) → IsTrue (has inputs.now k) → 0 < count self.old.shelf k }
        requires absent { lookup (is_key a.0 inputs.now) self.old.lines ≡ None }
        requires transition { IsTransition self.old.dfa a.0
            (map (value self.old.shelf) inputs.now) (value self.old.shelf output) }
        ensures rest { self.new ≡
            record self.old { shelf = self.new.shelf; lines = self.new.lines; spares = self.new.spares } }
        ensures values { (k : ℕ) → 0 < count self.new.shelf k → value self.new.shelf k ≡ value self.old.shelf k }
        ensures lines { IsRemembered self.old.cache self.old.lines self.new.lines a.0 inputs.now output }
    {
        let Some(rows) = &mut self.rows else {
            return;
        };
        hold_line(&mut self.shelf, inputs, output);
        let kept = rows.keep(a.0, inputs, output);
        let_go_kept(&mut self.shelf, &mut self.spares, kept);
    }

    /// The call holds a record that equals the last spare one, which is the transition of the inputs,
    /// and its line is kept.
    fn enter(&mut self, a: Letter, inputs: &[u32])
        requires few { length inputs.now ≤ self.old.dfa.alphabet.processes }
        requires free { self.old.own ≡ [] }
        requires some { 0 < length self.old.spares }
        requires live { (k : ℕ) → IsTrue (has inputs.now k) → 0 < count self.old.shelf k }
        requires absent { lookup (is_key a.0 inputs.now) self.old.lines ≡ None }
        requires transition { IsTransition self.old.dfa a.0
            (map (value self.old.shelf) inputs.now) (last_of self.old.spares) }
        ensures entered { HasEntered self.old self.new a.0 inputs.now }
        ensures records { AreRecords self.new }
    {
        self.adopt();
        if let Some(output) = self.own {
            self.remember(a, inputs, output);
            let _closed = self.closed();
        }
    }

    /// Gives the participants the record that the call holds, which then lets it go.
    fn hand_over(&mut self, participants: Procs, key: u32)
        requires held { self.old.own ≡ key ∷ [] }
        ensures rest { self.new ≡ record self.old {
          shelf = self.new.shelf;
          own = [];
          keys = self.new.keys;
          spares = self.new.spares;
        } }
        ensures keys { (p : ℕ) → slice_index self.new.keys p ≡
            key_given (members participants) key (length self.old.keys) self.old.keys p }
        ensures values { (k : ℕ) → 0 < count self.new.shelf k →
            (0 < count self.old.shelf k) × (value self.new.shelf k ≡ value self.old.shelf k) }
    {
        give(
            &mut self.shelf,
            &mut self.spares,
            &mut self.keys,
            participants,
            key,
        );
        let_go(&mut self.shelf, &mut self.spares, key);
        self.own = None;
    }

    /// Fires a letter that has no line: what was made is used or the transition computed, and its line is
    /// kept.
    fn fire_anew(&mut self, a: Letter, participants: Procs, inputs: &[u32], made: Option<Made>)
        requires letter { a.0 < length self.old.dfa.alphabet.letters }
        requires participants { members participants ≡ loc_of self.old.dfa.alphabet a.0 }
        requires free { self.old.own ≡ [] }
        requires locals { AreOfAWord self.old }
        requires made { IfSome made (λ m. IsMade self.old.dfa a.0 m.bench.now m.output.now) }
        requires inputs { inputs.now ≡ map (λ p. slice_index self.old.keys p) (members participants) }
        requires absent { lookup (is_key a.0 inputs.now) self.old.lines ≡ None }
        ensures fired { HasFired self.old self.new a.0 }
        ensures records { AreRecords self.new }
    {
        let _before = self.closed();
        self.take_or_compute(a, participants, made);
        self.enter(a, inputs);
        if let Some(key) = self.own {
            self.hand_over(participants, key);
            let _closed = self.closed();
        }
    }

    /// What was made, where its bench has the participants' local states.
    fn usable<'a>(
        &self,
        a: Letter,
        participants: Procs,
        made: Option<Made<'a>>,
    ) -> Option<&'a Local>
        requires letter { a.0 < length self.now.dfa.alphabet.letters }
        requires participants { members participants ≡ loc_of self.now.dfa.alphabet a.0 }
        requires locals { AreOfAWord self.now }
        requires made { IfSome made (λ m. IsMade self.now.dfa a.0 m.bench.now m.output.now) }
        ensures { IfSome result (λ local. IsUsable self.now.dfa a.0
            (values_at self.now.shelf self.now.keys (members participants)) local.now) }
    {
        match made {
            Some(made) => {
                if are_on(&self.shelf, &self.keys, participants, made.bench) {
                    Some(made.output)
                } else {
                    None
                }
            }
            None => None,
        }
    }

    /// Fires a letter where there is no cache. The participants let go of their records first: those
    /// that nobody else holds go to the bench themselves, and are spare afterwards.
    fn fire_alone(&mut self, a: Letter, participants: Procs, made: Option<Made>)
        requires none { self.old.cache ≡ 0 }
        requires letter { a.0 < length self.old.dfa.alphabet.letters }
        requires participants { members participants ≡ loc_of self.old.dfa.alphabet a.0 }
        requires free { self.old.own ≡ [] }
        requires locals { AreOfAWord self.old }
        requires made { IfSome made (λ m. IsMade self.old.dfa a.0 m.bench.now m.output.now) }
        ensures fired { HasFired self.old self.new a.0 }
        ensures records { AreRecords self.new }
    {
        let usable = self.usable(a, participants, made);
        let _live = self.shelf.live();
        let Some(local) = self.spares.pop() else {
            unreachable!()
        };
        let mut local = local;
        vacate(
            &mut self.shelf,
            &mut self.spares,
            &self.keys,
            participants,
            &mut self.bench,
        );
        make(&self.closed, a, &self.bench, usable, &mut local);
        let key = shelve(
            &mut self.shelf,
            &mut self.spares,
            &mut self.marks,
            local,
            self.bench.len() as u32,
        );
        turn(&mut self.keys, participants, key);
    }

    /// Fires a letter, with what was made where there is that.
    fn fire_by(&mut self, a: Letter, participants: Procs, made: Option<Made>)
        requires letter { a.0 < length self.old.dfa.alphabet.letters }
        requires participants { members participants ≡ loc_of self.old.dfa.alphabet a.0 }
        requires free { self.old.own ≡ [] }
        requires locals { AreOfAWord self.old }
        requires made { IfSome made (λ m. IsMade self.old.dfa a.0 m.bench.now m.output.now) }
        ensures fired { HasFired self.old self.new a.0 }
        ensures records { AreRecords self.new }
    {
        if self.rows.is_none() {
            self.fire_alone(a, participants, made);
            return;
        }
        let mut line = RowKey {
            letter: a.0,
            inputs: SmallVec::new(*self.keys.allocator()),
        };
        choose(&mut line.inputs, &self.keys, participants);
        if self.fire_again(&line, participants) {
            return;
        }
        self.fire_anew(a, participants, line.inputs.as_slice(), made);
    }

    /// Fires a letter: its participants get one local state, the transition of theirs, and all others
    /// keep theirs. A line of the cache is used where there is one, and nothing is computed then. It
    /// takes no memory but for a new line, and is done without one where that is refused.
    pub fn fire(&mut self, a: Letter, participants: Procs)
        requires letter { a.0 < length self.old.dfa.alphabet.letters }
        requires participants { members participants ≡ loc_of self.old.dfa.alphabet a.0 }
        requires free { self.old.own ≡ [] }
        requires locals { AreOfAWord self.old }
        ensures fired { HasFired self.old self.new a.0 }
        ensures records { AreRecords self.new }
    {
        self.fire_by(a, participants, None);
    }

    /// Fires a letter whose transition was computed elsewhere: `made` is the transition of the local
    /// states on the bench. It is used where these are the participants' local states, and else the
    /// transition is computed again. All else is as in `fire`.
    pub fn settle(&mut self, a: Letter, participants: Procs, bench: &Bench, made: &Local)
        requires letter { a.0 < length self.old.dfa.alphabet.letters }
        requires participants { members participants ≡ loc_of self.old.dfa.alphabet a.0 }
        requires free { self.old.own ≡ [] }
        requires locals { AreOfAWord self.old }
        requires processes { bench.now.processes ≡ self.old.dfa.alphabet.processes }
        requires states { bench.now.states ≡ self.old.dfa.states }
        requires made { IsTransition self.old.dfa a.0 bench.now.locals made.now }
        ensures fired { HasFired self.old self.new a.0 }
        ensures records { AreRecords self.new }
    {
        self.fire_by(
            a,
            participants,
            Some(Made {
                bench,
                output: made,
            }),
        );
    }
}

/// Writes the transition of what stands on the bench: what was made elsewhere, if it is usable, and
/// else it is computed now.
fn make(closed: &Closed, a: Letter, bench: &Bench, usable: Option<&Local>, into: &mut Local)
    requires letter { a.0 < length closed.now.alphabet.letters }
    requires locals { (w : List ℕ) × AreLocalsAfter closed.now w (loc_of closed.now.alphabet a.0) bench.now.locals }
    requires usable { IfSome usable (λ local. IsUsable closed.now a.0 bench.now.locals local.now) }
    requires shape { HasShape closed.now.alphabet.processes closed.now.states into.old }
    ensures { IsUsable closed.now a.0 bench.now.locals into.new }
{
    match usable {
        Some(made) => into.copy_from(made),
        None => {
            transit(closed, a, bench, into);
        }
    }
}
