ghost use Rattle.std.specs.Prelude.{◌≡◌, ◌<◌, ◌≤◌, ◌==◌, [], ◌∷◌, ◌++◌, length, IfOk};
ghost use Rattle.za_alpha.specs.Words.{IsWord};
ghost use Rattle.za_alpha.specs.Alphabet.{loc_of};
ghost use Rattle.za_order.specs.Views.{participants};
ghost use Rattle.za_order.specs.Entries.{primary, secondary, tertiary};
ghost use Rattle.za_order.specs.Labels.{label};

use crate::entries::{own_of_least, past_of_next, take_part};
use crate::events::{Event, Row, latest_in};
use crate::labels::free_label;
use std::alloc::Global;
use std::marker::Model;
use za_alpha::{Alphabet, Letter, MOST_PROCESSES, OutOfMemory};

/// A word over an alphabet that grows event by event, with what each process knows newest of the
/// others and with the label of each event (Mukund and Sohoni 1997). Events are named by their
/// positions, from 0 on.
#[derive(Debug, Drop)]
pub struct Marks {
    alphabet: Alphabet,
    room: usize,
    events: Vec<Event>,
    /// The last event of each process.
    own: Row,
}

impl Model for Marks {
    ghost use Rattle.za_views.specs.Marks.{MarkedWord};

    ghost Value = { MarkedWord };

    ghost use Rattle.za_views.specs.Private.Kept.{marked_word, IsKept};

    ghost view = { marked_word };

    ghost invariant = { IsKept };
}

impl Marks {
    ghost use Rattle.za_views.specs.Marks.{unmarked};

    /// The empty word over the alphabet, with room for `room` events, 65,536 at most.
    pub fn new(alloc: Global, alphabet: &Alphabet, room: usize) -> Result<Marks, OutOfMemory>
        requires { room ≤ 65536 }
        ensures { IfOk result (λ m. m ≡ unmarked alphabet.now room) }
    {
        let events = Vec::with_capacity(alloc, room)?;
        let alphabet = alphabet.copy()?;
        Ok(Marks {
            alphabet,
            room,
            events,
            own: [None; MOST_PROCESSES],
        })
    }

    /// How many events there are.
    pub fn len(&self) -> usize
        ensures value { result ≡ length self.now.word }
        ensures within { length self.now.word ≤ self.now.room }
        ensures word { IsWord (length self.now.alphabet.letters) self.now.word }
    {
        self.events.len()
    }

    /// Whether there is no event.
    pub fn is_empty(&self) -> bool
        ensures { result ≡ (length self.now.word == 0) }
    {
        self.events.is_empty()
    }

    /// How many events there is room for in all.
    pub fn room(&self) -> usize
        ensures { result ≡ self.now.room }
    {
        self.room
    }

    /// Appends an event of the letter, and answers its label: the least that no event of the letter
    /// has that is a tertiary entry of the least participant just before. It is at most the cube of
    /// the number of processes.
    pub fn push(&mut self, a: Letter) -> u16
        requires room { length self.old.word < self.old.room }
        requires letter { a.0 < length self.old.alphabet.letters }
        ensures label { let alphabet = self.old.alphabet in
            let longer = self.old.word ++ a.0 ∷ [] in
            result ≡ label (loc_of alphabet) alphabet.processes longer (length self.old.word) }
        ensures word { self.new ≡ record self.old { word = self.old.word ++ a.0 ∷ [] } }
    {
        let processes = self.alphabet.processes();
        let takes = self.alphabet.loc(a);
        let events = self.events.as_slice();
        let at = events.len();
        let past = past_of_next(events, &self.own, takes, processes);
        let own = own_of_least(&self.own, takes, processes);
        let label = free_label(events, processes, a, own);
        self.events.push_reserved(Event {
            letter: a,
            label,
            past,
        });
        take_part(&mut self.own, takes, processes, at);
        label
    }

    /// The latest event of process `q` that process `p` knows, its primary entry, and `None`
    /// exactly where there is none.
    pub fn latest(&self, p: usize, q: usize) -> Option<usize>
        requires first { p < self.now.alphabet.processes }
        requires second { q < self.now.alphabet.processes }
        ensures { let who = participants (loc_of self.now.alphabet) self.now.word in
            result ≡ primary who (length self.now.word) p q }
    {
        latest_in(self.events.as_slice(), self.own[p], q)
    }

    /// The latest event of process `r` in the past of `latest(p, q)`, a secondary entry of `p`, and
    /// `None` exactly where there is none.
    pub fn second(&self, p: usize, q: usize, r: usize) -> Option<usize>
        requires first { p < self.now.alphabet.processes }
        requires second { q < self.now.alphabet.processes }
        requires third { r < self.now.alphabet.processes }
        ensures { let who = participants (loc_of self.now.alphabet) self.now.word in
            result ≡ secondary who (length self.now.word) p q r }
    {
        latest_in(self.events.as_slice(), self.latest(p, q), r)
    }

    /// The latest event of process `s` in the past of `second(p, q, r)`, a tertiary entry of `p`,
    /// and `None` exactly where there is none.
    pub fn third(&self, p: usize, q: usize, r: usize, s: usize) -> Option<usize>
        requires first { p < self.now.alphabet.processes }
        requires second { q < self.now.alphabet.processes }
        requires third { r < self.now.alphabet.processes }
        requires fourth { s < self.now.alphabet.processes }
        ensures { let who = participants (loc_of self.now.alphabet) self.now.word in
            result ≡ tertiary who (length self.now.word) p q r s }
    {
        latest_in(self.events.as_slice(), self.second(p, q, r), s)
    }

    /// The label of the event at position `at`.
    pub fn label(&self, at: usize) -> u16
        requires { at < length self.now.word }
        ensures { result ≡ label (loc_of self.now.alphabet) self.now.alphabet.processes self.now.word at }
    {
        self.events[at].label
    }
}
