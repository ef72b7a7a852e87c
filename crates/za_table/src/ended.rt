//! A table that is over.

ghost use Rattle.std.specs.Prelude.{◌≡◌, ℕ, ◌<◌, length};
ghost use Rattle.za_alpha.specs.Alphabet.{loc_of};
ghost use Rattle.za_dfa.specs.Tables.{automaton_of};
ghost use Rattle.za_script.specs.ScriptLists.{script_of};
ghost use Rattle.za_script.specs.Answer.{IsAnswer};
ghost use Rattle.za_machine.specs.Machine.{IsOver, fired_by};
ghost use Rattle.za_machine.specs.Answer.{answer_at};
ghost use Rattle.za_local.specs.Locals.{local_after};
ghost use Rattle.za_table.specs.Tables.{machine_of, label_at};
ghost use Rattle.za_table.specs.Ends.{IsEnded, HasAnswer};

use crate::table::Table;
use std::marker::Model;
use za_alpha::Word;
use za_local::Local;
use za_script::{Answer, Scripts};
use za_shared::SharedLocals;

/// What a table that is over leaves: its answer, the word of its journal with the labels, and the
/// local states. It comes from such a table alone.
#[derive(Drop)]
pub struct Ended {
    shared: SharedLocals,
    scripts: Scripts,
    word: Word,
    labels: Vec<u16>,
    arrived: Vec<bool>,
    ended: Vec<bool>,
    counts: Vec<usize>,
    answer: Answer,
}

impl Model for Ended {
    ghost use Rattle.za_table.specs.Ends.{EndedState};

    ghost Value = { EndedState };

    ghost use Rattle.za_table.specs.Private.Inside.{ended_in, IsEndedInside};

    ghost view = { ended_in };

    ghost invariant = { IsEndedInside };
}

impl Table {
    /// What the table leaves, which is over. It takes no memory.
    pub fn into_ended(mut self) -> Ended
        requires { IsOver (machine_of self.given) self.state }
        ensures value { result ≡ record { given = self.given; state = self.state } }
        ensures answer { HasAnswer result }
    {
        let answer = self.answer();
        let Table {
            shared,
            scripts,
            progress,
            hands: _,
            missing: _,
        } = self;
        Ended {
            shared,
            scripts,
            word: Word::of_letters(progress.journal),
            labels: progress.labels,
            arrived: progress.arrived,
            ended: progress.ended,
            counts: progress.counts,
            answer,
        }
    }
}

impl Ended {
    /// The answer to the scripts.
    pub fn answer(&self) -> Answer
        ensures over { IsEnded self.now }
        ensures value { result ≡ answer_at (automaton_of self.now.given.dfa) self.now.state }
        ensures answer { IsAnswer (loc_of self.now.given.dfa.alphabet) (automaton_of self.now.given.dfa)
            (script_of self.now.given.scripts) result }
    {
        self.answer
    }

    /// The letters of the journal in order.
    pub fn word(&self) -> &Word
        ensures { result.now ≡ self.now.state.journal }
    {
        &self.word
    }

    /// The label of the event at a place of the word.
    pub fn label(&self, at: usize) -> u16
        requires { at < length self.now.state.journal }
        ensures { result ≡ label_at self.now.given.dfa self.now.state.journal at }
    {
        self.labels[at]
    }

    /// How many letters of the word process `p` has.
    pub fn count(&self, p: usize) -> usize
        requires { p < self.now.given.dfa.alphabet.processes }
        ensures { result ≡ fired_by (machine_of self.now.given) self.now.state.journal p }
    {
        self.counts[p]
    }

    /// The local state of process `p` after the word.
    pub fn local(&self, p: usize) -> &Local
        requires { p < self.now.given.dfa.alphabet.processes }
        ensures value { result.now ≡ local_after self.now.given.dfa self.now.state.journal p }
        ensures over { IsEnded self.now }
    {
        self.shared.local(p)
    }
}
