//! A table that is run on one thread until it is over.

ghost use Rattle.std.specs.Prelude.{◌≡◌, ℕ, ◌<◌, ◌≤◌, ◌++◌, length, true, None};
ghost use Rattle.za_alpha.specs.Alphabet.{loc_of};
ghost use Rattle.za_script.specs.ScriptLists.{script_of};
ghost use Rattle.za_script.specs.Scripts.{weave};
ghost use Rattle.za_script.specs.Rests.{rests};
ghost use Rattle.za_machine.specs.Machine.{IsOver, is_in, fired_by};
ghost use Rattle.za_machine.specs.Hands.{hand};
ghost use Rattle.za_table.specs.Tables.{machine_of, IsTable};

use crate::table::Table;
use za_alpha::Letter;

impl Table {
    /// Lets the process arrive, if it can.
    fn try_arrive(&mut self, p: usize)
        requires inside { p < self.old.given.dfa.alphabet.processes }
        ensures rest { self.new ≡
            record self.old { state = record self.old.state { arrived = self.new.state.arrived } } }
        ensures here { fired_by (machine_of self.new.given) self.new.state.journal p <
            length (script_of self.new.given.scripts p) → is_in self.new.state.arrived p ≡ true }
        ensures stay { (q : ℕ) → is_in self.old.state.arrived q ≡ true → is_in self.new.state.arrived q ≡ true }
    {
        let _closed = self.closed();
        if self.arrived(p) || self.next(p).is_none() {
            return;
        }
        self.arrive(p);
    }

    /// Ends the process, if its script is used up.
    fn try_end(&mut self, p: usize)
        requires inside { p < self.old.given.dfa.alphabet.processes }
        ensures rest { self.new ≡
            record self.old { state = record self.old.state { ended = self.new.state.ended } } }
        ensures gone { length (script_of self.new.given.scripts p) ≤
            fired_by (machine_of self.new.given) self.new.state.journal p → is_in self.new.state.ended p ≡ true }
        ensures stay { (q : ℕ) → is_in self.old.state.ended q ≡ true → is_in self.new.state.ended q ≡ true }
    {
        let _closed = self.closed();
        if self.ended(p) || self.next(p).is_some() {
            return;
        }
        self.end(p);
    }

    /// Lets every process arrive that can.
    fn arrive_all(&mut self)
        ensures given { self.new.given ≡ self.old.given }
        ensures hands { self.new.hands ≡ self.old.hands }
        ensures journal { self.new.state.journal ≡ self.old.state.journal }
        ensures all { (p : ℕ) → p < self.new.given.dfa.alphabet.processes →
            fired_by (machine_of self.new.given) self.new.state.journal p <
            length (script_of self.new.given.scripts p) → is_in self.new.state.arrived p ≡ true }
    {
        for p in 0..self.processes() {
            self.try_arrive(p);
        }
    }

    /// Ends every process whose script is used up.
    fn end_all(&mut self)
        ensures given { self.new.given ≡ self.old.given }
        ensures hands { self.new.hands ≡ self.old.hands }
        ensures journal { self.new.state.journal ≡ self.old.state.journal }
        ensures arrived { self.new.state.arrived ≡ self.old.state.arrived }
        ensures all { (p : ℕ) → p < self.new.given.dfa.alphabet.processes →
            length (script_of self.new.given.scripts p) ≤
            fired_by (machine_of self.new.given) self.new.state.journal p → is_in self.new.state.ended p ≡ true }
    {
        for p in 0..self.processes() {
            self.try_end(p);
        }
    }

    /// Lets every process arrive that can and fires the least complete letter, until none is
    /// complete, and then ends every process whose script is used up. Nobody has a letter in hand.
    /// The table is then over, and the weave of what was left of the scripts stands behind the journal.
    pub fn finish(&mut self)
        requires { (a : ℕ) → hand self.old.hands a ≡ None }
        ensures given { self.new.given ≡ self.old.given }
        ensures hands { self.new.hands ≡ self.old.hands }
        ensures over { IsOver (machine_of self.new.given) self.new.state }
        ensures journal { self.new.state.journal ≡ self.old.state.journal ++
            weave (loc_of self.old.given.dfa.alphabet) (length self.old.given.dfa.alphabet.letters)
            self.old.given.dfa.alphabet.processes
            (rests (loc_of self.old.given.dfa.alphabet) (script_of self.old.given.scripts) self.old.state.journal) }
    {
        let _over = self.over();
        loop {
            self.arrive_all();
            let a = self.first_complete();
            if a == self.letters() {
                break;
            }
            self.fire(Letter(a as u8));
        }
        self.end_all();
    }
}
