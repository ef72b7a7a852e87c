//! Refining classes of states by rounds (Moore 1956).

ghost use Rattle.std.specs.Prelude.{◌≡◌, ◌<◌, ◌↔◌, IsTrue, IfOk, length, slice_index};
ghost use Rattle.std.specs.Option.{ForSome, option_copied};
ghost use Rattle.za_alpha.specs.Search.{least};
ghost use Rattle.za_dfa.specs.Tables.{automaton_of};
ghost use Rattle.za_min.specs.Private.Rounds.{same_next, same_after, classes_after, AreRoundsOf};

use std::alloc::Global;
use std::marker::Model;
use za_alpha::{Letter, OutOfMemory};
use za_dfa::Dfa;

/// A class for each state, named by its least state. Contracts see the list of these names.
#[derive(Debug, Drop)]
pub(crate) struct Classes {
    names: Vec<u8>,
}

impl Model for Classes {
    ghost use Rattle.std.specs.Prelude.{List, ℕ};

    ghost Value = { List ℕ };

    ghost view = { λ classes. classes.names.items };
}

impl Classes {
    /// The class of a state.
    pub(crate) fn of(&self, q: u8) -> u8
        requires { q < length self.now }
        ensures { result ≡ slice_index self.now q }
    {
        self.names[q as usize]
    }

    /// Whether each state has the same class in both.
    fn is_same(&self, other: &Classes) -> bool
        ensures { IsTrue result ↔ (self.now ≡ other.now) }
    {
        self.names.as_slice() == other.names.as_slice()
    }

    /// Whether two states are in one class, and each letter leads them into one.
    fn is_same_next(&self, dfa: &Dfa, q: u8, r: u8) -> bool
        requires classes { length self.now ≡ dfa.now.states }
        requires first { q < dfa.now.states }
        requires second { r < dfa.now.states }
        ensures { result ≡ same_next (automaton_of dfa.now) self.now q r }
    {
        if self.of(q) != self.of(r) {
            return false;
        }
        for a in 0..dfa.alphabet().letters() as u8 {
            let a = Letter(a);
            if self.of(dfa.step(q, a)) != self.of(dfa.step(r, a)) {
                return false;
            }
        }
        true
    }
}

/// Whether two states are in one class of the next round: of the first, where both accept or neither
/// does, and of one after given classes, where they are in one class and each letter leads them into
/// one.
fn is_same_after(dfa: &Dfa, before: Option<&Classes>, q: u8, r: u8) -> bool
    requires classes { ForSome (option_copied before) (λ classes. length classes ≡ dfa.now.states) }
    requires first { q < dfa.now.states }
    requires second { r < dfa.now.states }
    ensures { result ≡ same_after (automaton_of dfa.now) (option_copied before.entry) q r }
{
    match before {
        None => dfa.accepting(q) == dfa.accepting(r),
        Some(classes) => classes.is_same_next(dfa, q, r),
    }
}

/// The least state of the class of `q` in the next round.
fn least_after(dfa: &Dfa, before: Option<&Classes>, q: u8) -> u8
    requires classes { ForSome (option_copied before) (λ classes. length classes ≡ dfa.now.states) }
    requires state { q < dfa.now.states }
    ensures { result ≡
        least (λ r. same_after (automaton_of dfa.now) (option_copied before.entry) r q) dfa.now.states }
{
    for r in 0..q {
        if is_same_after(dfa, before, r, q) {
            return r;
        }
    }
    q
}

/// The classes of the next round: of the first, or of one after given classes.
fn classes_after(alloc: Global, dfa: &Dfa, before: Option<&Classes>) -> Result<Classes, OutOfMemory>
    requires { ForSome (option_copied before) (λ classes. length classes ≡ dfa.now.states) }
    ensures { IfOk result (λ classes.
        classes ≡ classes_after (automaton_of dfa.now) (option_copied before.entry)) }
{
    let mut names = Vec::new(alloc);
    for q in 0..dfa.states() as u8 {
        names.push(least_after(dfa, before, q))?;
    }
    Ok(Classes { names })
}

/// The classes of each round, up to the first that the next one doesn't change.
pub(crate) fn rounds_of(alloc: Global, dfa: &Dfa) -> Result<Vec<Classes>, OutOfMemory>
    ensures { IfOk result (λ rows. AreRoundsOf dfa.now rows.items) }
{
    let mut rows = Vec::with_capacity(alloc, dfa.states())?;
    let mut classes = classes_after(alloc, dfa, None)?;
    loop {
        let next = classes_after(alloc, dfa, Some(&classes))?;
        let is_stable = next.is_same(&classes);
        rows.push(classes)?;
        if is_stable {
            return Ok(rows);
        }
        classes = next;
    }
}
