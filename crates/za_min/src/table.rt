//! The table of the states that were found, numbered by their places.

ghost use Rattle.std.specs.Prelude.{◌≡◌, ◌<◌, ◌≤◌, ◌*◌, All, IfOk, length, map};
ghost use Rattle.za_dfa.specs.Tables.{automaton_of, accepts_at};
ghost use Rattle.za_min.specs.Minimal.{IsMinimalOf, IsNumberedBy};
ghost use Rattle.za_min.specs.Private.Rounds.{AreClassesOf};
ghost use Rattle.za_min.specs.Private.Exploring.{merged_of, AreAllFound, IsTarget, AreTargets};

use crate::classes::Classes;
use crate::explore::{Found, place_of};
use std::alloc::Global;
use za_alpha::{Letter, OutOfMemory};
use za_dfa::Dfa;

/// The place of the state that a letter leads to from the state at place `k`.
fn target(found: &Found, dfa: &Dfa, classes: &Classes, k: usize, a: Letter) -> u8
    requires classes { AreClassesOf dfa.now classes.now }
    requires found { AreAllFound (merged_of dfa.now classes.now) found.now.words.items found.now.states.items }
    requires place { k < length found.now.words.items }
    requires letter { a.0 < length dfa.now.alphabet.letters }
    ensures { IsTarget (merged_of dfa.now classes.now) found.now.words.items k a.0 result }
{
    let next = found.next(dfa, classes, k, a);
    place_of(&found.states, next).unwrap() as u8
}

/// The targets of all letters at all places, place by place.
fn targets_of(
    alloc: Global,
    dfa: &Dfa,
    classes: &Classes,
    found: &Found,
) -> Result<Vec<u8>, OutOfMemory>
    requires classes { AreClassesOf dfa.now classes.now }
    requires found { AreAllFound (merged_of dfa.now classes.now) found.now.words.items found.now.states.items }
    ensures { IfOk result (λ targets.
        AreTargets (merged_of dfa.now classes.now) found.now.words.items
        (length found.now.words.items * length dfa.now.alphabet.letters) targets.items) }
{
    let letters = dfa.alphabet().letters();
    let mut targets = Vec::new(alloc);
    for i in 0..found.words.len() * letters {
        let a = Letter((i % letters) as u8);
        targets.push(target(found, dfa, classes, i / letters, a))?;
    }
    Ok(targets)
}

/// Which of the states accept.
fn accepting_of(alloc: Global, dfa: &Dfa, states: &[u8]) -> Result<Vec<bool>, OutOfMemory>
    requires { All (λ q. q < dfa.now.states) states.now }
    ensures { IfOk result (λ accepting. accepting.items ≡ map (accepts_at dfa.now) states.now) }
{
    let mut accepting = Vec::new(alloc);
    for q in states {
        accepting.push(dfa.accepting(*q))?;
    }
    Ok(accepting)
}

/// The table of the classes that were found, each numbered by its place.
pub(crate) fn table_of(
    alloc: Global,
    dfa: &Dfa,
    classes: &Classes,
    found: &Found,
) -> Result<Dfa, OutOfMemory>
    requires classes { AreClassesOf dfa.now classes.now }
    requires found { AreAllFound (merged_of dfa.now classes.now) found.now.words.items found.now.states.items }
    ensures minimal { IfOk result (λ table. IsMinimalOf table dfa.now) }
    ensures numbered { IfOk result (λ table. IsNumberedBy (automaton_of table) found.now.words.items) }
    ensures no_larger { IfOk result (λ table. table.states ≤ dfa.now.states) }
{
    let targets = targets_of(alloc, dfa, classes, found)?;
    let accepting = accepting_of(alloc, dfa, &found.states)?;
    let alphabet = dfa.alphabet().copy()?;
    Ok(Dfa::of_table(alphabet, 0, accepting, targets))
}
