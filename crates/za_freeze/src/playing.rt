//! The local states after the first events of a weave.

ghost use Rattle.std.specs.Prelude.{◌≡◌, ℕ, ◌<◌, List, IfOk, length, take};
ghost use Rattle.za_alpha.specs.Words.{IsWord};
ghost use Rattle.za_alpha.specs.Letters.{numbers};
ghost use Rattle.za_dfa.specs.Automata.{walk};
ghost use Rattle.za_dfa.specs.Tables.{step_of};
ghost use Rattle.za_local.specs.Locals.{AreAllLocalsAfter};

use std::alloc::Global;
use za_alpha::{Letter, OutOfMemory};
use za_dfa::Closed;
use za_local::{Bench, Local, fire_on, opening, openings, verdict};

/// The first letters, so many where there are as many, and else all.
pub(crate) fn first_letters(letters: &[Letter], count: usize) -> &[Letter]
    ensures { numbers result.now ≡ take count (numbers letters.now) }
{
    if count < letters.len() {
        &letters[..count]
    } else {
        letters
    }
}

/// The local states of all processes after the letters.
pub(crate) fn locals_after(
    alloc: Global,
    closed: &Closed,
    letters: &[Letter],
) -> Result<Vec<Local>, OutOfMemory>
    requires { IsWord (length closed.now.alphabet.letters) (numbers letters.now) }
    ensures { IfOk result (λ locals. AreAllLocalsAfter closed.now (numbers letters.now) locals.items) }
{
    let mut locals = openings(alloc, closed)?;
    let mut bench = Bench::new(alloc, closed)?;
    let mut fresh = opening(alloc, closed)?;
    for a in letters {
        fire_on(closed, *a, locals.as_mut_slice(), &mut bench, &mut fresh);
    }
    Ok(locals)
}

/// Where a word leads, by the local states of all processes after it.
pub(crate) fn state_after(
    alloc: Global,
    closed: &Closed,
    locals: &[Local],
) -> Result<u8, OutOfMemory>
    requires { (w : List ℕ) × AreAllLocalsAfter closed.now w locals.now }
    ensures state { (w : List ℕ) → AreAllLocalsAfter closed.now w locals.now →
        IfOk result (λ q. q ≡ walk (step_of closed.now) closed.now.start w) }
    ensures within { IfOk result (λ q. q < closed.now.states) }
{
    let mut bench = Bench::new(alloc, closed)?;
    for local in locals {
        bench.add(local);
    }
    let _states = closed.dfa().states();
    Ok(verdict(closed, &bench))
}
