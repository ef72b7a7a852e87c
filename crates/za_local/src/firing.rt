//! The local states of all processes, and how letters change them.

ghost use Rattle.std.specs.Prelude.{◌≡◌, ℕ, ◌<◌, List, [], ◌∷◌, ◌++◌, length, IfOk};
ghost use Rattle.za_alpha.specs.Alphabet.{loc_of};
ghost use Rattle.za_order.specs.Labels.{label};
ghost use Rattle.za_local.specs.Locals.{AreLocalsAfter, AreAllLocalsAfter, HasShape};
ghost use Rattle.za_local.specs.Private.Shared.{AreOthersAfter, IsFresh};

use crate::bench::Bench;
use crate::local::{Local, opening};
use crate::transitions::transit;
use std::alloc::Global;
use std::mem::swap;
use za_alpha::{Letter, OutOfMemory};
use za_dfa::Closed;

/// The local states of all processes before any event, in order. Want of memory is the one free
/// answer.
pub fn openings(alloc: Global, closed: &Closed) -> Result<Vec<Local>, OutOfMemory>
    ensures { IfOk result (λ locals. AreAllLocalsAfter closed.now [] locals.items) }
{
    let mut locals = Vec::new(alloc);
    for p in 0..closed.dfa().alphabet().processes() {
        locals.push(opening(alloc, closed)?)?;
    }
    Ok(locals)
}

/// Puts the local states of a letter's participants on the bench, in rising order, in exchange for
/// what it held.
fn gather(closed: &Closed, a: Letter, locals: &mut [Local], bench: &mut Bench)
    requires letter { a.0 < length closed.now.alphabet.letters }
    requires locals { (w : List ℕ) × AreAllLocalsAfter closed.now w locals.old }
    requires processes { bench.old.processes ≡ closed.now.alphabet.processes }
    requires states { bench.old.states ≡ closed.now.states }
    ensures participants { (w : List ℕ) → AreAllLocalsAfter closed.now w locals.old →
        AreLocalsAfter closed.now w (loc_of closed.now.alphabet a.0) bench.new.locals }
    ensures others { (w : List ℕ) → AreAllLocalsAfter closed.now w locals.old →
        AreOthersAfter closed.now w a.0 locals.new }
    ensures processes { bench.new.processes ≡ closed.now.alphabet.processes }
    ensures states { bench.new.states ≡ closed.now.states }
{
    let alphabet = closed.dfa().alphabet();
    let participants = alphabet.loc(a);
    bench.clear();
    for x in 0..alphabet.processes() {
        if participants.has(x) {
            bench.exchange(&mut locals[x]);
        }
    }
}

/// Gives each of a letter's participants its local state after the event: the least one `fresh`
/// itself, in exchange, and the others a copy.
fn hand_out(closed: &Closed, a: Letter, fresh: &mut Local, locals: &mut [Local])
    requires letter { a.0 < length closed.now.alphabet.letters }
    requires fresh { (w : List ℕ) × AreOthersAfter closed.now w a.0 locals.old × IsFresh closed.now w a.0 fresh.old }
    ensures locals { (w : List ℕ) → AreOthersAfter closed.now w a.0 locals.old → IsFresh closed.now w a.0 fresh.old →
        AreAllLocalsAfter closed.now (w ++ a.0 ∷ []) locals.new }
    ensures shape { HasShape closed.now.alphabet.processes closed.now.states fresh.new }
{
    let alphabet = closed.dfa().alphabet();
    let processes = alphabet.processes();
    let participants = alphabet.loc(a);
    let Some(least) = participants.least() else {
        return;
    };
    for x in least + 1..processes {
        if participants.has(x) {
            locals[x].copy_from(fresh);
        }
    }
    swap(&mut locals[least], fresh);
}

/// Fires a letter: `locals` has the local states of all processes after some word, in order, and gets
/// those after the word and the letter. It answers the label of the event. `bench` and `fresh` are for
/// as many processes and states, and so they stay; what they held before doesn't matter.
pub fn fire_on(
    closed: &Closed,
    a: Letter,
    locals: &mut [Local],
    bench: &mut Bench,
    fresh: &mut Local,
) -> u16
    requires letter { a.0 < length closed.now.alphabet.letters }
    requires locals { (w : List ℕ) × AreAllLocalsAfter closed.now w locals.old }
    requires processes { bench.old.processes ≡ closed.now.alphabet.processes }
    requires states { bench.old.states ≡ closed.now.states }
    requires shape { HasShape closed.now.alphabet.processes closed.now.states fresh.old }
    ensures label { (w : List ℕ) → AreAllLocalsAfter closed.now w locals.old →
        result ≡ label (loc_of closed.now.alphabet) closed.now.alphabet.processes (w ++ a.0 ∷ []) (length w) }
    ensures locals { (w : List ℕ) → AreAllLocalsAfter closed.now w locals.old →
        AreAllLocalsAfter closed.now (w ++ a.0 ∷ []) locals.new }
    ensures processes { bench.new.processes ≡ closed.now.alphabet.processes }
    ensures states { bench.new.states ≡ closed.now.states }
    ensures shape { HasShape closed.now.alphabet.processes closed.now.states fresh.new }
{
    gather(closed, a, locals, bench);
    let label = transit(closed, a, bench, fresh);
    hand_out(closed, a, fresh, locals);
    label
}
