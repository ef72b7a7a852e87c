//! The keys of all processes: those of a letter's participants, and a new one for them.

ghost use Rattle.std.specs.Prelude.{◌≡◌, ◌<◌, ◌≤◌, ◌+◌, ◌^◌, ◌==◌, ◌↔◌, ℕ, IsTrue, []};
ghost use Rattle.std.specs.Prelude.{Some, length, map, count_by, slice_get, slice_index, vec_capacity};
ghost use Rattle.za_alpha.specs.Limits.{most_processes};
ghost use Rattle.za_alpha.specs.Words.{has};
ghost use Rattle.za_alpha.specs.Procs.{members};
ghost use Rattle.za_records.specs.Shelf.{count, live};
ghost use Rattle.za_local.specs.Locals.{HasShape};
ghost use Rattle.za_shared.specs.Holders.{value, values_at};
ghost use Rattle.za_shared.specs.Private.Steps.{one, key_given, held_by, HaveChanged, HaveFewer, HaveTurned};

use crate::holders::{hold, let_go, let_go_onto};
use za_alpha::Procs;
use za_cache::Keys;
use za_local::{Bench, Local};
use za_records::{Key, Shelf};

/// Puts the keys of these processes, in rising order, into an empty list. It takes no memory.
pub(crate) fn choose(chosen: &mut Keys, keys: &[u32], processes: Procs)
    requires empty { chosen.old.items ≡ [] }
    requires room { most_processes ≤ chosen.old.capacity }
    requires few { length keys.now ≤ most_processes }
    requires within { (p : ℕ) → IsTrue (has (members processes) p) → p < length keys.now }
    ensures { chosen.new.items ≡ map (λ p. slice_index keys.now p) (members processes) }
{
    let mut start = 0;
    'members: while let Some(p) = processes.least_from(start) {
        chosen.push_reserved(keys[p]);
        start = p + 1;
    }
}

/// Puts the local states of these processes on the bench, in rising order, in place of what it had.
pub(crate) fn gather(shelf: &Shelf<Local>, keys: &[u32], processes: Procs, bench: &mut Bench)
    requires few { length keys.now ≤ most_processes }
    requires each { length keys.now ≡ bench.old.processes }
    requires within { (p : ℕ) → IsTrue (has (members processes) p) → p < length keys.now }
    requires live { (p : ℕ) → p < length keys.now → 0 < count shelf.now (slice_index keys.now p) }
    requires shaped { (k : ℕ) → 0 < count shelf.now k →
        HasShape bench.old.processes bench.old.states (value shelf.now k) }
    ensures { bench.new ≡ record bench.old { locals = values_at shelf.now keys.now (members processes) } }
{
    bench.clear();
    for p in 0..keys.len() {
        if processes.has(p) {
            bench.add(shelf.get(Key(keys[p])));
        }
    }
}

/// These processes let go of their keys, and their local states are put on the bench, in rising order,
/// in place of what it had: copies of those that others hold, and the others themselves.
pub(crate) fn vacate(
    shelf: &mut Shelf<Local>,
    spares: &mut Vec<Local>,
    keys: &[u32],
    processes: Procs,
    bench: &mut Bench,
)
    requires few { length keys.now ≤ most_processes }
    requires each { length keys.now ≡ bench.old.processes }
    requires within { (p : ℕ) → IsTrue (has (members processes) p) → p < length keys.now }
    requires held { (k : ℕ) → count_by (λ x. x == k) keys.now ≤ count shelf.old k }
    requires shaped { (k : ℕ) → 0 < count shelf.old k →
        HasShape bench.old.processes bench.old.states (value shelf.old k) }
    requires room { live shelf.old + length spares.old.items ≤ vec_capacity spares.old }
    ensures fewer { HaveFewer shelf.old shelf.new spares.old.items spares.new.items
        (held_by keys.now (members processes)) }
    ensures capacity { vec_capacity spares.new ≡ vec_capacity spares.old }
    ensures bench { bench.new ≡ record bench.old { locals = values_at shelf.old keys.now (members processes) } }
{
    bench.clear();
    for p in 0..keys.len() {
        if processes.has(p) {
            let_go_onto(shelf, spares, keys[p], bench);
        }
    }
}

/// Writes the key for these processes, in place of their own.
pub(crate) fn turn(keys: &mut [u32], processes: Procs, key: u32)
    requires few { length keys.old ≤ most_processes }
    requires within { (p : ℕ) → IsTrue (has (members processes) p) → p < length keys.old }
    ensures { HaveTurned keys.old keys.new (members processes) key }
{
    let mut start = 0;
    'members: while let Some(p) = processes.least_from(start) {
        keys[p] = key;
        start = p + 1;
    }
}

/// Puts the local states of all processes on the bench, in order, in place of what it had.
pub(crate) fn gather_all(shelf: &Shelf<Local>, keys: &[u32], bench: &mut Bench)
    requires each { length keys.now ≡ bench.old.processes }
    requires live { (p : ℕ) → p < length keys.now → 0 < count shelf.now (slice_index keys.now p) }
    requires shaped { (k : ℕ) → 0 < count shelf.now k →
        HasShape bench.old.processes bench.old.states (value shelf.now k) }
    ensures { bench.new ≡ record bench.old { locals = map (value shelf.now) keys.now } }
{
    bench.clear();
    for p in 0..keys.len() {
        bench.add(shelf.get(Key(keys[p])));
    }
}

/// Whether the bench has the local states of these processes, in rising order, and no others.
pub(crate) fn are_on(shelf: &Shelf<Local>, keys: &[u32], processes: Procs, bench: &Bench) -> bool
    requires few { length keys.now ≤ most_processes }
    requires within { (p : ℕ) → IsTrue (has (members processes) p) → p < length keys.now }
    requires live { (p : ℕ) → p < length keys.now → 0 < count shelf.now (slice_index keys.now p) }
    requires shaped { (k : ℕ) → 0 < count shelf.now k →
        HasShape bench.now.processes bench.now.states (value shelf.now k) }
    ensures { IsTrue result ↔ (bench.now.locals ≡ values_at shelf.now keys.now (members processes)) }
{
    let mut place = 0;
    for p in 0..keys.len() {
        if processes.has(p) {
            if !is_on(bench, place, shelf.get(Key(keys[p]))) {
                return false;
            }
            place += 1;
        }
    }
    place == bench.len()
}

/// Whether the bench has this local state at place `i`.
fn is_on(bench: &Bench, i: usize, local: &Local) -> bool
    requires { HasShape bench.now.processes bench.now.states local.now }
    ensures { IsTrue result ↔ (slice_get bench.now.locals i ≡ Some local.now) }
{
    i < bench.len() && bench.has(i, local)
}

/// Gives these processes the key in place of their own, which they let go of. The caller holds the key.
pub(crate) fn give(
    shelf: &mut Shelf<Local>,
    spares: &mut Vec<Local>,
    keys: &mut [u32],
    processes: Procs,
    key: u32,
)
    requires held { (k : ℕ) → count_by (λ x. x == k) keys.old + one key k ≤ count shelf.old k }
    requires few { (k : ℕ) → count shelf.old k + length keys.old + 1 < 2 ^ 32 }
    requires room { live shelf.old + length spares.old.items ≤ vec_capacity spares.old }
    ensures size { length keys.new ≡ length keys.old }
    ensures keys { (p : ℕ) → slice_index keys.new p ≡ key_given (members processes) key (length keys.old) keys.old p }
    ensures changed { HaveChanged shelf.old shelf.new spares.old.items spares.new.items keys.old keys.new }
    ensures capacity { vec_capacity spares.new ≡ vec_capacity spares.old }
{
    for p in 0..keys.len() {
        if processes.has(p) {
            hold(shelf, key);
            let_go(shelf, spares, keys[p]);
            keys[p] = key;
        }
    }
}
