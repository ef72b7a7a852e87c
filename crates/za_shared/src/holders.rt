//! Holders of records: who begins to hold one, and who lets it go.

ghost use Rattle.std.specs.Prelude.{◌≡◌, ◌≢◌, ◌==◌, ◌<◌, ◌≤◌, ◌+◌, ◌^◌, ◌⊎◌, ◌∷◌, ◌++◌, [], ℕ, cond, count_by};
ghost use Rattle.std.specs.Prelude.{IsTrue, MatchBool, true, false, length, take, slice_index, vec_capacity};
ghost use Rattle.za_alpha.specs.Words.{has};
ghost use Rattle.za_records.specs.Shelf.{count, live};
ghost use Rattle.za_local.specs.Locals.{HasShape};
ghost use Rattle.za_shared.specs.Holders.{value, is_named};
ghost use Rattle.za_shared.specs.Marks.{AreMarked};
ghost use Rattle.za_shared.specs.Private.Steps.{one, named_by_line, named_before, named_by, HaveMore, HaveFewer};
ghost use Rattle.za_shared.specs.Private.Steps.{HasShelved};

use crate::marks::{mark_of, set_mark};
use za_cache::Kept;
use za_local::{Bench, Local};
use za_records::{Key, Shelf};

/// One holder more.
pub(crate) fn hold(shelf: &mut Shelf<Local>, key: u32)
    requires live { 0 < count shelf.old key }
    requires few { count shelf.old key + 1 < 2 ^ 32 }
    ensures { HaveMore shelf.old shelf.new (one key) }
{
    shelf.hold(Key(key), 1);
}

/// So many holders more.
pub(crate) fn hold_for(shelf: &mut Shelf<Local>, key: u32, holders: u32)
    requires live { 0 < count shelf.old key }
    requires few { count shelf.old key + holders < 2 ^ 32 }
    ensures { HaveMore shelf.old shelf.new (λ k. cond (key == k) holders 0) }
{
    shelf.hold(Key(key), holders);
}

/// One holder fewer of a record that has others too.
fn leave_one(shelf: &mut Shelf<Local>, key: u32)
    requires { 1 < count shelf.old key }
    ensures { HaveMore shelf.new shelf.old (one key) }
{
    shelf.release_one(Key(key));
}

/// One holder fewer of each of these records, as often as it stands there. All have other holders too.
pub(crate) fn leave(shelf: &mut Shelf<Local>, keys: &[u32])
    requires { (k : ℕ) → IsTrue (has keys.now k) → count_by (λ x. x == k) keys.now < count shelf.old k }
    ensures { HaveMore shelf.new shelf.old (λ k. count_by (λ x. x == k) keys.now) }
{
    for i in 0..keys.len() {
        leave_one(shelf, keys[i]);
    }
}

/// One holder fewer. A record that has no holder is spare from then on.
pub(crate) fn let_go(shelf: &mut Shelf<Local>, spares: &mut Vec<Local>, key: u32)
    requires live { 0 < count shelf.old key }
    requires room { live shelf.old + length spares.old.items ≤ vec_capacity spares.old }
    ensures fewer { HaveFewer shelf.old shelf.new spares.old.items spares.new.items (one key) }
    ensures capacity { vec_capacity spares.new ≡ vec_capacity spares.old }
{
    if let Some(spare) = shelf.release(Key(key)) {
        spares.push_reserved(spare);
    }
}

/// One holder fewer, and the local state is put on the bench beside the others: a copy where somebody
/// still holds it, and else itself, in exchange for what the bench had there, which is spare then.
pub(crate) fn let_go_onto(
    shelf: &mut Shelf<Local>,
    spares: &mut Vec<Local>,
    key: u32,
    bench: &mut Bench,
)
    requires live { 0 < count shelf.old key }
    requires room { live shelf.old + length spares.old.items ≤ vec_capacity spares.old }
    requires place { length bench.old.locals < bench.old.processes }
    requires shape { HasShape bench.old.processes bench.old.states (value shelf.old key) }
    ensures fewer { HaveFewer shelf.old shelf.new spares.old.items spares.new.items (one key) }
    ensures capacity { vec_capacity spares.new ≡ vec_capacity spares.old }
    ensures bench { bench.new ≡ record bench.old { locals = bench.old.locals ++ value shelf.old key ∷ [] } }
{
    match shelf.release(Key(key)) {
        Some(local) => {
            let mut local = local;
            bench.exchange(&mut local);
            spares.push_reserved(local);
        }
        None => bench.add(shelf.get(Key(key))),
    }
}

/// Puts a local state on the shelf with so many holders. Where an equal one is there, that one gets
/// them, and this is spare. Keys have their values' marks.
pub(crate) fn shelve(
    shelf: &mut Shelf<Local>,
    spares: &mut Vec<Local>,
    marks: &mut [u32],
    local: Local,
    holders: u32,
) -> u32
    requires room { live shelf.old < shelf.old.capacity }
    requires spare { length spares.old.items < vec_capacity spares.old }
    requires some { 0 < holders }
    requires few { (k : ℕ) → count shelf.old k + holders < 2 ^ 32 }
    requires marks { AreMarked shelf.old marks.old }
    ensures shelved { HasShelved shelf.old shelf.new spares.old.items spares.new.items local holders result }
    ensures marks { AreMarked shelf.new marks.new }
    ensures size { length marks.new ≡ length marks.old }
    ensures capacity { vec_capacity spares.new ≡ vec_capacity spares.old }
{
    let _live = shelf.live();
    let mark = mark_of(&local);
    if let Some(key) = shelf.same_marked(&local, marks, mark) {
        shelf.hold(key, holders);
        spares.push_reserved(local);
        return key.0;
    }
    let key = shelf.put(local, holders);
    set_mark(marks, key.0, mark);
    key.0
}

/// Whether the key at place `i` isn't the output, and stands at no place before it.
fn is_new(keys: &[u32], i: usize, output: u32) -> bool
    requires { i < length keys.now }
    ensures { MatchBool result
        ((slice_index keys.now i ≢ output) × (has (take i keys.now) (slice_index keys.now i) ≡ false))
        ((slice_index keys.now i ≡ output) ⊎ (has (take i keys.now) (slice_index keys.now i) ≡ true)) }
{
    keys[i] != output && !keys[..i].contains(&keys[i])
}

/// A line is a holder of each record that it names, once however often it names it.
pub(crate) fn hold_line(shelf: &mut Shelf<Local>, inputs: &[u32], output: u32)
    requires live { (k : ℕ) → IsTrue (is_named inputs.now output k) → 0 < count shelf.old k }
    requires few { (k : ℕ) → count shelf.old k + 1 < 2 ^ 32 }
    ensures { HaveMore shelf.old shelf.new (named_by_line inputs.now output) }
{
    hold_inputs(shelf, inputs, output);
    hold(shelf, output);
}

/// The part of its inputs that aren't the output.
fn hold_inputs(shelf: &mut Shelf<Local>, inputs: &[u32], output: u32)
    requires live { (k : ℕ) → IsTrue (has inputs.now k) → 0 < count shelf.old k }
    requires few { (k : ℕ) → count shelf.old k + 1 < 2 ^ 32 }
    ensures { HaveMore shelf.old shelf.new (named_before inputs.now output (length inputs.now)) }
{
    for i in 0..inputs.len() {
        if is_new(inputs, i, output) {
            hold(shelf, inputs[i]);
        }
    }
}

/// A line lets go of each record that it names.
pub(crate) fn let_go_line(
    shelf: &mut Shelf<Local>,
    spares: &mut Vec<Local>,
    inputs: &[u32],
    output: u32,
)
    requires live { (k : ℕ) → IsTrue (is_named inputs.now output k) → 0 < count shelf.old k }
    requires room { live shelf.old + length spares.old.items ≤ vec_capacity spares.old }
    ensures fewer { HaveFewer shelf.old shelf.new spares.old.items spares.new.items (named_by_line inputs.now output) }
    ensures capacity { vec_capacity spares.new ≡ vec_capacity spares.old }
{
    let_go_inputs(shelf, spares, inputs, output);
    let_go(shelf, spares, output);
}

/// The part of its inputs that aren't the output.
fn let_go_inputs(shelf: &mut Shelf<Local>, spares: &mut Vec<Local>, inputs: &[u32], output: u32)
    requires live { (k : ℕ) → IsTrue (has inputs.now k) → 0 < count shelf.old k }
    requires room { live shelf.old + length spares.old.items ≤ vec_capacity spares.old }
    ensures fewer { HaveFewer shelf.old shelf.new spares.old.items spares.new.items
        (named_before inputs.now output (length inputs.now)) }
    ensures capacity { vec_capacity spares.new ≡ vec_capacity spares.old }
{
    for i in 0..inputs.len() {
        if is_new(inputs, i, output) {
            let_go(shelf, spares, inputs[i]);
        }
    }
}

/// A line that rows hand back lets go of what it names.
pub(crate) fn let_go_kept(shelf: &mut Shelf<Local>, spares: &mut Vec<Local>, kept: Kept)
    requires live { (k : ℕ) → 0 < named_by kept k → 0 < count shelf.old k }
    requires room { live shelf.old + length spares.old.items ≤ vec_capacity spares.old }
    ensures fewer { HaveFewer shelf.old shelf.new spares.old.items spares.new.items (named_by kept) }
    ensures capacity { vec_capacity spares.new ≡ vec_capacity spares.old }
{
    match kept {
        Kept::Stored => (),
        Kept::Replaced(line) => {
            let_go_line(shelf, spares, line.inputs.as_slice(), line.output);
        }
        Kept::Refused(line) => {
            let_go_line(shelf, spares, line.inputs.as_slice(), line.output);
        }
    }
}
