//! The functions after an event, written block by block.

ghost use Rattle.std.specs.Prelude.{◌≡◌, ℕ, ◌+◌, ◌*◌, ◌^◌, ◌<◌, ◌≤◌, ◌++◌, List, length, take, slice_index, IsFalse};
ghost use Rattle.za_alpha.specs.Words.{has, meets};
ghost use Rattle.za_alpha.specs.Procs.{members};
ghost use Rattle.za_alpha.specs.Alphabet.{loc_of};
ghost use Rattle.za_dfa.specs.Tables.{IsComplete};
ghost use Rattle.za_residue.specs.Laws.{in_turn};
ghost use Rattle.za_residue.specs.Private.Turns.{turn_of, AreOmitted, CanBeTaken};
ghost use Rattle.za_residue.specs.Private.Written.{AreSteps, AreGiven, AreWritten};

use crate::leaving::join_sets;
use crate::masks::Masks;
use crate::residues::{Residues, set_count};
use za_alpha::{Letter, MOST_PROCESSES, Procs};
use za_dfa::{Closed, MOST_STATES};

/// The most states of a table: those that are given, and the added one.
pub(crate) const TABLE_STATES: usize = MOST_STATES + 1;

/// No process, for each input.
const NO_SETS: [Procs; MOST_PROCESSES] = [Procs(0); MOST_PROCESSES];

/// An event of a letter, as far as functions go: where the letter leads from each state, by state, and
/// what the letter's participants have before it and share.
#[derive(Clone, Copy)]
pub(crate) struct Event<'a> {
    pub(crate) closed: &'a Closed,
    pub(crate) a: Letter,
    pub(crate) steps: &'a [u8],
    pub(crate) inputs: &'a [Residues],
    pub(crate) masks: &'a Masks,
}

/// Writes the functions after the event for a set, which has no participant, with each set of the
/// first `processes` processes: half of them without the last of these, and then the others. Where
/// the last changes nothing of what is left out of the inputs, the others are the same.
pub(crate) fn write_sets(
    event: &Event,
    set: Procs,
    processes: usize,
    omitted: &[Procs; MOST_PROCESSES],
    block: &mut [u8],
)
    requires letter { event.now.a.0 < length event.now.closed.now.alphabet.letters }
    requires given { (w : List ℕ)
        × AreGiven event.now.closed.now event.now.a.0 event.now.inputs.now event.now.masks.now w }
    requires steps { AreSteps event.now.closed.now event.now.a.0 event.now.steps.now }
    requires processes { processes ≤ event.now.closed.now.alphabet.processes }
    requires apart { IsFalse (meets (members set) (loc_of event.now.closed.now.alphabet event.now.a.0)) }
    requires omitted { AreOmitted event.now.masks.now event.now.closed.now.alphabet.processes (has (members set))
        (length event.now.inputs.now) omitted.now }
    requires block { length block.old ≡ 2 ^ processes * event.now.closed.now.states }
    ensures { AreWritten event.now.closed.now event.now.a.0 event.now.inputs.now event.now.masks.now
        (has (members set)) (2 ^ processes) block.new }
{
    let dfa = event.closed.dfa();
    let states = dfa.states();
    if processes == 0 {
        write_composed(states, event.inputs, omitted, block);
        follow(event.steps, block);
        return;
    }
    let r = processes - 1;
    let half = set_count(r) * states;
    let (low, high) = block.split_at_mut(half);
    write_sets(event, set, r, omitted, low);
    if dfa.alphabet().loc(event.a).has(r) {
        write_identities(r, states, high);
        return;
    }
    let mut more = NO_SETS;
    if join_sets(event.masks, omitted, r, event.inputs.len(), &mut more) {
        high.copy_from_slice(low);
        return;
    }
    write_sets(event, set.with(r), r, &more, high);
}

/// Writes each state, for each set of so many processes.
pub(crate) fn write_identities(processes: usize, states: usize, block: &mut [u8])
    requires processes { processes ≤ 16 }
    requires states { states ≤ 256 }
    requires block { length block.old ≡ 2 ^ processes * states }
    ensures { (m q : ℕ) → m < 2 ^ processes → q < states → slice_index block.new (m * states + q) ≡ q }
{
    write_identity(&mut block[..states]);
    for p in 0..processes {
        let half = set_count(p) * states;
        double(&mut block[..half + half], half);
    }
}

/// Writes the first half once more behind itself.
fn double(block: &mut [u8], half: usize)
    requires { length block.old ≡ half + half }
    ensures { block.new ≡ take half block.old ++ take half block.old }
{
    let (low, high) = block.split_at_mut(half);
    high.copy_from_slice(low);
}

/// Writes where the letter leads from each state, by state.
pub(crate) fn set_column(closed: &Closed, a: Letter, column: &mut [u8; TABLE_STATES])
    requires letter { a.0 < length closed.now.alphabet.letters }
    ensures whole { IsComplete closed.now }
    ensures steps { AreSteps closed.now a.0 column.new }
{
    for q in 0..closed.dfa().states() {
        column[q] = closed.dfa().step(q as u8, a);
    }
}

/// Writes each state.
fn write_identity(block: &mut [u8])
    requires { length block.old ≤ 256 }
    ensures { (q : ℕ) → q < length block.old → slice_index block.new q ≡ q }
{
    for q in 0..block.len() {
        block[q] = q as u8;
    }
}

/// Writes where the functions of the inputs lead from each state, each for its omitted set, in turn.
fn write_composed(
    states: usize,
    inputs: &[Residues],
    omitted: &[Procs; MOST_PROCESSES],
    block: &mut [u8],
)
    requires state { 0 < states }
    requires some { 0 < length inputs.now }
    requires block { length block.old ≡ states }
    requires taken { (q : ℕ) → q < states → (taken : CanBeTaken inputs.now omitted.now q) × (taken.states ≡ states) }
    ensures written { (q : ℕ) → q < states → slice_index block.new q
        ≡ in_turn (turn_of inputs.now omitted.now) (length inputs.now) q }
    ensures within { (q : ℕ) → q < states → slice_index block.new q < states }
{
    block.copy_from_slice(inputs[0].function(omitted[0]));
    for i in 1..inputs.len() {
        follow(inputs[i].function(omitted[i]), block);
    }
}

/// Goes on from each entry by a function.
fn follow(function: &[u8], block: &mut [u8])
    requires { (q : ℕ) → q < length block.old → slice_index block.old q < length function.now }
    ensures { (q : ℕ) → q < length block.old → slice_index block.new q
        ≡ slice_index function.now (slice_index block.old q) }
{
    for q in 0..block.len() {
        block[q] = function[block[q] as usize];
    }
}
