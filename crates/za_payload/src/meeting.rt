//! A meeting of the participants of a letter.

ghost use Rattle.std.specs.Prelude.{◌≡◌, ℕ, ◌<◌, ◌≤◌, List, ◌∷◌, ◌++◌, [], All, length, map, take, slice_index_or};
ghost use Rattle.std.specs.Prelude.{Option, Some, None, IsFalse, if◌then◌else◌};
ghost use Rattle.za_alpha.specs.Limits.{most_processes};
ghost use Rattle.za_alpha.specs.Words.{has};
ghost use Rattle.za_alpha.specs.Procs.{members};
ghost use Rattle.za_alpha.specs.Alphabet.{loc_of, IsDistributed};
ghost use Rattle.za_order.specs.Views.{participants};
ghost use Rattle.za_order.specs.Labels.{label};
ghost use Rattle.za_gossip.specs.Rows.{AreRowsAfter, blank_rows};
ghost use Rattle.za_payload.specs.Circles.{known_in, IsCircle, IsCircleAfter};
ghost use Rattle.za_payload.specs.Inside.{AreFor};
ghost use Rattle.za_payload.specs.Private.Meeting.{circle_with, best_of};

use za_alpha::{Alphabet, Letter, MOST_PROCESSES, Procs};
use za_gossip::{Gossip, advance, newest};

/// The number that a process knows of each process.
pub(crate) type Known = [Option<u32>; MOST_PROCESSES];

/// Writes the participants of a letter in rising order, and answers how many there are.
fn list_participants(alphabet: &Alphabet, a: Letter, into: &mut [usize; MOST_PROCESSES]) -> usize
    requires letter { a.0 < length alphabet.now.letters }
    ensures within { result ≤ length into.new }
    ensures few { result ≤ alphabet.now.processes }
    ensures listed { take result into.new ≡ loc_of alphabet.now a.0 }
    ensures below { All (λ p. p < alphabet.now.processes) (take result into.new) }
    ensures whole { IsDistributed alphabet.now }
{
    let takes = alphabet.loc(a);
    let mut count = 0;
    for p in 0..alphabet.processes() {
        if takes.has(p) {
            into[count] = p;
            count += 1;
        }
    }
    count
}

/// Copies what these processes keep side by side, in their order.
fn gather(processes: &[usize], rows: &[Gossip], inputs: &mut [Gossip])
    requires processes { All (λ p. p < length rows.now) processes.now }
    requires room { length processes.now ≤ length inputs.old }
    requires rows_for { AreFor (length rows.now) rows.now }
    requires inputs_for { AreFor (length rows.now) inputs.old }
    ensures inputs_for { AreFor (length rows.now) inputs.new }
    ensures copied { take (length processes.now) inputs.new
        ≡ map (λ p. slice_index_or rows.now p (blank_rows 0)) processes.now }
{
    for i in 0..processes.len() {
        inputs[i].copy_from(&rows[processes[i]]);
    }
}

/// The number that the participant with the latest news of process `q` knows of it.
fn heard_of(
    alphabet: &Alphabet,
    a: Letter,
    participants: &[usize],
    inputs: &[Gossip],
    known: &[Known],
    q: usize,
) -> Option<u32>
    requires letter { a.0 < length alphabet.now.letters }
    requires participants { participants.now ≡ loc_of alphabet.now a.0 }
    requires below { All (λ p. p < length known.now) participants.now }
    requires rows { (w : List ℕ) × AreRowsAfter alphabet.now w (loc_of alphabet.now a.0) inputs.now }
    requires process { q < alphabet.now.processes }
    requires few { q < most_processes }
    ensures { (w : List ℕ) → AreRowsAfter alphabet.now w (loc_of alphabet.now a.0) inputs.now →
        result ≡ known_in known.now (best_of alphabet.now w a.0 q) q }
{
    let best = participants[newest(alphabet, a, inputs, q)];
    known[best][q]
}

/// What each participant knows after the event: of each participant the event's number, and of each
/// other process what the participant with the latest news of it knows.
fn heard(
    alphabet: &Alphabet,
    a: Letter,
    value: u32,
    participants: &[usize],
    inputs: &[Gossip],
    known: &[Known],
) -> Known
    requires letter { a.0 < length alphabet.now.letters }
    requires participants { participants.now ≡ loc_of alphabet.now a.0 }
    requires below { All (λ p. p < length known.now) participants.now }
    requires rows { (w : List ℕ) × AreRowsAfter alphabet.now w (loc_of alphabet.now a.0) inputs.now }
    ensures { (w : List ℕ) → AreRowsAfter alphabet.now w (loc_of alphabet.now a.0) inputs.now →
        (q : ℕ) → q < alphabet.now.processes →
        slice_index_or result q None ≡ (if has (loc_of alphabet.now a.0) q then Some value
        else known_in known.now (best_of alphabet.now w a.0 q) q) }
{
    let takes = alphabet.loc(a);
    let mut heard = [None; MOST_PROCESSES];
    for q in 0..alphabet.processes() {
        heard[q] = if takes.has(q) {
            Some(value)
        } else {
            heard_of(alphabet, a, participants, inputs, known, q)
        };
    }
    heard
}

/// Gives each process of a set what it keeps and knows after the event.
fn hand_out(takes: Procs, next: &Gossip, heard: &Known, rows: &mut [Gossip], known: &mut [Known])
    requires rows_for { AreFor (length rows.old) rows.old }
    requires known { length known.old ≡ length rows.old }
    requires next_for { length next.now.primary ≡ length rows.old }
    ensures rows_for { AreFor (length rows.old) rows.new }
    ensures rows { (p : ℕ) → p < length rows.old → slice_index_or rows.new p (blank_rows 0)
        ≡ (if has (members takes) p then next.now else slice_index_or rows.old p (blank_rows 0)) }
    ensures known { (p : ℕ) → p < length rows.old → slice_index_or known.new p []
        ≡ (if has (members takes) p then heard.now else slice_index_or known.old p []) }
{
    for p in 0..rows.len() {
        if takes.has(p) {
            rows[p].copy_from(next);
            known[p] = *heard;
        }
    }
}

/// A meeting by the parts of a circle. `inputs` and `next` are room to work in, and what they hold
/// doesn't matter.
pub(crate) fn meet_over(
    alphabet: &Alphabet,
    a: Letter,
    value: u32,
    rows: &mut [Gossip],
    known: &mut [Known],
    inputs: &mut [Gossip],
    next: &mut Gossip,
) -> u16
    requires letter { a.0 < length alphabet.now.letters }
    requires circle { IsCircle alphabet.now (circle_with alphabet.now rows.old known.old) }
    requires rows { length rows.old ≡ alphabet.now.processes }
    requires rows_for { AreFor alphabet.now.processes rows.old }
    requires known { length known.old ≡ alphabet.now.processes }
    requires inputs { length inputs.old ≡ alphabet.now.processes }
    requires inputs_for { AreFor alphabet.now.processes inputs.old }
    requires next_for { length next.old.primary ≡ alphabet.now.processes }
    ensures label { (w values : List ℕ) →
        IsCircleAfter alphabet.now w values (circle_with alphabet.now rows.old known.old) →
        result ≡ label (loc_of alphabet.now) alphabet.now.processes (w ++ a.0 ∷ []) (length w) }
    ensures after { (w values : List ℕ) →
        IsCircleAfter alphabet.now w values (circle_with alphabet.now rows.old known.old) →
        IsCircleAfter alphabet.now (w ++ a.0 ∷ []) (values ++ value ∷ [])
        (circle_with alphabet.now rows.new known.new) }
    ensures circle { IsCircle alphabet.now (circle_with alphabet.now rows.new known.new) }
    ensures other_rows { (p : ℕ) → p < alphabet.now.processes → IsFalse (has (loc_of alphabet.now a.0) p) →
        slice_index_or rows.new p (blank_rows 0) ≡ slice_index_or rows.old p (blank_rows 0) }
    ensures other_known { (p : ℕ) → p < alphabet.now.processes → IsFalse (has (loc_of alphabet.now a.0) p) →
        slice_index_or known.new p [] ≡ slice_index_or known.old p [] }
    ensures rows_for { AreFor alphabet.now.processes rows.new }
    ensures inputs_for { AreFor alphabet.now.processes inputs.new }
    ensures next_for { length next.new.primary ≡ alphabet.now.processes }
{
    let mut listed = [0; MOST_PROCESSES];
    let count = list_participants(alphabet, a, &mut listed);
    let participants = &listed[..count];
    gather(participants, rows, inputs);
    let met = &inputs[..count];
    let label = advance(alphabet, a, met, next);
    let heard = heard(alphabet, a, value, participants, met, known);
    hand_out(alphabet.loc(a), next, &heard, rows, known);
    label
}
