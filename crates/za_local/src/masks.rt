ghost use Rattle.std.specs.Prelude.{◌≡◌, ℕ, ◌≤◌, ◌<◌, All, IfSome, List, [], length, replicate, slice_index_or};
ghost use Rattle.za_alpha.specs.Limits.{most_processes};
ghost use Rattle.za_alpha.specs.Words.{has};
ghost use Rattle.za_alpha.specs.Procs.{members, no_process};
ghost use Rattle.za_alpha.specs.Alphabet.{IsDistributed, loc_of};
ghost use Rattle.za_gossip.specs.Rows.{Rows, AreRowsAfter};
ghost use Rattle.za_residue.specs.Masks.{AreMasksAfter};
ghost use Rattle.za_local.specs.Private.Shared.{meeting_of, is_shared_before, IsBest, AreBests, under_at};

use za_alpha::{Alphabet, Letter, MOST_PROCESSES, Procs};
use za_gossip::{Gossip, newest};
use za_residue::{Masks, below};

/// No process, for each process.
const NOBODY: [Procs; MOST_PROCESSES] = [Procs(0); MOST_PROCESSES];

/// The masks in which nobody shares anything.
pub(crate) const NO_MASKS: Masks = Masks {
    earlier: NOBODY,
    under: [NOBODY; MOST_PROCESSES],
};

/// Writes what the participants of a letter, or all processes, share of each other's views, by the
/// rows that each keeps after some word, in rising order of processes.
pub(crate) fn set_masks(
    alphabet: &Alphabet,
    a: Option<Letter>,
    inputs: &[Gossip],
    masks: &mut Masks,
)
    requires letter { IfSome a (λ a. a.0 < length alphabet.now.letters) }
    requires rows { (w : List ℕ) × AreRowsAfter alphabet.now w (meeting_of alphabet.now a) inputs.now }
    requires none { masks.old.under ≡ replicate most_processes (replicate most_processes no_process) }
    ensures whole { IsDistributed alphabet.now }
    ensures masks { (w : List ℕ) → AreRowsAfter alphabet.now w (meeting_of alphabet.now a) inputs.now →
        AreMasksAfter alphabet.now w (meeting_of alphabet.now a) masks.new }
{
    let n = alphabet.processes();
    set_earlier(inputs, &mut masks.earlier);
    match a {
        None => {}
        Some(a) => set_under(alphabet, n, a, inputs, &mut masks.under),
    }
}

/// For each input, the processes whose latest event that it knows an input before it has as a latest
/// event too.
fn set_earlier(inputs: &[Gossip], sets: &mut [Procs; MOST_PROCESSES])
    requires few { length inputs.now ≤ most_processes }
    requires rows { All (λ (rows : Rows). length rows.primary ≤ 16) inputs.now }
    ensures { (i s : ℕ) → i < length inputs.now →
        has (members (slice_index_or sets.new i no_process)) s ≡ is_shared_before inputs.now i s }
{
    for i in 0..inputs.len() {
        sets[i] = earlier_of(inputs, i);
    }
}

/// The same for one input.
fn earlier_of(inputs: &[Gossip], i: usize) -> Procs
    requires input { i < length inputs.now }
    requires rows { All (λ (rows : Rows). length rows.primary ≤ 16) inputs.now }
    ensures { (s : ℕ) → has (members result) s ≡ is_shared_before inputs.now i s }
{
    let mut earlier = Procs::none();
    for j in 0..i {
        earlier = earlier.union(below(inputs[i].primary(), inputs[j].primary()));
    }
    earlier
}

/// For each participant and each process `r` that takes no part, the processes whose latest event
/// that the participant knows was known at the latest event of `r` that any participant knows.
fn set_under(
    alphabet: &Alphabet,
    n: usize,
    a: Letter,
    inputs: &[Gossip],
    rows: &mut [[Procs; MOST_PROCESSES]; MOST_PROCESSES],
)
    requires processes { n ≡ alphabet.now.processes }
    requires whole { IsDistributed alphabet.now }
    requires letter { a.0 < length alphabet.now.letters }
    requires rows { (w : List ℕ) × AreRowsAfter alphabet.now w (loc_of alphabet.now a.0) inputs.now }
    ensures { (w : List ℕ) → AreRowsAfter alphabet.now w (loc_of alphabet.now a.0) inputs.now →
        (i r s : ℕ) → i < length inputs.now → r < alphabet.now.processes →
        has (members (slice_index_or (slice_index_or rows.new i []) r no_process)) s
        ≡ under_at alphabet.now a.0 w i r s }
{
    let mut bests = [0; MOST_PROCESSES];
    set_bests(alphabet, n, a, inputs, &mut bests);
    for i in 0..inputs.len() {
        set_under_of(alphabet, n, a, inputs, &bests, i, &mut rows[i]);
    }
}

/// For each process that takes no part, the index of the input that has the latest news of it.
fn set_bests(
    alphabet: &Alphabet,
    n: usize,
    a: Letter,
    inputs: &[Gossip],
    bests: &mut [usize; MOST_PROCESSES],
)
    requires processes { n ≡ alphabet.now.processes }
    requires whole { IsDistributed alphabet.now }
    requires letter { a.0 < length alphabet.now.letters }
    requires rows { (w : List ℕ) × AreRowsAfter alphabet.now w (loc_of alphabet.now a.0) inputs.now }
    ensures { AreBests alphabet.now a.0 inputs.now bests.new }
{
    for r in 0..n {
        if !alphabet.loc(a).has(r) {
            bests[r] = newest(alphabet, a, inputs, r);
        }
    }
}

/// The processes of one participant, for each process that takes no part.
fn set_under_of(
    alphabet: &Alphabet,
    n: usize,
    a: Letter,
    inputs: &[Gossip],
    bests: &[usize; MOST_PROCESSES],
    i: usize,
    sets: &mut [Procs; MOST_PROCESSES],
)
    requires processes { n ≡ alphabet.now.processes }
    requires whole { IsDistributed alphabet.now }
    requires letter { a.0 < length alphabet.now.letters }
    requires rows { (w : List ℕ) × AreRowsAfter alphabet.now w (loc_of alphabet.now a.0) inputs.now }
    requires bests { AreBests alphabet.now a.0 inputs.now bests.now }
    requires input { i < length inputs.now }
    ensures { (w : List ℕ) → AreRowsAfter alphabet.now w (loc_of alphabet.now a.0) inputs.now →
        (r s : ℕ) → r < alphabet.now.processes →
        has (members (slice_index_or sets.new r no_process)) s ≡ under_at alphabet.now a.0 w i r s }
{
    for r in 0..n {
        sets[r] = under_of(alphabet, a, inputs, bests[r], i, r);
    }
}

/// The same for one process.
fn under_of(
    alphabet: &Alphabet,
    a: Letter,
    inputs: &[Gossip],
    best: usize,
    i: usize,
    r: usize,
) -> Procs
    requires whole { IsDistributed alphabet.now }
    requires letter { a.0 < length alphabet.now.letters }
    requires rows { (w : List ℕ) × AreRowsAfter alphabet.now w (loc_of alphabet.now a.0) inputs.now }
    requires input { i < length inputs.now }
    requires process { r < alphabet.now.processes }
    requires best { IsBest alphabet.now a.0 inputs.now r best }
    ensures { (w : List ℕ) → AreRowsAfter alphabet.now w (loc_of alphabet.now a.0) inputs.now →
        (s : ℕ) → has (members result) s ≡ under_at alphabet.now a.0 w i r s }
{
    if alphabet.loc(a).has(r) {
        return Procs::none();
    }
    below(inputs[i].primary(), inputs[best].secondary(r))
}
