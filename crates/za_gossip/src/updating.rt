ghost use Rattle.std.specs.Prelude.{◌≡◌, ℕ, ◌+◌, ◌*◌, ◌<◌, ◌≤◌, All, List, [], ◌∷◌, ◌++◌, Some, None, IsTrue};
ghost use Rattle.std.specs.Prelude.{length, map, replicate, slice_index, slice_index_or};
ghost use Rattle.std.specs.List.{range_with_len};
ghost use Rattle.za_alpha.specs.Limits.{most_processes};
ghost use Rattle.za_alpha.specs.Words.{has};
ghost use Rattle.za_alpha.specs.Alphabet.{loc_of};
ghost use Rattle.za_order.specs.Labels.{label};
ghost use Rattle.za_ids.specs.Numbers.{event_numbers};
ghost use Rattle.za_gossip.specs.Rows.{rows_after, AreRowsAfter};
ghost use Rattle.za_gossip.specs.Private.Levels.{level_of};
ghost use Rattle.za_gossip.specs.Private.Sources.{IsSource, source_entry, joined_entry};

use crate::gossip::{Gossip, Level};
use crate::news::newest;
use za_alpha::{Alphabet, Letter, MOST_PROCESSES};
use za_ids::{EventId, id_of, least_free_among};

/// Writes into `into` what the participants of `a` keep after an event of `a`, which is the same for
/// each of them, and answers the label of the event (Mukund and Sohoni 1997). `inputs` has what each
/// participant keeps after some word, in rising order of processes. `into` is for as many processes;
/// what it held before doesn't matter.
pub fn advance(alphabet: &Alphabet, a: Letter, inputs: &[Gossip], into: &mut Gossip) -> u16
    requires letter { a.0 < length alphabet.now.letters }
    requires rows { (w : List ℕ) × AreRowsAfter alphabet.now w (loc_of alphabet.now a.0) inputs.now }
    requires shape { length into.old.primary ≡ alphabet.now.processes }
    ensures label { (w : List ℕ) → AreRowsAfter alphabet.now w (loc_of alphabet.now a.0) inputs.now →
        result ≡ label (loc_of alphabet.now) alphabet.now.processes (w ++ a.0 ∷ []) (length w) }
    ensures rows { (w : List ℕ) → AreRowsAfter alphabet.now w (loc_of alphabet.now a.0) inputs.now →
        (x : ℕ) → IsTrue (has (loc_of alphabet.now a.0) x) →
        into.new ≡ rows_after (loc_of alphabet.now) alphabet.now.processes (w ++ a.0 ∷ []) x }
{
    let n = alphabet.processes();
    let label = least_free_among(n, a, alphabet.loc(a), inputs[0].entries(Level::Tertiary));
    let event = [id_of(n, a, label)];
    let mut sources = [None; MOST_PROCESSES];
    set_sources(alphabet, a, inputs, &mut sources);
    write_row(
        Level::Primary,
        n,
        sources.as_slice(),
        inputs,
        event.as_slice(),
        into.primary.as_mut_slice(),
    );
    write_row(
        Level::Secondary,
        n,
        sources.as_slice(),
        inputs,
        into.primary.as_slice(),
        into.secondary.as_mut_slice(),
    );
    write_row(
        Level::Tertiary,
        n,
        sources.as_slice(),
        inputs,
        into.secondary.as_slice(),
        into.tertiary.as_mut_slice(),
    );
    label
}

/// For each process, where the entries for it come from after the event of the participants of `a`:
/// none for a participant, whose latest event this is, and else the index of the input that has the
/// latest news of it. None is there before.
fn set_sources(
    alphabet: &Alphabet,
    a: Letter,
    inputs: &[Gossip],
    sources: &mut [Option<usize>; MOST_PROCESSES],
)
    requires letter { a.0 < length alphabet.now.letters }
    requires rows { (w : List ℕ) × AreRowsAfter alphabet.now w (loc_of alphabet.now a.0) inputs.now }
    requires none { sources.old ≡ replicate most_processes None }
    ensures room { alphabet.now.processes ≤ length sources.new }
    ensures within { (q b : ℕ) → slice_index_or sources.new q None ≡ Some b → b < length inputs.now }
    ensures sources { (w : List ℕ) → AreRowsAfter alphabet.now w (loc_of alphabet.now a.0) inputs.now →
        (q : ℕ) → q < alphabet.now.processes → IsSource alphabet.now w a.0 q (slice_index_or sources.new q None) }
{
    let participants = alphabet.loc(a);
    for q in 0..alphabet.processes() {
        if !participants.has(q) {
            sources[q] = Some(newest(alphabet, a, inputs, q));
        }
    }
}

/// The block from `from` on of a row after the event: `own` where the source is none, and else what
/// the input of the source has there.
fn block_after<'a>(
    level: Level,
    source: Option<usize>,
    inputs: &'a [Gossip],
    own: &'a [EventId],
    from: usize,
) -> &'a [EventId]
    requires within { (b : ℕ) → source ≡ Some b → b < length inputs.now }
    requires rows { All (λ rows. from + length own.now ≤ length (level_of level rows)) inputs.now }
    ensures long { length result.now ≡ length own.now }
    ensures block { (j : ℕ) → j < length own.now → slice_index (event_numbers result.now) j
        ≡ source_entry (slice_index (event_numbers own.now) j) source (map (level_of level) inputs.now) (from + j) }
{
    match source {
        None => own,
        Some(best) => &inputs[best].entries(level)[from..from + own.len()],
    }
}

/// Whether the entries come from the first input.
fn is_first(source: Option<usize>) -> bool
    ensures { IsTrue result → source ≡ Some 0 }
{
    match source {
        Some(best) => best == 0,
        None => false,
    }
}

/// Writes a row after the event: the row has a block for each process, as long as `own`, which is the
/// block of each participant. Blocks of the first input are copied at once, as most come from it.
fn write_row(
    level: Level,
    processes: usize,
    sources: &[Option<usize>],
    inputs: &[Gossip],
    own: &[EventId],
    into: &mut [EventId],
)
    requires some { 0 < length inputs.now }
    requires blocks { length into.old ≡ processes * length own.now }
    requires sources { processes ≤ length sources.now }
    requires within { (q b : ℕ) → slice_index_or sources.now q None ≡ Some b → b < length inputs.now }
    requires rows { All (λ rows. length into.old ≤ length (level_of level rows)) inputs.now }
    ensures { let rows = map (level_of level) inputs.now in
        event_numbers into.new
        ≡ map (joined_entry (event_numbers own.now) sources.now rows) (range_with_len 0 (length into.old)) }
{
    into.copy_from_slice(&inputs[0].entries(level)[..into.len()]);
    let width = own.len();
    for q in 0..processes {
        if !is_first(sources[q]) {
            let from = q * width;
            let block = block_after(level, sources[q], inputs, own, from);
            into[from..from + width].copy_from_slice(block);
        }
    }
}
