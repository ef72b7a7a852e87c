ghost use Rattle.std.specs.Prelude.{◌≡◌, ℕ, ◌<◌, List, [], ◌∷◌, ◌++◌, length, IsTrue};
ghost use Rattle.std.specs.List.{range_with_len};
ghost use Rattle.za_alpha.specs.Words.{has};
ghost use Rattle.za_alpha.specs.Alphabet.{loc_of};
ghost use Rattle.za_dfa.specs.Automata.{walk};
ghost use Rattle.za_dfa.specs.Tables.{step_of};
ghost use Rattle.za_residue.specs.Residues.{table_residues};
ghost use Rattle.za_residue.specs.Masks.{AreResiduesAfter, AreMasksAfter};
ghost use Rattle.za_residue.specs.Laws.{in_turn};
ghost use Rattle.za_residue.specs.Private.Turns.{turn_of, CanBeTaken};

use crate::leaving::first_omitted;
use crate::masks::Masks;
use crate::residues::Residues;
use crate::writing::{Event, TABLE_STATES, set_column, write_sets};
use za_alpha::{Letter, MOST_PROCESSES, Procs};
use za_dfa::Closed;

/// Writes into `into` the residues of the participants of `a` after an event of `a`, which are the same
/// for each of them (Mukund 2012). `inputs` has the residues of each participant after some word, in
/// rising order of processes, and `masks` says what they share after it. `into` is for as many
/// processes and states; what it held before doesn't matter.
pub fn advance(closed: &Closed, a: Letter, inputs: &[Residues], masks: &Masks, into: &mut Residues)
    requires letter { a.0 < length closed.now.alphabet.letters }
    requires given { (w : List ℕ)
        × AreResiduesAfter closed.now w (loc_of closed.now.alphabet a.0) inputs.now
        × AreMasksAfter closed.now.alphabet w (loc_of closed.now.alphabet a.0) masks.now }
    requires processes { into.old.processes ≡ closed.now.alphabet.processes }
    requires states { into.old.states ≡ closed.now.states }
    ensures { (w : List ℕ) → AreResiduesAfter closed.now w (loc_of closed.now.alphabet a.0) inputs.now →
        AreMasksAfter closed.now.alphabet w (loc_of closed.now.alphabet a.0) masks.now →
        (x : ℕ) → IsTrue (has (loc_of closed.now.alphabet a.0) x) →
        into.new ≡ table_residues closed.now (w ++ a.0 ∷ []) x }
{
    // A set with a participant gets the identity; any other goes through the residues of the
    // participants in turn, and then through one step by the letter.
    let processes = closed.dfa().alphabet().processes();
    let mut steps = [0; TABLE_STATES];
    set_column(closed, a, &mut steps);
    let omitted = first_omitted(masks, inputs.len());
    let event = Event {
        closed,
        a,
        steps: steps.as_slice(),
        inputs,
        masks,
    };
    write_sets(
        &event,
        Procs::none(),
        processes,
        &omitted,
        into.values.as_mut_slice(),
    );
}

/// Where a word leads from the start (Mukund 2012): `inputs` has the residues of all processes after
/// it, in rising order, and `masks` says what they share after it.
pub fn join_all(closed: &Closed, inputs: &[Residues], masks: &Masks) -> u8
    requires { (w : List ℕ)
        × AreResiduesAfter closed.now w (range_with_len 0 closed.now.alphabet.processes) inputs.now
        × AreMasksAfter closed.now.alphabet w (range_with_len 0 closed.now.alphabet.processes) masks.now }
    ensures { (w : List ℕ) → AreResiduesAfter closed.now w (range_with_len 0 closed.now.alphabet.processes) inputs.now →
        AreMasksAfter closed.now.alphabet w (range_with_len 0 closed.now.alphabet.processes) masks.now →
        result ≡ walk (step_of closed.now) closed.now.start w }
{
    let start = closed.dfa().start();
    let omitted = first_omitted(masks, inputs.len());
    composed(inputs, &omitted, start)
}

/// Where the functions of the inputs lead from a state, each for its omitted set, in turn.
fn composed(inputs: &[Residues], omitted: &[Procs; MOST_PROCESSES], q: u8) -> u8
    requires { CanBeTaken inputs.now omitted.now q }
    ensures value { result ≡ in_turn (turn_of inputs.now omitted.now) (length inputs.now) q }
    ensures within { (taken : CanBeTaken inputs.now omitted.now q) → result < taken.states }
{
    let mut state = q;
    for (i, input) in inputs.iter().enumerate() {
        state = input.apply(omitted[i], state);
    }
    state
}
