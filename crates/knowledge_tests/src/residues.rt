//! What residues are after first events.

ghost use Rattle.std.specs.Prelude.{◌≡◌, ℕ, ◌<◌, IsTrue, [], ◌∷◌, length, map, IfOk};
ghost use Rattle.std.specs.List.{range_with_len};
ghost use Rattle.za_alpha.specs.Words.{has};
ghost use Rattle.za_alpha.specs.Procs.{members_below};
ghost use Rattle.za_alpha.specs.Alphabet.{loc_of};
ghost use Rattle.za_residue.specs.Residues.{table_residues};

use samples::{TWO_PROCESSES, alphabet_of, closed_of, dfa_of};
use std::alloc::Global;
use std::process::Abort;
use std::test::Fail;
use za_alpha::{Letter, MOST_PROCESSES, OutOfMemory, Procs};
use za_dfa::Closed;
use za_ids::EventId;
use za_residue::{Masks, Residues, advance, below, join_all};

/// Nobody shares anything.
const NOTHING: Masks = Masks {
    earlier: [Procs(0); MOST_PROCESSES],
    under: [[Procs(0); MOST_PROCESSES]; MOST_PROCESSES],
};

/// What the participants of a letter keep before any event.
fn blanks(alloc: Global, closed: &Closed, participants: Procs) -> Result<Vec<Residues>, OutOfMemory>
    ensures { IfOk result (λ rs. rs.items
        ≡ map (table_residues closed.now []) (members_below participants closed.now.alphabet.processes)) }
{
    let processes = closed.dfa().alphabet().processes();
    let states = closed.dfa().states();
    let mut all = Vec::new(alloc);
    for x in 0..processes {
        if participants.has(x) {
            all.push(Residues::blank(alloc, processes, states)?)?;
        }
    }
    Ok(all)
}

/// What the participants of a letter keep after their event, as the first of all.
fn first_event(alloc: Global, closed: &Closed, a: Letter) -> Result<Residues, OutOfMemory>
    requires { a.0 < length closed.now.alphabet.letters }
    ensures { IfOk result (λ r. (x : ℕ) →
        IsTrue (has (loc_of closed.now.alphabet a.0) x) → r ≡ table_residues closed.now (a.0 ∷ []) x) }
{
    let processes = closed.dfa().alphabet().processes();
    let inputs = blanks(alloc, closed, closed.dfa().alphabet().loc(a))?;
    let mut into = Residues::blank(alloc, processes, closed.dfa().states())?;
    advance(closed, a, inputs.as_slice(), &NOTHING, &mut into);
    drop(inputs);
    Ok(into)
}

/// What all processes keep before any event.
fn all_blanks(alloc: Global, closed: &Closed) -> Result<Vec<Residues>, OutOfMemory>
    ensures { IfOk result (λ rs. rs.items
        ≡ map (table_residues closed.now []) (range_with_len 0 closed.now.alphabet.processes)) }
{
    let processes = closed.dfa().alphabet().processes();
    let states = closed.dfa().states();
    let mut all = Vec::new(alloc);
    for _ in 0..processes {
        all.push(Residues::blank(alloc, processes, states)?)?;
    }
    Ok(all)
}

/// The state of the joint view of all processes before any event.
fn first_state(alloc: Global, closed: &Closed) -> Result<u8, OutOfMemory>
    ensures { IfOk result (λ q. q ≡ closed.now.start) }
{
    let inputs = all_blanks(alloc, closed)?;
    Ok(join_all(closed, inputs.as_slice(), &NOTHING))
}

static TURNS: [u8; 9] = [1, 2, 0, 2, 0, 0, 0, 1, 0];

/// From state 1 of three: `a` and `b` turn the states round, once and twice, and `c` leads to 0.
fn turning(alloc: Global) -> Result<Closed, Fail> {
    let alphabet = alphabet_of(alloc, 2, &TWO_PROCESSES)?;
    let dfa = dfa_of(alloc, alphabet, 1, &[true; 3], &TURNS)?;
    closed_of(dfa)
}

/// Compares one function with its values.
fn assert_function(rt: &impl Abort, residues: &Residues, set: u16, values: &[u8]) {
    assert!(rt; set < 4 && residues.processes() == 2 && residues.states() == 3);
    for (q, value) in values.iter().enumerate() {
        assert!(rt; q < 3);
        assert_eq!(rt; residues.apply(Procs(set), q as u8), *value);
    }
}

/// Compares the functions of the four sets of two processes.
fn assert_functions(rt: &impl Abort, residues: &Residues, functions: &[[u8; 3]]) {
    for (set, values) in functions.iter().enumerate() {
        assert!(rt; set < 4);
        assert_function(rt, residues, set as u16, values);
    }
}

#[test]
fn copies_of_identities(rt: HostRuntime) -> Result<(), Fail> {
    let blank = Residues::blank(rt.alloc(), 2, 3)?;
    let mut copy = Residues::blank(rt.alloc(), 2, 3)?;
    copy.copy_from(&blank);
    assert!(rt; copy.equals(&blank));
    assert_functions(&rt, &blank, &[[0, 1, 2]; 4]);
    assert_functions(&rt, &copy, &[[0, 1, 2]; 4]);
    drop(copy);
    drop(blank);
    Ok(())
}

/// The functions after each letter, by the numbers of the sets: nobody, process 0, process 1, and both.
static AFTER: [[[u8; 3]; 4]; 3] = [
    [[1, 2, 0], [0, 1, 2], [1, 2, 0], [0, 1, 2]],
    [[2, 0, 1], [2, 0, 1], [0, 1, 2], [0, 1, 2]],
    [[0, 0, 0], [0, 1, 2], [0, 1, 2], [0, 1, 2]],
];

fn assert_after(
    rt: &impl Abort,
    alloc: Global,
    closed: &Closed,
    a: usize,
    functions: &[[u8; 3]],
) -> Result<(), OutOfMemory> {
    assert!(rt; a < closed.dfa().alphabet().letters() && a < 3);
    let residues = first_event(alloc, closed, Letter(a as u8))?;
    assert_functions(rt, &residues, functions);
    drop(residues);
    Ok(())
}

fn assert_all_after(rt: &impl Abort, alloc: Global, closed: &Closed) -> Result<(), OutOfMemory> {
    for (a, functions) in AFTER.iter().enumerate() {
        assert_after(rt, alloc, closed, a, functions)?;
    }
    Ok(())
}

#[test]
fn functions_after_a_first_event(rt: HostRuntime) -> Result<(), Fail> {
    let closed = turning(rt.alloc())?;
    let tried = assert_all_after(&rt, rt.alloc(), &closed);
    drop(closed);
    Ok(tried?)
}

#[test]
fn the_start_before_any_event(rt: HostRuntime) -> Result<(), Fail> {
    let closed = turning(rt.alloc())?;
    let state = first_state(rt.alloc(), &closed);
    drop(closed);
    assert_eq!(rt; state?, 1);
    Ok(())
}

/// Primary entries, other numbers, and the set of the processes whose entries stand among the latter.
static SHARED: [([u32; 3], [u32; 3], u16); 5] = [
    ([1, 0, 3], [3, 1, 9], 0b101),
    ([1, 0, 3], [0, 0, 0], 0),
    ([7, 7, 7], [7, 0, 0], 0b111),
    ([0, 0, 0], [0, 1, 2], 0),
    ([1, 2, 3], [4, 5, 2], 0b010),
];

#[test]
fn shared_entries(rt: HostRuntime) {
    for (primary, other, shared) in &SHARED {
        let primary = primary.map(EventId);
        let other = other.map(EventId);
        assert_eq!(rt; below(&primary, &other).0, *shared);
    }
}
