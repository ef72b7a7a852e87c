//! What processes keep after the first event of all.

ghost use Rattle.std.specs.Prelude.{[]};
ghost use Rattle.std.specs.List.{range_with_len};
ghost use Rattle.za_gossip.specs.Rows.{AreRowsAfter};

use crate::gossip::{assert_ids, assert_newest, copied, fire, opened};
use samples::{Named, alphabet_of};
use std::alloc::Global;
use std::process::Abort;
use std::test::Fail;
use za_alpha::{Alphabet, Letter, OutOfMemory, Word};
use za_gossip::Gossip;

/// A letter of the first process, and one of the first two, of three processes.
static THREE: [Named; 2] = [(b"a", &[0]), (b"c", &[0, 1])];

/// A letter, and what its participants keep after its event.
struct Case {
    letter: u8,
    primary: [u32; 3],
    secondary: [[u32; 3]; 3],
    tertiary: [u32; 27],
}

static CASES: [Case; 2] = [
    Case {
        letter: 0,
        primary: [1, 0, 0],
        secondary: [[1, 0, 0], [0, 0, 0], [0, 0, 0]],
        tertiary: [
            1, 0, 0, 0, 0, 0, 0, 0, 0, // of process 0
            0, 0, 0, 0, 0, 0, 0, 0, 0, // of process 1
            0, 0, 0, 0, 0, 0, 0, 0, 0,
        ],
    },
    Case {
        letter: 1,
        primary: [29, 29, 0],
        secondary: [[29, 29, 0], [29, 29, 0], [0, 0, 0]],
        tertiary: [
            29, 29, 0, 29, 29, 0, 0, 0, 0, // of process 0
            29, 29, 0, 29, 29, 0, 0, 0, 0, // of process 1
            0, 0, 0, 0, 0, 0, 0, 0, 0,
        ],
    },
];

/// Compares all entries of equal rows.
fn assert_entries(rt: &impl Abort, gossip: &Gossip, case: &Case) {
    assert_ids(rt, gossip.primary(), &case.primary);
    for (q, ids) in case.secondary.iter().enumerate() {
        assert!(rt; q < gossip.primary().len());
        assert_ids(rt, gossip.secondary(q), ids);
    }
    assert_ids(rt, gossip.tertiary(), &case.tertiary);
}

/// What process 0, which is a participant of the letter, keeps after its event, the first of all. Its label is 0, and
/// nobody has later news before it than process 0.
fn after_first(
    rt: &impl Abort,
    alloc: Global,
    alphabet: &Alphabet,
    a: Letter,
    states: &mut Vec<Gossip>,
) -> Result<Gossip, OutOfMemory>
    requires { AreRowsAfter alphabet.now [] (range_with_len 0 alphabet.now.processes) states.old.items }
{
    let mut word = Word::new(alloc);
    assert_newest(rt, alloc, alphabet, a, &word, states.as_slice(), &[0; 3])?;
    assert!(rt; (a.0 as usize) < alphabet.letters());
    let label = fire(alloc, alphabet, a, &mut word, states);
    drop(word);
    assert_eq!(rt; label?, 0);
    assert!(rt; states.len() == 3);
    assert!(rt; states[0].primary().len() == 3);
    copied(alloc, 3, &states[0])
}

fn assert_case(
    rt: &impl Abort,
    alloc: Global,
    alphabet: &Alphabet,
    case: &Case,
) -> Result<(), OutOfMemory> {
    let mut states = opened(alloc, alphabet)?;
    let after = after_first(rt, alloc, alphabet, Letter(case.letter), &mut states);
    drop(states);
    let after = after?;
    assert_entries(rt, &after, case);
    drop(after);
    Ok(())
}

fn assert_cases(rt: &impl Abort, alloc: Global, alphabet: &Alphabet) -> Result<(), OutOfMemory> {
    for case in &CASES {
        assert_case(rt, alloc, alphabet, case)?;
    }
    Ok(())
}

#[test]
fn entries_after_the_first_event(rt: HostRuntime) -> Result<(), Fail> {
    let alphabet = alphabet_of(rt.alloc(), 3, &THREE)?;
    let tried = assert_cases(&rt, rt.alloc(), &alphabet);
    drop(alphabet);
    Ok(tried?)
}
