//! The pasts of events by positions.

use samples::{TWO_PROCESSES, alphabet_of, word_of};
use std::alloc::Global;
use std::process::Abort;
use std::test::Fail;
use za_alpha::{Alphabet, OutOfMemory, Word};
use za_order::{BitRow, past};

fn assert_marks(rt: &impl Abort, row: &BitRow, marks: &[bool]) {
    assert_eq!(rt; (row.len(), row.is_empty()), (marks.len(), false));
    for (i, mark) in marks.iter().enumerate() {
        assert!(rt; i < row.len());
        assert_eq!(rt; row.has(i), *mark, "{i}");
    }
}

/// Which events are in the past of each event of the word `a b c a`.
static PASTS: [[bool; 4]; 4] = [
    [true, false, false, false],
    [false, true, false, false],
    [true, true, true, false],
    [true, true, true, true],
];

fn assert_pasts(
    rt: &impl Abort,
    alloc: Global,
    alphabet: &Alphabet,
    word: &Word,
) -> Result<(), OutOfMemory> {
    for (at, marks) in PASTS.iter().enumerate() {
        assert!(rt; alphabet.has_word(word));
        assert!(rt; at < word.len());
        let row = past(alloc, alphabet, word, at)?;
        assert_marks(rt, &row, marks);
        drop(row);
    }
    Ok(())
}

#[test]
fn pasts_in_a_b_c_a(rt: HostRuntime) -> Result<(), Fail> {
    let alphabet = alphabet_of(rt.alloc(), 2, &TWO_PROCESSES)?;
    let word = word_of(rt.alloc(), &[0, 1, 2, 0])?;
    let tried = assert_pasts(&rt, rt.alloc(), &alphabet, &word);
    drop(word);
    drop(alphabet);
    Ok(tried?)
}
