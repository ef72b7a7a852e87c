//! Alphabets, and words of letters.

use std::alloc::{AllocError, Global};
use std::test::Fail;
use za_alpha::{Alphabet, Letter, LetterRow, OutOfMemory, Word};

/// The first letter.
pub const A: Letter = Letter(0);

/// The second letter.
pub const B: Letter = Letter(1);

/// The third letter.
pub const C: Letter = Letter(2);

/// A letter's name, and its processes.
pub type Named = (&'static [u8], &'static [u32]);

/// A letter of one process.
pub const ONE_PROCESS: [Named; 1] = [(b"a", &[0])];

/// A letter of each of two processes, and one of both.
pub const TWO_PROCESSES: [Named; 3] = [(b"a", &[0]), (b"b", &[1]), (b"c", &[0, 1])];

/// Four processes in a ring, and a letter for each two neighbours.
pub const FOUR_PROCESSES: [Named; 4] = [
    (b"c", &[1, 2]),
    (b"d", &[1, 3]),
    (b"e", &[0, 3]),
    (b"f", &[0, 2]),
];

/// Three processes, and a letter for each two of them.
pub const RING: [Named; 3] = [(b"x", &[0, 1]), (b"y", &[1, 2]), (b"z", &[0, 2])];

/// The row of a letter.
pub fn row(alloc: Global, name: &[u8], procs: &[u32]) -> Result<LetterRow, AllocError> {
    Ok(LetterRow {
        name: Vec::from_slice(alloc, name)?,
        procs: Vec::from_slice(alloc, procs)?,
    })
}

fn rows(alloc: Global, letters: &[Named]) -> Result<Vec<LetterRow>, AllocError> {
    let mut rows = Vec::new(alloc);
    for (name, procs) in letters {
        rows.push(row(alloc, name, procs)?)?;
    }
    Ok(rows)
}

/// The alphabet of `n` processes whose letters these are.
pub fn alphabet_of(alloc: Global, n: usize, letters: &[Named]) -> Result<Alphabet, Fail> {
    Ok(Alphabet::new(alloc, n, rows(alloc, letters)?)?)
}

/// The word of these letters.
pub fn word_of(alloc: Global, letters: &[u8]) -> Result<Word, OutOfMemory> {
    let mut word = Word::new(alloc);
    for letter in letters {
        word.push(Letter(*letter))?;
    }
    Ok(word)
}

/// Whether these are the letters of the word.
pub fn has_letters(word: &Word, letters: &[u8]) -> bool {
    if word.len() != letters.len() {
        return false;
    }
    for (seen, want) in word.letters().iter().zip(letters) {
        if seen.0 != *want {
            return false;
        }
    }
    true
}
