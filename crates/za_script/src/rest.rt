//! What a word leaves of scripts.

ghost use Rattle.std.specs.Prelude.{◌≡◌, ◌≤◌, IfOk, length, drop};
ghost use Rattle.za_alpha.specs.Words.{IsWord, projection};
ghost use Rattle.za_alpha.specs.Letters.{numbers};
ghost use Rattle.za_alpha.specs.Alphabet.{loc_of};
ghost use Rattle.za_script.specs.Rests.{rest_of};

use crate::scripts::Scripts;
use std::alloc::Global;
use za_alpha::{Alphabet, Letter, OutOfMemory, Word};

/// How many of the letters process `p` has.
pub fn count_of(alphabet: &Alphabet, p: usize, letters: &[Letter]) -> usize
    requires { IsWord (length alphabet.now.letters) (numbers letters.now) }
    ensures value { result ≡ length (projection (loc_of alphabet.now) p (numbers letters.now)) }
    ensures within { result ≤ length letters.now }
{
    let mut count = 0;
    for a in letters {
        if alphabet.loc(*a).has(p) {
            count += 1;
        }
    }
    count
}

/// The letters but for the first `count`: none where there are no more.
fn without_first(alloc: Global, letters: &[Letter], count: usize) -> Result<Word, OutOfMemory>
    ensures { IfOk result (λ w. w ≡ drop count (numbers letters.now)) }
{
    if letters.len() <= count {
        return Ok(Word::new(alloc));
    }
    Ok(Word::of_letters(Vec::from_slice(alloc, &letters[count..])?))
}

impl Scripts {
    /// What is left of the scripts after a word of the alphabet: each without as many of its first
    /// letters as the word has of its process. Want of memory is the one free answer.
    pub fn rest(&self, alphabet: &Alphabet, word: &[Letter]) -> Result<Scripts, OutOfMemory>
        requires { IsWord (length alphabet.now.letters) (numbers word.now) }
        ensures { IfOk result (λ s. s ≡ rest_of alphabet.now self.now (numbers word.now)) }
    {
        let alloc = *self.words.allocator();
        let mut words = Vec::with_capacity(alloc, self.words.len())?;
        let mut letters = 0;
        for p in 0..self.processes() {
            let count = count_of(alphabet, p, word);
            let rest = without_first(alloc, self.script(p).letters(), count)?;
            letters += rest.len();
            words.push(rest)?;
        }
        Ok(Scripts { words, letters })
    }
}
