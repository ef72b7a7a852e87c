ghost use Rattle.std.specs.Prelude.{◌≡◌, ◌==◌, [], ◌∷◌, ◌++◌, length, replicate, OnOk, OnErr, IfOk};

use crate::fault::OutOfMemory;
use std::alloc::Global;
use std::marker::Model;

/// A letter, by its number in an alphabet.
#[derive(Clone, Copy, Debug, PartialEq, Eq)]
pub struct Letter(pub u8);

/// A word: a list of letters, seen by contracts as the list of their numbers.
#[derive(Debug, Drop)]
pub struct Word {
    items: Vec<Letter>,
}

impl Model for Word {
    ghost use Rattle.std.specs.Prelude.{List, ℕ};
    ghost use Rattle.za_alpha.specs.Letters.{numbers};

    ghost Value = { List ℕ };

    ghost view = { λ w. numbers w.items.items };
}

impl Word {
    ghost use Rattle.za_alpha.specs.Letters.{numbers};

    /// The empty word. It keeps the allocator for later letters.
    pub fn new(alloc: Global) -> Word
        ensures { result ≡ [] }
    {
        Word {
            items: Vec::new(alloc),
        }
    }

    /// The word of these letters.
    pub fn of_letters(letters: Vec<Letter>) -> Word
        ensures { result ≡ numbers letters.items }
    {
        Word { items: letters }
    }

    /// Appends a letter. Where memory is refused the word stays as it was.
    pub fn push(&mut self, a: Letter) -> Result<(), OutOfMemory>
        ensures ok { OnOk result (self.new ≡ self.old ++ a.0 ∷ []) }
        ensures err { OnErr result (self.new ≡ self.old) }
    {
        self.items.push(a)?;
        Ok(())
    }

    /// Appends a letter so many times, or not at all: where memory is refused the word stays as it was.
    pub fn push_run(&mut self, a: Letter, count: u32) -> Result<(), OutOfMemory>
        ensures ok { OnOk result (self.new ≡ self.old ++ replicate count a.0) }
        ensures err { OnErr result (self.new ≡ self.old) }
    {
        let len = self.items.len() + count as usize;
        self.items.resize(len, a)?;
        Ok(())
    }

    /// How many letters there are.
    pub fn len(&self) -> usize
        ensures { result ≡ length self.now }
    {
        self.items.len()
    }

    /// Whether there is no letter.
    pub fn is_empty(&self) -> bool
        ensures { result ≡ (length self.now == 0) }
    {
        self.items.is_empty()
    }

    /// The letters in order.
    pub fn letters(&self) -> &[Letter]
        ensures { numbers result.now ≡ self.now }
    {
        self.items.as_slice()
    }

    /// An equal word of its own.
    pub fn copy(&self) -> Result<Word, OutOfMemory>
        ensures { IfOk result (λ w. w ≡ self.now) }
    {
        let alloc = *self.items.allocator();
        Ok(Word {
            items: Vec::from_slice(alloc, self.items.as_slice())?,
        })
    }
}
