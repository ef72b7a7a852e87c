ghost use Rattle.std.specs.Prelude.{◌≡◌, ℕ, ◌≤◌, ◌<◌, ◌==◌, ◌↔◌, [], ◌∷◌, ◌++◌, length, map};
ghost use Rattle.std.specs.Prelude.{IsTrue, IfOk, IfSome, OnOk, OnErr, None, nat_le, option_map};
ghost use Rattle.za_alpha.specs.Limits.{most_processes, most_letters};
ghost use Rattle.za_alpha.specs.Words.{has};
ghost use Rattle.za_alpha.specs.Procs.{members};
ghost use Rattle.za_alpha.specs.Alphabet.{name_at, place_of, procs_at};
ghost use Rattle.za_alpha.specs.NewNames.{name_fault};
ghost use Rattle.za_alpha.specs.Private.Index.{IsIndex};
ghost use Rattle.za_alpha.specs.Private.Begun.{letter_of_entry, AreNamedApart};

use crate::alphabet::Alphabet;
use crate::fault::{NameFault, OutOfMemory};
use crate::index::{Index, Named, key_of, place_of_name};
use crate::procs::Procs;
use crate::rows::MOST_LETTERS;
use crate::word::Letter;
use std::alloc::Global;
use std::marker::Model;
use za_names::is_name;

/// A letter's name, and its processes.
#[derive(Debug, Drop)]
pub(crate) struct Entry {
    pub(crate) name: Vec<u8>,
    pub(crate) loc: Procs,
}

/// The letters of an alphabet that is still being made, one by one.
#[derive(Debug, Drop)]
pub struct Letters {
    processes: usize,
    entries: Vec<Entry>,
    index: Index,
}

impl Model for Letters {
    ghost use Rattle.za_alpha.specs.Alphabet.{DistributedAlphabet};
    ghost use Rattle.za_alpha.specs.Private.Begun.{letters_of, AreBegun};

    ghost Value = { DistributedAlphabet };

    ghost view = { letters_of };

    ghost invariant = { AreBegun };
}

impl Named for Entry {
    ghost letter = { letter_of_entry };

    fn name(&self) -> &[u8] {
        self.name.as_slice()
    }
}

/// The name of the entry at a letter's place.
fn name_in(entries: &[Entry], a: Letter) -> &[u8]
    requires { a.0 < length entries.now }
    ensures { result.now ≡ name_at (map letter_of_entry entries.now) a.0 }
{
    entries[a.0 as usize].name.as_slice()
}

/// Equal entries of their own.
fn copies_of(alloc: Global, entries: &[Entry]) -> Result<Vec<Entry>, OutOfMemory>
    ensures { IfOk result (λ copies. map letter_of_entry copies.items ≡ map letter_of_entry entries.now) }
{
    let mut copies = Vec::new(alloc);
    for entry in entries {
        copies.push(Entry {
            name: Vec::from_slice(alloc, entry.name.as_slice())?,
            loc: entry.loc,
        })?;
    }
    Ok(copies)
}

impl Letters {
    /// No letters yet, of `n` processes.
    pub fn new(alloc: Global, n: usize) -> Letters
        requires some { 1 ≤ n }
        requires few { n ≤ most_processes }
        ensures { result ≡ record { processes = n; letters = [] } }
    {
        Letters {
            processes: n,
            entries: Vec::new(alloc),
            index: Index::new(),
        }
    }

    /// How many processes there are.
    pub fn processes(&self) -> usize
        ensures value { result ≡ self.now.processes }
        ensures few { result ≤ most_processes }
    {
        self.processes
    }

    /// How many letters there are so far.
    pub fn len(&self) -> usize
        ensures value { result ≡ length self.now.letters }
        ensures few { result ≤ most_letters }
    {
        self.entries.len()
    }

    /// Whether there is no letter yet.
    pub fn is_empty(&self) -> bool
        ensures { result ≡ (length self.now.letters == 0) }
    {
        self.entries.is_empty()
    }

    /// Whether there is no room for one letter more.
    pub fn is_full(&self) -> bool
        ensures { result ≡ nat_le most_letters (length self.now.letters) }
    {
        MOST_LETTERS <= self.entries.len()
    }

    /// What is wrong with the name of one letter more: that it is no name, and then that a letter
    /// has it.
    pub fn name_fault(&self, name: &[u8]) -> Option<NameFault>
        ensures { result ≡ name_fault self.now.letters name.now }
    {
        if !is_name(name) {
            return Some(NameFault::Bad);
        }
        match self.find(name) {
            Some(_place) => Some(NameFault::Repeated),
            None => None,
        }
    }

    /// One letter more. Where memory is refused the letters stay as they were.
    pub fn add(&mut self, name: Vec<u8>, procs: Procs) -> Result<(), OutOfMemory>
        requires named { name_fault self.old.letters name.items ≡ None }
        requires room { length self.old.letters < most_letters }
        requires some { ¬ (members procs ≡ []) }
        requires below { (p : ℕ) → IsTrue (has (members procs) p) → p < self.old.processes }
        ensures ok { OnOk result (self.new ≡ record self.old {
          letters = self.old.letters ++ record { name = name.items; loc = procs } ∷ [];
        }) }
        ensures err { OnErr result (self.new ≡ self.old) }
    {
        let key = key_of(name.as_slice());
        let place = self.entries.len();
        self.entries.push(Entry { name, loc: procs })?;
        self.index.add(place, key);
        Ok(())
    }

    /// The alphabet of these letters.
    pub fn into_alphabet(self) -> Alphabet
        requires { 0 < length self.letters }
        ensures { result ≡ self }
    {
        Alphabet::of_letters(self)
    }

    /// A letter's name.
    pub(crate) fn name(&self, a: Letter) -> &[u8]
        requires { a.0 < length self.now.letters }
        ensures { result.now ≡ name_at self.now.letters a.0 }
    {
        name_in(self.entries.as_slice(), a)
    }

    /// The letter of a name, and `None` exactly where no letter has it.
    pub(crate) fn find(&self, name: &[u8]) -> Option<Letter>
        ensures { option_map (λ (a : Letter). a.0) result ≡ place_of self.now.letters name.now }
    {
        match place_of_name(self.entries.as_slice(), &self.index, name) {
            Some(place) => Some(Letter(place as u8)),
            None => None,
        }
    }

    /// The processes of a letter.
    pub(crate) fn loc(&self, a: Letter) -> Procs
        requires { a.0 < length self.now.letters }
        ensures { result ≡ procs_at self.now.letters a.0 }
    {
        self.entries[a.0 as usize].loc
    }

    /// The allocator of the letters.
    pub(crate) fn allocator(&self) -> Global {
        *self.entries.allocator()
    }

    /// Equal letters of their own.
    pub(crate) fn copy(&self) -> Result<Letters, OutOfMemory>
        ensures { IfOk result (λ letters. letters ≡ self.now) }
    {
        let entries = copies_of(*self.entries.allocator(), self.entries.as_slice())?;
        Ok(Letters {
            processes: self.processes,
            entries,
            index: self.index,
        })
    }
}
