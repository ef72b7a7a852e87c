ghost use Rattle.std.specs.Prelude.{◌≡◌, ℕ, ◌≤◌, ◌<◌, ◌↔◌, length, drop, slice_index};
ghost use Rattle.std.specs.Prelude.{None, IsTrue, IfOk, MatchResult, unwrap_or, option_map};
ghost use Rattle.za_alpha.specs.Words.{has, independent, projection, IsWord, AreEquivalent};
ghost use Rattle.za_alpha.specs.Letters.{numbers};
ghost use Rattle.za_alpha.specs.Rows.{alphabet_fault, alphabet_of_rows};
ghost use Rattle.za_alpha.specs.Alphabet.{loc_of, name_at, place_of, procs_at, IsDistributed};

use crate::fault::{AlphaFault, OutOfMemory};
use crate::letters::Letters;
use crate::procs::Procs;
use crate::rows::{add_row, are_below, fault_of};
use crate::word::{Letter, Word};
use std::alloc::Global;
use std::marker::Model;

/// What is said of a letter: its name, and its processes in any order.
#[derive(Debug, Drop)]
pub struct LetterRow {
    pub name: Vec<u8>,
    pub procs: Vec<u32>,
}

/// A distributed alphabet: 1 to 10 processes, and 1 to 128 letters that each belong to some of them
/// (Zielonka 1987).
#[derive(Debug, Drop)]
pub struct Alphabet {
    letters: Letters,
}

impl Model for Alphabet {
    ghost use Rattle.za_alpha.specs.Alphabet.{DistributedAlphabet};
    ghost use Rattle.za_alpha.specs.Private.Whole.{alphabet_of, IsWhole};

    ghost Value = { DistributedAlphabet };

    ghost view = { alphabet_of };

    ghost invariant = { IsWhole };
}

impl Alphabet {
    /// The alphabet of `n` processes whose letter `i` is row `i`. A process that a row names twice
    /// counts once. The first wrong row is named, and the first of its tests that fails.
    pub fn new(alloc: Global, n: usize, rows: Vec<LetterRow>) -> Result<Alphabet, AlphaFault>
        ensures { MatchResult result
            (λ a. (alphabet_fault n rows.items ≡ None) × (a ≡ alphabet_of_rows n rows.items))
            (λ e. e ≡ unwrap_or (alphabet_fault n rows.items) AlphaFault.OutOfMemory) }
    {
        if let Some(fault) = fault_of(n, rows.as_slice()) {
            return Err(fault);
        }
        let mut letters = Letters::new(alloc, n);
        for row in rows {
            add_row(&mut letters, row)?;
        }
        Ok(letters.into_alphabet())
    }

    /// The alphabet of these letters.
    pub(crate) fn of_letters(letters: Letters) -> Alphabet
        requires { 0 < length letters.letters }
        ensures { result ≡ letters }
    {
        Alphabet { letters }
    }

    /// How many processes there are, 1 to 10.
    pub fn processes(&self) -> usize
        ensures value { result ≡ self.now.processes }
        ensures whole { IsDistributed self.now }
    {
        self.letters.processes()
    }

    /// How many letters there are, 1 to 128.
    pub fn letters(&self) -> usize
        ensures value { result ≡ length self.now.letters }
        ensures whole { IsDistributed self.now }
    {
        self.letters.len()
    }

    /// A letter's name.
    pub fn name(&self, a: Letter) -> &[u8]
        requires { a.0 < length self.now.letters }
        ensures { result.now ≡ name_at self.now.letters a.0 }
    {
        self.letters.name(a)
    }

    /// The letter of a name, and `None` exactly where no letter has it.
    pub fn find(&self, name: &[u8]) -> Option<Letter>
        ensures { option_map (λ (a : Letter). a.0) result ≡ place_of self.now.letters name.now }
    {
        self.letters.find(name)
    }

    /// The processes of a letter.
    pub fn loc(&self, a: Letter) -> Procs
        requires { a.0 < length self.now.letters }
        ensures { result ≡ procs_at self.now.letters a.0 }
    {
        self.letters.loc(a)
    }

    /// Whether no process belongs to both letters.
    pub fn independent(&self, a: Letter, b: Letter) -> bool
        requires first { a.0 < length self.now.letters }
        requires second { b.0 < length self.now.letters }
        ensures { result ≡ independent (loc_of self.now) a.0 b.0 }
    {
        !self.loc(a).meets(self.loc(b))
    }

    /// Whether each letter of a word is one of the alphabet's.
    pub fn has_word(&self, w: &Word) -> bool
        ensures { IsTrue result ↔ IsWord (length self.now.letters) w.now }
    {
        are_below(w.letters(), self.letters.len())
    }

    /// The projection of a word on process `p`: its letters of which `p` is a process, in order.
    pub fn project(&self, w: &Word, p: usize) -> Result<Word, OutOfMemory>
        requires word { IsWord (length self.now.letters) w.now }
        requires process { p < self.now.processes }
        ensures { IfOk result (λ v. v ≡ projection (loc_of self.now) p w.now) }
    {
        let mut seen = Word::new(self.letters.allocator());
        let letters = w.letters();
        for a in letters {
            if self.loc(*a).has(p) {
                seen.push(*a)?;
            }
        }
        Ok(seen)
    }

    /// Whether the words have equal projections on every process, so that they are one trace.
    pub fn same_trace(&self, u: &Word, v: &Word) -> bool
        requires first { IsWord (length self.now.letters) u.now }
        requires second { IsWord (length self.now.letters) v.now }
        ensures { IsTrue result ↔ AreEquivalent (loc_of self.now) u.now v.now }
    {
        for p in 0..self.letters.processes() {
            if !self.same_projection(u.letters(), v.letters(), p) {
                return false;
            }
        }
        true
    }

    /// An equal alphabet of its own.
    pub fn copy(&self) -> Result<Alphabet, OutOfMemory>
        ensures { IfOk result (λ a. a ≡ self.now) }
    {
        Ok(Alphabet {
            letters: self.letters.copy()?,
        })
    }

    /// The place of the first letter from `at` on that has process `p`, and the length where there
    /// is none.
    fn next_of(&self, letters: &[Letter], at: usize, p: usize) -> usize
        requires word { IsWord (length self.now.letters) (numbers letters.now) }
        requires within { at ≤ length letters.now }
        ensures within { at ≤ result × (result ≤ length letters.now) }
        ensures skipped { let left = λ (i : ℕ). projection (loc_of self.now) p (drop i (numbers letters.now)) in
            left at ≡ left result }
        ensures found { result < length letters.now →
            IsTrue (has (loc_of self.now (slice_index (numbers letters.now) result)) p) }
    {
        for i in at..letters.len() {
            if self.loc(letters[i]).has(p) {
                return i;
            }
        }
        letters.len()
    }

    /// Whether process `p` sees the same in both.
    fn same_projection(&self, u: &[Letter], v: &[Letter], p: usize) -> bool
        requires first { IsWord (length self.now.letters) (numbers u.now) }
        requires second { IsWord (length self.now.letters) (numbers v.now) }
        ensures { let seen = projection (loc_of self.now) p in
            IsTrue result ↔ (seen (numbers u.now) ≡ seen (numbers v.now)) }
    {
        let mut i = self.next_of(u, 0, p);
        let mut j = self.next_of(v, 0, p);
        'letters: while i < u.len() && j < v.len() {
            if u[i] != v[j] {
                return false;
            }
            i = self.next_of(u, i + 1, p);
            j = self.next_of(v, j + 1, p);
        }
        i == u.len() && j == v.len()
    }
}
