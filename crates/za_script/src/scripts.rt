ghost use Rattle.std.specs.Prelude.{◌≡◌, ◌<◌, ◌≤◌, ◌↔◌, ◌++◌, ◌∷◌, [], ℕ, All, None, IsTrue, IfOk, OnOk, OnErr};
ghost use Rattle.std.specs.Prelude.{MatchResult, unwrap_or, length, replicate, slice_set};
ghost use Rattle.za_alpha.specs.Limits.{most_processes};
ghost use Rattle.za_alpha.specs.Letters.{numbers};
ghost use Rattle.za_script.specs.ScriptLists.{script_of, total_of, AreScripts, IsLetterOf, FitAlphabet, add_fault};
ghost use Rattle.za_script.specs.ScriptLists.{add_run_fault};

use crate::fault::{MOST_SCRIPT_LETTERS, ScriptFault};
use std::alloc::Global;
use std::marker::Model;
use za_alpha::{Alphabet, Letter, OutOfMemory, Word};

/// A script for each process: the word that its part of a run has to be. Contracts see the list of
/// these words.
#[derive(Debug, Drop)]
pub struct Scripts {
    pub(crate) words: Vec<Word>,
    pub(crate) letters: usize,
}

impl Model for Scripts {
    ghost use Rattle.std.specs.Prelude.{List, ℕ};
    ghost use Rattle.za_script.specs.Private.Inside.{scripts_of, AreScriptsInside};

    ghost Value = { List (List ℕ) };

    ghost view = { scripts_of };

    ghost invariant = { AreScriptsInside };
}

/// Whether this is a letter of the alphabet of which `p` is a process.
fn is_letter_of(alphabet: &Alphabet, p: usize, a: Letter) -> bool
    ensures { IsTrue result ↔ IsLetterOf alphabet.now p a.0 }
{
    (a.0 as usize) < alphabet.letters() && alphabet.loc(a).has(p)
}

/// Whether all of these are letters of the alphabet of which `p` is a process.
fn are_letters_of(alphabet: &Alphabet, p: usize, letters: &[Letter]) -> bool
    ensures { IsTrue result ↔ All (IsLetterOf alphabet.now p) (numbers letters.now) }
{
    for a in letters {
        if !is_letter_of(alphabet, p, *a) {
            return false;
        }
    }
    true
}

impl Scripts {
    /// An empty script for each of `n` processes, 1 to 10. They keep the allocator for their letters.
    /// Want of memory is the one free answer.
    pub fn empty(alloc: Global, n: usize) -> Result<Scripts, OutOfMemory>
        requires some { 0 < n }
        requires few { n ≤ most_processes }
        ensures { IfOk result (λ s. s ≡ replicate n []) }
    {
        let mut words = Vec::with_capacity(alloc, n)?;
        for _ in 0..n {
            words.push(Word::new(alloc))?;
        }
        Ok(Scripts { words, letters: 0 })
    }

    /// Appends a letter to the script of process `p`. It is refused as foreign where `p` is no
    /// process of the letter, and else as full where there are 65,536 letters already. After an
    /// error, memory that is refused among them, the scripts are as they were.
    pub fn add(&mut self, alphabet: &Alphabet, p: usize, a: Letter) -> Result<(), ScriptFault>
        requires process { p < length self.old }
        requires of_alphabet { p < alphabet.now.processes }
        requires letter { a.0 < length alphabet.now.letters }
        ensures fault { MatchResult result
            (λ _. add_fault alphabet.now self.old p a ≡ None)
            (λ e. e ≡ unwrap_or (add_fault alphabet.now self.old p a) ScriptFault.OutOfMemory) }
        ensures ok { OnOk result (self.new ≡ slice_set self.old p (script_of self.old p ++ a.0 ∷ [])) }
        ensures err { OnErr result (self.new ≡ self.old) }
    {
        if !alphabet.loc(a).has(p) {
            return Err(ScriptFault::Foreign {
                process: p,
                letter: a,
            });
        }
        if self.letters == MOST_SCRIPT_LETTERS {
            return Err(ScriptFault::Full);
        }
        self.words[p].push(a)?;
        self.letters += 1;
        Ok(())
    }

    /// Appends a letter `count` times to the script of process `p`, or none. It is refused as foreign
    /// where `p` is no process of the letter, and else as full where there would be more than 65,536
    /// letters. After an error, memory that is refused among them, the scripts are as they were.
    pub fn add_run(
        &mut self,
        alphabet: &Alphabet,
        p: usize,
        a: Letter,
        count: u32,
    ) -> Result<(), ScriptFault>
        requires process { p < length self.old }
        requires of_alphabet { p < alphabet.now.processes }
        requires letter { a.0 < length alphabet.now.letters }
        requires some { 0 < count }
        ensures fault { MatchResult result
            (λ _. add_run_fault alphabet.now self.old p a count ≡ None)
            (λ e. e ≡ unwrap_or (add_run_fault alphabet.now self.old p a count) ScriptFault.OutOfMemory) }
        ensures ok { OnOk result
            (self.new ≡ slice_set self.old p (script_of self.old p ++ replicate count a.0)) }
        ensures err { OnErr result (self.new ≡ self.old) }
    {
        if !is_letter_of(alphabet, p, a) {
            return Err(ScriptFault::Foreign {
                process: p,
                letter: a,
            });
        }
        if count as usize > MOST_SCRIPT_LETTERS - self.letters {
            return Err(ScriptFault::Full);
        }
        self.words[p].push_run(a, count)?;
        self.letters += count as usize;
        Ok(())
    }

    /// How many processes there are, 1 to 10.
    pub fn processes(&self) -> usize
        ensures value { result ≡ length self.now }
        ensures limits { AreScripts self.now }
    {
        self.words.len()
    }

    /// The script of process `p`.
    pub fn script(&self, p: usize) -> &Word
        requires { p < length self.now }
        ensures { result.now ≡ script_of self.now p }
    {
        &self.words[p]
    }

    /// How many letters there are in all scripts together, at most 65,536.
    pub fn total(&self) -> usize
        ensures value { result ≡ total_of self.now }
        ensures limits { AreScripts self.now }
    {
        self.letters
    }

    /// Whether there is one script for each process of the alphabet, with letters of that process
    /// alone.
    pub fn fits(&self, alphabet: &Alphabet) -> bool
        ensures { IsTrue result ↔ FitAlphabet alphabet.now self.now }
    {
        if self.words.len() != alphabet.processes() {
            return false;
        }
        for (p, word) in self.words.iter().enumerate() {
            if !are_letters_of(alphabet, p, word.letters()) {
                return false;
            }
        }
        true
    }

    /// Equal scripts of their own. Want of memory is the one free answer.
    pub fn copy(&self) -> Result<Scripts, OutOfMemory>
        ensures { IfOk result (λ s. s ≡ self.now) }
    {
        let alloc = *self.words.allocator();
        let mut words = Vec::with_capacity(alloc, self.words.len())?;
        for word in &self.words {
            words.push(word.copy()?)?;
        }
        Ok(Scripts {
            words,
            letters: self.letters,
        })
    }
}
