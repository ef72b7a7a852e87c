ghost use Rattle.std.specs.Prelude.{◌≡◌, ◌<◌, ◌↔◌, ℕ, IsTrue, IfOk, length, slice_index};
ghost use Rattle.za_alpha.specs.Alphabet.{loc_of};
ghost use Rattle.za_script.specs.Scripts.{Weaves};
ghost use Rattle.za_script.specs.ScriptLists.{script_of, FitAlphabet};
ghost use Rattle.za_script.specs.Woven.{IsWeave};

use crate::scripts::Scripts;
use crate::weaving::Weaving;
use std::alloc::Global;
use std::marker::Model;
use za_alpha::{Alphabet, OutOfMemory, Word};

/// The word that scripts weave to, how many of its letters each process has, and whether the scripts
/// are used up.
#[derive(Debug, Drop)]
pub struct Woven {
    word: Word,
    counts: Vec<usize>,
    whole: bool,
}

impl Model for Woven {
    ghost use Rattle.za_script.specs.Woven.{WovenWord};

    ghost Value = { WovenWord };

    ghost view = { λ w. record { word = w.word; counts = w.counts.items; whole = w.whole } };
}

impl Woven {
    /// The woven word.
    pub fn word(&self) -> &Word
        ensures { result.now ≡ self.now.word }
    {
        &self.word
    }

    /// How many letters of the word process `p` has.
    pub fn count(&self, p: usize) -> usize
        requires { p < length self.now.counts }
        ensures { result ≡ slice_index self.now.counts p }
    {
        self.counts[p]
    }

    /// Whether every script is used up.
    pub fn whole(&self) -> bool
        ensures { result ≡ self.now.whole }
    {
        self.whole
    }
}

/// Weaves the scripts: fires the least letter that is next at all its processes, until none is. The
/// letters that a process fires are its script's first ones, as many as its count says. The result is
/// whole exactly if every script is used up, which is exactly if the word weaves the scripts.
/// Want of memory is the one free answer.
pub fn weave(alloc: Global, alphabet: &Alphabet, scripts: &Scripts) -> Result<Woven, OutOfMemory>
    requires { FitAlphabet alphabet.now scripts.now }
    ensures weave { IfOk result (IsWeave alphabet.now scripts.now) }
    ensures used_up { IfOk result (λ w. IsTrue w.whole ↔ ((p : ℕ) → p < alphabet.now.processes →
        slice_index w.counts p ≡ length (script_of scripts.now p))) }
    ensures whole { IfOk result (λ w. IsTrue w.whole ↔ Weaves (loc_of alphabet.now)
        (length alphabet.now.letters) (script_of scripts.now) w.word) }
{
    let mut weaving = Weaving::start(alloc, alphabet, scripts)?;
    let mut word = Word::new(alloc);
    while let Some(a) = weaving.least_enabled(alphabet) {
        word.push(a)?;
        weaving.fire(alphabet, scripts, a);
    }
    let whole = weaving.is_done(scripts);
    Ok(Woven {
        word,
        counts: weaving.places,
        whole,
    })
}
