ghost use Rattle.std.specs.Prelude.{◌≡◌, ◌<◌, ◌≤◌, ◌+◌, ◌↔◌, ◌==◌, ◌&&◌, ◌||◌, ℕ, All, IsTrue, IfOk};
ghost use Rattle.std.specs.Prelude.{MatchOption, length, replicate, slice_index, vec_len, if◌then◌else◌};
ghost use Rattle.za_alpha.specs.Words.{has};
ghost use Rattle.za_alpha.specs.Procs.{members, no_process};
ghost use Rattle.za_alpha.specs.Alphabet.{loc_of, IsDistributed};
ghost use Rattle.za_script.specs.Scripts.{comes_next};
ghost use Rattle.za_script.specs.ScriptLists.{script_of, AreScripts, FitAlphabet};
ghost use Rattle.za_script.specs.Private.Weaving.{set_at, IsReady, IsGathered, IsLeastGathered, NoneGathered};

use crate::scripts::Scripts;
use std::alloc::Global;
use za_alpha::{Alphabet, Letter, OutOfMemory, Procs};

/// Where a weaving stands: for each process the place in its script, and for each letter the set
/// of the processes whose next letter it is.
#[derive(Drop)]
pub(crate) struct Weaving {
    pub(crate) places: Vec<usize>,
    pub(crate) sets: Vec<Procs>,
}

/// Whether the sets have the same processes.
fn are_same(one: Procs, other: Procs) -> bool
    ensures { IsTrue result ↔ ((p : ℕ) → has (members one) p ≡ has (members other) p) }
{
    one.0 == other.0
}

impl Weaving {
    /// Puts process `p` into the set of its next letter, if it has one.
    fn mark_next(&mut self, scripts: &Scripts, p: usize)
        requires process { p < length scripts.now }
        requires place { p < vec_len self.old.places }
        requires small { p < 16 }
        requires letters { All (λ a. a < vec_len self.old.sets) (script_of scripts.now p) }
        ensures places { self.new.places.items ≡ self.old.places.items }
        ensures letters { vec_len self.new.sets ≡ vec_len self.old.sets }
        ensures joined { (a q : ℕ) → a < vec_len self.old.sets →
            has (set_at self.new.sets.items a) q ≡ (has (set_at self.old.sets.items a) q ||
            (q == p && comes_next (script_of scripts.now p) (slice_index self.old.places.items p) a)) }
    {
        let letters = scripts.script(p).letters();
        let place = self.places[p];
        if place < letters.len() {
            let next = letters[place].0 as usize;
            self.sets[next] = self.sets[next].with(p);
        }
    }

    /// The start of a weaving: each process at the first place of its script.
    pub(crate) fn start(
        alloc: Global,
        alphabet: &Alphabet,
        scripts: &Scripts,
    ) -> Result<Weaving, OutOfMemory>
        requires { FitAlphabet alphabet.now scripts.now }
        ensures places { IfOk result (λ w. w.places.items ≡ replicate (length scripts.now) 0) }
        ensures letters { IfOk result (λ w. vec_len w.sets ≡ length alphabet.now.letters) }
        ensures ready { IfOk result (λ w. IsReady (script_of scripts.now) w.places.items w.sets.items) }
        ensures alphabet { IfOk result (λ _. IsDistributed alphabet.now) }
        ensures scripts { IfOk result (λ _. AreScripts scripts.now) }
    {
        let mut weaving = Weaving {
            places: vec![in alloc; 0; scripts.processes()]?,
            sets: vec![in alloc; Procs::none(); alphabet.letters()]?,
        };
        for p in 0..scripts.processes() {
            weaving.mark_next(scripts, p);
        }
        Ok(weaving)
    }

    /// The least letter that is next at all its processes.
    pub(crate) fn least_enabled(&self, alphabet: &Alphabet) -> Option<Letter>
        requires { vec_len self.now.sets ≡ length alphabet.now.letters }
        ensures { MatchOption result (NoneGathered alphabet.now self.now.sets.items)
            (λ a. IsLeastGathered alphabet.now self.now.sets.items a.0) }
    {
        for at in 0..alphabet.letters() {
            let a = Letter(at as u8);
            if are_same(self.sets[at], alphabet.loc(a)) {
                return Some(a);
            }
        }
        None
    }

    /// Moves the processes of a letter, which is next at all of them, one place on.
    pub(crate) fn fire(&mut self, alphabet: &Alphabet, scripts: &Scripts, a: Letter)
        requires fit { FitAlphabet alphabet.now scripts.now }
        requires limits { AreScripts scripts.now }
        requires places { vec_len self.old.places ≡ length scripts.now }
        requires letters { vec_len self.old.sets ≡ length alphabet.now.letters }
        requires letter { a.0 < length alphabet.now.letters }
        requires ready { IsReady (script_of scripts.now) self.old.places.items self.old.sets.items }
        requires complete { IsGathered alphabet.now self.old.sets.items a.0 }
        ensures places { vec_len self.new.places ≡ vec_len self.old.places }
        ensures letters { vec_len self.new.sets ≡ vec_len self.old.sets }
        ensures moved { (p : ℕ) → p < length scripts.now →
            slice_index self.new.places.items p ≡ slice_index self.old.places.items p
            + (if has (loc_of alphabet.now a.0) p then 1 else 0) }
        ensures ready { IsReady (script_of scripts.now) self.new.places.items self.new.sets.items }
    {
        let loc = alphabet.loc(a);
        self.sets[a.0 as usize] = Procs::none();
        for p in 0..scripts.processes() {
            if loc.has(p) {
                self.places[p] += 1;
                self.mark_next(scripts, p);
            }
        }
    }

    /// Whether each process is at the end of its script.
    pub(crate) fn is_done(&self, scripts: &Scripts) -> bool
        requires { vec_len self.now.places ≡ length scripts.now }
        ensures { IsTrue result ↔ ((p : ℕ) → p < length scripts.now →
            slice_index self.now.places.items p ≡ length (script_of scripts.now p)) }
    {
        for p in 0..scripts.processes() {
            if self.places[p] != scripts.script(p).len() {
                return false;
            }
        }
        true
    }
}
