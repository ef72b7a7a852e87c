//! How many letters of its script each process has fired, and which letter is next.

ghost use Rattle.std.specs.Prelude.{◌≡◌, ◌<◌, ◌≤◌, ◌+◌, ◌↔◌, ℕ, IsTrue, MatchOption, length, slice_index};
ghost use Rattle.std.specs.Prelude.{if◌then◌else◌};
ghost use Rattle.za_alpha.specs.Words.{has};
ghost use Rattle.za_alpha.specs.Alphabet.{loc_of};
ghost use Rattle.za_script.specs.Scripts.{comes_next};
ghost use Rattle.za_script.specs.ScriptLists.{script_of};
ghost use Rattle.za_audit.specs.Private.Standing.{is_next, AreUsedUp, IsLeastNext, NoneIsNext};

use za_alpha::{Alphabet, Letter};
use za_script::Scripts;

/// Whether the letter stands at a place of the script of process `p`.
fn comes_next(scripts: &Scripts, p: usize, place: usize, a: Letter) -> bool
    requires { p < length scripts.now }
    ensures { result ≡ comes_next (script_of scripts.now p) place a.0 }
{
    let letters = scripts.script(p).letters();
    place < letters.len() && letters[place].0 == a.0
}

/// Whether the letter is one of the alphabet and the next of each of its processes.
pub(crate) fn is_next(alphabet: &Alphabet, scripts: &Scripts, counts: &[usize], a: Letter) -> bool
    requires scripts { length scripts.now ≡ alphabet.now.processes }
    requires counts { alphabet.now.processes ≤ length counts.now }
    ensures { result ≡ is_next alphabet.now scripts.now counts.now a.0 }
{
    if a.0 as usize >= alphabet.letters() {
        return false;
    }
    let loc = alphabet.loc(a);
    for p in 0..alphabet.processes() {
        if loc.has(p) && !comes_next(scripts, p, counts[p], a) {
            return false;
        }
    }
    true
}

/// The least letter that is next at all its processes.
pub(crate) fn least_next(alphabet: &Alphabet, scripts: &Scripts, counts: &[usize]) -> Option<Letter>
    requires scripts { length scripts.now ≡ alphabet.now.processes }
    requires counts { alphabet.now.processes ≤ length counts.now }
    ensures { MatchOption result (NoneIsNext alphabet.now scripts.now counts.now)
        (λ a. IsLeastNext alphabet.now scripts.now counts.now a.0) }
{
    for at in 0..alphabet.letters() {
        let a = Letter(at as u8);
        if is_next(alphabet, scripts, counts, a) {
            return Some(a);
        }
    }
    None
}

/// Counts the letter at each of its processes.
pub(crate) fn count(alphabet: &Alphabet, a: Letter, counts: &mut [usize])
    requires size { alphabet.now.processes ≤ length counts.old }
    requires letter { a.0 < length alphabet.now.letters }
    requires room { (p : ℕ) → p < alphabet.now.processes → slice_index counts.old p ≤ 65536 }
    ensures size { length counts.new ≡ length counts.old }
    ensures counted { (p : ℕ) → p < alphabet.now.processes →
        slice_index counts.new p ≡ slice_index counts.old p + (if has (loc_of alphabet.now a.0) p then 1 else 0) }
{
    let loc = alphabet.loc(a);
    for p in 0..alphabet.processes() {
        if loc.has(p) {
            counts[p] += 1;
        }
    }
}

/// Whether each process has fired its whole script.
pub(crate) fn are_used_up(scripts: &Scripts, counts: &[usize]) -> bool
    requires { length scripts.now ≤ length counts.now }
    ensures { IsTrue result ↔ AreUsedUp scripts.now counts.now }
{
    for p in 0..scripts.processes() {
        if counts[p] != scripts.script(p).len() {
            return false;
        }
    }
    true
}
