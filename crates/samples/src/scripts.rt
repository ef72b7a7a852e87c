//! Scripts.

ghost use Rattle.std.specs.Prelude.{IfOk};
ghost use Rattle.za_script.specs.ScriptLists.{FitAlphabet};

use std::alloc::Global;
use std::test::Fail;
use za_alpha::{Alphabet, Letter};
use za_script::Scripts;

/// The scripts of these letters, each with its process.
pub fn scripts_of(
    alloc: Global,
    alphabet: &Alphabet,
    letters: &[(usize, Letter)],
) -> Result<Scripts, Fail>
    ensures { IfOk result (λ scripts. FitAlphabet alphabet.now scripts) }
{
    let mut scripts = Scripts::empty(alloc, alphabet.processes())?;
    for (p, a) in letters {
        let fits = *p < scripts.processes() && *p < alphabet.processes();
        if !fits || (a.0 as usize) >= alphabet.letters() {
            return Err(Fail::new("no such process or letter"));
        }
        scripts.add(alphabet, *p, *a)?;
    }
    if !scripts.fits(alphabet) {
        return Err(Fail::new("a letter isn't of its process"));
    }
    Ok(scripts)
}
