//! What the processes see of a word.

ghost use Rattle.std.specs.Prelude.{◌≡◌, ◌≢◌, ℕ, ◌<◌, ◌≤◌, ◌+◌, ◌∷◌, ◌++◌, [], IfOk, OnOk, length, if◌then◌else◌};
ghost use Rattle.za_alpha.specs.Words.{has, IsWord};
ghost use Rattle.za_alpha.specs.Alphabet.{loc_of};
ghost use Rattle.za_script.specs.Limits.{most_script_letters};
ghost use Rattle.za_script.specs.ScriptLists.{script_of, total_of};
ghost use Rattle.za_gen.specs.Limits.{letters_drawn};
ghost use Rattle.za_gen.specs.Generated.{generated_alphabet, generated_scripts};

use std::alloc::Global;
use za_alpha::{Alphabet, Letter, OutOfMemory, Word};
use za_script::{ScriptFault, Scripts};

/// Want of memory, the one fault of a letter that belongs to the process, while the scripts aren't full.
fn only_memory(_fault: ScriptFault) -> OutOfMemory
    requires { _fault ≡ ScriptFault.OutOfMemory }
{
    OutOfMemory
}

/// Appends a letter to the script of process `p`, if the letter is one of it.
fn add_to(
    alphabet: &Alphabet,
    scripts: &mut Scripts,
    p: usize,
    a: Letter,
) -> Result<(), OutOfMemory>
    requires size { length scripts.old ≡ alphabet.now.processes }
    requires process { p < alphabet.now.processes }
    requires letter { a.0 < length alphabet.now.letters }
    requires room { total_of scripts.old < most_script_letters }
    ensures size { OnOk result (length scripts.new ≡ length scripts.old) }
    ensures added { OnOk result (script_of scripts.new p
        ≡ script_of scripts.old p ++ (if has (loc_of alphabet.now a.0) p then a.0 ∷ [] else [])) }
    ensures others { OnOk result ((q : ℕ) → q ≢ p → script_of scripts.new q ≡ script_of scripts.old q) }
    ensures total { OnOk result (total_of scripts.new ≤ total_of scripts.old + 1) }
{
    if alphabet.loc(a).has(p) {
        if let Err(fault) = scripts.add(alphabet, p, a) {
            return Err(only_memory(fault));
        }
    }
    Ok(())
}

/// Appends a letter to the script of each of its processes.
fn add_to_all(alphabet: &Alphabet, scripts: &mut Scripts, a: Letter) -> Result<(), OutOfMemory>
    requires size { length scripts.old ≡ alphabet.now.processes }
    requires letter { a.0 < length alphabet.now.letters }
    requires room { total_of scripts.old + alphabet.now.processes ≤ most_script_letters }
    ensures size { OnOk result (length scripts.new ≡ length scripts.old) }
    ensures added { OnOk result ((p : ℕ) → p < alphabet.now.processes → script_of scripts.new p
        ≡ script_of scripts.old p ++ (if has (loc_of alphabet.now a.0) p then a.0 ∷ [] else [])) }
{
    for p in 0..alphabet.processes() {
        add_to(alphabet, scripts, p, a)?;
    }
    Ok(())
}

/// What each process sees of a word.
pub(crate) fn scripts_of(
    alloc: Global,
    alphabet: &Alphabet,
    word: &Word,
) -> Result<Scripts, OutOfMemory>
    requires alphabet { alphabet.now ≡ generated_alphabet }
    requires word { IsWord 8 word.now }
    requires few { length word.now ≤ letters_drawn }
    ensures { IfOk result (λ scripts. scripts ≡ generated_scripts word.now) }
{
    let mut scripts = Scripts::empty(alloc, alphabet.processes())?;
    let letters = word.letters();
    for a in letters {
        add_to_all(alphabet, &mut scripts, *a)?;
    }
    Ok(scripts)
}
