//! A caller of za_script.

ghost use Rattle.std.specs.Prelude.{◌≡◌, ◌<◌, [], length, replicate, slice_set, IfOk};
ghost use Rattle.za_alpha.specs.Alphabet.{loc_of};
ghost use Rattle.za_dfa.specs.Tables.{automaton_of};
ghost use Rattle.za_script.specs.Answer.{IsAnswer};
ghost use Rattle.za_script.specs.ScriptLists.{script_of, FitAlphabet};

use std::alloc::Global;
use za_alpha::{Alphabet, Letter, OutOfMemory};
use za_dfa::{Closed, diamonds_close_the_language};
use za_script::{
    Answer, ScriptFault, Scripts, answer_is_of_the_weave, answer_of, weave, weaving_is_confluent,
};

/// The answer of an automaton to scripts, which speaks of all words that weave them. One of these
/// words is woven and run.
pub fn answer(alloc: Global, closed: &Closed, scripts: &Scripts) -> Result<Answer, OutOfMemory>
    requires { FitAlphabet closed.now.alphabet scripts.now }
    ensures { IfOk result (λ answer. IsAnswer (loc_of closed.now.alphabet)
        (automaton_of closed.now) (script_of scripts.now) answer) }
{
    diamonds_close_the_language();
    weaving_is_confluent();
    answer_is_of_the_weave();
    let dfa = closed.dfa();
    let _states = dfa.states();
    let woven = weave(alloc, dfa.alphabet(), scripts)?;
    Ok(answer_of(dfa, &woven))
}

/// Scripts in which process `p` does one letter `count` times, and no other process does anything.
pub fn repeated(
    alloc: Global,
    alphabet: &Alphabet,
    p: usize,
    a: Letter,
    count: u32,
) -> Result<Scripts, ScriptFault>
    requires process { p < alphabet.now.processes }
    requires letter { a.0 < length alphabet.now.letters }
    requires some { 0 < count }
    ensures { IfOk result (λ scripts.
        scripts ≡ slice_set (replicate alphabet.now.processes []) p (replicate count a.0)) }
{
    let mut scripts = Scripts::empty(alloc, alphabet.processes())?;
    scripts.add_run(alphabet, p, a, count)?;
    Ok(scripts)
}
