ghost use Rattle.std.specs.Prelude.{◌≡◌, length};
ghost use Rattle.za_alpha.specs.Words.{IsWord};
ghost use Rattle.za_dfa.specs.Tables.{automaton_of};
ghost use Rattle.za_script.specs.Answer.{answer_by};

use crate::woven::Woven;
use za_dfa::Dfa;

/// The answer of an automaton with a trace-closed language to scripts.
#[derive(Clone, Copy, Debug, PartialEq, Eq)]
pub enum Answer {
    /// Some word that weaves the scripts is accepted.
    Accept,
    /// Some word weaves the scripts, and none that does is accepted.
    Reject,
    /// No word weaves the scripts.
    Stuck,
}

/// The answer that a woven word gives: stuck where scripts are left, and else as the automaton says
/// of the word.
pub fn answer_of(dfa: &Dfa, woven: &Woven) -> Answer
    requires { IsWord (length dfa.now.alphabet.letters) woven.now.word }
    ensures { result ≡ answer_by (automaton_of dfa.now) woven.now }
{
    if !woven.whole() {
        Answer::Stuck
    } else if dfa.accepts(woven.word()) {
        Answer::Accept
    } else {
        Answer::Reject
    }
}
