//! Laws over the definitions alone.

ghost use Rattle.za_min.specs.Laws.{AliveStatesContinueWords, MinimalDfasAreOne, MinimalDfasExist};

/// Two minimal DFAs of one language over one alphabet, both numbered by their shortlex-least access
/// words, are equal, and so are these words.
#[tactic(auto, using(crate::proofs::Canonical::minimal_dfas_are_one))]
pub fn minimal_dfas_are_one()
    ensures { MinimalDfasAreOne }
{}

/// Each complete DFA has a minimal one of its language and over its alphabet, numbered by its
/// shortlex-least access words.
#[tactic(auto, using(crate::proofs::Existence::minimal_dfas_exist))]
pub fn minimal_dfas_exist()
    ensures { MinimalDfasExist }
{}

/// A word can still be accepted exactly if the state to which it leads is alive.
#[tactic(auto, using(crate::proofs::Spreading::alive_states_continue_words))]
pub fn alive_states_continue_words()
    ensures { AliveStatesContinueWords }
{}
