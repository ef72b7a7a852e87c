//! Laws over the definitions alone.

ghost use Rattle.za_hope.specs.Laws.{HopeIsOfTheState, HopeIsOfTheLanguage, HopesAreOne, HopesExist};
ghost use Rattle.za_hope.specs.Laws.{RestHasTheHope};

/// For a trace-closed language the hope of scripts is that of the state to which a word leads that fits
/// them maximally, as the weave does: whichever such word it is.
#[tactic(auto, using(crate::proofs::Hoping::hope_is_of_the_state))]
pub fn hope_is_of_the_state()
    ensures { HopeIsOfTheState }
{}

/// Automata of one language give scripts one hope.
#[tactic(auto, using(crate::proofs::Hoping::hope_is_of_the_language))]
pub fn hope_is_of_the_language()
    ensures { HopeIsOfTheLanguage }
{}

/// Two hopes that go with one answer to the same scripts are equal.
#[tactic(auto, using(crate::proofs::Hoping::hopes_are_one))]
pub fn hopes_are_one()
    ensures { HopesAreOne }
{}

/// With each answer to scripts some hope goes, or none.
pub fn hopes_exist()
    ensures { HopesExist }
{}

/// After any word that fits the scripts, a trace-closed language gives to what is left of them the hope
/// that it gives to all of them.
pub fn rest_hopes_alike()
    ensures { RestHasTheHope }
{}
