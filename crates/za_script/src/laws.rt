//! Laws over the definitions alone.

ghost use Rattle.za_script.specs.Laws.{WeaveIsMaximal, MaximalWordsAreOneTrace, WeaveDecides, MaximalWordsWeave};
ghost use Rattle.za_script.specs.Laws.{AcceptIsOfTheWeave, RejectIsOfTheWeave, StuckIsOfTheWeave};
ghost use Rattle.za_script.specs.Laws.{MaximalWordsHaveTheAnswer};
ghost use Rattle.za_script.specs.RestLaws.{WeavingGoesOn, CutsFit, CutsWeaveOn, RestIsOneTrace, CountsAddUp};
ghost use Rattle.za_script.specs.RestLaws.{RestIsClosed, RestHasTheAnswer};

/// Weaving is confluent: whichever enabled letter fires first, the end is the same trace. The weave
/// fits the scripts maximally, and the words that do are those that are equivalent to it. So if some
/// word weaves the scripts, the weave does, and with it each word that fits maximally.
pub fn weaving_is_confluent()
    ensures maximal { WeaveIsMaximal }
    ensures one_trace { MaximalWordsAreOneTrace }
    ensures decides { WeaveDecides }
    ensures all { MaximalWordsWeave }
{}

/// For a trace-closed language the answer to scripts is that of the weave alone: it is stuck exactly
/// if the weave doesn't use up the scripts, and else accept or reject as the weave is accepted. Any
/// word that fits the scripts maximally, as the weave does, serves for it.
pub fn answer_is_of_the_weave()
    ensures accept { AcceptIsOfTheWeave }
    ensures reject { RejectIsOfTheWeave }
    ensures stuck { StuckIsOfTheWeave }
    ensures maximal { MaximalWordsHaveTheAnswer }
{}

/// Weaving can be cut: from any word that fits the scripts on, it appends the weave of what the word
/// leaves of them. For the first letters of the weave that gives the weave itself.
pub fn weaving_goes_on()
    ensures goes_on { WeavingGoesOn }
    ensures fit { CutsFit }
    ensures cuts { CutsWeaveOn }
    ensures trace { RestIsOneTrace }
    ensures counts { CountsAddUp }
{}

/// After any word that fits the scripts, a trace-closed language answers to what is left of them as
/// it answers to all of them.
pub fn rest_answers_alike()
    ensures closed { RestIsClosed }
    ensures answer { RestHasTheAnswer }
{}
