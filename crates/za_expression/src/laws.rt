//! Laws over the definitions alone.

ghost use Rattle.za_expression.specs.Laws.{MeaningByValues, SignsAreOneForm, ValuesByFollowing};

/// Signs are one form at most.
#[tactic(auto, using(crate::proofs::Whole::signs_are_one_form))]
pub fn signs_are_one_form()
    ensures { SignsAreOneForm }
{}

/// A word's value by first and following occurrences is its position value, and it is in a form's
/// meaning exactly if the form accepts this value (McNaughton and Yamada 1960; Glushkov 1961).
#[tactic(auto, using(crate::proofs::Whole::values_by_following, crate::proofs::Whole::meaning_by_values))]
pub fn values_by_following()
    ensures values { ValuesByFollowing }
    ensures meaning { MeaningByValues }
{}
