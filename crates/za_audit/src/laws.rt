//! A law of verdicts.

ghost use Rattle.za_audit.specs.Laws.{VerdictsAreOne};

/// Two verdicts on one claim are equal.
#[tactic(auto, using(crate::proofs::VerdictLemmas::verdicts_are_one))]
pub fn verdicts_are_one()
    ensures { VerdictsAreOne }
{}
