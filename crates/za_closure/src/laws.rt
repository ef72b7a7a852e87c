//! Laws over the definitions alone.

ghost use Rattle.za_closure.specs.Laws.{ClosedIsDiamonds, ClosedIsUnbroken, ClosedOrBroken, LeastBreaksAreOne};

/// A language is closed under trace equivalence exactly if it has no break, and exactly if two
/// independent letters lead from each state of its minimal automaton to one state in either order
/// (Zielonka 1987).
#[tactic(auto, using(crate::proofs::ClosedLemmas::closed_is_unbroken, crate::proofs::ClosedLemmas::closed_is_diamonds))]
pub fn closed_languages()
    ensures unbroken { ClosedIsUnbroken }
    ensures diamonds { ClosedIsDiamonds }
{}

/// Two least breaks of one language are equal.
#[tactic(auto, using(crate::proofs::BreakLemmas::least_breaks_are_one))]
pub fn least_breaks_are_one()
    ensures { LeastBreaksAreOne }
{}

/// The language of each complete DFA is closed under trace equivalence or has a least break.
#[tactic(auto, using(crate::proofs::Decided::closed_or_broken))]
pub fn closed_or_broken()
    ensures { ClosedOrBroken }
{}
