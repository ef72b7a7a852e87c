//! Laws over the definitions alone.

ghost use Rattle.za_alpha.specs.Laws.{EquivalenceIsSwapping};

/// Two words over an alphabet are trace equivalent exactly if finitely many swaps of neighbouring
/// independent letters lead from one to the other (Zielonka 1987).
#[tactic(auto, using(crate::proofs::Swaps::equivalence_is_swapping))]
pub fn equivalence_is_swapping()
    ensures { EquivalenceIsSwapping }
{}
