//! Laws over the definitions alone.

ghost use Rattle.za_dfa.specs.Laws.{DiamondsKeepTheState, DiamondsCloseTheLanguage, WholeTablesComplete};

/// Over a total automaton in which two independent letters lead from each state to one state in
/// either order, equivalent words lead to the same state, and so the language is closed under trace
/// equivalence (Zielonka 1987).
#[tactic(auto, using(crate::proofs::Diamonds::diamond_laws))]
pub fn diamonds_close_the_language()
    ensures same_state { DiamondsKeepTheState }
    ensures closed { DiamondsCloseTheLanguage }
{}

/// The partial table that a complete one is completes to it.
#[tactic(auto, using(crate::proofs::Completing::whole_completes))]
pub fn whole_tables_complete()
    ensures { WholeTablesComplete }
{}
