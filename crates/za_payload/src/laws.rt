//! Laws over the definitions alone.

ghost use Rattle.za_payload.specs.Laws.{KnowledgeAgrees, NewsAgrees};

/// Equivalent words give equal knowledge: where events that stand for each other write the same
/// number, each process knows the same numbers, and so where each event writes the reading of its
/// least participant.
#[tactic(auto, using(crate::proofs::Agreeing::knowledge_agrees, crate::proofs::Agreeing::news_agrees))]
pub fn equivalent_words_give_equal_knowledge()
    ensures knowledge { KnowledgeAgrees }
    ensures news { NewsAgrees }
{}
