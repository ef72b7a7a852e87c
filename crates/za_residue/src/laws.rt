//! Laws over the definitions alone.

ghost use Rattle.za_residue.specs.Laws.{ParticipantsCompose, ParticipantsReset, OthersKeepResidues, ResiduesDecide};
ghost use Rattle.za_residue.specs.Laws.{ResidueWordsAgree, ResiduesAgree};

/// After an event the residues of its participants are theirs before it, in turn, followed by the
/// event; for a set with a participant nothing is left. All other processes keep theirs (Mukund
/// 2012).
pub fn residues_after_an_event()
    ensures compose { ParticipantsCompose }
    ensures reset { ParticipantsReset }
    ensures others { OthersKeepResidues }
{}

/// The residues of all processes in turn lead where the word leads (Mukund 2012).
#[tactic(auto, using(crate::proofs::JoinedViews::residues_decide))]
pub fn residues_decide_the_state()
    ensures { ResiduesDecide }
{}

/// Equivalent words have equivalent residue words, and so the same residues.
#[tactic(auto, using(crate::proofs::SameTrace::residue_words_agree, crate::proofs::SameTrace::residues_agree))]
pub fn equivalent_words_have_equal_residues()
    ensures words { ResidueWordsAgree }
    ensures residues { ResiduesAgree }
{}
