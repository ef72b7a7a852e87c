//! Laws over the definitions alone.

ghost use Rattle.za_gossip.specs.Laws.{ParticipantsUpdate, OthersKeep, NewestIsBest, NewLabelIsLabel};
ghost use Rattle.za_gossip.specs.Laws.{NewestByEquality, NewLabelByEquality, UpdateByEquality};

/// After an event its participants have the updated numbers, which are made of their numbers before
/// it, and all other processes keep theirs (Mukund and Sohoni 1997).
pub fn numbers_after_an_event()
    ensures participants { ParticipantsUpdate }
    ensures others { OthersKeep }
{}

/// By numbers the participants can tell who of them has the latest news of a process, and the label
/// of their event.
#[tactic(auto, using(crate::proofs::Numbers::newest_is_best, crate::proofs::Updates::new_label_is_label))]
pub fn numbers_suffice()
    ensures newest { NewestIsBest }
    ensures label { NewLabelIsLabel }
{}

/// Numbers are tested for equality alone, with each other, with 0 and with the numbers of the letter
/// of the event (Mukund and Sohoni 1997): where each number is replaced by one of its own and these
/// stay, the same process is newest, the label is the same, and the updated numbers are replaced
/// alike.
pub fn only_equality_is_tested()
    ensures newest { NewestByEquality }
    ensures label { NewLabelByEquality }
    ensures update { UpdateByEquality }
{}
