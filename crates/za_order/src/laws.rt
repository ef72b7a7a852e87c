//! Laws over the definitions alone.

ghost use Rattle.za_order.specs.Laws.{PastIsChains, ParticipantsAgree, SharedMaximalIsPrimary, NewerBySecondary};
ghost use Rattle.za_order.specs.Laws.{TertiaryCovers, PrimaryOfParticipant, SecondaryOfParticipant};
ghost use Rattle.za_order.specs.Laws.{TertiaryOfParticipant, PrimaryJoined, SecondaryJoined, TertiaryJoined};
ghost use Rattle.za_order.specs.Laws.{PrimaryKept, SecondaryKept, TertiaryKept, SubwordsSplit};
ghost use Rattle.za_order.specs.Laws.{LabelIsFree, LabelIsLeast, LabelsAreBounded, NumbersAreBounded, NumbersTellApart};
ghost use Rattle.za_order.specs.Laws.{EventsMatch, ViewsAgree, PrimaryEntriesAgree, SecondaryEntriesAgree};
ghost use Rattle.za_order.specs.Laws.{TertiaryEntriesAgree, LabelsAgree, IdsAgree};

/// The past of an event of a word has exactly the events from which a chain leads to it, in which
/// neighbours share a process. After an event all its participants have the same view.
#[tactic(auto, using(crate::proofs::ViewLaws::past_is_chains, crate::proofs::ViewLaws::participants_agree))]
pub fn past_is_chains()
    ensures chains { PastIsChains }
    ensures shared { ParticipantsAgree }
{}

/// A maximal event of what two processes both know is a primary entry of both (Mukund and Sohoni
/// 1997).
#[tactic(auto, using(crate::proofs::ViewLaws::shared_maximal_is_primary))]
pub fn shared_maximal_is_primary()
    ensures { SharedMaximalIsPrimary }
{}

/// A process knows the primary entry that another has for a process exactly if it is a secondary
/// entry of its own for that process (Mukund and Sohoni 1997).
#[tactic(auto, using(crate::proofs::ViewLaws::newer_by_secondary))]
pub fn newer_by_secondary()
    ensures { NewerBySecondary }
{}

/// A secondary entry of any process is a tertiary entry of each process that knows it.
pub fn tertiary_covers()
    ensures { TertiaryCovers }
{}

/// What an event changes. Its participants have it as their primary entry for each participant, and
/// their secondary and tertiary entries for a participant are their primary and secondary ones. For
/// any other process they have the latest primary entry that one of them had, with the secondary and
/// tertiary entries of a participant that knows it. Who takes no part keeps its entries.
pub fn entries_after_an_event()
    ensures of_participants { PrimaryOfParticipant }
    ensures second_of_participants { SecondaryOfParticipant }
    ensures third_of_participants { TertiaryOfParticipant }
    ensures joined { PrimaryJoined }
    ensures second_joined { SecondaryJoined }
    ensures third_joined { TertiaryJoined }
    ensures kept { PrimaryKept }
    ensures second_kept { SecondaryKept }
    ensures third_kept { TertiaryKept }
{}

/// A down-closed part of a set of positions comes first in the subword at the set, up to
/// equivalence.
#[tactic(auto, using(crate::proofs::Subwords::subwords_split))]
pub fn subwords_split()
    ensures { SubwordsSplit }
{}

/// The label of an event is the least that the label rule leaves free, and at most the cube of the
/// number of processes.
pub fn label_is_least_free()
    ensures free { LabelIsFree }
    ensures least { LabelIsLeast }
    ensures bounded { LabelsAreBounded }
{}

/// Numbers are at most as many as letters times labels, and in the secondary entries of all
/// processes equal numbers mean equal events.
#[tactic(auto, using(crate::proofs::Numbers::numbers_are_bounded, crate::proofs::Numbers::numbers_tell_apart))]
pub fn numbers_tell_apart()
    ensures bounded { NumbersAreBounded }
    ensures apart { NumbersTellApart }
{}

/// Equivalent words have equal views, entries, labels and numbers, where the k-th occurrence of a
/// letter in one stands for its k-th in the other.
pub fn equivalent_words_agree()
    ensures events { EventsMatch }
    ensures views { ViewsAgree }
    ensures primary { PrimaryEntriesAgree }
    ensures secondary { SecondaryEntriesAgree }
    ensures tertiary { TertiaryEntriesAgree }
    ensures labels { LabelsAgree }
    ensures ids { IdsAgree }
{}
