//! Laws over the definitions alone.

ghost use Rattle.za_query.specs.Laws.{RepliesAreOne, RepliesOpenExactly, RepliesRefusedExactly, SomethingIsReplied};

/// To what is asked of a text one status and one text are replied.
#[tactic(auto, using(crate::proofs::OneReply::replies_are_one))]
pub fn replies_are_one()
    ensures { RepliesAreOne }
{}

/// And some status and some text are.
#[tactic(auto, using(crate::proofs::SomeReply::something_is_replied))]
pub fn something_is_replied()
    ensures { SomethingIsReplied }
{}

/// The status is 4 exactly where a line of the text is wrong, and 5 exactly where none is, its language has to be
/// closed under trace equivalence, and this has a break.
#[tactic(auto, using(crate::proofs::Exactly::refused_exactly, crate::proofs::Exactly::open_exactly))]
pub fn refusals_are_exact()
    ensures refused { RepliesRefusedExactly }
    ensures open { RepliesOpenExactly }
{}
