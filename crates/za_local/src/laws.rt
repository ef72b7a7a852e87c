//! Laws over the definitions alone.

ghost use Rattle.za_local.specs.Laws.{OthersKeepLocals, ParticipantsAgreeOnLocals, SameTraceSameLocals};

/// After an event all its participants have one local state, and all other processes keep theirs.
pub fn locals_after_an_event()
    ensures others { OthersKeepLocals }
    ensures participants { ParticipantsAgreeOnLocals }
{}

/// Equivalent words have the same local states: a local state depends on the trace alone.
#[tactic(auto, using(crate::proofs::LocalLaws::same_trace_same_locals))]
pub fn same_trace_same_locals()
    ensures { SameTraceSameLocals }
{}
