//! The law of the hall's rule, over the definitions alone.
ghost use Rattle.za_hall.specs.Laws.{OwnIsReached, OwnIsCovered, OwnKeepsOthers, OwnIsNoted};

/// What one process does in one hold leads to a state of the machine in which every complete letter
/// is in hand of one of its processes, and no other letter is in hand. It keeps what is noted of every
/// other process, and the note that the process then has says all of its part.
pub fn own_events_keep_the_rule()
    ensures reached { OwnIsReached }
    ensures covered { OwnIsCovered }
    ensures others { OwnKeepsOthers }
    ensures own { OwnIsNoted }
{}
