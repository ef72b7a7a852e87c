//! Laws over the definitions alone.

ghost use Rattle.za_machine.specs.Laws.{JournalsFit, ArrivedAreNotEnded, EndedAreDone};
ghost use Rattle.za_machine.specs.Laws.{NoneIsNextAtTheEnd, EventsAreFew};
ghost use Rattle.za_machine.specs.Laws.{EventsGoOn, OverAllowsNone, CompleteStays};
ghost use Rattle.za_machine.specs.Laws.{OverIsMaximal, OverIsTheWeave, OverWeaves, OverHasTheAnswer};
ghost use Rattle.za_machine.specs.Laws.{WeavingGoesOnFromStates, RestsWeaveTheSame};
ghost use Rattle.za_machine.specs.Laws.{NoHandsAtFirst, MovesKeepHands, InHandIsNotOver};

/// After every list of allowed events the journal fits the scripts, nobody has both arrived and ended,
/// whoever has ended has its whole script in the journal, and a process has no next letter exactly if
/// its whole script is there. Such a list has at most two events for each letter of the scripts and one
/// for each process.
pub fn events_are_sound()
    ensures fits { JournalsFit }
    ensures apart { ArrivedAreNotEnded }
    ensures ended { EndedAreDone }
    ensures left { NoneIsNextAtTheEnd }
    ensures few { EventsAreFew }
{}

/// A state that is not over allows an event, and one that is over allows none. A complete letter
/// stays complete until it is fired, whatever else happens.
pub fn events_go_on()
    ensures more { EventsGoOn }
    ensures none { OverAllowsNone }
    ensures stays { CompleteStays }
{}

/// Every order of events leads to one answer: the journal of a state that is over fits maximally, is
/// equivalent to the weave, and weaves the scripts exactly if every process has ended. What it says
/// with a trace-closed language is the answer to the scripts.
pub fn over_states_are_maximal()
    ensures maximal { OverIsMaximal }
    ensures weave { OverIsTheWeave }
    ensures weaves { OverWeaves }
    ensures answer { OverHasTheAnswer }
{}

/// From any state weaving can go on: it appends to the journal the weave of what is left of the
/// scripts, and that is equivalent to the weave of all of them.
pub fn states_weave_on()
    ensures goes_on { WeavingGoesOnFromStates }
    ensures trace { RestsWeaveTheSame }
{}

/// Taking letters up, settling them and putting them back leads to states of the machine only, in
/// which a letter in hand is complete and in hand of one of its processes. A state with a letter in
/// hand is not over.
pub fn hands_stand_beside_states()
    ensures first { NoHandsAtFirst }
    ensures moves { MovesKeepHands }
    ensures not_over { InHandIsNotOver }
{}
