//! Laws over the definitions alone.

ghost use Rattle.za_freeze.specs.Laws.{FrozenTextsAreReadBack, FrozenTextsAreThawed, ThawedOnce};
ghost use Rattle.za_freeze.specs.Laws.{RestsWeaveOn, RestsCountOn, RestsAnswerAlike, RestsHopeAlike};

/// A frozen text says its job and after how many events it was frozen, and no line of it is wrong.
pub fn frozen_texts_are_read_back()
    ensures { FrozenTextsAreReadBack }
{}

/// Nothing but the want of memory refuses the frozen text of a job with a trace-closed language.
pub fn frozen_texts_are_thawed()
    ensures { FrozenTextsAreThawed }
{}

/// A text is thawed to one job, one automaton and one rest.
pub fn thawed_once()
    ensures { ThawedOnce }
{}

/// What is left of a job with a trace-closed language, after the first letters of its weave, however many:
/// the weave is these letters and then the weave of what is left, so that the counts add up; and what is
/// left has the job's answer and hope.
pub fn rests_go_on()
    ensures weave { RestsWeaveOn }
    ensures counts { RestsCountOn }
    ensures answer { RestsAnswerAlike }
    ensures hope { RestsHopeAlike }
{}
