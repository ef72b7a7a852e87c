//! Zielonka's theorem, and what its proof rests on. Each is a law over the definitions alone.

ghost use Rattle.za_local.specs.Laws.{OthersKeepLocals, ParticipantsAgreeOnLocals, SameTraceSameLocals};
ghost use Rattle.za_theorem.specs.Laws.{
  ZielonkasTheorem,
  DistributableByDiamonds,
  ClosedIsDistributable,
  ClosedHasDiamonds,
  AsynchronousIsClosed,
  AsynchronousIsRegular,
  DiamondsGiveAsynchronous,
  TransitionIsLocal,
  VerdictIsLocal,
  LocalsAreLists,
  CodesAreBounded,
  CodesTellApart,
  ProgramRunsTheAutomaton,
};

/// Zielonka's theorem, over letters whose participants are processes (Zielonka 1987; Mukund 2012): a
/// language is distributable, that of a deterministic asynchronous automaton, exactly if it is regular
/// and trace-closed; that of a complete automaton exactly if it is trace-closed; and, where each letter
/// has a participant, a language exactly if it is that of a complete automaton with every diamond.
pub fn zielonka()
    ensures exactly { ZielonkasTheorem }
    ensures diamonds { DistributableByDiamonds }
    ensures automata { ClosedIsDistributable }
{}

/// Each complete automaton with every diamond has a deterministic asynchronous automaton with the
/// same language, whose local states are those of its processes, as numbers (Zielonka 1987; Mukund
/// 2012).
pub fn asynchronous_automaton()
    ensures { DiamondsGiveAsynchronous }
{}

/// The language of a deterministic asynchronous automaton is trace-closed, and that of a complete
/// automaton with every diamond.
pub fn global_automaton()
    ensures closed { AsynchronousIsClosed }
    ensures regular { AsynchronousIsRegular }
{}

/// A complete automaton with a trace-closed language has the language of one with every diamond.
pub fn diamond_automaton()
    ensures { ClosedHasDiamonds }
{}

/// What local states depend on, where each letter has participants and these are processes. For a
/// complete automaton with every diamond: what a letter makes of its participants, and the label of its
/// event, depend on their local states alone; where a word leads, on those of all processes alone; and
/// equivalent words have the same local states. For any automaton: those who take part in an event have
/// the same local state after it, and all others keep theirs.
pub fn locality()
    ensures transition { TransitionIsLocal }
    ensures participants { ParticipantsAgreeOnLocals }
    ensures others { OthersKeepLocals }
    ensures trace { SameTraceSameLocals }
    ensures verdict { VerdictIsLocal }
{}

/// There are finitely many local states: each is one number below a bound.
pub fn finiteness()
    ensures lists { LocalsAreLists }
    ensures bounded { CodesAreBounded }
    ensures apart { CodesTellApart }
{}

/// Each table with every diamond has a deterministic asynchronous automaton with its language that the
/// program runs, its local states being numbers of those of the program: it starts in openings, a
/// letter makes of local states after a word what `transit` of za_local promises to make of them, and
/// it accepts where the state that `verdict` promises to answer does.
pub fn program_runs_the_automaton()
    ensures { ProgramRunsTheAutomaton }
{}
