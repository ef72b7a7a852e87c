//! Laws over the definitions alone.

ghost use Rattle.zielonka.specs.AuditedYes.{DueJournalsAreAuditedYes, JournalsAreAuditedYes};
ghost use Rattle.zielonka.specs.Headline.{ClosedIsAnswered, OtherIsRefused};
ghost use Rattle.zielonka.specs.Laws.{AnswerIsOfAllBytes, CountsStay, NoMemoryWritesNothing};
ghost use Rattle.zielonka.specs.Laws.{JobCompletes, JournalEndsAsOne, OpenExactly, OutputIsOne};
ghost use Rattle.zielonka.specs.Laws.{ReadFaultIsOfTheSource, RefusedExactly};
ghost use Rattle.zielonka.specs.Laws.{RunCompletes, SomethingIsDue, StatusesAreKnown, TooLongIsOfTheBytes};
ghost use Rattle.zielonka.specs.Laws.{FrozenTextsAreRead, ThawGoesOn, ThreadsAnswerAsOne};
ghost use Rattle.zielonka.specs.Laws.{TooManyComplete, TooManyDecide, UsageIsOfTheWords};
ghost use Rattle.zielonka.specs.Laws.{WordsDecideTheJob, WordsDecideTheUsage, WriteFaultIsOfTheSink};

/// For every job with a trace-closed language that is read to its end without fault, if memory is not refused
/// and the call returns, `run` writes `accept` exactly if the automaton accepts some word with the scripts as
/// projections, `reject` exactly if such words exist and none is accepted, and otherwise `stuck` with the one
/// maximal fired trace, whatever the schedule; a job with any other language is refused.
#[tactic(auto, using(crate::proofs::Headlines::closed_is_answered, crate::proofs::Headlines::other_is_refused))]
pub fn run_is_right()
    ensures closed { ClosedIsAnswered }
    ensures other { OtherIsRefused }
{}

/// For each command and each text at most one status is due, and for each command but `journal` at most one
/// text.
#[tactic(auto, using(crate::proofs::OneOutput::output_is_one))]
pub fn what_is_due_is_one()
    ensures { OutputIsOne }
{}

/// For each command and each text some status and some text are due.
#[tactic(auto, using(crate::proofs::SomeOutput::something_is_due))]
pub fn something_is_due()
    ensures { SomethingIsDue }
{}

/// What is due on threads is what is due on one: for the same bytes `run` is due to end with the status and the text
/// of `solo`, and `journal` with its status.
pub fn threads_answer_as_one()
    ensures run { ThreadsAnswerAsOne }
    ensures journal { JournalEndsAsOne }
{}

/// `thaw` goes on where `freeze` stopped: for the frozen text of a document whose language is trace-closed, after
/// any number of events, it is due to end with the status and the text of `solo` for the document. Such texts, and
/// no other bytes, are what it reads with a trace-closed language.
pub fn thaw_goes_on()
    ensures due { ThawGoesOn }
    ensures read { FrozenTextsAreRead }
{}

/// `audit` says yes to what `journal` writes, in whatever order the threads fired the letters: the bytes that the
/// source had and then the text are a job and a claim about it, whose events are a run of the scripts to its end
/// with the labels by definition, and whose answer is the automaton's.
pub fn journals_are_audited_yes()
    ensures due { DueJournalsAreAuditedYes }
    ensures written { JournalsAreAuditedYes }
{}

/// The status that is due is 4 exactly where the bytes aren't what the command reads: a job, with `audit` a claim
/// about it too, and with `thaw` a frozen text. It is 5 exactly where no line is wrong and the language of the job
/// has a break; `thaw` compares the lines of a text with those of the frozen text only where it has none.
#[tactic(auto, using(crate::proofs::Exactly::refused_exactly, crate::proofs::Exactly::open_exactly))]
pub fn refusals_are_exact()
    ensures refused { RefusedExactly }
    ensures open { OpenExactly }
{}

/// What a run did tells the cause of its status. Status 2 comes only of words that are in no form, with nothing
/// read and the usage line written whole; and such words have no other status but 7 and 8. Words that ask for a
/// generated job have no status but 7, 8 and 0, with the job written whole and nothing read; without a fault of the
/// sink 8 or 0. Status 6 comes only where the source's count of faults rose before too many bytes were taken, with
/// nothing written, and 7 only where the sink's did, after a proper prefix of a text that is due; with any other
/// status that count is what it was. Status 9 comes only where one byte more than the limit was taken, and its line
/// was written whole; where the source tells its bytes, a run that took so many, with no read that failed, ends
/// with 9, 7 or 8. Status 8, want of memory, comes with nothing written, and with nothing read where nothing is
/// asked of bytes. But for the 0 of a generated job each of 0, 1, 3, 4 and 5 comes only where all bytes were read,
/// and the text that is due for them was written whole. There are no statuses but 0 to 9. Where the source tells
/// its bytes and neither count of faults rose, whatever is asked of them ends with 8, or, of too many, with 9, or
/// else with what is due for all bytes. A count that stands at its last value counts as one that rose. What is said
/// of bytes holds of sources and sinks that tell them.
pub fn statuses_have_their_causes()
    ensures usage { UsageIsOfTheWords }
    ensures words { WordsDecideTheUsage }
    ensures words_job { WordsDecideTheJob }
    ensures job_completes { JobCompletes }
    ensures read_fault { ReadFaultIsOfTheSource }
    ensures write_fault { WriteFaultIsOfTheSink }
    ensures counts { CountsStay }
    ensures too_long { TooLongIsOfTheBytes }
    ensures too_many { TooManyDecide }
    ensures too_many_complete { TooManyComplete }
    ensures no_memory { NoMemoryWritesNothing }
    ensures all_read { AnswerIsOfAllBytes }
    ensures known { StatusesAreKnown }
    ensures completes { RunCompletes }
{}
