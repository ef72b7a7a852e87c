ghost use Rattle.std.specs.Prelude.{◌≡◌, IsTrue, map, string_bytes};
ghost use Rattle.za_base.specs.Ends.{ends_of};
ghost use Rattle.zielonka.specs.Requests.{request_in};
ghost use Rattle.zielonka.specs.declared.request.Request.{Request};
ghost use Rattle.zielonka.specs.Run.{HasRun, HasSaid, reads_bytes};
ghost use Rattle.zielonka.specs.Shown.{IsShown};
ghost use Rattle.zielonka.specs.Private.Saying.{HasBegun, HasEnded, HasFetched, HasTold};

use crate::due::{Output, answer_alone, answer_on_threads, answer_rest};
use crate::judging::{ClosedJob, Judged, judge};
use crate::request::{Call, Command, Request, are_for_threads, request_in};
use crate::status::{Outcome, Shown, Status};
use std::alloc::Global;
use std::sync::Wait;
use std::thread::Threads;
use za_alpha::OutOfMemory;
use za_base::{ReadEnd, Sink, Source, read_all, write_all};
use za_freeze::Thawed;
use za_gen::job_of;
use za_query::{Query, reply};
use za_runner::Gate;

/// The most bytes of an input.
pub const MOST_BYTES: usize = 1_048_576;

const USAGE: &[u8] =
    b"usage: zla solo|run|check|locals|journal [--cache C], zla audit|build|news|thaw, zla gen N, zla freeze K\n";

const TOO_LONG: &[u8] = b"refused: more than 1048576 bytes\n";

/// How a call begins: it is over, or a job or what is left of one is to be answered, of which nothing was written
/// yet.
#[derive(Drop)]
enum Begun {
    Over(Outcome),
    Asked { command: Command, it: ClosedJob },
    Rest(Thawed),
}

/// A status with no finished run.
fn unshown(status: u8) -> Outcome
    ensures status { result.status.0 ≡ status }
    ensures shown { result.shown ≡ Shown.Nothing }
{
    Outcome {
        status: Status(status),
        shown: Shown::Nothing,
    }
}

/// Writes a text. The status is the one given, or 7 where a write failed.
fn say<K: Sink>(sink: &mut K, status: u8, text: &[u8]) -> Status
    ensures { HasSaid status text.now (K.written sink.old) (K.written sink.new)
        (K.faults sink.old) (K.faults sink.new) result.0 }
{
    match write_all(sink, text) {
        Ok(()) => Status(status),
        Err(_) => Status(7),
    }
}

/// Writes a text that is made of no run.
fn tell<K: Sink>(sink: &mut K, status: u8, text: &[u8]) -> Outcome
    ensures said { HasSaid status text.now (K.written sink.old) (K.written sink.new)
        (K.faults sink.old) (K.faults sink.new) result.status.0 }
    ensures shown { result.shown ≡ Shown.Nothing }
{
    Outcome {
        status: say(sink, status, text),
        shown: Shown::Nothing,
    }
}

/// Reads the source to its end, whatever is asked of its bytes. Where that fails, or they are too many, the call is
/// over.
fn fetch<S: Source, K: Sink>(
    alloc: Global,
    source: &mut S,
    sink: &mut K,
) -> Result<Vec<u8>, Outcome>
    ensures { (asked : Request) → IsTrue (reads_bytes asked) → HasFetched asked
        (ends_of (S.left source.old) (S.faults source.old) (K.written sink.old) (K.faults sink.old))
        (ends_of (S.left source.new) (S.faults source.new) (K.written sink.new) (K.faults sink.new))
        result }
{
    match read_all(alloc, source, MOST_BYTES) {
        Ok(bytes) => Ok(bytes),
        Err(ReadEnd::Fault) => Err(unshown(6)),
        Err(ReadEnd::OutOfMemory) => Err(unshown(8)),
        Err(ReadEnd::TooLong) => Err(tell(sink, 9, TOO_LONG)),
    }
}

/// Reads the source to its end, and writes what is replied to its bytes.
fn ask<S: Source, K: Sink>(alloc: Global, query: Query, source: &mut S, sink: &mut K) -> Outcome
    ensures { HasEnded (Request.Ask query)
        (ends_of (S.left source.old) (S.faults source.old) (K.written sink.old) (K.faults sink.old))
        (ends_of (S.left source.new) (S.faults source.new) (K.written sink.new) (K.faults sink.new))
        result }
{
    match fetch(alloc, source, sink) {
        Err(outcome) => outcome,
        Ok(bytes) => match reply(alloc, query, bytes.as_slice()) {
            Err(OutOfMemory) => unshown(8),
            Ok(said) => tell(sink, said.status, said.text.as_slice()),
        },
    }
}

/// Reads the source to its end, and refuses bytes that aren't what the command reads, or whose job has a
/// language that isn't trace-closed.
fn take<S: Source, K: Sink>(alloc: Global, command: Command, source: &mut S, sink: &mut K) -> Begun
    ensures { HasBegun (Request.Answer command)
        (ends_of (S.left source.old) (S.faults source.old) (K.written sink.old) (K.faults sink.old))
        (ends_of (S.left source.new) (S.faults source.new) (K.written sink.new) (K.faults sink.new))
        result }
{
    match fetch(alloc, source, sink) {
        Err(outcome) => Begun::Over(outcome),
        Ok(bytes) => match judge(alloc, command, bytes.as_slice()) {
            Err(OutOfMemory) => Begun::Over(unshown(8)),
            Ok(Judged::Refused(said)) => {
                Begun::Over(tell(sink, said.status, said.text.as_slice()))
            }
            Ok(Judged::Ready(it)) => Begun::Asked { command, it },
            Ok(Judged::Rest(it)) => Begun::Rest(it),
        },
    }
}

/// What all calls begin with: the words are read, and where these ask for it, the source.
fn begin<S: Source, K: Sink>(
    alloc: Global,
    call: Call,
    words: &[String],
    source: &mut S,
    sink: &mut K,
) -> Begun
    ensures { HasBegun (request_in call (map string_bytes words.now))
        (ends_of (S.left source.old) (S.faults source.old) (K.written sink.old) (K.faults sink.old))
        (ends_of (S.left source.new) (S.faults source.new) (K.written sink.new) (K.faults sink.new))
        result }
{
    match request_in(alloc, call, words) {
        Err(OutOfMemory) => Begun::Over(unshown(8)),
        Ok(Request::Usage) => Begun::Over(tell(sink, 2, USAGE)),
        Ok(Request::Answer(command)) => take(alloc, command, source, sink),
        Ok(Request::Ask(query)) => Begun::Over(ask(alloc, query, source, sink)),
        Ok(Request::Generate { number }) => match job_of(alloc, number) {
            Err(OutOfMemory) => Begun::Over(unshown(8)),
            Ok(text) => Begun::Over(tell(sink, 0, text.as_slice())),
        },
    }
}

/// What all calls end with: what was made is written, and shown.
fn finish<K: Sink>(sink: &mut K, made: Result<Output, OutOfMemory>) -> Outcome
    ensures { HasTold made (K.written sink.old) (K.written sink.new) (K.faults sink.old) (K.faults sink.new) result }
{
    match made {
        Err(OutOfMemory) => unshown(8),
        Ok(Output { said, shown }) => Outcome {
            status: say(sink, said.status, said.text.as_slice()),
            shown,
        },
    }
}

/// The program for the commands that wait for nobody. It reads the source to its end, and writes to
/// the sink what is due for the words and these bytes.
///
/// The words are those after the program's name. `solo` answers accept (0), reject (1) or stuck (3):
/// what the automaton of the job says of all words that weave the job's scripts. It says how many letters
/// the weave has, and where the scripts are stuck, which these are and what each process waits for.
/// `check` answers how many states the minimal automaton of the job's language has (0). `locals` answers
/// what each process knows after the weave (0). `audit` reads a claim after the job, and answers whether it is
/// yes (0) or what is wrong with it (1): the first event whose letter can't fire or that has another label than
/// the one by definition, a letter that can still fire, or the answer. `build` writes the job that a document says by
/// its expression (0), `news` what each process knows of the readings of each after the weave (0), and `freeze` the job
/// and what its processes know after so many events of the weave (0). `gen` writes the job that is generated
/// from a number (0). The forms of `run`, `journal` and `thaw` are none here; those, and words in no form, are
/// answered by the usage line (2). Then, and with `gen`, the source isn't read.
///
/// The scripts of `solo` and of `locals` are run on one thread, by the local states of the processes, with so many rows
/// of a cache as the words say. No clause says how they are run; what a text was made of is shown, the finished run:
/// its automaton is the minimal one of the job's language, its scripts are the job's, its word is the weave, and its
/// answer is the one to the scripts. With a status of 0, 1, 3 or 7 nothing is shown only where no such text was due.
///
/// Bytes that are no document, with `audit` no document with a claim after it, with `build` none with an expression and
/// with `news` none with readings after it, are refused at their first wrong line (4), and more than 1,048,576 of them
/// too (9). A language that isn't closed under trace equivalence is answered by two equivalent words of which one is
/// accepted (5), the least; that of `build` doesn't have to be closed. Status 6 comes
/// only where the source's count of faults rose, with nothing written, and 7 only where the sink's did, after
/// a proper prefix of the text that is due; a count that stands at its last value counts as one that rose.
/// Status 8, want of memory, comes with nothing written, and with nothing read where the source isn't to be read.
///
/// What is said of bytes holds where the source tells the bytes that it has left, and the sink those that
/// were written to it.
pub fn plain<S: Source, K: Sink>(
    alloc: Global,
    words: &[String],
    source: &mut S,
    sink: &mut K,
) -> Outcome
    ensures ran { HasRun (request_in Call.Plain (map string_bytes words.now))
        (ends_of (S.left source.old) (S.faults source.old) (K.written sink.old) (K.faults sink.old))
        (ends_of (S.left source.new) (S.faults source.new) (K.written sink.new) (K.faults sink.new))
        result.status.0 }
    ensures shown { IsShown (request_in Call.Plain (map string_bytes words.now))
        (ends_of (S.left source.old) (S.faults source.old) (K.written sink.old) (K.faults sink.old))
        (ends_of (S.left source.new) (S.faults source.new) (K.written sink.new) (K.faults sink.new))
        result.status.0 result.shown }
{
    match begin(alloc, Call::Plain, words, source, sink) {
        Begun::Over(outcome) => outcome,
        Begun::Asked { command, it } => finish(sink, answer_alone(alloc, command, &it)),
        Begun::Rest(_) => unreachable!(),
    }
}

/// The program for the commands that run on threads: as `plain`, but of the forms it has those of `run`, `journal`
/// and `thaw` alone, and all others are answered by the usage line (2).
///
/// `run` runs the scripts in a hall, with a thread for each process, which passes `gate` before each of its steps;
/// no clause speaks of threads or of the gate. It ends with the status and the text of `solo`, whatever the
/// schedule was, and the text is made of the closed hall, which is shown: its answer is the answer to the scripts,
/// and its word is equivalent to the weave, in the order in which the threads fired it. `journal` runs them so too,
/// and ends with that status. It writes this word, each letter with its label, and the answer as a claim, which
/// `audit` reads after the job and says yes to.
///
/// `thaw` reads a frozen text, and runs what is left of its job so, with no rows of a cache: the scripts without the
/// letters of the events that had happened, on the minimal automaton of the job's language, started at the state
/// after them. It ends with the status and the text of `solo` for the job, whatever is left; the closed hall is
/// shown, whose answer is that of what is left. Bytes that are no document with a cut line after it are refused at
/// their first wrong line (4), then a language that isn't closed (5), and then at the first line that isn't that of
/// the frozen text of this job after so many events (4).
///
/// It may wait, since threads wait for one another, and nothing says that it returns: all this holds if it does.
pub fn threaded<R: Threads + Wait + Sync, S: Source, K: Sink, G: Gate>(
    rt: &R,
    alloc: Global,
    words: &[String],
    source: &mut S,
    sink: &mut K,
    gate: &G,
) -> Outcome
    ensures ran { HasRun (request_in Call.Threaded (map string_bytes words.now))
        (ends_of (S.left source.old) (S.faults source.old) (K.written sink.old) (K.faults sink.old))
        (ends_of (S.left source.new) (S.faults source.new) (K.written sink.new) (K.faults sink.new))
        result.status.0 }
    ensures shown { IsShown (request_in Call.Threaded (map string_bytes words.now))
        (ends_of (S.left source.old) (S.faults source.old) (K.written sink.old) (K.faults sink.old))
        (ends_of (S.left source.new) (S.faults source.new) (K.written sink.new) (K.faults sink.new))
        result.status.0 result.shown }
{
    match begin(alloc, Call::Threaded, words, source, sink) {
        Begun::Over(outcome) => outcome,
        Begun::Asked { command, it } => {
            finish(sink, answer_on_threads(rt, alloc, command, &it, gate))
        }
        Begun::Rest(it) => finish(sink, answer_rest(rt, alloc, &it, gate)),
    }
}

/// The whole program: the forms of `run`, `journal` and `thaw` are answered by `threaded`, and all else by `plain`.
pub fn top<R: Threads + Wait + Sync, S: Source, K: Sink, G: Gate>(
    rt: &R,
    alloc: Global,
    words: &[String],
    source: &mut S,
    sink: &mut K,
    gate: &G,
) -> Outcome
    ensures ran { HasRun (request_in Call.Top (map string_bytes words.now))
        (ends_of (S.left source.old) (S.faults source.old) (K.written sink.old) (K.faults sink.old))
        (ends_of (S.left source.new) (S.faults source.new) (K.written sink.new) (K.faults sink.new))
        result.status.0 }
    ensures shown { IsShown (request_in Call.Top (map string_bytes words.now))
        (ends_of (S.left source.old) (S.faults source.old) (K.written sink.old) (K.faults sink.old))
        (ends_of (S.left source.new) (S.faults source.new) (K.written sink.new) (K.faults sink.new))
        result.status.0 result.shown }
{
    match are_for_threads(alloc, words) {
        Err(OutOfMemory) => unshown(8),
        Ok(true) => threaded(rt, alloc, words, source, sink, gate),
        Ok(false) => plain(alloc, words, source, sink),
    }
}
