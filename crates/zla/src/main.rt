//! The program `zla`: the top call of zielonka over standard input and standard output.
#![tactic(auto)]

ghost use Rattle.std.specs.Prelude.{◌≡◌, IfErr, IfOk, drop, map, string_bytes};
ghost use Rattle.std.specs.IoError.{error_kind};
ghost use Rattle.std.specs.Process.{exit_status};
ghost use Rattle.std.specs.Vec.Iter.{into_iter_items};
ghost use Rattle.za_base.specs.Ends.{ends_of};
ghost use Rattle.zielonka.specs.Requests.{request_in};
ghost use Rattle.zielonka.specs.Run.{HasRun};
ghost use Rattle.zla.specs.Refusals.{IsRefusal};

use std::alloc::{AllocError, Global};
use std::env::{self, Args};
use std::io::{self, ErrorKind};
use std::process::ExitCode;
use std::sync::Wait;
use std::thread::Threads;
use za_base::{Sink, Source, StdSink, StdSource};
use zielonka::{Call, Gate, OpenGate, Status, top};

/// The status where the system refuses the program's arguments: 8 for want of memory, and 11 for any other
/// kind of error.
fn refused(kind: ErrorKind) -> Status
    ensures { IsRefusal kind result.0 }
{
    match kind {
        ErrorKind::OutOfMemory => Status(8),
        _ => Status(11),
    }
}

/// The words of the command: all arguments but the first, which is the program's name.
fn words(alloc: Global, args: Args) -> Result<Vec<String>, AllocError>
    ensures { IfOk result (λ words. words.items ≡ drop 1 (into_iter_items args)) }
{
    let mut rest = args;
    rest.next();
    let mut words = Vec::new(alloc);
    'words: while let Some(word) = rest.next() {
        words.push(word)?;
    }
    Ok(words)
}

/// What the program does with its arguments, or with the system's refusal of them.
fn run<R: Threads + Wait + Sync, S: Source, K: Sink, G: Gate>(
    rt: &R,
    alloc: Global,
    args: io::Result<Args>,
    source: &mut S,
    sink: &mut K,
    gate: &G,
) -> Status
    ensures ran { IfOk args (λ args. HasRun (request_in Call.Top (map string_bytes (drop 1 (into_iter_items args))))
        (ends_of (S.left source.old) (S.faults source.old) (K.written sink.old) (K.faults sink.old))
        (ends_of (S.left source.new) (S.faults source.new) (K.written sink.new) (K.faults sink.new))
        result.0) }
    ensures refused { IfErr args (λ error. IsRefusal (error_kind error) result.0) }
    ensures source { IfErr args (λ _. source.new ≡ source.old) }
    ensures sink { IfErr args (λ _. sink.new ≡ sink.old) }
{
    match args {
        Ok(args) => match words(alloc, args) {
            Ok(words) => top(rt, alloc, words.as_slice(), source, sink, gate).status,
            Err(_) => Status(8),
        },
        Err(error) => refused(error.kind()),
    }
}

/// A status as the system takes it.
fn exit_code(status: Status) -> ExitCode
    ensures { exit_status result ≡ status.0 }
{
    ExitCode::from(status.0)
}

fn main(rt: HostRuntime) -> ExitCode {
    let mut source = StdSource::new(rt.reader());
    let mut sink = StdSink::new(io::writer(&rt));
    let args = env::args(&rt);
    exit_code(run(&rt, rt.alloc(), args, &mut source, &mut sink, &OpenGate))
}
