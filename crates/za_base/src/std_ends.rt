ghost use Rattle.std.specs.Prelude.{◌≡◌, ◌<◌, ◌≤◌, ◌↔◌, [], length, Ok, IsErr, IfOk, OnOk, OnErr, IfSome, OnSome};
ghost use Rattle.std.specs.Prelude.{IfNone};
ghost use Rattle.std.specs.Io.KnownBytes.{ReadConsumes, WriteAppends};
ghost use Rattle.za_base.specs.Fault.{next_count, Rises};

use crate::sink::Sink;
use crate::source::{Failed, Source};
use std::io::{Read, Write};

/// What a read or a write answers that moved so many bytes, or that failed: a failure is counted.
fn counted(moved: Option<usize>, faults: &mut u64) -> Result<usize, Failed>
    ensures moved { IfSome moved (λ n. result ≡ Ok n) }
    ensures failed { IfNone moved (IsErr result) }
    ensures stays { OnSome moved (faults.new ≡ faults.old) }
    ensures never_falls { faults.old ≤ faults.new }
    ensures rises { IfNone moved (faults.new ≡ next_count faults.old) }
{
    if moved.is_none() {
        *faults = faults.saturating_add(1);
    }
    moved.ok_or(Failed)
}

/// A source over a reader. It tells the bytes that the reader tells.
#[derive(Drop)]
pub struct StdSource<R: Read> {
    reader: R,
    faults: u64,
}

impl<R: Read> StdSource<R> {
    ghost use Rattle.za_base.specs.StdEnds.{source_reader, source_faults};

    /// A source with no fault so far.
    pub fn new(inner: R) -> StdSource<R>
        ensures reader { source_reader result ≡ inner }
        ensures faults { source_faults result ≡ 0 }
    {
        StdSource {
            reader: inner,
            faults: 0,
        }
    }
}

impl<R: Read> Source for StdSource<R> {
    ghost use Rattle.za_base.specs.StdEnds.{source_reader, source_faults};

    ghost left = { λ s. R.remaining s.reader };

    ghost faults = { λ s. s.faults };

    /// Reads once from the reader. Each of its errors, also an interruption, is a fault. When a reader
    /// fails is said by no contract of std, and so by none here.
    fn read(&mut self, into: &mut [u8]) -> Result<usize, Failed>
        requires { 0 < length into.old }
        ensures within { IfOk result (λ n. n ≤ length into.old) }
        ensures bytes { ReadConsumes (R.remaining (source_reader self.old))
            (R.remaining (source_reader self.new)) result into.new }
        ensures end { IfOk result (λ n.
            IfSome (R.remaining (source_reader self.old)) (λ xs. (n ≡ 0) ↔ (xs ≡ []))) }
        ensures never_falls { source_faults self.old ≤ source_faults self.new }
        ensures fault { OnErr result (Rises (source_faults self.old) (source_faults self.new)) }
        ensures stays { OnOk result (source_faults self.new ≡ source_faults self.old) }

        // The count goes up by one at each failure.
        ensures count { OnErr result
            (source_faults self.new ≡ next_count (source_faults self.old)) }
    {
        counted(self.reader.read(into).ok(), &mut self.faults)
    }
}

/// A sink over a writer. It tells the bytes that the writer tells.
#[derive(Drop)]
pub struct StdSink<W: Write> {
    writer: W,
    faults: u64,
}

impl<W: Write> StdSink<W> {
    ghost use Rattle.za_base.specs.StdEnds.{sink_writer, sink_faults};

    /// A sink with no fault so far.
    pub fn new(inner: W) -> StdSink<W>
        ensures writer { sink_writer result ≡ inner }
        ensures faults { sink_faults result ≡ 0 }
    {
        StdSink {
            writer: inner,
            faults: 0,
        }
    }
}

impl<W: Write> Sink for StdSink<W> {
    ghost use Rattle.za_base.specs.StdEnds.{sink_writer, sink_faults};

    ghost written = { λ s. W.contents s.writer };

    ghost faults = { λ s. s.faults };

    /// Writes once to the writer. Each of its errors, also an interruption, is a fault, and so is a
    /// write that takes nothing. When a writer fails is said by no contract of std, and so by none here.
    fn write(&mut self, piece: &[u8]) -> Result<usize, Failed>
        requires { 0 < length piece.now }
        ensures some { IfOk result (λ n. 1 ≤ n) }
        ensures within { IfOk result (λ n. n ≤ length piece.now) }
        ensures bytes { WriteAppends (W.contents (sink_writer self.old))
            (W.contents (sink_writer self.new)) result piece.now }
        ensures never_falls { sink_faults self.old ≤ sink_faults self.new }
        ensures fault { OnErr result (Rises (sink_faults self.old) (sink_faults self.new)) }
        ensures stays { OnOk result (sink_faults self.new ≡ sink_faults self.old) }

        // The count goes up by one at each failure.
        ensures count { OnErr result
            (sink_faults self.new ≡ next_count (sink_faults self.old)) }
    {
        let moved = self.writer.write(piece).ok().filter(|n| *n > 0);
        counted(moved, &mut self.faults)
    }
}
