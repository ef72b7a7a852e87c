//! Reading a source to its end and writing all to a sink: in memory, in pieces and with faults, and over std.

use std::alloc::Global;
use std::io;
use std::io::{ErrorKind, Read, Write};
use std::process::Abort;
use std::test::Fail;
use za_base::{MemSink, MemSource, ReadEnd, StdSink, StdSource, read_all, write_all};

/// A source in memory, how it is read, and what the reading answers.
struct ReadCase {
    name: &'static str,
    bytes: &'static [u8],
    piece: usize,
    failing: &'static [u64],
    limit: usize,
    answer: Result<&'static [u8], ReadEnd>,
}

static READS: [ReadCase; 5] = [
    ReadCase {
        name: "three bytes within three",
        bytes: b"abc",
        piece: 64,
        failing: &[],
        limit: 3,
        answer: Ok(b"abc"),
    },
    ReadCase {
        name: "three bytes within two",
        bytes: b"abc",
        piece: 64,
        failing: &[],
        limit: 2,
        answer: Err(ReadEnd::TooLong),
    },
    ReadCase {
        name: "no bytes within none",
        bytes: b"",
        piece: 1,
        failing: &[],
        limit: 0,
        answer: Ok(b""),
    },
    ReadCase {
        name: "the second call fails",
        bytes: &[7; 150],
        piece: 64,
        failing: &[2],
        limit: 1000,
        answer: Err(ReadEnd::Fault),
    },
    ReadCase {
        name: "the first call fails",
        bytes: b"abc",
        piece: 1,
        failing: &[1],
        limit: 3,
        answer: Err(ReadEnd::Fault),
    },
];

fn source_of(rt: &impl Abort, alloc: Global, case: &ReadCase) -> Result<MemSource, Fail> {
    let bytes = case.bytes.to_vec(alloc)?;
    let failing = case.failing.to_vec(alloc)?;
    assert!(rt; case.piece > 0);
    Ok(MemSource::new(bytes, case.piece, failing))
}

fn read(rt: &impl Abort, alloc: Global, case: &ReadCase) -> Result<Result<Vec<u8>, ReadEnd>, Fail> {
    let mut source = source_of(rt, alloc, case)?;
    assert!(rt; case.limit < 4294967295);
    Ok(read_all(alloc, &mut source, case.limit))
}

#[test]
fn reads_to_the_end_or_says_why_not(rt: HostRuntime) -> Result<(), Fail> {
    for case in &READS {
        match read(&rt, rt.alloc(), case)? {
            Ok(text) => assert!(rt; Ok(text.as_slice()) == case.answer, "{}", case.name),
            Err(end) => assert!(rt; Err(end) == case.answer, "{}", case.name),
        }
    }
    Ok(())
}

/// A sink in memory, and what writing `accept` to it answers and leaves.
struct WriteCase {
    room: usize,
    piece: usize,
    failing: &'static [u64],
    answer: Result<(), usize>,
    bytes: &'static [u8],
    faults: u64,
}

static WRITES: [WriteCase; 4] = [
    // room for all
    WriteCase {
        room: 6,
        piece: 4,
        failing: &[],
        answer: Ok(()),
        bytes: b"accept",
        faults: 0,
    },
    // room for five
    WriteCase {
        room: 5,
        piece: 5,
        failing: &[],
        answer: Err(5),
        bytes: b"accep",
        faults: 1,
    },
    // the second call fails
    WriteCase {
        room: 100,
        piece: 5,
        failing: &[2],
        answer: Err(5),
        bytes: b"accep",
        faults: 1,
    },
    // the first call fails
    WriteCase {
        room: 100,
        piece: 5,
        failing: &[1],
        answer: Err(0),
        bytes: b"",
        faults: 1,
    },
];

fn sink_of(rt: &impl Abort, alloc: Global, case: &WriteCase) -> Result<MemSink, Fail> {
    let failing = case.failing.to_vec(alloc)?;
    assert!(rt; case.piece > 0);
    Ok(MemSink::new(alloc, case.room, case.piece, failing)?)
}

fn assert_sunk(rt: &impl Abort, sink: &MemSink, case: &WriteCase) {
    assert_eq!(rt; sink.bytes(), case.bytes);
    assert_eq!(rt; sink.faults(), case.faults);
}

#[test]
fn writes_all_or_counts_a_fault(rt: HostRuntime) -> Result<(), Fail> {
    for (at, case) in WRITES.iter().enumerate() {
        let mut sink = sink_of(&rt, rt.alloc(), case)?;
        assert_eq!(rt; write_all(&mut sink, b"accept"), case.answer, "case {at}");
        assert_sunk(&rt, &sink, case);
    }
    Ok(())
}

static TEXTS: [&[u8]; 4] = [b"", b"a", b"ab", b"accept"];

fn assert_read(rt: &impl Abort, alloc: Global, text: &[u8]) -> Result<(), Fail> {
    let read = read_all(alloc, &mut StdSource::new(text), 6)?;
    assert_eq!(rt; read.as_slice(), text);
    Ok(())
}

fn assert_written(rt: &impl Abort, alloc: Global, text: &[u8]) {
    let mut written = Vec::new(alloc);
    assert_eq!(rt; write_all(&mut StdSink::new(&mut written), text), Ok(()));
    assert_eq!(rt; written.as_slice(), text);
}

#[test]
fn reads_and_writes_over_std(rt: HostRuntime) -> Result<(), Fail> {
    for text in &TEXTS {
        assert_read(&rt, rt.alloc(), text)?;
        assert_written(&rt, rt.alloc(), text);
    }
    Ok(())
}

/// A reader that always fails, and a writer that takes nothing.
#[derive(Drop)]
struct Broken;

impl Read for Broken {
    fn read(&mut self, _buf: &mut [u8]) -> io::Result<usize> {
        Err(ErrorKind::Other.into())
    }
}

impl Write for Broken {
    fn write(&mut self, _buf: &[u8]) -> io::Result<usize> {
        Ok(0)
    }

    fn flush(&mut self) -> io::Result<()> {
        Ok(())
    }
}

#[test]
fn an_error_and_a_write_of_nothing_are_faults(rt: HostRuntime) {
    match read_all(rt.alloc(), &mut StdSource::new(Broken), 5) {
        Ok(_) => panic!(rt; "bytes of a broken reader"),
        Err(end) => assert_eq!(rt; end, ReadEnd::Fault),
    }
    assert_eq!(rt; write_all(&mut StdSink::new(Broken), b"accept"), Err(0));
}
