//! Documents, command words, lines and streams.

ghost use Rattle.std.specs.Prelude.{◌<◌, length};

use crate::common::{two_processes, without_b};
use callers::commands::{are_in_form, complaint};
use callers::documents::{document_answer, normal_form, of_two, process_of};
use callers::streams::{CopyEnd, copy_all};
use callers::texts::{line_count, only_number};
use std::alloc::{AllocError, Global};
use std::process::Abort;
use std::test::Fail;
use za_alpha::OutOfMemory;
use za_base::{MemSink, MemSource, ReadEnd};
use za_dfa::Dfa;
use za_lang::JobFault;
use za_script::Answer;
use za_text::{Kind, Lines, TextFault};

/// A limit, the room of the sink, how copying ends, and what is written.
type Copying = (usize, usize, Result<(), CopyEnd>, &'static [u8]);

static COPIES: [Copying; 3] = [
    (5, 5, Ok(()), b"zla 1"),
    (5, 3, Err(CopyEnd::Unwritten(3)), b"zla"),
    (4, 5, Err(CopyEnd::Unread(ReadEnd::TooLong)), b""),
];

fn assert_copied(rt: &impl Abort, alloc: Global, case: &Copying) -> Result<(), OutOfMemory> {
    let (limit, room, end, written) = *case;
    let mut source = MemSource::new(Vec::from_slice(alloc, b"zla 1")?, 2, Vec::new(alloc));
    let mut sink = MemSink::new(alloc, room, 2, Vec::new(alloc))?;
    assert!(rt; limit < 4294967295);
    assert_eq!(rt; copy_all(alloc, &mut source, &mut sink, limit), end);
    assert_eq!(rt; sink.bytes(), written);
    Ok(())
}

#[test]
fn a_source_is_copied(rt: HostRuntime) -> Result<(), Fail> {
    for case in &COPIES {
        assert_copied(&rt, rt.alloc(), case)?;
    }
    Ok(())
}

/// A text, how many lines it has, and the number that stands alone on the first.
static TEXTS: [(&[u8], u32, Option<u32>); 5] = [
    (b"12\n\n7", 3, Some(12)),
    (b" 12 13\n", 1, None),
    (b"\t7 \n", 1, Some(7)),
    (b"012", 1, None),
    (b"", 0, None),
];

fn first_line_number(text: &[u8]) -> Option<u32>
    requires { length text.now < 4294967295 }
{
    match Lines::new(text).next() {
        Some(line) => only_number(&line),
        None => None,
    }
}

#[test]
fn lines_and_numbers(rt: HostRuntime) {
    for (text, lines, number) in &TEXTS {
        assert!(rt; text.len() < 4294967295);
        assert_eq!(rt;
            (line_count(text), first_line_number(text)),
            (*lines, *number)
        );
    }
}

/// Words without `b`: two letters of one process each, and scripts in a few ways.
const HEAD: &[u8] =
    b"zla 1\nprocesses 2\nletter a 0\nletter b 1\nstates 1\nstart 0\naccept 0\nrow 0 a 0\n";

fn document(alloc: Global, tail: &[u8]) -> Result<Vec<u8>, AllocError> {
    let mut text = Vec::from_slice(alloc, HEAD)?;
    text.extend_from_slice(tail)?;
    Ok(text)
}

fn answer_to(
    rt: &impl Abort,
    alloc: Global,
    tail: &[u8],
) -> Result<Result<Option<Answer>, JobFault>, AllocError> {
    let text = document(alloc, tail)?;
    assert!(rt; text.len() < 4294967295);
    Ok(document_answer(alloc, text.as_slice()))
}

#[test]
fn documents_are_answered(rt: HostRuntime) -> Result<(), Fail> {
    let at_ten = JobFault::Text(TextFault {
        line: 10,
        kind: Kind::NoEnd,
    });
    for (tail, answer) in [
        (b"script 0 a\nend\n".as_slice(), Ok(Some(Answer::Accept))),
        (b" script 1\tb\n\nend\n", Ok(Some(Answer::Reject))),
        (b"script 0 a\n", Err(at_ten)),
    ] {
        assert_eq!(rt; answer_to(&rt, rt.alloc(), tail)?, answer);
    }
    Ok(())
}

/// The ends of documents, and those of their printed forms: none where the document is refused.
static PRINTED: [(&[u8], Option<&[u8]>); 3] = [
    (b"script 0 a\nend\n", Some(b"script 0 a\nscript 1\nend\n")),
    (
        b" script 1\tb\n\nend\n",
        Some(b"script 0\nscript 1 b\nend\n"),
    ),
    (b"script 0 a\n", None),
];

fn assert_printed(
    rt: &impl Abort,
    alloc: Global,
    tail: &[u8],
    printed: Option<&[u8]>,
) -> Result<(), AllocError> {
    let text = document(alloc, tail)?;
    assert!(rt; text.len() < 4294967295);
    let form = normal_form(alloc, text.as_slice()).ok();
    let wanted = document(alloc, printed.unwrap_or(b""))?;
    match form {
        Some(form) => assert_eq!(rt; form.as_slice(), wanted.as_slice()),
        None => assert!(rt; printed.is_none()),
    }
    Ok(())
}

#[test]
fn documents_are_printed(rt: HostRuntime) -> Result<(), Fail> {
    for (tail, printed) in &PRINTED {
        assert_printed(&rt, rt.alloc(), tail, *printed)?;
    }
    Ok(())
}

/// Two words, and of `right` the process that it names: none where the words name no two processes.
type Naming = (&'static [u8], &'static [u8], Option<usize>);

static NAMINGS: [Naming; 4] = [
    (b"left", b"right", Some(1)),
    (b"right", b"left", Some(0)),
    (b"right", b"right", None),
    (b"right", b"1", None),
];

fn process_right(
    rt: &impl Abort,
    alloc: Global,
    dfa: &Dfa,
    first: &[u8],
    second: &[u8],
) -> Result<Option<usize>, OutOfMemory> {
    assert!(rt; dfa.alphabet().processes() == 2 && dfa.states() <= 128);
    let lang = of_two(alloc, dfa, first, second)?;
    Ok(lang.as_ref().and_then(|lang| process_of(lang, b"right")))
}

#[test]
fn names_of_two_processes(rt: HostRuntime) -> Result<(), Fail> {
    let closed = without_b(&rt, rt.alloc())?;
    for (first, second, process) in &NAMINGS {
        let said = process_right(&rt, rt.alloc(), closed.dfa(), first, second)?;
        assert_eq!(rt; said, *process);
    }
    Ok(())
}

fn said_of(alloc: Global, words: &[&str]) -> Result<bool, OutOfMemory> {
    let mut given = Vec::new(alloc);
    for word in words {
        given.push(String::from_str(alloc, word)?)?;
    }
    are_in_form(alloc, &given)
}

static FORMS: [(&[&str], bool); 4] = [
    (&["solo"], true),
    (&["gen", "7"], true),
    (&["gen"], false),
    (&["weave"], false),
];

#[test]
fn command_words_in_a_form(rt: HostRuntime) -> Result<(), Fail> {
    for (words, known) in &FORMS {
        assert_eq!(rt; said_of(rt.alloc(), words)?, *known);
    }
    Ok(())
}

fn assert_complaint(
    rt: &impl Abort,
    alloc: Global,
    text: &[u8],
    said: &[u8],
) -> Result<(), OutOfMemory> {
    assert!(rt; text.len() < 4294967295);
    let complaint = complaint(alloc, text)?.expect(rt, "no document");
    assert_eq!(rt; complaint.as_slice(), said);
    Ok(())
}

static COMPLAINTS: [(&[u8], &[u8]); 2] = [
    (b"", b"refused line 1: end is missing\n"),
    (b"zla 1\nprocesses two\n", b"refused line 2: bad number\n"),
];

#[test]
fn complaints_about_texts(rt: HostRuntime) -> Result<(), Fail> {
    for (text, said) in &COMPLAINTS {
        assert_complaint(&rt, rt.alloc(), text, said)?;
    }
    Ok(())
}
