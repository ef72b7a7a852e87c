//! Lines and words of texts, numbers, allowed bytes, texts of kinds, and names of processes.

use crate::common::two_names;
use std::process::Abort;
use std::test::Fail;
use za_text::{Kind, Line, Lines, Names, are_allowed, number};

const MOST_BYTES: usize = 4294967294;

/// A line: its number, its text, and whether it ends in a line feed.
type Found<'a> = Option<(u32, &'a [u8], bool)>;

/// The line at a place, counted from 0, if its number is how many lines have come.
fn line_at(text: &[u8], place: usize) -> Found {
    if MOST_BYTES < text.len() {
        return None;
    }
    let mut lines = Lines::new(text);
    for _ in 0..place {
        lines.next()?;
    }
    let line = lines.next()?;
    if lines.passed() != line.number {
        return None;
    }
    Some((line.number, line.text, line.whole))
}

static LINES: [(&[u8], usize, Found<'static>); 8] = [
    (b"", 0, None),
    (b"\n", 0, Some((1, b"", true))),
    (b"\n", 1, None),
    (b"a\n\nb c", 0, Some((1, b"a", true))),
    (b"a\n\nb c", 1, Some((2, b"", true))),
    (b"a\n\nb c", 2, Some((3, b"b c", false))),
    (b"a\n\nb c", 3, None),
    (b"a\r\n", 0, Some((1, b"a\r", true))),
];

#[test]
fn lines_end_at_line_feeds(rt: HostRuntime) {
    for (text, place, line) in &LINES {
        assert_eq!(rt; line_at(text, *place), *line, "{text:?} {place}");
    }
}

/// Where the word at a place of a line begins and ends, counted from 0.
fn word_at(text: &[u8], place: usize) -> Option<(u32, usize, usize)> {
    let line = Line {
        number: 7,
        text,
        whole: true,
    };
    let mut words = line.words();
    for _ in 0..place {
        words.next()?;
    }
    let word = words.next()?;
    Some((word.line, word.from, word.to))
}

static WORDS: [(&[u8], usize, Option<(u32, usize, usize)>); 9] = [
    (b"", 0, None),
    (b" \t ", 0, None),
    (b"row", 0, Some((7, 0, 3))),
    (b"row", 1, None),
    (b"\t row\t0  a ", 0, Some((7, 2, 5))),
    (b"\t row\t0  a ", 1, Some((7, 6, 7))),
    (b"\t row\t0  a ", 2, Some((7, 9, 10))),
    (b"\t row\t0  a ", 3, None),
    (b"a\rb", 0, Some((7, 0, 3))),
];

#[test]
fn words_stand_between_spaces_and_tabs(rt: HostRuntime) {
    for (text, place, word) in &WORDS {
        assert_eq!(rt; word_at(text, *place), *word, "{text:?} {place}");
    }
}

static NUMBERS: [(&[u8], Option<u32>); 14] = [
    (b"0", Some(0)),
    (b"7", Some(7)),
    (b"65536", Some(65536)),
    (b"4294967295", Some(4294967295)),
    (b"4294967296", None),
    (b"9999999999", None),
    (b"10000000000", None),
    (b"00", None),
    (b"02", None),
    (b"", None),
    (b"a", None),
    (b"1a", None),
    (b"+1", None),
    (b"-1", None),
];

#[test]
fn numbers_are_plain_decimals(rt: HostRuntime) {
    for (word, value) in &NUMBERS {
        assert_eq!(rt; number(word), *value, "{word:?}");
    }
}

static BYTES: [(&[u8], bool); 7] = [
    (b"", true),
    (b" ~\t", true),
    (b"a\r", false),
    (b"\x00", false),
    (b"\x1f", false),
    (b"\x7f", false),
    (b"\x80", false),
];

#[test]
fn lines_hold_tabs_and_printed_bytes(rt: HostRuntime) {
    for (bytes, allowed) in &BYTES {
        assert_eq!(rt; are_allowed(bytes), *allowed, "{bytes:?}");
    }
}

static KINDS: [(Kind, &[u8]); 15] = [
    (Kind::Cut, b"line is cut"),
    (Kind::NoEnd, b"end is missing"),
    (Kind::ProcessCount, b"processes not in 1 to 6"),
    (Kind::LetterCount, b"more than 32 letters"),
    (Kind::StateCount, b"states not in 1 to 32"),
    (Kind::NotOfProcess, b"letter not of this process"),
    (Kind::ClaimFull, b"more than 65536 events"),
    (Kind::Header, b"header is not zla 1 or 2"),
    (Kind::WideProcesses, b"processes not in 1 to 10"),
    (Kind::WideStates, b"states not in 1 to 128"),
    (Kind::BadRepeat, b"bad repeat"),
    (Kind::ExprHeader, b"header is not zla expr"),
    (Kind::ExprFull, b"more than 64 expression words"),
    (Kind::BadExpr, b"bad expression"),
    (Kind::ExprStates, b"more than 128 states"),
];

#[test]
fn kinds_have_texts(rt: HostRuntime) {
    for (kind, text) in &KINDS {
        assert_eq!(rt; kind.text(), *text);
    }
}

/// A word, and the process of which it is the name.
type Naming = (&'static [u8], Option<usize>);

fn assert_names(rt: &impl Abort, names: &Names, found: &[Naming]) {
    for (word, process) in found {
        assert_eq!(rt; names.find(word), *process, "{word:?}");
        if let Some(p) = process {
            assert!(rt; *p < names.len());
            assert_eq!(rt; names.of(*p), *word);
        }
    }
}

static NAMES: [Naming; 4] = [
    (b"left", Some(0)),
    (b"right", Some(1)),
    (b"b", None),
    (b"0", None),
];

static DIGITS: [Naming; 5] = [
    (b"0", Some(0)),
    (b"9", Some(9)),
    (b"00", None),
    (b"10", None),
    (b"left", None),
];

#[test]
fn processes_have_names(rt: HostRuntime) -> Result<(), Fail> {
    let names = two_names(&rt, rt.alloc())?;
    assert!(rt; names.len() == 2 && names.are_names());
    assert_names(&rt, &names, &NAMES);
    Ok(())
}

#[test]
fn processes_have_numbers(rt: HostRuntime) -> Result<(), Fail> {
    let numbers = Names::numbers(rt.alloc(), 10)?;
    assert!(rt; numbers.len() == 10 && !numbers.are_names());
    assert_names(&rt, &numbers, &DIGITS);
    Ok(())
}
