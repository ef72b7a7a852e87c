//! Jobs that are built from expressions.

use std::alloc::{AllocError, Global};
use std::process::Abort;
use std::test::Fail;
use za_expr::build;
use za_lang::{JobFault, read_job};
use za_print::print_job;
use za_text::{Kind, TextFault};

const MOST_BYTES: usize = 4294967294;

/// The document of all words over two letters, and the job that is built from it.
const ALL_WORDS: &[u8] = b"zla expr\nprocesses left right\nletter a left\nletter b right\n\
    expr ( a | b ) *\nscript left a\nscript right b\nend\n";

const ALL_WORDS_BUILT: &[u8] = b"zla 2\nprocesses left right\nletter a left\nletter b right\n\
    states 3\nstart 0\naccept 0 1 2\nrow 0 a 1\nrow 0 b 2\nrow 1 a 1\nrow 1 b 2\nrow 2 a 1\nrow 2 b 2\n\
    script left a\nscript right b\nend\n";

/// The lines of the document of all words, with another text in place of the line of this number; none has number 0.
fn with_line(alloc: Global, number: usize, text: &[u8]) -> Result<Vec<u8>, AllocError> {
    let mut all = Vec::new(alloc);
    let mut line: usize = 1;
    for b in ALL_WORDS {
        if line != number {
            all.push(*b)?;
        }
        if *b == b'\n' {
            if line == number {
                all.extend_from_slice(text)?;
            }
            line = line.wrapping_add(1);
        }
    }
    Ok(all)
}

/// The document of all words with this expression, and so many times another after it.
fn with_expression(
    alloc: Global,
    text: &[u8],
    more: &[u8],
    times: usize,
) -> Result<Vec<u8>, AllocError> {
    let mut line = Vec::from_slice(alloc, b"expr ")?;
    line.extend_from_slice(text)?;
    for _ in 0..times {
        line.extend_from_slice(more)?;
    }
    line.push(b'\n')?;
    with_line(alloc, 5, line.as_slice())
}

/// Whether the bytes have these bytes in a row.
fn contains(bytes: &[u8], part: &[u8]) -> bool {
    for at in 0..bytes.len() {
        if bytes[at..].starts_with(part) {
            return true;
        }
    }
    false
}

/// The text that is built from a document of few enough bytes.
fn built(alloc: Global, bytes: &[u8]) -> Result<Vec<u8>, JobFault> {
    if MOST_BYTES < bytes.len() {
        return Err(JobFault::OutOfMemory);
    }
    build(alloc, bytes)
}

fn fault_of(alloc: Global, bytes: &[u8]) -> Option<JobFault> {
    built(alloc, bytes).err()
}

fn refused(line: u32, kind: Kind) -> Option<JobFault> {
    Some(JobFault::Text(TextFault { line, kind }))
}

/// The printed form of the job of a text.
fn printed(rt: &impl Abort, alloc: Global, text: &[u8]) -> Result<Vec<u8>, Fail> {
    assert!(rt; text.len() <= MOST_BYTES);
    let job = read_job(alloc, text)?;
    assert!(rt; job.scripts.fits(job.lang.alphabet()));
    let text = print_job(alloc, &job);
    drop(job);
    Ok(text?)
}

#[test]
fn all_words(rt: HostRuntime) -> Result<(), Fail> {
    let text = built(rt.alloc(), ALL_WORDS)?;
    assert!(rt; text.as_slice() == ALL_WORDS_BUILT);
    assert!(rt; printed(&rt, rt.alloc(), text.as_slice())?.as_slice() == ALL_WORDS_BUILT);
    Ok(())
}

/// What the comments and repeats of version 2 may be.
const COMMENTED: &[u8] =
    b"\n zla\texpr\n# two sides\nprocesses left right\nletter a left\nletter b right\n\
    letter c left right\n#\nexpr ! { a b & 1 } & ( a | b | c ) *\nscript left a*2\n#x\nscript left a c\n\
    end\n# the end\n";

#[test]
fn comments_and_repeats_are_those_of_version_2(rt: HostRuntime) -> Result<(), Fail> {
    let text = built(rt.alloc(), COMMENTED)?;
    assert!(rt; contains(text.as_slice(), b"script left a*3 c\nscript right\nend\n"));
    Ok(())
}

#[test]
fn bad_form(rt: HostRuntime) -> Result<(), Fail> {
    let document = with_line(rt.alloc(), 5, b"expr a |\n")?;
    assert!(rt; fault_of(rt.alloc(), document.as_slice()) == refused(5, Kind::BadExpr));
    Ok(())
}

/// An expression, how many times what follows, and why the document is refused.
type Refused = (&'static [u8], &'static [u8], usize, Kind);

static REFUSED: [Refused; 3] = [
    (b"( a | b ) * a", b" ( a | b )", 6, Kind::ExprStates),
    (b"a", b" a", 64, Kind::ExprFull),
    (b"d", b" |", 64, Kind::ExprFull),
];

fn assert_refused(rt: &impl Abort, alloc: Global, case: &Refused) -> Result<(), Fail> {
    let (text, more, times, kind) = *case;
    let document = with_expression(alloc, text, more, times)?;
    assert!(rt; fault_of(alloc, document.as_slice()) == refused(5, kind));
    Ok(())
}

#[test]
fn wide_form(rt: HostRuntime) -> Result<(), Fail> {
    for case in &REFUSED {
        assert_refused(&rt, rt.alloc(), case)?;
    }
    Ok(())
}

/// An expression, how many times what follows, and a part of what is built.
type Built = (&'static [u8], &'static [u8], usize, &'static [u8]);

static BUILT: [Built; 2] = [
    (b"( a | b ) * a", b" ( a | b )", 5, b"\nstates 65\n"),
    (b"a", b" a", 63, b"\nstates 66\n"),
];

fn assert_built(rt: &impl Abort, alloc: Global, case: &Built) -> Result<(), Fail> {
    let (text, more, times, part) = *case;
    let document = with_expression(alloc, text, more, times)?;
    let job = built(alloc, document.as_slice())?;
    assert!(rt; contains(job.as_slice(), part));
    Ok(())
}

#[test]
fn expressions_of_64_words(rt: HostRuntime) -> Result<(), Fail> {
    for case in &BUILT {
        assert_built(&rt, rt.alloc(), case)?;
    }
    Ok(())
}

/// A line of the document, what stands in its place, the line that is wrong then, and why.
type Wrong = (usize, &'static [u8], u32, Kind);

static WRONG: [Wrong; 31] = [
    (1, b"zla 2\n", 1, Kind::ExprHeader),
    (1, b"zla expr 2\n", 1, Kind::ExprHeader),
    (1, b"zla\n", 1, Kind::ExprHeader),
    (1, b"expr zla\n", 1, Kind::ExprHeader),
    (1, b"# words\nzla expr\n", 1, Kind::ExprHeader),
    (1, b"zla expr\nzla expr\n", 2, Kind::OutOfOrder),
    (2, b"expr a\n", 2, Kind::OutOfOrder),
    (2, b"processes left left\n", 2, Kind::RepeatedProcess),
    (3, b"expr a\n", 3, Kind::OutOfOrder),
    (3, b"letter a\n", 3, Kind::EmptyLoc),
    (4, b"letter a right\n", 4, Kind::RepeatedName),
    (4, b"", 4, Kind::NoSuchLetter),
    (5, b"", 5, Kind::OutOfOrder),
    (5, b"states 1\n", 5, Kind::OutOfOrder),
    (5, b"expr\n", 5, Kind::WordCount),
    (5, b"expr # all\n", 5, Kind::NoSuchLetter),
    (5, b"expr d |\n", 5, Kind::NoSuchLetter),
    (5, b"expr ( )\n", 5, Kind::BadExpr),
    (5, b"expr a\rb\n", 5, Kind::BadByte),
    (5, b"expr a\nexpr a\n", 6, Kind::OutOfOrder),
    (5, b"expr a\nletter c left\n", 6, Kind::OutOfOrder),
    (5, b"expr a\nstart 0\n", 6, Kind::OutOfOrder),
    (5, b"expr a\nrow 0 a 0\n", 6, Kind::OutOfOrder),
    (6, b"script left b\n", 6, Kind::NotOfProcess),
    (6, b"script left a*0\n", 6, Kind::BadRepeat),
    (6, b"script left a*65536\n", 7, Kind::ScriptsFull),
    (6, b"script middle a\n", 6, Kind::NoSuchProcess),
    (8, b"", 8, Kind::NoEnd),
    (8, b"end 1\n", 8, Kind::WordCount),
    (8, b"end\nexpr a\n", 9, Kind::Trailing),
    (8, b"end", 8, Kind::Cut),
];

fn assert_wrong(rt: &impl Abort, alloc: Global, case: &Wrong) -> Result<(), Fail> {
    let (line, text, at, kind) = *case;
    let document = with_line(alloc, line, text)?;
    assert!(rt;
        fault_of(alloc, document.as_slice()) == refused(at, kind),
        "{line} {kind:?}"
    );
    Ok(())
}

#[test]
fn one_document_per_kind(rt: HostRuntime) -> Result<(), Fail> {
    for case in &WRONG {
        assert_wrong(&rt, rt.alloc(), case)?;
    }
    Ok(())
}
