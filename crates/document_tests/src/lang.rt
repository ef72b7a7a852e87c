//! Jobs and their languages in both versions: what they say, where they are refused, and names of processes.

use crate::common::{job_of, named, read, target};
use std::alloc::Global;
use std::process::Abort;
use std::test::Fail;
use za_lang::{Job, JobFault, Lang, Refusal, Words, fault_at};
use za_text::{Kind, Lines, TextFault};

const JOB: &[u8] =
    b"zla 1\nprocesses 2\nletter a 0\nletter b 1\nstates 2\nstart 0\naccept 0\nrow 0 a 1\nscript 0 a a\nend\n";

fn assert_said(rt: &impl Abort, lang: &Lang) {
    assert!(rt; lang.states() == 2 && lang.alphabet().letters() == 2);
    assert_eq!(rt; lang.start(), 0);
    assert_eq!(rt; (lang.accepting(0), lang.accepting(1)), (true, false));
    assert_eq!(rt;
        (target(rt, lang, 0, 0), target(rt, lang, 0, 1)),
        (Some(1), None)
    );
}

/// The same with an added state, where the missing rows lead.
fn whole_of(rt: &impl Abort, alloc: Global, lang: &Lang) -> Result<Lang, Fail> {
    let dfa = lang.dfa()?;
    let alphabet = dfa.alphabet();
    assert!(rt; dfa.states() == 3 && alphabet.processes() == 2 && alphabet.letters() == 2);
    Ok(Lang::of(alloc, &dfa)?)
}

fn assert_whole(rt: &impl Abort, whole: &Lang) {
    assert!(rt; whole.states() == 3 && whole.alphabet().letters() == 2);
    assert_eq!(rt; target(rt, whole, 0, 1), Some(2));
}

#[test]
fn a_job_and_its_language(rt: HostRuntime) -> Result<(), Fail> {
    let job = job_of(&rt, rt.alloc(), JOB);
    assert_said(&rt, &job.lang);
    assert_eq!(rt; job.scripts.total(), 2);
    assert_whole(&rt, &whole_of(&rt, rt.alloc(), &job.lang)?);
    Ok(())
}

#[test]
fn refusals(rt: HostRuntime) {
    let fault = JobFault::Text(TextFault {
        line: 1,
        kind: Kind::Header,
    });
    assert_eq!(rt; read(&rt, rt.alloc(), b"zla 3\n").err(), Some(fault));
    assert_eq!(rt; fault_at(1, Refusal::Wrong(Kind::Header)), fault);
}

#[test]
fn words_of_a_line(rt: HostRuntime) {
    let mut lines = Lines::new(b"end\tx\n");
    let line = lines.next().expect(&rt, "a line");
    let mut words = Words::new(&line);
    assert_eq!(rt; words.next(), Some(b"end".as_slice()));
    assert_eq!(rt; words.next(), Some(b"x".as_slice()));
    assert_eq!(rt; words.next(), None);
}

/// Two processes with names, and a comment; its script lines begin at line 16.
const NAMED: &[u8] =
    b"zla 2\n# two sides\nprocesses left right\nletter a left\nletter b right\nletter c left right\n\
    states 2\nstart 0\naccept 0\nrow 0 a 1\nrow 0 b 0\nrow 0 c 0\nrow 1 a 0\nrow 1 b 1\nrow 1 c 1\n";

/// How many script letters a text has that begins so and ends with these lines.
fn letters_of(
    rt: &impl Abort,
    alloc: Global,
    front: &[u8],
    lines: &[u8],
) -> Result<Result<usize, JobFault>, Fail> {
    let mut text = Vec::from_slice(alloc, front)?;
    text.extend_from_slice(lines)?;
    Ok(read(rt, alloc, &text).map(|job| job.scripts.total()))
}

/// Lines that a text ends with, and how many script letters it has, or the line and the kind of its refusal.
type Case = (&'static [u8], Result<usize, (u32, Kind)>);

fn assert_cases(rt: &impl Abort, alloc: Global, front: &[u8], cases: &[Case]) -> Result<(), Fail> {
    for (lines, letters) in cases {
        let wanted = letters.map_err(|(line, kind)| JobFault::Text(TextFault { line, kind }));
        assert!(rt; letters_of(rt, alloc, front, lines)? == wanted, "{lines:?}");
    }
    Ok(())
}

static REPEATS: [Case; 10] = [
    (b"script left a*2 c\nscript right b c\nend\n", Ok(5)),
    (
        b"script left a*65535\n# x\nscript right b\nend\n",
        Ok(65536),
    ),
    (b"script left a*0\nend\n", Err((16, Kind::BadRepeat))),
    (b"script left a*\nend\n", Err((16, Kind::BadRepeat))),
    (b"script left a*2*2\nend\n", Err((16, Kind::BadRepeat))),
    (b"script left a*65537\n", Err((16, Kind::ScriptsFull))),
    (
        b"script left a\nscript left a*65536\n",
        Err((17, Kind::ScriptsFull)),
    ),
    (b"script left *2\n", Err((16, Kind::NoSuchLetter))),
    (b"script left b*0\n", Err((16, Kind::NotOfProcess))),
    (b"script 0 a\n", Err((16, Kind::NoSuchProcess))),
];

#[test]
fn repeats_of_letters(rt: HostRuntime) -> Result<(), Fail> {
    assert_cases(&rt, rt.alloc(), NAMED, &REPEATS)
}

static PROCESSES: [Case; 8] = [
    (b"zla 1\n# x\n", Err((2, Kind::OutOfOrder))),
    (b"zla 2\nprocesses\n", Err((2, Kind::WordCount))),
    (
        b"zla 2\nprocesses a b c d e f g h i j a\n",
        Err((2, Kind::WideProcesses)),
    ),
    (b"zla 2\nprocesses a 1\n", Err((2, Kind::BadName))),
    (
        b"zla 2\n#\nprocesses a b a\n",
        Err((3, Kind::RepeatedProcess)),
    ),
    (
        b"zla 2\nprocesses a\nletter x a 0\n",
        Err((3, Kind::NoSuchProcess)),
    ),
    (
        b"zla 2\nprocesses a\nletter a a\nstates 129\n",
        Err((4, Kind::WideStates)),
    ),
    (
        b"zla 2\nprocesses a\nletter a a\nstates 128\n",
        Err((5, Kind::NoEnd)),
    ),
];

#[test]
fn processes_of_version_2(rt: HostRuntime) -> Result<(), Fail> {
    assert_cases(&rt, rt.alloc(), b"", &PROCESSES)
}

#[test]
fn a_language_with_names(rt: HostRuntime) -> Result<(), Fail> {
    let job = job_of(&rt, rt.alloc(), JOB);
    assert!(rt; job.lang.version() == 1 && job.lang.names().find(b"1") == Some(1));
    let lang = named(&rt, rt.alloc(), &job.lang)?;
    assert!(rt; lang.version() == 2 && lang.names().find(b"right") == Some(1));
    Ok(())
}
