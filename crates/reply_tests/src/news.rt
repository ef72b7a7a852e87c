//! Jobs with readings, and what processes know of them.

ghost use Rattle.std.specs.Prelude.{IfOk};
ghost use Rattle.za_lang.specs.Answers.{data_of};
ghost use Rattle.za_lang.specs.Jobs.{IsJob};

use std::alloc::Global;
use std::process::Abort;
use std::test::Fail;
use za_alpha::{Alphabet, Letter, Procs};
use za_lang::{Job, JobFault, Lang};
use za_news::*;
use za_script::Scripts;
use za_text::{Kind, TextFault};

/// Two processes with a letter each and one that they share. With its end it is a job of 17 lines.
const TWO: &str = "zla 1\nprocesses 2\nletter a 0\nletter b 1\nletter c 0 1\nstates 2\nstart 0\n\
    accept 0\nrow 0 a 1\nrow 0 b 0\nrow 0 c 0\nrow 1 a 0\nrow 1 b 1\nrow 1 c 1\n\
    script 0 a c a\nscript 1 b c\nend\n";

/// The same in version 2.
const NAMED: &str = "zla 2\n# two sides\nprocesses left right\nletter a left\nletter b right\n\
    letter c left right\nstates 2\nstart 0\naccept 0\nrow 0 a 1\nrow 0 b 0\nrow 0 c 0\n\
    row 1 a 0\nrow 1 b 1\nrow 1 c 1\nscript left a c a\nscript right b c\nend\n";

/// Four processes in a ring, each with a letter that it shares with the next.
const FOUR: &str = "zla 1\nprocesses 4\nletter c 1 2\nletter d 1 3\nletter e 0 3\nletter f 0 2\n\
    states 2\nstart 0\naccept 0\nrow 0 c 1\nrow 0 d 1\nrow 0 e 1\nrow 0 f 1\n\
    row 1 c 0\nrow 1 d 0\nrow 1 e 0\nrow 1 f 0\n\
    script 0 e f\nscript 1 d c\nscript 2 c f\nscript 3 e d\nend\n";

/// Reads a job and what follows it.
fn read(alloc: Global, job: &str, rest: &str) -> Result<NewsJob, JobFault>
    ensures { IfOk result (λ news. IsJob (data_of news.job)) }
{
    let mut text = match Vec::from_slice(alloc, job.as_bytes()) {
        Ok(text) => text,
        Err(_) => return Err(JobFault::OutOfMemory),
    };
    if text.extend_from_slice(rest.as_bytes()).is_err() || text.len() >= 4294967295 {
        return Err(JobFault::OutOfMemory);
    }
    read_news(alloc, text.as_slice())
}

/// The news of a job with readings.
fn news(alloc: Global, job: &str, rest: &str) -> Result<Vec<u8>, Fail> {
    let job = read(alloc, job, rest).ok().ok_or("refused")?;
    Ok(news_text(alloc, &job)?)
}

/// A job, what follows it, and the news.
static NEWS: [(&str, &str, &str); 4] = [
    (
        TWO,
        "readings\nread 0 10 20 30\nread 1 5\nend\n",
        "known 0 30 20\nknown 1 20 20\n",
    ),
    (
        FOUR,
        "readings\nread 0 1 2\nread 1 3 4\nread 2 5\nread 3 6\nend\n",
        "known 0 2 4 2 3\nknown 1 1 4 4 3\nknown 2 2 4 2 3\nknown 3 1 3 - 3\n",
    ),
    (TWO, "readings\nend\n", "known 0 0 0\nknown 1 0 0\n"),
    (
        NAMED,
        "\treadings \nread right 5\n# of left\nread left 10\nread left 20 30\nend\n# no more\n",
        "known left 30 20\nknown right 20 20\n",
    ),
];

#[test]
fn processes_know_the_latest_readings(rt: HostRuntime) -> Result<(), Fail> {
    for (job, rest, text) in &NEWS {
        let written = news(rt.alloc(), job, rest)?;
        assert!(rt; written.as_slice() == text.as_bytes(), "{rest}");
    }
    Ok(())
}

/// Compares the readings at each index with lists for three processes, of which the last is none.
fn assert_readings(rt: &impl Abort, readings: &Readings, lists: &[[u32; 4]; 3]) {
    for p in 0..3 {
        for k in 0..4 {
            assert_eq!(rt; readings.at(p, k), lists[p][k], "{p} {k}");
        }
    }
}

/// A job, what follows it, and the readings of three processes, of which the last is none.
static READINGS: [(&str, &str, [[u32; 4]; 3]); 3] = [
    (TWO, "readings\nend\n", [[0; 4]; 3]),
    (
        TWO,
        "readings\nread 1 5\nread 1 4294967295\nend\n",
        [[0; 4], [5, 4294967295, 0, 0], [0; 4]],
    ),
    (
        NAMED,
        "readings\nread left 10\nread right 5\nread left 20 30\nend\n",
        [[10, 20, 30, 0], [5, 0, 0, 0], [0; 4]],
    ),
];

/// Reads a job, and compares its readings.
fn assert_read(
    rt: &impl Abort,
    alloc: Global,
    job: &str,
    rest: &str,
    lists: &[[u32; 4]; 3],
) -> Result<(), Fail> {
    let read = read(alloc, job, rest).ok().ok_or("refused")?;
    assert_readings(rt, &read.readings, lists);
    drop(read);
    Ok(())
}

#[test]
fn readings_are_0_past_their_list(rt: HostRuntime) -> Result<(), Fail> {
    for (job, rest, lists) in &READINGS {
        assert_read(&rt, rt.alloc(), job, rest, lists)?;
    }
    Ok(())
}

/// The letters of the jobs of two processes: their names, and a bit for each of their processes.
static LETTERS: [(&[u8], u16); 3] = [(b"a", 0b01), (b"b", 0b10), (b"c", 0b11)];

fn assert_letters(rt: &impl Abort, alphabet: &Alphabet) {
    assert!(rt; alphabet.processes() == 2 && alphabet.letters() == 3);
    for a in 0..3u8 {
        let (name, processes) = LETTERS[a as usize];
        assert!(rt; alphabet.name(Letter(a)) == name, "{a}");
        assert_eq!(rt; alphabet.loc(Letter(a)), Procs(processes), "{a}");
    }
}

/// Where the letters lead from both states of these jobs.
static TARGETS: [[u8; 3]; 2] = [[1, 0, 0], [0, 1, 1]];

fn assert_table(rt: &impl Abort, lang: &Lang) {
    assert!(rt; lang.states() == 2 && lang.alphabet().letters() == 3);
    assert_eq!(rt; lang.start(), 0);
    for q in 0..2u8 {
        assert_eq!(rt; lang.accepting(q), q == 0, "{q}");
        for a in 0..3u8 {
            let target = TARGETS[q as usize][a as usize];
            assert_eq!(rt; lang.target(q, Letter(a)), Some(target), "{q} {a}");
        }
    }
}

fn assert_names(rt: &impl Abort, lang: &Lang, version: u8, names: [&[u8]; 2]) {
    assert_eq!(rt; lang.version(), version);
    assert_eq!(rt; lang.names().len(), 2);
    for p in 0..2 {
        assert!(rt; lang.names().of(p) == names[p], "{p}");
    }
}

/// Compares scripts with `a c a` and `b c`.
fn assert_scripts(rt: &impl Abort, scripts: &Scripts) {
    assert!(rt; scripts.processes() == 2 && scripts.total() == 5);
    assert!(rt; scripts.script(0).letters() == [Letter(0), Letter(2), Letter(0)].as_slice());
    assert!(rt; scripts.script(1).letters() == [Letter(1), Letter(2)].as_slice());
}

/// A job, what follows it, its version, and the names of its processes.
static JOBS: [(&str, &str, u8, [&[u8]; 2]); 2] = [
    (TWO, "readings\nread 0 1\nend\n", 1, [b"0", b"1"]),
    (
        NAMED,
        "readings\nread right 1\nend\n",
        2,
        [b"left", b"right"],
    ),
];

fn assert_job(rt: &impl Abort, job: &Job) {
    assert_letters(rt, job.lang.alphabet());
    assert_table(rt, &job.lang);
    assert_scripts(rt, &job.scripts);
}

#[test]
fn jobs_are_read_whole(rt: HostRuntime) -> Result<(), Fail> {
    for (job, rest, version, names) in &JOBS {
        let read = read(rt.alloc(), job, rest).ok().ok_or("refused")?;
        assert_names(&rt, &read.job.lang, *version, *names);
        assert_job(&rt, &read.job);
        drop(read);
    }
    Ok(())
}

/// What follows the job, the line that is wrong, and why.
static REFUSALS: [(&str, u32, Kind); 19] = [
    ("", 18, Kind::NoEnd),
    ("readings 1\n", 18, Kind::Trailing),
    ("\nReadings", 19, Kind::Cut),
    ("readings", 18, Kind::Cut),
    ("readings\n", 19, Kind::NoEnd),
    ("readings\nread 2 1\nend\n", 19, Kind::NoSuchProcess),
    ("readings\nread left 1\nend\n", 19, Kind::NoSuchProcess),
    ("readings\nread 00 1\nend\n", 19, Kind::NoSuchProcess),
    ("readings\nread\nend\n", 19, Kind::WordCount),
    ("readings\nread 2 x\nend\n", 19, Kind::NoSuchProcess),
    ("readings\nread 0\nread 1 7 x 8\nend\n", 20, Kind::BadNumber),
    ("readings\nread 0 4294967296\nend\n", 19, Kind::BadNumber),
    ("readings\nread 0 4294967295\nend 0\n", 20, Kind::WordCount),
    ("readings\nreadings\nend\n", 19, Kind::OutOfOrder),
    ("readings\n# of both\nend\n", 19, Kind::OutOfOrder),
    ("readings\nread 0 1\r\nend\n", 19, Kind::BadByte),
    ("readings\nread 0 1\nend", 20, Kind::Cut),
    ("readings\nend\n\nread 0 1\n", 21, Kind::Trailing),
    ("readings\nread 0 1\n\n", 21, Kind::NoEnd),
];

/// Why a job and what follows it are refused.
fn fault_of(alloc: Global, rest: &str) -> Option<JobFault> {
    read(alloc, TWO, rest).err()
}

#[test]
fn texts_are_refused_at_a_line(rt: HostRuntime) {
    for (rest, line, kind) in &REFUSALS {
        let fault = JobFault::Text(TextFault {
            line: *line,
            kind: *kind,
        });
        assert_eq!(rt; fault_of(rt.alloc(), rest), Some(fault), "{rest}");
    }
}
