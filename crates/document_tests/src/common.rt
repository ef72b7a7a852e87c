//! What several of the tests are made over: a document, jobs that are read, and names of processes.

use samples::has_letters;
use std::alloc::Global;
use std::process::Abort;
use std::test::Fail;
use za_alpha::Letter;
use za_lang::{Job, JobFault, Lang, read_job};
use za_text::{Names, is_name};

/// Two processes with a letter each and one that they share.
pub const TWO: &str =
    "zla 1\nprocesses 2\nletter a 0\nletter b 1\nletter c 0 1\nstates 2\nstart 0\n\
    accept 0\nrow 0 a 1\nrow 0 b 0\nrow 0 c 0\nrow 1 a 0\nrow 1 b 1\nrow 1 c 1\n\
    script 0 a c a\nscript 1 b c\nend\n";

pub fn read(rt: &impl Abort, alloc: Global, text: &[u8]) -> Result<Job, JobFault> {
    assert!(rt; text.len() < 4294967295);
    read_job(alloc, text)
}

/// The job of a document that is one.
pub fn job_of(rt: &impl Abort, alloc: Global, text: &[u8]) -> Job {
    match read(rt, alloc, text) {
        Ok(job) => job,
        Err(_) => panic!(rt; "no job"),
    }
}

/// Where a letter leads from a state, if it has a row.
pub fn target(rt: &impl Abort, lang: &Lang, q: u8, a: u8) -> Option<u8> {
    assert!(rt; (q as usize) < lang.states() && (a as usize) < lang.alphabet().letters());
    lang.target(q, Letter(a))
}

pub fn assert_script(rt: &impl Abort, job: &Job, p: usize, letters: &[u8]) {
    assert!(rt; p < job.scripts.processes());
    assert!(rt; has_letters(job.scripts.script(p), letters));
}

static SIDES: [&[u8]; 2] = [b"left", b"right"];

/// The names `left` and `right`.
pub fn two_names(rt: &impl Abort, alloc: Global) -> Result<Names, Fail> {
    let mut names = Names::empty(alloc);
    for name in &SIDES {
        assert!(rt; is_name(name) && names.find(name) == None && names.len() < 10);
        names.add(name)?;
    }
    Ok(names)
}

/// The language of a job, with the names `left` and `right` for its processes.
pub fn named(rt: &impl Abort, alloc: Global, lang: &Lang) -> Result<Lang, Fail> {
    let dfa = lang.dfa()?;
    let names = two_names(rt, alloc)?;
    assert!(rt; names.len() == dfa.alphabet().processes() && names.are_names());
    assert!(rt; dfa.states() <= 128);
    Ok(Lang::named(alloc, &dfa, names)?)
}
