//! Printed jobs.

use crate::common::{TWO, job_of, named};
use std::alloc::Global;
use std::process::Abort;
use std::test::Fail;
use za_alpha::{Alphabet, Letter};
use za_lang::Job;
use za_print::print_job;
use za_script::Scripts;

/// The document with tabs and spaces, lines without words, a row given again, rows, states and processes
/// in another order, and a script in two lines.
const TWO_AT_LARGE: &str = "\n zla\t1\nprocesses  2\nletter a 0\nletter b 1 1\nletter c 1 0\n\t\n\
    states 2\nstart 0\naccept 0 0\nrow 1 c 1\nrow 1 b 1\nrow 1 a 0\nrow 0 c 0\nrow 0 a 1\n\
    row 0 b 0\nrow 0 a 1\nscript 1 b\nscript 0 a c a \nscript 1\tc\nend\n\n";

/// No script lines, both states accepting, and not a row for each state and letter.
const PARTIAL: &str = "zla 1\nprocesses 2\nletter a 0\nletter b 1\nstates 2\nstart 1\naccept 1 0\n\
    row 1 b 0\nrow 0 a 1\nend\n";

const PARTIAL_PRINTED: &str = "zla 1\nprocesses 2\nletter a 0\nletter b 1\nstates 2\nstart 1\n\
    accept 0 1\nrow 0 a 1\nrow 1 b 0\nscript 0\nscript 1\nend\n";

/// Version 2: names of processes, comments, and runs of letters in pieces.
const NAMED: &str = "zla 2\n# two sides\nprocesses left right\nletter a left\nletter b right\n\
    # both\nletter c right left\nstates 2\nstart 0\naccept 0\nrow 0 a 1\nrow 0 b 0\nrow 0 c 0\n\
    row 1 c 1\nrow 1 b 1\nrow 1 a 0\nscript right b*1 c\nscript left a a\nscript left a*8 c\n\
    # the end\nend\n";

const NAMED_PRINTED: &str = "zla 2\nprocesses left right\nletter a left\nletter b right\n\
    letter c left right\nstates 2\nstart 0\naccept 0\nrow 0 a 1\nrow 0 b 0\nrow 0 c 0\n\
    row 1 a 0\nrow 1 b 1\nrow 1 c 1\nscript left a*10 c\nscript right b c\nend\n";

/// Documents, and their jobs printed.
static PRINTED: [(&str, &str); 5] = [
    (TWO, TWO),
    (TWO_AT_LARGE, TWO),
    (PARTIAL, PARTIAL_PRINTED),
    (NAMED, NAMED_PRINTED),
    (NAMED_PRINTED, NAMED_PRINTED),
];

fn assert_printed(rt: &impl Abort, alloc: Global, job: &Job, text: &str) -> Result<(), Fail> {
    assert!(rt; job.scripts.fits(job.lang.alphabet()));
    assert!(rt;
        print_job(alloc, job)?.as_slice() == text.as_bytes(),
        "{text}"
    );
    Ok(())
}

#[test]
fn jobs_that_are_read_are_printed(rt: HostRuntime) -> Result<(), Fail> {
    for (document, text) in &PRINTED {
        let job = job_of(&rt, rt.alloc(), document.as_bytes());
        assert_printed(&rt, rt.alloc(), &job, text)?;
    }
    Ok(())
}

/// Runs of the scripts `a*2 c` and `b c`: the process, the letter, and how many times it stands.
static RUNS: [(usize, Letter, u32); 4] = [
    (0, Letter(0), 2),
    (0, Letter(2), 1),
    (1, Letter(1), 1),
    (1, Letter(2), 1),
];

fn two_scripts(rt: &impl Abort, alloc: Global, alphabet: &Alphabet) -> Result<Scripts, Fail> {
    let mut scripts = Scripts::empty(alloc, 2)?;
    for (p, a, count) in &RUNS {
        assert!(rt; *p < scripts.processes() && *p < alphabet.processes());
        assert!(rt; (a.0 as usize) < alphabet.letters() && 0 < *count);
        scripts.add_run(alphabet, *p, *a, *count)?;
    }
    Ok(scripts)
}

const NAMED_BY_CALLS: &str = "zla 2\nprocesses left right\nletter a left\nletter b right\n\
    letter c left right\nstates 2\nstart 0\naccept 0\nrow 0 a 1\nrow 0 b 0\nrow 0 c 0\n\
    row 1 a 0\nrow 1 b 1\nrow 1 c 1\nscript left a*2 c\nscript right b c\nend\n";

/// A job of a language with names.
fn named_job(rt: &impl Abort, alloc: Global) -> Result<Job, Fail> {
    let job = job_of(rt, alloc, TWO.as_bytes());
    let lang = named(rt, alloc, &job.lang)?;
    let scripts = two_scripts(rt, alloc, lang.alphabet())?;
    Ok(Job { lang, scripts })
}

#[test]
fn a_language_with_names_is_printed(rt: HostRuntime) -> Result<(), Fail> {
    let job = named_job(&rt, rt.alloc())?;
    assert_printed(&rt, rt.alloc(), &job, NAMED_BY_CALLS)
}
