//! Audits of runs of generated jobs.

ghost use Rattle.std.specs.Prelude.{◌≡◌, ◌≤◌, length};

use std::alloc::Global;
use std::process::Abort;
use std::test::Fail;
use za_alpha::{Alphabet, OutOfMemory, Word};
use za_audit::{Audit, audit};
use za_claim::read_audited;
use za_closure::close;
use za_gen::job_of;
use za_lang::{JobFault, read_job};
use za_script::weave;
use za_views::Marks;
use za_write::push_event;

/// The claim that a word is accepted, with its labels by positions.
fn claim_of(
    rt: &impl Abort,
    alloc: Global,
    alphabet: &Alphabet,
    word: &Word,
) -> Result<Vec<u8>, OutOfMemory>
    requires { length word.now ≤ 65536 }
{
    let mut text = Vec::from_slice(alloc, b"claim accept\n")?;
    let mut marks = Marks::new(alloc, alphabet, word.len())?;
    for a in word.letters() {
        assert!(rt; (a.0 as usize) < alphabet.letters() && marks.len() < marks.room());
        let label = marks.push(*a);
        text.extend_from_slice(b"fire")?;
        push_event(&mut text, alphabet, *a, label)?;
        text.push(b'\n')?;
    }
    text.extend_from_slice(b"end\n")?;
    Ok(text)
}

/// The claim about the weave of a job.
fn claim_of_weave(rt: &impl Abort, alloc: Global, text: &[u8]) -> Result<Vec<u8>, OutOfMemory> {
    assert!(rt; text.len() < 4294967295);
    let job = match read_job(alloc, text) {
        Ok(job) => job,
        Err(fault) => {
            assert!(rt; fault == JobFault::OutOfMemory);
            return Err(OutOfMemory);
        }
    };
    let woven = weave(alloc, job.lang.alphabet(), &job.scripts)?;
    assert!(rt; woven.word().len() == 20000);
    claim_of(rt, alloc, job.lang.alphabet(), woven.word())
}

/// The verdict on an audited text whose job is trace-closed.
fn verdict(alloc: Global, text: &[u8]) -> Result<Audit, Fail> {
    if text.len() > 400000 {
        Err("too long")?;
    }
    let audited = match read_audited(alloc, text) {
        Ok(audited) => audited,
        Err(fault) => return Err(Fail::from(fault)),
    };
    let dfa = audited.job.lang.dfa()?;
    match close(alloc, &dfa) {
        Ok(_closed) => Ok(audit(alloc, &audited.job, &audited.claim)?),
        Err(_open) => Err(Fail::from("not closed")),
    }
}

#[test]
fn a_large_run_is_audited(rt: HostRuntime) -> Result<(), Fail> {
    let alloc = rt.alloc();
    let mut text = job_of(alloc, 7)?;
    let claim = claim_of_weave(&rt, alloc, text.as_slice())?;
    text.extend_from_slice(claim.as_slice())?;
    assert_eq!(rt; verdict(alloc, text.as_slice())?, Audit::Yes { hope: None });
    Ok(())
}
