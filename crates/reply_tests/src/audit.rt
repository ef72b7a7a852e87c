//! Verdicts on claims about runs.

ghost use Rattle.std.specs.Prelude.{IfOk};
ghost use Rattle.za_lang.specs.Answers.{data_of};
ghost use Rattle.za_lang.specs.Jobs.{IsJob};

use std::alloc::Global;
use std::test::Fail;
use za_alpha::Letter;
use za_audit::*;
use za_claim::{Audited, read_audited};
use za_closure::close;
use za_min::Hope;
use za_script::Answer;

/// Two processes with a letter each and one that they share. Words with an even number of `a` are
/// accepted.
const LANG: &str = "zla 1\nprocesses 2\nletter a 0\nletter b 1\nletter c 0 1\nstates 2\nstart 0\n\
    accept 0\nrow 0 a 1\nrow 0 b 0\nrow 0 c 0\nrow 1 a 0\nrow 1 b 1\nrow 1 c 1\n";

/// The same letters, in one state: `b` has no row, so no word with `b` is accepted.
const WITHOUT_B: &str =
    "zla 1\nprocesses 2\nletter a 0\nletter b 1\nletter c 0 1\nstates 1\nstart 0\n\
    accept 0\nrow 0 a 0\nrow 0 c 0\n";

const WHOLE: &str = "script 0 a c a\nscript 1 b c\nend\n";

const STUCK: &str = "script 0 c a\nscript 1 b\nend\n";

/// Reads a claim about the job of a language and scripts.
fn read(alloc: Global, lang: &str, scripts: &str, claim: &str) -> Result<Audited, Fail>
    ensures { IfOk result (λ a. IsJob (data_of a.job)) }
{
    let mut text = Vec::from_slice(alloc, lang.as_bytes())?;
    text.extend_from_slice(scripts.as_bytes())?;
    text.extend_from_slice(claim.as_bytes())?;
    if text.len() > 1000 {
        Err("too long")?;
    }
    match read_audited(alloc, text.as_slice()) {
        Ok(audited) => Ok(audited),
        Err(fault) => Err(Fail::from(fault)),
    }
}

/// The verdict on a claim about the job of a language and scripts.
fn verdict(alloc: Global, lang: &str, scripts: &str, claim: &str) -> Result<Audit, Fail> {
    let audited = read(alloc, lang, scripts, claim)?;
    let dfa = audited.job.lang.dfa()?;
    match close(alloc, &dfa) {
        Ok(_closed) => Ok(audit(alloc, &audited.job, &audited.claim)?),
        Err(_open) => Err(Fail::from("not closed")),
    }
}

/// A language, scripts, a claim, and the verdict on it.
type Case = (&'static str, &'static str, &'static str, Audit);

const WRONG: Audit = Audit::WrongAnswer {
    defined: Answer::Accept,
};

const LEFT: Audit = Audit::NotMaximal { letter: Letter(0) };

static CASES: [Case; 10] = [
    (
        LANG,
        WHOLE,
        "claim accept\nfire b.0\nfire a.0\nfire c.0\nfire a.0\nend\n",
        Audit::Yes { hope: None },
    ),
    (
        LANG,
        WHOLE,
        "claim reject\nfire b.0\nfire a.0\nfire c.0\nfire a.0\nend\n",
        WRONG,
    ),
    (
        LANG,
        WHOLE,
        "claim stuck\nfire a.0\nfire b.0\nfire c.0\nfire a.0\nend\n",
        WRONG,
    ),
    (
        LANG,
        STUCK,
        "claim stuck\nfire b.0\nend\n",
        Audit::Yes {
            hope: Some(Hope::Alive),
        },
    ),
    (
        WITHOUT_B,
        STUCK,
        "claim stuck\nfire b.0\nend\n",
        Audit::Yes {
            hope: Some(Hope::Dead),
        },
    ),
    (
        LANG,
        WHOLE,
        "claim accept\nfire b.0\nfire a.0\nfire c.0\nfire a.1\nend\n",
        Audit::BadLabel { at: 3 },
    ),
    (
        LANG,
        WHOLE,
        "claim accept\nfire c.0\nend\n",
        Audit::BadLetter { at: 0 },
    ),
    (
        LANG,
        WHOLE,
        "claim accept\nfire a.0\nfire a.1\nend\n",
        Audit::BadLetter { at: 1 },
    ),
    (
        LANG,
        WHOLE,
        "claim accept\nfire a.0\nfire b.0\nfire c.0\nend\n",
        LEFT,
    ),
    (LANG, WHOLE, "claim reject\nend\n", LEFT),
];

#[test]
fn verdicts_on_claims(rt: HostRuntime) -> Result<(), Fail> {
    for (lang, scripts, claim, wanted) in &CASES {
        assert_eq!(rt; verdict(rt.alloc(), lang, scripts, claim)?, *wanted);
    }
    Ok(())
}
