//! Scripts, and the answer to them.

use crate::common::{two_processes, without_b};
use callers::scripts::{answer, repeated};
use std::alloc::Global;
use std::process::Abort;
use std::test::Fail;
use za_alpha::{Alphabet, Letter};
use za_dfa::Closed;
use za_script::{Answer, ScriptFault, Scripts};

fn add_letters(
    rt: &impl Abort,
    alphabet: &Alphabet,
    scripts: &mut Scripts,
    p: usize,
    letters: &[u8],
) -> Result<(), ScriptFault> {
    for a in letters {
        assert!(rt; p < scripts.processes() && p < alphabet.processes());
        assert!(rt; (*a as usize) < alphabet.letters());
        scripts.add(alphabet, p, Letter(*a))?;
    }
    Ok(())
}

/// The scripts of two processes, and the answer to them.
type Scripted = (&'static [u8], &'static [u8], Answer);

static ANSWERS: [Scripted; 3] = [
    (&[0, 2], &[2], Answer::Accept),
    (&[0, 2], &[1, 2], Answer::Reject),
    (&[2], &[], Answer::Stuck),
];

fn assert_answer(
    rt: &impl Abort,
    alloc: Global,
    closed: &Closed,
    case: &Scripted,
) -> Result<(), Fail> {
    let (first, second, said) = *case;
    let alphabet = closed.dfa().alphabet();
    let mut scripts = Scripts::empty(alloc, 2)?;
    add_letters(rt, alphabet, &mut scripts, 0, first)?;
    add_letters(rt, alphabet, &mut scripts, 1, second)?;
    assert!(rt; scripts.fits(alphabet));
    assert_eq!(rt; answer(alloc, closed, &scripts)?, said);
    Ok(())
}

#[test]
fn answers_to_scripts(rt: HostRuntime) -> Result<(), Fail> {
    let closed = without_b(&rt, rt.alloc())?;
    for case in &ANSWERS {
        assert_answer(&rt, rt.alloc(), &closed, case)?;
    }
    Ok(())
}

fn repeated_total(
    rt: &impl Abort,
    alloc: Global,
    alphabet: &Alphabet,
    p: usize,
    a: u8,
    count: u32,
) -> Result<usize, ScriptFault> {
    assert!(rt; p < alphabet.processes() && (a as usize) < alphabet.letters() && 0 < count);
    Ok(repeated(alloc, alphabet, p, Letter(a), count)?.total())
}

#[test]
fn one_letter_many_times(rt: HostRuntime) -> Result<(), Fail> {
    let alphabet = two_processes(rt.alloc())?;
    assert_eq!(rt;
        repeated_total(&rt, rt.alloc(), &alphabet, 0, 2, 65536),
        Ok(65536)
    );
    assert_eq!(rt;
        repeated_total(&rt, rt.alloc(), &alphabet, 0, 2, 65537),
        Err(ScriptFault::Full)
    );
    let foreign = ScriptFault::Foreign {
        process: 0,
        letter: Letter(1),
    };
    assert_eq!(rt;
        repeated_total(&rt, rt.alloc(), &alphabet, 0, 1, 2),
        Err(foreign)
    );
    Ok(())
}
