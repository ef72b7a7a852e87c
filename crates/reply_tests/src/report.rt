//! Texts of answers, of languages, of refusals and of local states.

ghost use Rattle.std.specs.Prelude.{◌≡◌, ◌↔◌, false, IsTrue, is_some};

use samples::{A, B, C, RING, TWO_PROCESSES, alphabet_of, scripts_of, to_and_fro, word_of};
use std::alloc::Global;
use std::process::Abort;
use std::test::Fail;
use za_alpha::{Alphabet, Letter, OutOfMemory};
use za_dfa::Closed;
use za_min::Hope;
use za_report::{answer_text, check_text, locals_text, open_text, refused_text};
use za_script::{Answer, Woven, weave};
use za_table::solo;
use za_text::{Kind, Names, TextFault};

/// Stuck where scripts are left, else this answer.
fn answer_by(woven: &Woven, accepts: bool) -> Answer
    ensures { result ≡ Answer.Stuck ↔ woven.now.whole ≡ false }
{
    if !woven.whole() {
        Answer::Stuck
    } else if accepts {
        Answer::Accept
    } else {
        Answer::Reject
    }
}

/// This hope where the answer is stuck, else none.
fn hope_with(answer: Answer, hope: Hope) -> Option<Hope>
    ensures { IsTrue (is_some result) ↔ answer ≡ Answer.Stuck }
{
    if let Answer::Stuck = answer {
        Some(hope)
    } else {
        None
    }
}

/// Letters, each with its process, whether the woven word is accepted, the hope of scripts that are stuck, the rows of the
/// cache, and the text of the answer.
type Case = (&'static [(usize, Letter)], bool, Hope, u8, &'static str);

fn text_for(
    rt: &impl Abort,
    alloc: Global,
    alphabet: &Alphabet,
    case: &Case,
) -> Result<Vec<u8>, Fail> {
    let (letters, accepts, hope, cache, _) = *case;
    let scripts = scripts_of(alloc, alphabet, letters)?;
    let woven = weave(alloc, alphabet, &scripts)?;
    let answer = answer_by(&woven, accepts);
    let hope = hope_with(answer, hope);
    let names = Names::numbers(alloc, alphabet.processes())?;
    assert!(rt; names.len() == alphabet.processes());
    Ok(answer_text(
        alloc, &names, alphabet, &scripts, &woven, answer, hope, cache,
    )?)
}

/// The scripts `a c a` and `b c`.
static ALL: [(usize, Letter); 5] = [(0, A), (0, C), (0, A), (1, B), (1, C)];

static OF_TWO: [Case; 4] = [
    (
        &[(0, A), (0, C), (0, A), (1, B), (1, C)],
        true,
        Hope::Dead,
        0,
        "accept\nfired 4\nbound labels 27 records 3\n",
    ),
    (
        &[(0, A), (0, C), (0, A), (1, B), (1, C)],
        false,
        Hope::Dead,
        4,
        "reject\nfired 4\nbound labels 27 records 15\n",
    ),
    (
        &[(0, C), (0, A), (1, B)],
        true,
        Hope::Alive,
        0,
        "stuck\nfired 1\nbound labels 27 records 3\nprocess 0 fired 0 waits c\n\
        process 1 fired 1 ended\ntrace b\nalive\n",
    ),
    (
        &[(0, C), (0, A), (1, B)],
        true,
        Hope::Dead,
        0,
        "stuck\nfired 1\nbound labels 27 records 3\nprocess 0 fired 0 waits c\n\
        process 1 fired 1 ended\ntrace b\ndead\n",
    ),
];

/// Each of three processes waits for its neighbour in a ring.
static OF_RING: Case = (
    &[(0, A), (0, C), (1, B), (1, A), (2, C), (2, B)],
    true,
    Hope::Alive,
    0,
    "stuck\nfired 0\nbound labels 84 records 4\nprocess 0 fired 0 waits x\n\
    process 1 fired 0 waits y\nprocess 2 fired 0 waits z\ntrace\nalive\n",
);

fn assert_answer(
    rt: &impl Abort,
    alloc: Global,
    alphabet: &Alphabet,
    case: &Case,
) -> Result<(), Fail> {
    let text = text_for(rt, alloc, alphabet, case)?;
    assert_eq!(rt; text.as_slice(), case.4.as_bytes());
    Ok(())
}

#[test]
fn texts_of_answers(rt: HostRuntime) -> Result<(), Fail> {
    let two = alphabet_of(rt.alloc(), 2, &TWO_PROCESSES)?;
    for case in &OF_TWO {
        assert_answer(&rt, rt.alloc(), &two, case)?;
    }
    let ring = alphabet_of(rt.alloc(), 3, &RING)?;
    assert_answer(&rt, rt.alloc(), &ring, &OF_RING)
}

#[test]
fn texts_of_closed_languages(rt: HostRuntime) -> Result<(), Fail> {
    let alphabet = alphabet_of(rt.alloc(), 2, &TWO_PROCESSES)?;
    let text = check_text(rt.alloc(), &alphabet, 8, 16)?;
    assert!(rt; text.as_slice() == b"closed\nstates 8\nbound labels 27 records 51\n".as_slice());
    Ok(())
}

/// The text of an open language, which two words show.
fn open_of(
    rt: &impl Abort,
    alloc: Global,
    alphabet: &Alphabet,
    left: &[u8],
    right: &[u8],
) -> Result<Vec<u8>, OutOfMemory> {
    let left = word_of(alloc, left)?;
    let right = word_of(alloc, right)?;
    assert!(rt; alphabet.has_word(&left) && alphabet.has_word(&right));
    open_text(alloc, alphabet, &left, &right)
}

#[test]
fn texts_of_open_languages(rt: HostRuntime) -> Result<(), Fail> {
    let alphabet = alphabet_of(rt.alloc(), 2, &TWO_PROCESSES)?;
    let text = open_of(&rt, rt.alloc(), &alphabet, &[2, 0, 1, 2], &[2, 1, 0, 2])?;
    assert!(rt; text.as_slice() == b"not closed\nleft c a b c\nright c b a c\n".as_slice());
    Ok(())
}

/// A fault, and the text of the refusal.
static REFUSALS: [(TextFault, &str); 2] = [
    (
        TextFault {
            line: 15,
            kind: Kind::NotOfProcess,
        },
        "refused line 15: letter not of this process\n",
    ),
    (
        TextFault {
            line: 1048577,
            kind: Kind::NoEnd,
        },
        "refused line 1048577: end is missing\n",
    ),
];

#[test]
fn texts_of_refusals(rt: HostRuntime) -> Result<(), Fail> {
    for (fault, wanted) in &REFUSALS {
        let text = refused_text(rt.alloc(), fault)?;
        assert!(rt; text.as_slice() == wanted.as_bytes(), "{wanted}");
    }
    Ok(())
}

/// The local states after the run of scripts.
fn locals_of(
    rt: &impl Abort,
    alloc: Global,
    closed: &Closed,
    letters: &[(usize, Letter)],
) -> Result<Vec<u8>, Fail> {
    let scripts = scripts_of(alloc, closed.dfa().alphabet(), letters)?;
    assert!(rt; scripts.fits(closed.dfa().alphabet()));
    let ended = solo(alloc, closed.copy()?, scripts, 1)?;
    let text = locals_text(alloc, closed, &ended);
    drop(ended);
    Ok(text?)
}

#[test]
fn texts_of_local_states(rt: HostRuntime) -> Result<(), Fail> {
    let closed = to_and_fro(rt.alloc())?;
    let text = locals_of(&rt, rt.alloc(), &closed, &ALL)?;
    assert!(rt; text.as_slice() == b"p0 a.0 c.0 view 0\np1 c.0 c.0 view 1\n".as_slice());
    Ok(())
}
