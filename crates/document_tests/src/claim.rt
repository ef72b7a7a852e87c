//! Claims about jobs: what is read and printed, where one is refused, and how many events it has at most.

ghost use Rattle.std.specs.Prelude.{◌≡◌, IfOk};
ghost use Rattle.za_claim.specs.Claims.{AreClaimedEvents};

use crate::common::{TWO, job_of};
use samples::A;
use std::alloc::{AllocError, Global};
use std::process::Abort;
use std::test::Fail;
use za_claim::{Audited, Claim, Event, MOST_EVENTS, print_claim, read_audited};
use za_lang::JobFault;
use za_script::Answer;
use za_text::{Kind, TextFault};

/// Version 2 of the document.
const NAMED: &str = "zla 2\n# two sides\nprocesses left right\nletter a left\nletter b right\n\
    letter c left right\nstates 2\nstart 0\naccept 0\nrow 0 a 1\nrow 0 b 0\nrow 0 c 0\n\
    row 1 a 0\nrow 1 b 1\nrow 1 c 1\nscript left a c a\nscript right b c\nend\n";

fn joined(alloc: Global, job: &str, claim: &[u8]) -> Result<Vec<u8>, AllocError> {
    let mut text = Vec::from_slice(alloc, job.as_bytes())?;
    text.extend_from_slice(claim)?;
    Ok(text)
}

/// Reads a claim about a job.
fn read(
    rt: &impl Abort,
    alloc: Global,
    job: &str,
    claim: &[u8],
) -> Result<Result<Audited, JobFault>, AllocError>
    ensures { IfOk result (λ read.
        IfOk read (λ a. AreClaimedEvents a.job.lang.table.alphabet a.claim.events)) }
{
    let text = joined(alloc, job, claim)?;
    assert!(rt; text.len() < 4294967295);
    Ok(read_audited(alloc, &text))
}

const CLAIM: &str = "claim accept\nfire b.0\nfire a.0\nfire c.0\nfire a.0\nend\n";

/// Claims, and their printed forms.
static PRINTED: [(&str, &str); 3] = [
    (CLAIM, CLAIM),
    ("claim stuck\nend\n", "claim stuck\nend\n"),
    (
        "\n\tclaim  reject\n \nfire\tc.8 \nfire a.1\nend\n\n",
        "claim reject\nfire c.8\nfire a.1\nend\n",
    ),
];

/// The printed form of a claim about the job.
fn printed(rt: &impl Abort, alloc: Global, claim: &str) -> Result<Vec<u8>, Fail> {
    let audited = read(rt, alloc, TWO, claim.as_bytes())??;
    let claim = &audited.claim;
    let alphabet = audited.job.lang.alphabet();
    Ok(print_claim(alloc, alphabet, claim.answer(), claim.events())?)
}

#[test]
fn claims_that_are_read_are_printed(rt: HostRuntime) -> Result<(), Fail> {
    for (claim, form) in &PRINTED {
        let text = printed(&rt, rt.alloc(), claim)?;
        assert!(rt; text.as_slice() == form.as_bytes(), "{claim}");
    }
    Ok(())
}

fn fires_a(label: u16) -> Event
    ensures { result.letter ≡ A }
{
    Event { letter: A, label }
}

fn printed_again(rt: &impl Abort, alloc: Global) -> Result<Vec<u8>, Fail> {
    let job = job_of(rt, alloc, TWO.as_bytes());
    let alphabet = job.lang.alphabet();
    assert!(rt; 0 < alphabet.letters());
    let fired = [fires_a(0), fires_a(1), fires_a(0)];
    Ok(print_claim(alloc, alphabet, Answer::Reject, &fired)?)
}

#[test]
fn labels_are_used_again(rt: HostRuntime) -> Result<(), Fail> {
    let text = printed_again(&rt, rt.alloc())?;
    assert!(rt; text.as_slice() == b"claim reject\nfire a.0\nfire a.1\nfire a.0\nend\n".as_slice());
    Ok(())
}

#[test]
fn a_claim_without_events(rt: HostRuntime) {
    let claim = Claim::new(Answer::Stuck, Vec::new(rt.alloc()));
    assert!(rt; claim.answer() == Answer::Stuck && claim.events().is_empty());
}

/// How many events a claim has, or where and why it is refused.
fn events_of(
    rt: &impl Abort,
    alloc: Global,
    job: &str,
    claim: &[u8],
) -> Result<Result<usize, JobFault>, AllocError> {
    Ok(read(rt, alloc, job, claim)?.map(|audited| audited.claim.events().len()))
}

/// Claims, each with the line and the kind of its refusal.
static REFUSED: [(&str, u32, Kind); 16] = [
    ("", 18, Kind::NoEnd),
    ("fire a.0\n", 18, Kind::OutOfOrder),
    ("claim yes\n", 18, Kind::NoSuchAnswer),
    ("claim accept stuck\n", 18, Kind::WordCount),
    ("claim accept\nclaim accept\n", 19, Kind::OutOfOrder),
    ("claim accept\nfire a\n", 19, Kind::BadEvent),
    ("claim accept\nfire d.0\n", 19, Kind::NoSuchLetter),
    ("claim accept\nfire .0\n", 19, Kind::NoSuchLetter),
    ("claim accept\nfire a.\n", 19, Kind::BadNumber),
    ("claim accept\nfire a.0.0\n", 19, Kind::BadNumber),
    ("claim accept\nfire a.9\n", 19, Kind::NoSuchLabel),
    ("claim accept\nfire a.8 \nfire a.0\r\n", 20, Kind::BadByte),
    ("claim accept\nfire a.8", 19, Kind::Cut),
    ("claim accept\nend a\n", 19, Kind::WordCount),
    ("claim accept\nend\n\nend\n", 21, Kind::Trailing),
    ("claim accept\nfire a.0\n\n", 21, Kind::NoEnd),
];

fn refused(line: u32, kind: Kind) -> Result<usize, JobFault> {
    Err(JobFault::Text(TextFault { line, kind }))
}

#[test]
fn claims_are_refused_at_a_line(rt: HostRuntime) -> Result<(), Fail> {
    for (claim, line, kind) in &REFUSED {
        let seen = events_of(&rt, rt.alloc(), TWO, claim.as_bytes())?;
        assert_eq!(rt; seen, refused(*line, *kind), "{claim}");
    }
    Ok(())
}

static COMMENTED: &[u8] = b"# of the run\nclaim accept\n\t#fire\nfire b.0\nend\n# the end\n";

#[test]
fn claims_have_comments_in_version_2(rt: HostRuntime) -> Result<(), Fail> {
    assert_eq!(rt; events_of(&rt, rt.alloc(), NAMED, COMMENTED)?, Ok(1));
    let seen = events_of(&rt, rt.alloc(), TWO, COMMENTED)?;
    assert_eq!(rt; seen, refused(18, Kind::OutOfOrder));
    Ok(())
}

/// A claim of so many events.
fn claim_of(alloc: Global, events: usize) -> Result<Vec<u8>, AllocError> {
    let mut text = Vec::from_slice(alloc, b"claim accept\n")?;
    for _ in 0..events {
        text.extend_from_slice(b"fire a.0\n")?;
    }
    text.extend_from_slice(b"end\n")?;
    Ok(text)
}

#[test]
fn claims_have_at_most_65536_events(rt: HostRuntime) -> Result<(), Fail> {
    let most = claim_of(rt.alloc(), MOST_EVENTS)?;
    assert_eq!(rt; events_of(&rt, rt.alloc(), TWO, &most)?, Ok(65536));
    let more = claim_of(rt.alloc(), 65537)?;
    let seen = events_of(&rt, rt.alloc(), TWO, &more)?;
    assert_eq!(rt; seen, refused(65555, Kind::ClaimFull));
    Ok(())
}
