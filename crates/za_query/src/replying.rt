ghost use Rattle.std.specs.Prelude.{◌<◌, ◌≡◌, ℕ, IfOk, length};
ghost use Rattle.za_query.specs.declared.query.Query.TheVariants.{Build, News, Freeze};
ghost use Rattle.za_query.specs.Replies.{IsReply};
ghost use Rattle.za_query.specs.Private.Replying.{IsRefusalOf};

use crate::judging::{Judged, judge};
use crate::query::{Query, Said};
use std::alloc::Global;
use za_alpha::OutOfMemory;
use za_expr::build;
use za_freeze::freeze;
use za_lang::{JobFault, read_job};
use za_news::{news_text, read_news};
use za_report::refused_text;

/// The refusal of a text.
fn refused(alloc: Global, fault: JobFault) -> Result<Said, OutOfMemory>
    ensures { IfOk result (IsRefusalOf fault) }
{
    match fault {
        JobFault::Text(fault) => Ok(Said {
            status: 4,
            text: refused_text(alloc, &fault)?,
        }),
        JobFault::OutOfMemory => Err(OutOfMemory),
    }
}

/// The job that a document says by its expression.
fn built(alloc: Global, bytes: &[u8]) -> Result<Said, OutOfMemory>
    requires { length bytes.now < 4294967295 }
    ensures { IfOk result (λ said. IsReply Build bytes.now said.status said.text.items) }
{
    match build(alloc, bytes) {
        Ok(text) => Ok(Said { status: 0, text }),
        Err(fault) => refused(alloc, fault),
    }
}

/// The news of a job with readings.
fn news(alloc: Global, bytes: &[u8]) -> Result<Said, OutOfMemory>
    requires { length bytes.now < 4294967295 }
    ensures { IfOk result (λ said. IsReply News bytes.now said.status said.text.items) }
{
    match read_news(alloc, bytes) {
        Ok(news) => match judge(alloc, &news.job)? {
            Judged::Open(refusal) => Ok(refusal),
            Judged::Closed(_closed) => Ok(Said {
                status: 0,
                text: news_text(alloc, &news)?,
            }),
        },
        Err(fault) => refused(alloc, fault),
    }
}

/// The frozen text of a job.
fn frozen(alloc: Global, cut: u32, bytes: &[u8]) -> Result<Said, OutOfMemory>
    requires { length bytes.now < 4294967295 }
    ensures { IfOk result (λ said. IsReply (Freeze cut) bytes.now said.status said.text.items) }
{
    match read_job(alloc, bytes) {
        Ok(job) => match judge(alloc, &job)? {
            Judged::Open(said) => Ok(said),
            Judged::Closed(closed) => Ok(Said {
                status: 0,
                text: freeze(alloc, &job, &closed, cut)?,
            }),
        },
        Err(fault) => refused(alloc, fault),
    }
}

/// What is replied to a text of fewer than 4,294,967,295 bytes.
///
/// A text in which a line is wrong is refused with status 4, at its first wrong line and with the kind of the first of
/// this line's tests that fails. For news and a frozen text its language has to be closed under trace equivalence: any
/// other is refused with status 5, by two equivalent words of which one is accepted, the least. Else the status is 0
/// with what is asked for, by the weave of the scripts. Want of memory is the one free answer.
pub fn reply(alloc: Global, query: Query, bytes: &[u8]) -> Result<Said, OutOfMemory>
    requires { length bytes.now < 4294967295 }
    ensures { IfOk result (λ said. IsReply query bytes.now said.status said.text.items) }
{
    match query {
        Query::Build => built(alloc, bytes),
        Query::News => news(alloc, bytes),
        Query::Freeze { cut } => frozen(alloc, cut, bytes),
    }
}
