ghost use Rattle.std.specs.Prelude.{IfOk};
ghost use Rattle.za_lang.specs.Answers.{data_of};
ghost use Rattle.za_query.specs.Judged.{IsJudgement};

use crate::query::Said;
use std::alloc::Global;
use za_alpha::OutOfMemory;
use za_closure::{Open, close};
use za_dfa::Closed;
use za_lang::Job;
use za_report::open_text;

/// What the language of a job comes to.
#[derive(Debug, Drop)]
pub enum Judged {
    /// It isn't trace-closed: the refusal that says so.
    Open(Said),
    /// It is, and this is its minimal automaton.
    Closed(Closed),
}

/// What the language of a job comes to: whether it is closed under trace equivalence (Zielonka 1987).
///
/// The language is that of the job's table, where a missing row entry leads to a state from which nothing is
/// accepted. Where it is closed, its minimal automaton is answered. Where it isn't, the refusal is answered that is
/// due for the job whatever is asked of it: status 5, and the text of two equivalent words of which one is accepted,
/// those of the least break, the left word first. Want of memory is the one free answer, and
/// the job is unchanged in any case.
pub fn judge(alloc: Global, job: &Job) -> Result<Judged, OutOfMemory>
    ensures { IfOk result (IsJudgement (data_of job.now)) }
{
    let dfa = job.lang.dfa()?;
    match close(alloc, &dfa) {
        Ok(closed) => Ok(Judged::Closed(closed)),
        Err(open) => match open {
            Open::NotClosed { left, right } => Ok(Judged::Open(Said {
                status: 5,
                text: open_text(alloc, job.lang.alphabet(), &left, &right)?,
            })),
            Open::OutOfMemory => Err(OutOfMemory),
        },
    }
}
