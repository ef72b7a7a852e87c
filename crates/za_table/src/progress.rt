//! The lists of a table.

ghost use Rattle.std.specs.Prelude.{◌≡◌, ℕ, ◌<◌, length, replicate, slice_index, vec_capacity, IfOk, IsTrue, None};
ghost use Rattle.za_alpha.specs.Words.{has};
ghost use Rattle.za_alpha.specs.Procs.{members};
ghost use Rattle.za_table.specs.Private.Steps.{IsStarted, HasAppended};

use crate::lists::tally;
use std::alloc::Global;
use za_alpha::{Letter, OutOfMemory, Procs};

/// The journal with the labels of its events; and for each process whether it has arrived, whether it
/// has ended, how many events it has, and the place of the latest.
#[derive(Drop)]
pub(crate) struct Progress {
    pub(crate) journal: Vec<Letter>,
    pub(crate) labels: Vec<u16>,
    pub(crate) arrived: Vec<bool>,
    pub(crate) ended: Vec<bool>,
    pub(crate) counts: Vec<usize>,
    pub(crate) latest: Vec<Option<usize>>,
}

impl Progress {
    /// No event yet, and room for so many.
    pub(crate) fn start(
        alloc: Global,
        processes: usize,
        events: usize,
    ) -> Result<Progress, OutOfMemory>
        ensures { IfOk result (IsStarted processes events) }
    {
        let journal = Vec::with_capacity(alloc, events)?;
        let labels = Vec::with_capacity(alloc, events)?;
        let arrived = vec![in alloc; false; processes]?;
        let ended = vec![in alloc; false; processes]?;
        let counts = vec![in alloc; 0; processes]?;
        let latest = nones(alloc, processes)?;
        Ok(Progress {
            journal,
            labels,
            arrived,
            ended,
            counts,
            latest,
        })
    }

    /// Appends an event of these processes with its label, and answers its place.
    pub(crate) fn append(&mut self, a: Letter, label: u16, processes: Procs) -> usize
        requires journal { length self.old.journal.items < vec_capacity self.old.journal }
        requires labels { length self.old.labels.items < vec_capacity self.old.labels }
        requires within { (p : ℕ) → IsTrue (has (members processes) p) → p < length self.old.counts.items }
        requires counts { (p : ℕ) → IsTrue (has (members processes) p) →
            slice_index self.old.counts.items p < usize.MAX }
        requires arrived { length self.old.arrived.items ≡ length self.old.counts.items }
        requires latest { length self.old.latest.items ≡ length self.old.counts.items }
        ensures appended { HasAppended self.old self.new a.0 label (members processes) }
        ensures at { result ≡ length self.old.journal.items }
    {
        let at = self.journal.len();
        tally(
            &mut self.counts,
            &mut self.arrived,
            &mut self.latest,
            processes,
            at,
        );
        self.journal.push_reserved(a);
        self.labels.push_reserved(label);
        at
    }
}

/// So many times `None`.
pub(crate) fn nones(alloc: Global, count: usize) -> Result<Vec<Option<usize>>, OutOfMemory>
    ensures { IfOk result (λ v. v.items ≡ replicate count None) }
{
    let mut items = Vec::with_capacity(alloc, count)?;
    for _ in 0..count {
        items.push(None)?;
    }
    Ok(items)
}
