//! Lists with an entry for each process, and for each letter.

ghost use Rattle.std.specs.Prelude.{◌≡◌, ◌<◌, ◌+◌, ◌&&◌, ◌==◌, ℕ, IfOk, IsTrue, IsFalse, not, length, slice_index};
ghost use Rattle.za_alpha.specs.Words.{has};
ghost use Rattle.za_alpha.specs.Procs.{members};
ghost use Rattle.za_table.specs.Private.Steps.{HasTallied, AreLocated};

use std::alloc::Global;
use za_alpha::{Alphabet, Letter, OutOfMemory, Procs};

/// An event of these processes, at this place: each has one event more, has not arrived, and has this
/// as its latest event.
pub(crate) fn tally(
    counts: &mut [usize],
    arrived: &mut [bool],
    latest: &mut [Option<usize>],
    processes: Procs,
    at: usize,
)
    requires within { (p : ℕ) → IsTrue (has (members processes) p) → p < length counts.old }
    requires counts { (p : ℕ) → IsTrue (has (members processes) p) → slice_index counts.old p < usize.MAX }
    requires arrived { length arrived.old ≡ length counts.old }
    requires latest { length latest.old ≡ length counts.old }
    ensures { HasTallied
        (record { counts = counts.old; arrived = arrived.old; latest = latest.old })
        (record { counts = counts.new; arrived = arrived.new; latest = latest.new })
        (length counts.old) (members processes) at }
{
    let mut start = 0;
    'members: while let Some(p) = processes.least_from(start) {
        counts[p] += 1;
        arrived[p] = false;
        latest[p] = Some(at);
        start = p + 1;
    }
}

/// For each letter its processes.
pub(crate) fn missing_at_first(
    alloc: Global,
    alphabet: &Alphabet,
) -> Result<Vec<Procs>, OutOfMemory>
    ensures { IfOk result (λ v. AreLocated alphabet.now (length alphabet.now.letters) v.items) }
{
    let mut missing = Vec::with_capacity(alloc, alphabet.letters())?;
    for a in 0..alphabet.letters() {
        missing.push_reserved(alphabet.loc(Letter(a as u8)));
    }
    Ok(missing)
}

/// The processes of a set but for one.
pub(crate) fn without(set: Procs, p: usize) -> Procs
    requires { p < 16 }
    ensures { (q : ℕ) → has (members result) q ≡ (has (members set) q && not (q == p)) }
{
    Procs(set.0 & !(1 << p))
}
