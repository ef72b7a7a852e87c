ghost use Rattle.std.specs.Prelude.{◌≡◌, ℕ, ◌<◌, ◌≤◌, length, slice_index_or, Option, Some, None, IsTrue};
ghost use Rattle.std.specs.Prelude.{if◌then◌else◌};
ghost use Rattle.za_alpha.specs.Limits.{most_processes};
ghost use Rattle.za_alpha.specs.Words.{has};
ghost use Rattle.za_alpha.specs.Search.{least};
ghost use Rattle.za_alpha.specs.Procs.{members};
ghost use Rattle.za_views.specs.Private.Events.{AreEvents, entry, known_by};
ghost use Rattle.za_views.specs.Private.Newest.{later, IsNewest, IsJoined};

use crate::events::{Event, Row, latest_in};
use za_alpha::{MOST_PROCESSES, Procs};

/// The later of two events, either of which may be none.
fn later(a: Option<usize>, b: Option<usize>) -> Option<usize>
    ensures { result ≡ later a b }
{
    match (a, b) {
        (Some(i), Some(j)) => Some(i.max(j)),
        (Some(i), None) => Some(i),
        (None, b) => b,
    }
}

/// The newest event of process `q` that one of the processes knows. `own` has the last event of
/// each process.
fn newest(events: &[Event], own: &Row, takes: Procs, processes: usize, q: usize) -> Option<usize>
    requires few { processes ≤ most_processes }
    requires within { AreEvents (length events.now) processes own.now }
    requires process { q < most_processes }
    ensures { IsNewest (members takes) processes (known_by events.now own.now q) result }
{
    let mut best = None;
    for s in 0..processes {
        if takes.has(s) {
            best = later(best, latest_in(events, own[s], q));
        }
    }
    best
}

/// What the next event knows of process `q`: itself where `q` takes part, and else the newest event
/// that a participant knows.
fn joined(events: &[Event], own: &Row, takes: Procs, processes: usize, q: usize) -> Option<usize>
    requires few { processes ≤ most_processes }
    requires within { AreEvents (length events.now) processes own.now }
    requires process { q < most_processes }
    ensures { IsJoined (members takes) processes (length events.now) q (known_by events.now own.now q) result }
{
    if takes.has(q) {
        Some(events.len())
    } else {
        newest(events, own, takes, processes, q)
    }
}

/// What the next event knows of each process. `own` has the last event of each process.
pub(crate) fn past_of_next(events: &[Event], own: &Row, takes: Procs, processes: usize) -> Row
    requires few { processes ≤ most_processes }
    requires within { AreEvents (length events.now) processes own.now }
    ensures { (q : ℕ) → q < processes →
        IsJoined (members takes) processes (length events.now) q (known_by events.now own.now q) (entry result q) }
{
    let mut past = [None; MOST_PROCESSES];
    for q in 0..processes {
        past[q] = joined(events, own, takes, processes, q);
    }
    past
}

/// Makes the event at position `at` the last of each process that takes part in it.
pub(crate) fn take_part(own: &mut Row, takes: Procs, processes: usize, at: usize)
    requires { processes ≤ most_processes }
    ensures { (p : ℕ) → p < processes →
        entry own.new p ≡ (if has (members takes) p then Some at else entry own.old p) }
{
    for p in 0..processes {
        if takes.has(p) {
            own[p] = Some(at);
        }
    }
}

/// The last event of the least participant.
pub(crate) fn own_of_least(own: &Row, takes: Procs, processes: usize) -> Option<usize>
    requires few { processes ≤ most_processes }
    requires some { (p : ℕ) × (p < processes) × IsTrue (has (members takes) p) }
    ensures { result ≡ entry own.now (least (λ p. has (members takes) p) processes) }
{
    own[takes.least()?]
}
