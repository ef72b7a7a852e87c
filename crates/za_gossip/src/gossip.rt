ghost use Rattle.std.specs.Prelude.{◌≡◌, ℕ, ◌+◌, ◌*◌, ◌==◌, ◌||◌, ◌<◌, ◌≤◌, List, [], length, slice_index, IfOk};
ghost use Rattle.std.specs.List.{range_with_len, list_any};
ghost use Rattle.za_ids.specs.Numbers.{event_numbers};
ghost use Rattle.za_gossip.specs.Rows.{rows_after, blank_rows, block_at, AreShaped};
ghost use Rattle.za_gossip.specs.Updates.{knows_number};
ghost use Rattle.za_gossip.specs.Private.Levels.{level_of};

use std::alloc::Global;
use std::marker::Model;
use za_alpha::OutOfMemory;
use za_ids::EventId;

/// The number of no event.
const NO_EVENT: EventId = EventId(0);

/// What a process keeps of the events that it knows, for `n` processes: the numbers of its `n`
/// primary, `n^2` secondary and `n^3` tertiary entries (Mukund and Sohoni 1997), seen by contracts
/// as three lists of numbers. The primary entry for `q` is the latest event of `q` that it knows.
/// The secondary entry for `q` and `r` is the latest event of `r` in the past of that one, and the
/// tertiary entry for `q`, `r` and `s` the latest event of `s` in the past of the secondary one.
#[derive(Debug, Drop)]
pub struct Gossip {
    pub(crate) primary: Vec<EventId>,
    pub(crate) secondary: Vec<EventId>,
    pub(crate) tertiary: Vec<EventId>,
}

impl Model for Gossip {
    ghost use Rattle.za_gossip.specs.Rows.{Rows};

    ghost Value = { Rows };

    ghost use Rattle.za_gossip.specs.Private.Inside.{rows_in, AreShapedInside};

    ghost view = { rows_in };

    ghost invariant = { AreShapedInside };
}

/// One of the three rows.
#[derive(Clone, Copy, Debug)]
pub(crate) enum Level {
    Primary,
    Secondary,
    Tertiary,
}

impl Gossip {
    /// What each of `n` processes, at most 16, keeps before any event: 0 everywhere.
    pub fn blank(alloc: Global, n: usize) -> Result<Gossip, OutOfMemory>
        requires { n ≤ 16 }
        ensures rows { IfOk result (λ g. g ≡ blank_rows n) }
        ensures opening { IfOk result (λ g. (loc : ℕ → List ℕ) (p : ℕ) → g ≡ rows_after loc n [] p) }
    {
        Ok(Gossip {
            primary: vec![in alloc; NO_EVENT; n]?,
            secondary: vec![in alloc; NO_EVENT; n * n]?,
            tertiary: vec![in alloc; NO_EVENT; n * n * n]?,
        })
    }

    /// The numbers of the primary entries, by process.
    pub fn primary(&self) -> &[EventId]
        ensures value { event_numbers result.now ≡ self.now.primary }
        ensures shaped { AreShaped self.now }
    {
        self.primary.as_slice()
    }

    /// The numbers of the secondary entries for `q`, by process.
    pub fn secondary(&self, q: usize) -> &[EventId]
        requires { q < length self.now.primary }
        ensures { event_numbers result.now ≡ block_at (length self.now.primary) self.now.secondary q }
    {
        let n = self.primary.len();
        &self.secondary[q * n..(q + 1) * n]
    }

    /// The numbers of the tertiary entries: the one for `q`, `r` and `s` stands at
    /// `(q * n + r) * n + s`.
    pub fn tertiary(&self) -> &[EventId]
        ensures { event_numbers result.now ≡ self.now.tertiary }
    {
        self.tertiary.as_slice()
    }

    /// Takes over the numbers of another process, for as many processes.
    pub fn copy_from(&mut self, other: &Gossip)
        requires { length self.old.primary ≡ length other.now.primary }
        ensures { self.new ≡ other.now }
    {
        self.primary.copy_from_slice(other.primary.as_slice());
        self.secondary.copy_from_slice(other.secondary.as_slice());
        self.tertiary.copy_from_slice(other.tertiary.as_slice());
    }

    /// One of the three rows.
    pub(crate) fn entries(&self, level: Level) -> &[EventId]
        ensures value { event_numbers result.now ≡ level_of level self.now }
        ensures shaped { AreShaped self.now }
    {
        match level {
            Level::Primary => self.primary.as_slice(),
            Level::Secondary => self.secondary.as_slice(),
            Level::Tertiary => self.tertiary.as_slice(),
        }
    }

    /// Whether an event of `r` is none, or is among the secondary entries for `r`.
    pub(crate) fn knows(&self, n: usize, r: usize, event: EventId) -> bool
        requires shape { length self.now.primary ≡ n }
        requires process { r < n }
        ensures { result ≡ knows_number n (λ q r. slice_index self.now.secondary (q * n + r)) r event.0 }
    {
        event == NO_EVENT || has_for(n, self.secondary.as_slice(), r, event)
    }
}

/// Whether an event is among the secondary entries for `r`.
fn has_for(n: usize, secondary: &[EventId], r: usize, event: EventId) -> bool
    requires shape { length secondary.now ≡ n * n }
    requires process { r < n }
    ensures { let has_at = λ (q : ℕ). slice_index (event_numbers secondary.now) (q * n + r) == event.0 in
        result ≡ list_any has_at (range_with_len 0 n) }
{
    for q in 0..n {
        if secondary[q * n + r] == event {
            return true;
        }
    }
    false
}
