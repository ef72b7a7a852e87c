ghost use Rattle.std.specs.Prelude.{◌≡◌, ◌<◌, length, IfSome, option_and_then};
ghost use Rattle.za_alpha.specs.Limits.{most_processes};
ghost use Rattle.za_views.specs.Private.Events.{known};

use za_alpha::{Letter, MOST_PROCESSES};

/// For each process the position of one of its events, or none.
pub(crate) type Row = [Option<usize>; MOST_PROCESSES];

/// An event: its letter, its label, and for each process its latest event in the past of this one.
#[derive(Clone, Copy, Debug)]
pub(crate) struct Event {
    pub(crate) letter: Letter,
    pub(crate) label: u16,
    pub(crate) past: Row,
}

/// The latest event of process `q` in the past of an event, and none in that of none.
pub(crate) fn latest_in(events: &[Event], event: Option<usize>, q: usize) -> Option<usize>
    requires within { IfSome event (λ e. e < length events.now) }
    requires process { q < most_processes }
    ensures { result ≡ option_and_then (λ e. known events.now e q) event }
{
    events[event?].past[q]
}
