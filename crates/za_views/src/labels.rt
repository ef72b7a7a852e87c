ghost use Rattle.std.specs.Prelude.{◌≡◌, ℕ, ◌<◌, ◌≤◌, ◌||◌, false, length, slice_index_or, IfSome};
ghost use Rattle.za_alpha.specs.Limits.{most_processes};
ghost use Rattle.za_ids.specs.Limits.{most_labels};
ghost use Rattle.za_views.specs.Private.Events.{AreLabelled};
ghost use Rattle.za_views.specs.Private.Taken.{is_label_taken, least_untaken};

use crate::events::Event;
use za_alpha::Letter;
use za_ids::{MOST_LABELS, first_unmarked};

/// Marks the labels of the events of a letter that are found from an event in so many steps. A step
/// goes from an event to one of those that it has in its row.
fn mark_taken(
    events: &[Event],
    processes: usize,
    letter: Letter,
    steps: usize,
    event: Option<usize>,
    taken: &mut [bool],
)
    requires few { processes ≤ most_processes }
    requires within { IfSome event (λ e. e < length events.now) }
    requires labelled { AreLabelled (length taken.old) processes events.now }
    ensures { (k : ℕ) → k < length taken.old →
        let found = is_label_taken events.now processes letter.0 k steps event in
        slice_index_or taken.new k false ≡ (slice_index_or taken.old k false || found) }
{
    let Some(e) = event else {
        return;
    };
    let found = &events[e];
    if steps == 0 {
        if found.letter == letter {
            taken[found.label as usize] = true;
        }
        return;
    }
    for q in 0..processes {
        mark_taken(events, processes, letter, steps - 1, found.past[q], taken);
    }
}

/// The label of the next event, an event of the letter: the least that no event of the letter has
/// that is a tertiary entry of the process whose last event is `own`.
pub(crate) fn free_label(
    events: &[Event],
    processes: usize,
    letter: Letter,
    own: Option<usize>,
) -> u16
    requires few { processes ≤ most_processes }
    requires within { IfSome own (λ e. e < length events.now) }
    requires labelled { AreLabelled most_labels processes events.now }
    ensures { result ≡ least_untaken events.now processes letter.0 own }
{
    let mut taken = [false; MOST_LABELS];
    mark_taken(events, processes, letter, 3, own, &mut taken);
    first_unmarked(&taken) as u16
}
