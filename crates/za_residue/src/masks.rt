ghost use Rattle.std.specs.Prelude.{◌≡◌, ℕ, ◌≤◌, ◌==◌, ◌&&◌, not, length, IsTrue};
ghost use Rattle.za_alpha.specs.Words.{has};
ghost use Rattle.za_alpha.specs.Procs.{members};
ghost use Rattle.za_ids.specs.Numbers.{event_numbers};
ghost use Rattle.za_residue.specs.Masks.{is_shared};

use za_alpha::{MOST_PROCESSES, Procs};
use za_ids::EventId;

/// Which pasts to leave out of the residues of some processes, the inputs, where they are taken one
/// after another (Mukund 2012). Inputs count from 0.
#[derive(Clone, Copy, Debug)]
pub struct Masks {
    /// For each input, the processes whose latest event that it knows is the latest of some process
    /// for an input before it too.
    pub earlier: [Procs; MOST_PROCESSES],
    /// For each input and each process `r` that is none of the inputs, the processes whose latest
    /// event that the input knows is also the latest of some process in the past of the latest event
    /// of `r` that any input knows.
    pub under: [[Procs; MOST_PROCESSES]; MOST_PROCESSES],
}

/// The processes `s`, at most 16, whose entry `primary[s]` is an event and stands in `other`.
pub fn below(primary: &[EventId], other: &[EventId]) -> Procs
    requires { length primary.now ≤ 16 }
    ensures { (s : ℕ) → has (members result) s ≡ is_shared (event_numbers primary.now) (event_numbers other.now) s }
{
    let mut shared = Procs::none();
    for (s, id) in primary.iter().enumerate() {
        if stands_in(*id, s, other) {
            shared = shared.with(s);
        }
    }
    shared
}

/// Whether the number is that of an event, and stands in the row; it is looked for at this place first.
fn stands_in(id: EventId, place: usize, row: &[EventId]) -> bool
    ensures { result ≡ (not (id.0 == 0) && has (event_numbers row.now) id.0) }
{
    id.0 != 0 && (stands_at(id, place, row) || row.contains(&id))
}

/// Whether the number stands in the row at this place.
fn stands_at(id: EventId, place: usize, row: &[EventId]) -> bool
    ensures { IsTrue result → IsTrue (has (event_numbers row.now) id.0) }
{
    place < row.len() && row[place].0 == id.0
}
