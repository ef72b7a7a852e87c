//! Callers of za_ids.

ghost use Rattle.std.specs.Prelude.{◌≡◌, ℕ, ◌+◌, ◌*◌, ◌^◌, ◌<◌, ◌≤◌, length, IsTrue, IsFalse, Some};
ghost use Rattle.za_alpha.specs.Limits.{most_letters, most_processes};
ghost use Rattle.za_alpha.specs.Words.{has};
ghost use Rattle.za_order.specs.Labels.{number_of};
ghost use Rattle.za_ids.specs.Numbers.{event_numbers};

use za_alpha::Letter;
use za_ids::{EventId, id_of, label_of, least_free, letter_of};

/// A number for the next event of a letter that none of these events has, with `n` processes.
pub fn fresh(n: usize, a: Letter, ids: &[EventId]) -> EventId
    requires some_process { 1 ≤ n }
    requires few_processes { n ≤ most_processes }
    requires letter { a.0 < most_letters }
    requires few_numbers { length ids.now ≤ n ^ 3 }
    ensures new { IsFalse (has (event_numbers ids.now) result.0) }
    ensures least { (k : ℕ) → number_of n a.0 k < result.0 → IsTrue (has (event_numbers ids.now) (number_of n a.0 k)) }
{
    id_of(n, a, least_free(n, a, ids))
}
