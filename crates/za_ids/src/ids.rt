ghost use Rattle.std.specs.Prelude.{◌≡◌, ℕ, ◌+◌, ◌^◌, ◌<◌, ◌≤◌, ◌↔◌, IsNone, Some};
ghost use Rattle.za_alpha.specs.Limits.{most_processes, most_letters};
ghost use Rattle.za_order.specs.Labels.{number_of, label_bound};
ghost use Rattle.za_ids.specs.Limits.{most_labels};

use za_alpha::Letter;

/// The number of an event, by its letter and its label; 0 is no event.
#[derive(Clone, Copy, Debug, PartialEq, Eq)]
pub struct EventId(pub u32);

/// How many labels a letter has with `n` processes: from 0 to the cube of `n`.
pub(crate) fn label_count(n: usize) -> u32
    requires { n ≤ most_processes }
    ensures value { result ≡ n ^ 3 + 1 }
    ensures small { result ≤ most_labels }
{
    let n = n as u32;
    n * n * n + 1
}

/// The number of an event, by its letter and its label. There are `n` processes, 1 to 10, the
/// letter is below 128, and the label is at most the cube of `n`.
pub fn id_of(n: usize, a: Letter, label: u16) -> EventId
    requires some_process { 1 ≤ n }
    requires few_processes { n ≤ most_processes }
    requires letter { a.0 < most_letters }
    requires label { label ≤ n ^ 3 }
    ensures { result.0 ≡ number_of n a.0 label }
{
    EventId(1 + u32::from(a.0) * label_count(n) + u32::from(label))
}

/// The letter of an event's number, and `None` exactly for 0. There are `n` processes, 1 to 10, and
/// the number is at most that of the last label of letter 127.
pub fn letter_of(n: usize, id: EventId) -> Option<Letter>
    requires some_process { 1 ≤ n }
    requires few_processes { n ≤ most_processes }
    requires number { id.0 ≤ label_bound most_letters n }
    ensures none { IsNone result ↔ (id.0 ≡ 0) }
    ensures inverse { (a k : ℕ) → k ≤ n ^ 3 → id.0 ≡ number_of n a k → result ≡ Some (record { 0 = a }) }
{
    if id.0 == 0 {
        return None;
    }
    Some(Letter(((id.0 - 1) / label_count(n)) as u8))
}

/// The label of an event's number, and `None` exactly for 0. There are `n` processes, 1 to 10, and
/// the number is at most that of the last label of letter 127.
pub fn label_of(n: usize, id: EventId) -> Option<u16>
    requires some_process { 1 ≤ n }
    requires few_processes { n ≤ most_processes }
    requires number { id.0 ≤ label_bound most_letters n }
    ensures none { IsNone result ↔ (id.0 ≡ 0) }
    ensures inverse { (a k : ℕ) → k ≤ n ^ 3 → id.0 ≡ number_of n a k → result ≡ Some k }
{
    if id.0 == 0 {
        return None;
    }
    Some(((id.0 - 1) % label_count(n)) as u16)
}
