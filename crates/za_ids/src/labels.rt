ghost use Rattle.std.specs.Prelude.{◌≡◌, ℕ, ◌+◌, ◌*◌, ◌^◌, ◌<◌, ◌≤◌, ◌↔◌, length, replicate, slice_index_or};
ghost use Rattle.std.specs.Prelude.{false, not};
ghost use Rattle.std.specs.Prelude.{IsTrue, IsFalse};
ghost use Rattle.za_alpha.specs.Limits.{most_processes, most_letters};
ghost use Rattle.za_alpha.specs.Words.{has};
ghost use Rattle.za_alpha.specs.Procs.{members};
ghost use Rattle.za_alpha.specs.Search.{least};
ghost use Rattle.za_order.specs.Labels.{number_of};
ghost use Rattle.za_ids.specs.Limits.{most_labels};
ghost use Rattle.za_ids.specs.Numbers.{event_numbers};
ghost use Rattle.za_ids.specs.Columns.{AreInColumns};
ghost use Rattle.za_ids.specs.Private.Marked.{HasMarked};

use crate::ids::{EventId, id_of, label_count};
use za_alpha::{Letter, MOST_PROCESSES, Procs};

/// How many labels a letter has with the most processes.
pub const MOST_LABELS: usize = MOST_PROCESSES * MOST_PROCESSES * MOST_PROCESSES + 1;

/// How many marks there are: one for each label, and one for all numbers of other letters.
const MARKS: usize = MOST_LABELS + 1;

/// The least label, at most the cube of `n`, whose number with the letter isn't in `ids`. There are
/// `n` processes, 1 to 10, the letter is below 128, and there are at most as many numbers as the
/// cube of `n`.
pub fn least_free(n: usize, a: Letter, ids: &[EventId]) -> u16
    requires some_process { 1 ≤ n }
    requires few_processes { n ≤ most_processes }
    requires letter { a.0 < most_letters }
    requires few_numbers { length ids.now ≤ n ^ 3 }
    ensures bounded { result ≤ n ^ 3 }
    ensures free { IsFalse (has (event_numbers ids.now) (number_of n a.0 result)) }
    ensures least { (k : ℕ) → k < result → IsTrue (has (event_numbers ids.now) (number_of n a.0 k)) }
{
    let mut taken = [false; MARKS];
    mark_labels(n, a, ids, &mut taken);
    first_unmarked(taken.as_slice()) as u16
}

/// Marks each label at most the cube of `n` whose number with the letter is in `ids`; none is marked before.
fn mark_labels(n: usize, a: Letter, ids: &[EventId], taken: &mut [bool; MARKS])
    requires some_process { 1 ≤ n }
    requires few_processes { n ≤ most_processes }
    requires letter { a.0 < most_letters }
    requires none { taken.old ≡ replicate (most_labels + 1) false }
    ensures room { n ^ 3 < length taken.new }
    ensures marks { (k : ℕ) → k ≤ n ^ 3 →
        slice_index_or taken.new k false ≡ has (event_numbers ids.now) (number_of n a.0 k) }
{
    let first = id_of(n, a, 0);
    let labels = label_count(n);
    for id in ids {
        taken[place_from(first, labels, *id)] = true;
    }
}

/// The same, where `ids` is a table of numbers with `n` columns, and numbers with the letter stand in the
/// columns of these processes alone.
pub fn least_free_among(n: usize, a: Letter, processes: Procs, ids: &[EventId]) -> u16
    requires some_process { 1 ≤ n }
    requires few_processes { n ≤ most_processes }
    requires letter { a.0 < most_letters }
    requires numbers { length ids.now ≡ n * n * n }
    requires columns { AreInColumns n a.0 (members processes) (event_numbers ids.now) }
    ensures bounded { result ≤ n ^ 3 }
    ensures free { IsFalse (has (event_numbers ids.now) (number_of n a.0 result)) }
    ensures least { (k : ℕ) → k < result → IsTrue (has (event_numbers ids.now) (number_of n a.0 k)) }
{
    let mut taken = [false; MARKS];
    mark_columns(n, a, processes, ids, &mut taken);
    first_unmarked(taken.as_slice()) as u16
}

/// Marks each label at most the cube of `n` whose number with the letter is in `ids`; none is marked before.
fn mark_columns(n: usize, a: Letter, processes: Procs, ids: &[EventId], taken: &mut [bool; MARKS])
    requires some_process { 1 ≤ n }
    requires few_processes { n ≤ most_processes }
    requires letter { a.0 < most_letters }
    requires numbers { length ids.now ≡ n * n * n }
    requires columns { AreInColumns n a.0 (members processes) (event_numbers ids.now) }
    requires none { taken.old ≡ replicate (most_labels + 1) false }
    ensures room { n ^ 3 < length taken.new }
    ensures marks { (k : ℕ) → k ≤ n ^ 3 →
        slice_index_or taken.new k false ≡ has (event_numbers ids.now) (number_of n a.0 k) }
{
    let first = id_of(n, a, 0);
    let labels = label_count(n);
    for s in 0..n {
        if processes.has(s) {
            mark_column(n, s, first, labels, ids, taken);
        }
    }
}

/// Marks the places of the numbers of a column, among so many numbers from the first on.
fn mark_column(
    n: usize,
    s: usize,
    first: EventId,
    labels: u32,
    ids: &[EventId],
    taken: &mut [bool; MARKS],
)
    requires column { s < n }
    requires few_processes { n ≤ most_processes }
    requires numbers { length ids.now ≡ n * n * n }
    requires labels { labels ≤ most_labels }
    requires fits { first.0 + labels ≤ 4294967296 }
    ensures { HasMarked (event_numbers ids.now) n (n * n) s first.0 labels taken.old taken.new }
{
    for i in 0..n * n {
        taken[place_from(first, labels, ids[i * n + s])] = true;
    }
}

/// The place of a number among `count` numbers from the first on, and `count` where it is none of them.
fn place_from(first: EventId, count: u32, id: EventId) -> usize
    requires { first.0 + count ≤ 4294967296 }
    ensures within { result ≤ count }
    ensures value { (k : ℕ) → k < count → (result ≡ k) ↔ (id.0 ≡ first.0 + k) }
{
    // A number below the first wraps to one that is too great. No branch: it would be taken as often as not.
    id.0.wrapping_sub(first.0).min(count) as usize
}

/// The place of the first mark that is not set, and the number of marks where all are.
// Inlined over an array of known length it is made of vectors, which cost more where the place is small.
#[inline(never)]
pub fn first_unmarked(marks: &[bool]) -> usize
    ensures within { result ≤ length marks.now }
    ensures value { result ≡ least (λ k. not (slice_index_or marks.now k false)) (length marks.now) }
{
    for (k, mark) in marks.iter().enumerate() {
        if !*mark {
            return k;
        }
    }
    marks.len()
}
