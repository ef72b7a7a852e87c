//! The circle of a job's processes after a word, whose events write readings.

ghost use Rattle.std.specs.Prelude.{◌≡◌, ◌<◌, ◌+◌, ℕ, IfOk, length, slice_index};
ghost use Rattle.std.specs.Prelude.{if◌then◌else◌};
ghost use Rattle.za_alpha.specs.Limits.{most_processes};
ghost use Rattle.za_alpha.specs.Words.{has, IsWord};
ghost use Rattle.za_alpha.specs.Search.{least};
ghost use Rattle.za_alpha.specs.Procs.{members};
ghost use Rattle.za_alpha.specs.Letters.{numbers};
ghost use Rattle.za_alpha.specs.Alphabet.{loc_of, IsDistributed};
ghost use Rattle.za_news.specs.Readings.{reading_at};
ghost use Rattle.za_news.specs.Private.Weaving.{IsNewsAfter};

use crate::readings::Readings;
use std::alloc::Global;
use za_alpha::{Alphabet, Letter, MOST_PROCESSES, OutOfMemory, Procs};
use za_payload::Circle;

/// How many events each process has had.
type Counts = [usize; MOST_PROCESSES];

/// Counts an event of these processes.
fn count_event(takes: Procs, counts: &mut Counts)
    requires { (p : ℕ) → p < most_processes → slice_index counts.old p < 18446744073709551615 }
    ensures { (p : ℕ) → p < most_processes → slice_index counts.new p
        ≡ slice_index counts.old p + (if has (members takes) p then 1 else 0) }
{
    for p in 0..MOST_PROCESSES {
        if takes.has(p) {
            counts[p] += 1;
        }
    }
}

/// What an event of a letter writes after so many events of each process: the next reading of its least
/// participant.
fn next_reading(alphabet: &Alphabet, a: Letter, readings: &Readings, counts: &Counts) -> u32
    requires { a.0 < length alphabet.now.letters }
    ensures value { let p = least (λ q. has (loc_of alphabet.now a.0) q) alphabet.now.processes in
        result ≡ reading_at readings.now p (slice_index counts.now p) }
    ensures whole { IsDistributed alphabet.now }
{
    for p in 0..alphabet.processes() {
        if alphabet.loc(a).has(p) {
            return readings.at(p, counts[p]);
        }
    }
    unreachable!()
}

/// The circle of the processes after the word, each event of which has written the next reading of its
/// least participant.
pub(crate) fn circle_after(
    alloc: Global,
    alphabet: &Alphabet,
    readings: &Readings,
    word: &[Letter],
) -> Result<Circle, OutOfMemory>
    requires { IsWord (length alphabet.now.letters) (numbers word.now) }
    ensures { IfOk result (IsNewsAfter alphabet.now readings.now (numbers word.now)) }
{
    let mut circle = Circle::new(alloc, alphabet)?;
    let mut counts = [0; MOST_PROCESSES];
    for i in 0..word.len() {
        let a = word[i];
        let value = next_reading(alphabet, a, readings, &counts);
        circle.meet(alphabet, a, value);
        count_event(alphabet.loc(a), &mut counts);
    }
    Ok(circle)
}
