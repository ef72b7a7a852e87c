ghost use Rattle.std.specs.Prelude.{◌≡◌, ℕ, ◌<◌, ◌≤◌, List, ◌∷◌, ◌++◌, [], length, replicate, None, IfOk, IsFalse};
ghost use Rattle.std.specs.Prelude.{slice_index, slice_index_or};
ghost use Rattle.za_alpha.specs.Limits.{most_processes};
ghost use Rattle.za_alpha.specs.Words.{has};
ghost use Rattle.za_alpha.specs.Alphabet.{DistributedAlphabet, loc_of};
ghost use Rattle.za_order.specs.Labels.{label};
ghost use Rattle.za_gossip.specs.Rows.{blank_rows, rows_after};
ghost use Rattle.za_payload.specs.Knowledge.{known_after};
ghost use Rattle.za_payload.specs.Circles.{known_in, IsCircle, IsCircleAfter};

use crate::meeting::{Known, meet_over};
use std::alloc::Global;
use std::marker::Model;
use za_alpha::{Alphabet, Letter, MOST_PROCESSES, OutOfMemory};
use za_gossip::Gossip;

/// Processes that tell each other numbers. For each process of an alphabet it has what the process
/// keeps of events, by bounded labels (Mukund and Sohoni 1997), and the number of the latest event of
/// each process that it knows. All memory is taken when it is made.
#[derive(Debug, Drop)]
pub struct Circle {
    processes: usize,
    rows: Vec<Gossip>,
    known: Vec<Known>,
    inputs: Vec<Gossip>,
    next: Gossip,
}

impl Model for Circle {
    ghost use Rattle.za_payload.specs.Circles.{CircleState};

    ghost Value = { CircleState };

    ghost use Rattle.za_payload.specs.Inside.{circle_in, HasCircleRoom};

    ghost view = { circle_in };

    ghost invariant = { HasCircleRoom };
}

/// What `n` processes keep before any event.
fn blanks(alloc: Global, n: usize) -> Result<Vec<Gossip>, OutOfMemory>
    requires { n ≤ most_processes }
    ensures { IfOk result (λ rows. rows.items ≡ replicate n (blank_rows n)) }
{
    let mut rows = Vec::new(alloc);
    for _ in 0..n {
        rows.push(Gossip::blank(alloc, n)?)?;
    }
    Ok(rows)
}

/// What `n` processes know before any event: nothing.
fn nothing_known(alloc: Global, n: usize) -> Result<Vec<Known>, OutOfMemory>
    ensures { IfOk result (λ known. known.items ≡ replicate n (replicate most_processes None)) }
{
    let mut known = Vec::new(alloc);
    for _ in 0..n {
        known.push([None; MOST_PROCESSES])?;
    }
    Ok(known)
}

impl Circle {
    /// The circle of an alphabet's processes before any event: nobody knows anything. Want of memory is
    /// the one free answer.
    pub fn new(alloc: Global, alphabet: &Alphabet) -> Result<Circle, OutOfMemory>
        ensures opening { IfOk result (IsCircleAfter alphabet.now [] []) }
        ensures circle { IfOk result (IsCircle alphabet.now) }
        ensures processes { IfOk result (λ circle. circle.processes ≡ alphabet.now.processes) }
    {
        let processes = alphabet.processes();
        Ok(Circle {
            processes,
            rows: blanks(alloc, processes)?,
            known: nothing_known(alloc, processes)?,
            inputs: blanks(alloc, processes)?,
            next: Gossip::blank(alloc, processes)?,
        })
    }

    /// An event of letter `a` that writes a number. Its participants tell each other all that they know:
    /// afterwards each of them knows this number of each participant, and of any other process the
    /// number that the participant with the latest news of it knew. All other processes stay as they
    /// are. Who has the latest news is told by bounded labels alone. It answers the event's label, and
    /// takes no memory. The alphabet is that of `new`.
    pub fn meet(&mut self, alphabet: &Alphabet, a: Letter, value: u32) -> u16
        requires letter { a.0 < length alphabet.now.letters }
        requires circle { IsCircle alphabet.now self.old }
        ensures label { (w values : List ℕ) → IsCircleAfter alphabet.now w values self.old →
            result ≡ label (loc_of alphabet.now) alphabet.now.processes (w ++ a.0 ∷ []) (length w) }
        ensures after { (w values : List ℕ) → IsCircleAfter alphabet.now w values self.old →
            IsCircleAfter alphabet.now (w ++ a.0 ∷ []) (values ++ value ∷ []) self.new }
        ensures circle { IsCircle alphabet.now self.new }
        ensures processes { self.new.processes ≡ self.old.processes }
        ensures other_rows { (p : ℕ) → p < alphabet.now.processes → IsFalse (has (loc_of alphabet.now a.0) p) →
            slice_index_or self.new.rows p (blank_rows 0) ≡ slice_index_or self.old.rows p (blank_rows 0) }
        ensures other_known { (p : ℕ) → p < alphabet.now.processes → IsFalse (has (loc_of alphabet.now a.0) p) →
            slice_index_or self.new.known p [] ≡ slice_index_or self.old.known p [] }
    {
        meet_over(
            alphabet,
            a,
            value,
            self.rows.as_mut_slice(),
            self.known.as_mut_slice(),
            self.inputs.as_mut_slice(),
            &mut self.next,
        )
    }

    /// The number of the latest event of process `q` that process `p` knows, and `None` exactly where it
    /// knows no event of `q`.
    pub fn known(&self, p: usize, q: usize) -> Option<u32>
        requires first { p < self.now.processes }
        requires second { q < self.now.processes }
        ensures value { result ≡ known_in self.now.known p q }
        ensures after { (alphabet : DistributedAlphabet) (w values : List ℕ) →
            IsCircleAfter alphabet w values self.now →
            result ≡ known_after (loc_of alphabet) w (slice_index values) p q }
    {
        self.known[p][q]
    }

    /// What process `p` keeps of events.
    pub fn gossip(&self, p: usize) -> &Gossip
        requires { p < self.now.processes }
        ensures value { result.now ≡ slice_index_or self.now.rows p (blank_rows 0) }
        ensures after { (alphabet : DistributedAlphabet) (w values : List ℕ) →
            IsCircleAfter alphabet w values self.now →
            result.now ≡ rows_after (loc_of alphabet) alphabet.processes w p }
    {
        &self.rows[p]
    }
}
