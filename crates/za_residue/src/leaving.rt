//! Which pasts are left out of each input's residue, for a set of processes.

ghost use Rattle.std.specs.Prelude.{◌≡◌, ℕ, ◌^◌, ◌<◌, ◌≤◌, ◌||◌, false, length, slice_index_or, IsTrue};
ghost use Rattle.za_alpha.specs.Limits.{most_processes};
ghost use Rattle.za_alpha.specs.Words.{has};
ghost use Rattle.za_alpha.specs.Procs.{members, no_process};
ghost use Rattle.za_residue.specs.Masks.{is_under};
ghost use Rattle.za_residue.specs.Private.Turns.{AreOmitted};

use crate::masks::Masks;
use za_alpha::{MOST_PROCESSES, Procs};

/// What is left out of the first inputs for the empty set.
pub(crate) fn first_omitted(masks: &Masks, inputs: usize) -> [Procs; MOST_PROCESSES]
    requires { inputs ≤ most_processes }
    ensures { (processes : ℕ) → AreOmitted masks.now processes (has (members no_process)) inputs result }
{
    let mut omitted = [Procs::none(); MOST_PROCESSES];
    for i in 0..inputs {
        omitted[i] = joined_set(masks.earlier[i], Procs::none());
    }
    omitted
}

/// A set with more processes.
fn joined_set(set: Procs, more: Procs) -> Procs
    ensures members { (s : ℕ) → has (members result) s ≡ (has (members set) s || has (members more) s) }
    ensures small { result.0 < 2 ^ 16 }
{
    Procs(set.0 | more.0)
}

/// Writes what is left out of the first inputs where `r` comes to the set, and answers whether this is
/// the same as before.
pub(crate) fn join_sets(
    masks: &Masks,
    sets: &[Procs; MOST_PROCESSES],
    r: usize,
    inputs: usize,
    joined: &mut [Procs; MOST_PROCESSES],
) -> bool
    requires process { r < most_processes }
    requires inputs { inputs ≤ most_processes }
    ensures room { inputs ≤ length joined.new }
    ensures small { (i : ℕ) → i < inputs → (slice_index_or joined.new i no_process).0 < 2 ^ 16 }
    ensures members { (i s : ℕ) → i < inputs → has (members (slice_index_or joined.new i no_process)) s
        ≡ (has (members (slice_index_or sets.now i no_process)) s || is_under masks.now i r s) }
    ensures same { IsTrue result → (i : ℕ) → i < inputs →
        slice_index_or joined.new i no_process ≡ slice_index_or sets.now i no_process }
{
    let mut same = true;
    for i in 0..inputs {
        let set = joined_set(sets[i], masks.under[i][r]);
        same = same & (set.0 == sets[i].0);
        joined[i] = set;
    }
    same
}
