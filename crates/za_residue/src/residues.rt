ghost use Rattle.std.specs.Prelude.{◌≡◌, ℕ, ◌^◌, ◌<◌, ◌≤◌, ◌↔◌, List, [], length, slice_index, IfOk, IsTrue};
ghost use Rattle.za_dfa.specs.Automata.{Automaton};
ghost use Rattle.za_residue.specs.Functions.{identities, value_at};
ghost use Rattle.za_residue.specs.Residues.{residues_after};

use crate::writing::write_identities;
use std::alloc::Global;
use std::marker::Model;
use za_alpha::{OutOfMemory, Procs};

/// What a process keeps of the states of an automaton (Mukund 2012), for `n` processes: one function
/// from states to states for each of the `2^n` sets of processes. The function of a set says where
/// the part of the process's view leads that isn't in the past of its latest event of any process of
/// the set. Contracts see it as the list of all values: the functions by the numbers of the sets,
/// each as its values from state 0 on. The number of a set is the sum of `2^y` over its members.
#[derive(Debug, Drop)]
pub struct Residues {
    processes: usize,
    states: usize,
    pub(crate) values: Vec<u8>,
}

impl Model for Residues {
    ghost use Rattle.za_residue.specs.Functions.{Functions};

    ghost Value = { Functions };

    ghost use Rattle.za_residue.specs.Inside.{functions_in, AreOnStatesInside};

    ghost view = { functions_in };

    ghost invariant = { AreOnStatesInside };
}

impl Residues {
    /// What each of `n` processes, at most 16, keeps before any event over an automaton with so many
    /// states, at most 256: the identity for every set.
    pub fn blank(alloc: Global, n: usize, states: usize) -> Result<Residues, OutOfMemory>
        requires processes { n ≤ 16 }
        requires states { states ≤ 256 }
        ensures functions { IfOk result (λ r. r ≡ identities n states) }
        ensures opening { IfOk result (λ r. (loc : ℕ → List ℕ) (d : Automaton) (p : ℕ) → d.states ≡ states →
            r ≡ residues_after loc n d [] p) }
    {
        let total = set_count(n) * states;
        let mut values = vec![in alloc; 0; total]?;
        write_identities(n, states, values.as_mut_slice());
        Ok(Residues {
            processes: n,
            states,
            values,
        })
    }

    /// How many processes there are.
    pub fn processes(&self) -> usize
        ensures { result ≡ self.now.processes }
    {
        self.processes
    }

    /// How many states there are.
    pub fn states(&self) -> usize
        ensures { result ≡ self.now.states }
    {
        self.states
    }

    /// Where the function of a set leads from state `q`.
    pub fn apply(&self, set: Procs, q: u8) -> u8
        requires set { set.0 < 2 ^ self.now.processes }
        requires state { q < self.now.states }
        ensures value { result ≡ value_at self.now set.0 q }
        ensures within { result < self.now.states }
    {
        self.values[set.0 as usize * self.states + q as usize]
    }

    /// The function of a set, by state.
    pub(crate) fn function(&self, set: Procs) -> &[u8]
        requires { set.0 < 2 ^ self.now.processes }
        ensures long { length result.now ≡ self.now.states }
        ensures values { (q : ℕ) → q < self.now.states → slice_index result.now q ≡ value_at self.now set.0 q }
        ensures below { (q : ℕ) → q < self.now.states → slice_index result.now q < self.now.states }
    {
        let from = set.0 as usize * self.states;
        &self.values[from..from + self.states]
    }

    /// Whether the functions of another process, for as many processes and states, are the same.
    pub fn equals(&self, other: &Residues) -> bool
        requires processes { self.now.processes ≡ other.now.processes }
        requires states { self.now.states ≡ other.now.states }
        ensures { IsTrue result ↔ (self.now ≡ other.now) }
    {
        self.values == other.values
    }

    /// Takes over the functions of another process, for as many processes and states. It takes no
    /// memory.
    pub fn copy_from(&mut self, other: &Residues)
        requires processes { self.old.processes ≡ other.now.processes }
        requires states { self.old.states ≡ other.now.states }
        ensures { self.new ≡ other.now }
    {
        self.values.copy_from_slice(other.values.as_slice());
    }
}

/// How many sets of `n` processes there are.
pub(crate) fn set_count(n: usize) -> usize
    requires { n ≤ 16 }
    ensures value { result ≡ 2 ^ n }
    ensures small { result ≤ 65536 }
{
    1 << n
}
