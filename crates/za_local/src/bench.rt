ghost use Rattle.std.specs.Prelude.{◌≡◌, ◌<◌, ◌≤◌, ◌==◌, ◌↔◌, [], ◌∷◌, ◌++◌, length, replicate, slice_get, Some};
ghost use Rattle.std.specs.Prelude.{IsTrue, IfOk};
ghost use Rattle.za_gossip.specs.Rows.{blank_rows};
ghost use Rattle.za_residue.specs.Functions.{identities};
ghost use Rattle.za_local.specs.Locals.{HasShape};
ghost use Rattle.za_local.specs.Benches.{none_of, gossips_of, residues_of};

use crate::local::{Local, same_gossip};
use std::alloc::Global;
use std::marker::Model;
use std::mem::swap;
use za_alpha::{MOST_PROCESSES, OutOfMemory};
use za_dfa::Closed;
use za_gossip::Gossip;
use za_residue::Residues;

/// Local states that were put side by side, one for each process at most. Its memory is taken when it
/// is made, and used again after `clear`.
#[derive(Debug, Drop)]
pub struct Bench {
    processes: usize,
    states: usize,
    len: usize,
    gossips: Vec<Gossip>,
    residues: Vec<Residues>,
}

impl Model for Bench {
    ghost use Rattle.za_local.specs.Benches.{LocalStates};

    ghost Value = { LocalStates };

    ghost use Rattle.za_local.specs.Inside.{bench_in, HasRoomInside};

    ghost view = { bench_in };

    ghost invariant = { HasRoomInside };
}

impl Bench {
    /// An empty bench with room for the local states of all processes.
    pub fn new(alloc: Global, closed: &Closed) -> Result<Bench, OutOfMemory>
        ensures { IfOk result (λ b. b ≡ none_of closed.now.alphabet.processes closed.now.states) }
    {
        let processes = closed.dfa().alphabet().processes();
        let states = closed.dfa().states();
        Ok(Bench {
            processes,
            states,
            len: 0,
            gossips: blank_gossips(alloc, processes)?,
            residues: blank_residues(alloc, processes, states)?,
        })
    }

    /// Takes all local states off.
    pub fn clear(&mut self)
        ensures { self.new ≡ none_of self.old.processes self.old.states }
    {
        self.len = 0;
    }

    /// Puts a copy of a local state beside the others, of which there are fewer than processes. It is
    /// for as many processes and states as the bench.
    pub fn add(&mut self, local: &Local)
        requires room { length self.old.locals < self.old.processes }
        requires shape { HasShape self.old.processes self.old.states local.now }
        ensures { self.new ≡ record self.old { locals = self.old.locals ++ local.now ∷ [] } }
    {
        self.gossips[self.len].copy_from(local.gossip());
        self.residues[self.len].copy_from(local.residues());
        self.len += 1;
    }

    /// Puts a local state beside the others, in exchange for one of its shape. There are fewer than
    /// processes, and it is for as many processes and states as the bench.
    pub fn exchange(&mut self, local: &mut Local)
        requires room { length self.old.locals < self.old.processes }
        requires shape { HasShape self.old.processes self.old.states local.old }
        ensures bench { self.new ≡ record self.old { locals = self.old.locals ++ local.old ∷ [] } }
        ensures shape { HasShape self.old.processes self.old.states local.new }
    {
        swap(&mut self.gossips[self.len], &mut local.gossip);
        swap(&mut self.residues[self.len], &mut local.residues);
        self.len += 1;
    }

    /// Whether the local state at place `i` is this one, which is for as many processes and states.
    pub fn has(&self, i: usize, local: &Local) -> bool
        requires place { i < length self.now.locals }
        requires shape { HasShape self.now.processes self.now.states local.now }
        ensures { IsTrue result ↔ (slice_get self.now.locals i ≡ Some local.now) }
    {
        same_gossip(&self.gossips[i], local.gossip()) && self.residues[i].equals(local.residues())
    }

    /// How many local states there are.
    pub fn len(&self) -> usize
        ensures { result ≡ length self.now.locals }
    {
        self.len
    }

    /// Whether there is no local state.
    pub fn is_empty(&self) -> bool
        ensures { result ≡ (length self.now.locals == 0) }
    {
        self.len == 0
    }

    /// What the processes of the local states keep of events, in order.
    pub(crate) fn gossips(&self) -> &[Gossip]
        ensures { result.now ≡ gossips_of self.now.locals }
    {
        &self.gossips[..self.len]
    }

    /// What they keep of states.
    pub(crate) fn residues(&self) -> &[Residues]
        ensures { result.now ≡ residues_of self.now.locals }
    {
        &self.residues[..self.len]
    }
}

/// Rows without events for `n` processes, `n` times.
fn blank_gossips(alloc: Global, n: usize) -> Result<Vec<Gossip>, OutOfMemory>
    requires { n ≤ MOST_PROCESSES }
    ensures { IfOk result (λ gossips. gossips.items ≡ replicate n (blank_rows n)) }
{
    let mut gossips = Vec::new(alloc);
    for _ in 0..n {
        gossips.push(Gossip::blank(alloc, n)?)?;
    }
    Ok(gossips)
}

/// Identities for `n` processes and so many states, `n` times.
fn blank_residues(alloc: Global, n: usize, states: usize) -> Result<Vec<Residues>, OutOfMemory>
    requires processes { n ≤ MOST_PROCESSES }
    requires states { states ≤ 256 }
    ensures { IfOk result (λ residues. residues.items ≡ replicate n (identities n states)) }
{
    let mut residues = Vec::new(alloc);
    for _ in 0..n {
        residues.push(Residues::blank(alloc, n, states)?)?;
    }
    Ok(residues)
}
