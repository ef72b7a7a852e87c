ghost use Rattle.std.specs.Prelude.{◌≡◌, ℕ, ◌↔◌, IsTrue, [], length, IfOk};
ghost use Rattle.za_ids.specs.Numbers.{event_numbers};
ghost use Rattle.za_gossip.specs.Rows.{AreShaped};
ghost use Rattle.za_local.specs.Locals.{local_after, IsShapedAs};

use std::alloc::Global;
use std::marker::Model;
use za_alpha::OutOfMemory;
use za_dfa::Closed;
use za_gossip::Gossip;
use za_ids::EventId;
use za_residue::Residues;

/// The local state of a process: what it keeps of events, and what it keeps of the states of the
/// automaton.
#[derive(Debug, Drop)]
pub struct Local {
    pub(crate) gossip: Gossip,
    pub(crate) residues: Residues,
}

impl Model for Local {
    ghost use Rattle.za_ids.specs.Numbers.{event_numbers};
    ghost use Rattle.za_gossip.specs.Rows.{AreShaped};
    ghost use Rattle.za_local.specs.Locals.{LocalState};

    ghost Value = { LocalState };

    ghost use Rattle.za_local.specs.Inside.{local_in, IsWholeInside};

    ghost view = { local_in };

    ghost invariant = { IsWholeInside };
}

/// The local state of every process before any event. Want of memory is the one free answer.
pub fn opening(alloc: Global, closed: &Closed) -> Result<Local, OutOfMemory>
    ensures { IfOk result (λ l. (p : ℕ) → l ≡ local_after closed.now [] p) }
{
    let processes = closed.dfa().alphabet().processes();
    Ok(Local {
        gossip: Gossip::blank(alloc, processes)?,
        residues: Residues::blank(alloc, processes, closed.dfa().states())?,
    })
}

impl Local {
    /// What the process keeps of events.
    pub fn gossip(&self) -> &Gossip
        ensures { result.now ≡ self.now.gossip }
    {
        &self.gossip
    }

    /// What it keeps of states.
    pub fn residues(&self) -> &Residues
        ensures { result.now ≡ self.now.residues }
    {
        &self.residues
    }

    /// Takes over the local state of another process, for as many processes and states. It takes no
    /// memory.
    pub fn copy_from(&mut self, other: &Local)
        requires { IsShapedAs self.old other.now }
        ensures { self.new ≡ other.now }
    {
        self.gossip.copy_from(&other.gossip);
        self.residues.copy_from(&other.residues);
    }
}

impl PartialEq for Local {
    ghost use Rattle.std.specs.Cmp.{partial_equiv_from_equiv};
    ghost use Rattle.za_local.specs.Same.{same_local, same_local_equiv};

    ghost eq = { same_local };

    ghost laws = { partial_equiv_from_equiv same_local_equiv };

    /// Whether two local states are the same in all numbers, shapes among them.
    fn eq(&self, other: &Local) -> bool {
        is_shaped_as(self, other) && equal(self, other)
    }
}

/// Whether two local states are for as many processes and states.
fn is_shaped_as(a: &Local, b: &Local) -> bool
    ensures value { IsTrue result ↔ IsShapedAs a.now b.now }
    ensures whole { a.now.residues.processes ≡ length a.now.gossip.primary }
{
    a.residues.processes() == b.residues.processes() && a.residues.states() == b.residues.states()
}

/// Whether two local states are the same in all numbers. They are for as many processes and states.
pub fn equal(a: &Local, b: &Local) -> bool
    requires { IsShapedAs a.now b.now }
    ensures { IsTrue result ↔ (a.now ≡ b.now) }
{
    same_gossip(&a.gossip, &b.gossip) && a.residues.equals(&b.residues)
}

/// Whether what two processes keep of events is the same.
pub(crate) fn same_gossip(a: &Gossip, b: &Gossip) -> bool
    requires { length a.now.primary ≡ length b.now.primary }
    ensures { IsTrue result ↔ (a.now ≡ b.now) }
{
    same_events(a.primary(), b.primary())
        && same_secondary(a, b)
        && same_events(a.tertiary(), b.tertiary())
}

/// Whether two rows are the same.
fn same_events(a: &[EventId], b: &[EventId]) -> bool
    ensures { IsTrue result ↔ (event_numbers a.now ≡ event_numbers b.now) }
{
    a == b
}

/// Whether their secondary rows are the same.
fn same_secondary(a: &Gossip, b: &Gossip) -> bool
    requires processes { length a.now.primary ≡ length b.now.primary }
    requires first { AreShaped a.now }
    requires second { AreShaped b.now }
    ensures { IsTrue result ↔ (a.now.secondary ≡ b.now.secondary) }
{
    for q in 0..a.primary().len() {
        if !same_events(a.secondary(q), b.secondary(q)) {
            return false;
        }
    }
    true
}
