//! Closing a hall, and giving it up.
ghost use Rattle.std.specs.Prelude.{◌≡◌, ◌≤◌, ◌↔◌, ℕ, All, Any, IfOk, IfErr, IsTrue, MatchOption, true, false, None};
ghost use Rattle.za_machine.specs.Machine.{IsMachineState};
ghost use Rattle.za_machine.specs.Hands.{hand};
ghost use Rattle.za_table.specs.Tables.{machine_of};
ghost use Rattle.za_table.specs.Ends.{IsEnded, HasAnswer};
ghost use Rattle.za_hall.specs.Places.{places};
ghost use Rattle.za_hall.specs.Own.{machine};
ghost use Rattle.za_hall.specs.Halls.{IsOf, fired, IsToldBy, IsLeast, IsWaiting, Refuses, HasDesks};
ghost use Rattle.za_hall.specs.Private.Serving.{lesser_of};

use crate::desk::Desk;
use crate::gathering::{free_letters, gather};
use crate::hall::Hall;
use crate::refusal::{CloseRefused, CloseWhy, HallEnded};
use za_table::Table;

fn has_desk(desks: &[Desk], process: usize) -> bool
    ensures { IsTrue result ↔ Any (λ d. d.number ≡ process) desks.now }
{
    for desk in desks {
        if desk.number() == process {
            return true;
        }
    }
    false
}

fn least_missing(desks: &[Desk], processes: usize) -> Option<usize>
    ensures { MatchOption result (HasDesks processes desks.now)
        (IsLeast processes (λ p. ¬ Any (λ d. d.number ≡ p) desks.now)) }
{
    for process in 0..processes {
        if !has_desk(desks, process) {
            return Some(process);
        }
    }
    None
}

fn lesser(least: Option<usize>, desk: &Desk) -> Option<usize>
    ensures { result ≡ lesser_of least desk.now.view.over desk.now.number }
{
    if desk.seen_over() {
        return least;
    }
    match least {
        Some(process) => Some(process.min(desk.number())),
        None => Some(desk.number()),
    }
}

fn least_waiting(desks: &[Desk]) -> Option<usize>
    ensures { MatchOption result (All (λ d. d.view.over ≡ true) desks.now)
        (λ p. IsWaiting desks.now p × All (λ d. d.view.over ≡ false → p ≤ d.number) desks.now) }
{
    let mut least = None;
    for desk in desks {
        least = lesser(least, desk);
    }
    least
}

impl Hall {
    /// Closes the hall, where each process has a desk here that has seen that all is over. The desks are
    /// of this hall; their order is free. It takes no memory.
    ///
    /// `Missing` names the least process without a desk, and else `NotOver` the least process whose desk
    /// has not seen that all is over. Each comes exactly there, and the hall and the desks are handed
    /// back as they were.
    pub fn close(self, desks: Vec<Desk>) -> Result<HallEnded, CloseRefused>
        requires { All (λ d. IsOf d self) desks.items }
        ensures given { IfOk result (λ e. e.given ≡ self.given) }
        ensures over { IfOk result IsEnded }
        ensures answer { IfOk result HasAnswer }
        ensures fired { IfOk result
            (λ e. All (λ d. fired d ≡ places (machine_of e.given) d.number e.state.journal) desks.items) }
        ensures whole { IfOk result (λ _. HasDesks (machine_of self.given).processes desks.items
            × All (λ d. d.view.over ≡ true) desks.items) }
        ensures refused { IfErr result (λ e. Refuses (machine_of self.given).processes desks.items e.why) }
        ensures back { IfErr result (λ e. (e.hall ≡ self) × (e.desks ≡ desks)) }
    {
        if let Some(process) = least_missing(&desks, self.parts.processes) {
            return Err(CloseRefused {
                why: CloseWhy::Missing { process },
                hall: self,
                desks,
            });
        }
        if let Some(process) = least_waiting(&desks) {
            return Err(CloseRefused {
                why: CloseWhy::NotOver { process },
                hall: self,
                desks,
            });
        }
        let Hall { parts } = self;
        Ok(HallEnded {
            table: gather(parts, desks).into_ended(),
        })
    }

    /// Gives the hall up, where each process has a desk here: the table as it stands, with every letter
    /// that is in hand put back. The desks are of this hall; their order is free. It takes no memory and
    /// waits for nobody.
    ///
    /// `Missing` names the least process without a desk, exactly where there is one, and the hall and
    /// the desks are handed back as they were.
    pub fn abandon(self, desks: Vec<Desk>) -> Result<Table, CloseRefused>
        requires { All (λ d. IsOf d self) desks.items }
        ensures given { IfOk result (λ t. t.given ≡ self.given) }
        ensures reached { IfOk result (λ t. IsMachineState (machine t) t.state) }
        ensures free { IfOk result (λ t. (a : ℕ) → hand t.hands a ≡ None) }
        ensures told { IfOk result (λ t. All (IsToldBy t) desks.items) }
        ensures whole { IfOk result (λ _. HasDesks (machine_of self.given).processes desks.items) }
        ensures missing { IfErr result (λ e. (p : ℕ) × (e.why ≡ CloseWhy.Missing p)) }
        ensures refused { IfErr result (λ e. Refuses (machine_of self.given).processes desks.items e.why) }
        ensures back { IfErr result (λ e. (e.hall ≡ self) × (e.desks ≡ desks)) }
    {
        if let Some(process) = least_missing(&desks, self.parts.processes) {
            return Err(CloseRefused {
                why: CloseWhy::Missing { process },
                hall: self,
                desks,
            });
        }
        let Hall { parts } = self;
        let mut table = gather(parts, desks);
        free_letters(&mut table);
        Ok(table)
    }
}
