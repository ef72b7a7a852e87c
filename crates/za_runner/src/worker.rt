//! A worker: a thread that steps one desk.
ghost use Rattle.std.specs.Prelude.{◌≡◌, IfOk, IfErr};
ghost use Rattle.za_hall.specs.Halls.{IsOf};
ghost use Rattle.za_runner.specs.Workers.{HandsBack};

use crate::gate::Gate;
use std::snapshot::Snapshot;
use std::sync::Wait;
use std::sync::atomic::AtomicU64;
use std::sync::atomic::Ordering::SeqCst;
use std::thread::{Promise, PromisedHandle, Scope, Threads};
use za_hall::{Desk, Hall, Turn};

/// A desk that comes back, and whether its worker was called off.
#[derive(Drop)]
pub(crate) struct Worked {
    pub(crate) desk: Desk,
    pub(crate) called_off: bool,
}

/// That a worker hands back its own desk.
#[derive(Drop)]
pub(crate) struct OwnDesk(pub(crate) Snapshot<Desk>);

impl Promise<Worked> for OwnDesk {
    ghost use Rattle.za_runner.specs.Workers.{HandsBack};

    ghost kept_by = { λ p r. HandsBack p.0.value r };
}

/// Steps the desk until all is over, unless the worker is called off first.
pub(crate) fn work<R: Wait, G: Gate>(
    rt: &R,
    hall: &Hall,
    mut desk: Desk,
    gate: &G,
    called_off: &AtomicU64,
) -> Worked
    requires { IsOf desk hall.now }
    ensures { HandsBack desk result }
{
    if called_off.load(SeqCst) == 1 {
        return Worked {
            desk,
            called_off: true,
        };
    }
    let mut at: usize = 0;
    for _ in rt.forever() {
        gate.before(desk.number(), at);
        at = at.saturating_add(1);
        if let Turn::Over = desk.step(rt, hall) {
            return Worked {
                desk,
                called_off: false,
            };
        }
    }
    unreachable!()
}

/// Starts a worker. Where no thread can be made, the desk comes back without a step.
pub(crate) fn start<'s, E, R: Threads + Wait + Sync, G: Gate>(
    rt: &'s R,
    scope: &Scope<'s, E>,
    hall: &'s Hall,
    gate: &'s G,
    called_off: &'s AtomicU64,
    desk: Desk,
) -> Result<PromisedHandle<Worked, OwnDesk>, Worked>
    requires { IsOf desk hall.now }
    ensures ok { IfOk result (λ h. h.promise.0.value ≡ desk) }
    ensures err { IfErr result (HandsBack desk) }
{
    let mine = OwnDesk(Snapshot::of(&desk));
    let run = move || -> Worked
        requires { IsOf desk hall.now }
        ensures { HandsBack desk result }
    { work(rt, hall, desk, gate, called_off) };
    match scope.spawn_with(mine, run) {
        Ok(handle) => Ok(handle),
        Err(refused) => {
            called_off.store(1, SeqCst);
            Err((refused.value)())
        }
    }
}
