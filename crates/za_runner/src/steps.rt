//! Stepping desks on one thread, in turns.
ghost use Rattle.std.specs.Prelude.{◌≡◌, ◌↔◌, length, All, IsTrue, true, vec_capacity};
ghost use Rattle.za_runner.specs.Private.Lists.{desk_numbers, AreOf};

use std::sync::Wait;
use za_hall::{Desk, Hall};

/// Whether each desk has seen that all is over.
fn are_over(desks: &[Desk]) -> bool
    ensures { IsTrue result ↔ All (λ d. d.view.over ≡ true) desks.now }
{
    for desk in desks {
        if !desk.seen_over() {
            return false;
        }
    }
    true
}

/// Lets each desk try a step.
fn step_each(hall: &Hall, desks: &mut Vec<Desk>)
    requires { AreOf hall.now desks.old.items }
    ensures of { AreOf hall.now desks.new.items }
    ensures numbers { desk_numbers desks.new.items ≡ desk_numbers desks.old.items }
    ensures room { (vec_capacity desks.new ≡ vec_capacity desks.old)
        × (length desks.new.items ≡ length desks.old.items) }
{
    for i in 0..desks.len() {
        desks[i].try_step(hall);
    }
}

/// Steps the desks in turns until each has seen that all is over.
pub(crate) fn step_all<R: Wait>(rt: &R, hall: &Hall, desks: &mut Vec<Desk>)
    requires { AreOf hall.now desks.old.items }
    ensures of { AreOf hall.now desks.new.items }
    ensures numbers { desk_numbers desks.new.items ≡ desk_numbers desks.old.items }
    ensures room { (vec_capacity desks.new ≡ vec_capacity desks.old)
        × (length desks.new.items ≡ length desks.old.items) }
    ensures over { All (λ d. d.view.over ≡ true) desks.new.items }
{
    for _ in rt.forever() {
        if are_over(desks) {
            return;
        }
        step_each(hall, desks);
        std::thread::yield_now();
    }
    unreachable!()
}
