//! Numbers that travel with events.

ghost use Rattle.std.specs.Prelude.{◌≡◌};
ghost use Rattle.za_payload.specs.Circles.{IsCircle};

use samples::{Named, TWO_PROCESSES, alphabet_of};
use std::process::Abort;
use std::test::Fail;
use za_alpha::{Alphabet, Letter};
use za_payload::Circle;

/// What a process knows of each.
type Row = &'static [Option<u32>];

/// An event of a letter that writes a number: its label, and what each process then knows of each.
struct Event {
    letter: u8,
    value: u32,
    label: u16,
    known: &'static [Row],
}

/// Tries what a process knows of each.
fn try_row(rt: &impl Abort, circle: &Circle, processes: usize, p: usize, row: &[Option<u32>])
    requires { circle.now.processes ≡ processes }
{
    for (q, number) in row.iter().enumerate() {
        assert!(rt; p < processes && q < processes);
        assert_eq!(rt; circle.known(p, q), *number, "{p} of {q}");
    }
}

/// Tries what each process knows of each.
fn try_known(rt: &impl Abort, circle: &Circle, processes: usize, known: &[Row])
    requires { circle.now.processes ≡ processes }
{
    for (p, row) in known.iter().enumerate() {
        try_row(rt, circle, processes, p, row);
    }
}

/// Tries an event.
fn try_event(rt: &impl Abort, alphabet: &Alphabet, circle: &mut Circle, event: &Event)
    requires circle { IsCircle alphabet.now circle.old }
    requires processes { circle.old.processes ≡ alphabet.now.processes }
    ensures circle { IsCircle alphabet.now circle.new }
    ensures processes { circle.new.processes ≡ alphabet.now.processes }
{
    assert!(rt; (event.letter as usize) < alphabet.letters());
    let label = circle.meet(alphabet, Letter(event.letter), event.value);
    assert_eq!(rt; label, event.label);
    try_known(rt, circle, alphabet.processes(), event.known);
}

/// Tries events one after another.
fn try_events(rt: &impl Abort, alphabet: &Alphabet, circle: &mut Circle, events: &[Event])
    requires circle { IsCircle alphabet.now circle.old }
    requires processes { circle.old.processes ≡ alphabet.now.processes }
    ensures { circle.new.processes ≡ alphabet.now.processes }
{
    for event in events {
        try_event(rt, alphabet, circle, event);
    }
}

static NOTHING: [Row; 2] = [&[None, None], &[None, None]];

static TWO_EVENTS: [Event; 2] = [
    Event {
        letter: 0,
        value: 10,
        label: 0,
        known: &[&[Some(10), None], &[None, None]],
    },
    Event {
        letter: 2,
        value: 20,
        label: 0,
        known: &[&[Some(20), Some(20)], &[Some(20), Some(20)]],
    },
];

#[test]
fn numbers_travel_with_events(rt: HostRuntime) -> Result<(), Fail> {
    let alphabet = alphabet_of(rt.alloc(), 2, &TWO_PROCESSES)?;
    let mut circle = Circle::new(rt.alloc(), &alphabet)?;
    try_known(&rt, &circle, alphabet.processes(), &NOTHING);
    try_events(&rt, &alphabet, &mut circle, &TWO_EVENTS);
    assert!(rt; alphabet.processes() == 2);
    assert_eq!(rt; circle.gossip(1).primary().len(), 2);
    drop(circle);
    drop(alphabet);
    Ok(())
}

/// Three processes, and a letter of the first two and one of the last two.
static CHAIN: [Named; 2] = [(b"a", &[0, 1]), (b"b", &[1, 2])];

/// Events of a letter of the processes 0 and 1, and of one of 1 and 2. Process 2 still knows the 9 of
/// process 0 when process 1 knows its 2.
static FOUR_EVENTS: [Event; 4] = [
    Event {
        letter: 0,
        value: 9,
        label: 0,
        known: &[
            &[Some(9), Some(9), None],
            &[Some(9), Some(9), None],
            &[None, None, None],
        ],
    },
    Event {
        letter: 1,
        value: 4,
        label: 0,
        known: &[
            &[Some(9), Some(9), None],
            &[Some(9), Some(4), Some(4)],
            &[Some(9), Some(4), Some(4)],
        ],
    },
    Event {
        letter: 0,
        value: 2,
        label: 1,
        known: &[
            &[Some(2), Some(2), Some(4)],
            &[Some(2), Some(2), Some(4)],
            &[Some(9), Some(4), Some(4)],
        ],
    },
    Event {
        letter: 1,
        value: 8,
        label: 1,
        known: &[
            &[Some(2), Some(2), Some(4)],
            &[Some(2), Some(8), Some(8)],
            &[Some(2), Some(8), Some(8)],
        ],
    },
];

#[test]
fn later_numbers_win_and_not_larger_ones(rt: HostRuntime) -> Result<(), Fail> {
    let alphabet = alphabet_of(rt.alloc(), 3, &CHAIN)?;
    let mut circle = Circle::new(rt.alloc(), &alphabet)?;
    try_events(&rt, &alphabet, &mut circle, &FOUR_EVENTS);
    drop(circle);
    drop(alphabet);
    Ok(())
}
