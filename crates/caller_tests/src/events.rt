//! Events: which words they are of, what is known of them, and how they are numbered.

use crate::common::{two_processes, without_b};
use callers::alphabets::may_swap;
use callers::gossip::after_first;
use callers::locals;
use callers::numbers::fresh;
use callers::pasts::leads_to;
use callers::views::news;
use samples::word_of;
use std::alloc::Global;
use std::process::Abort;
use std::test::Fail;
use za_alpha::{Alphabet, Letter, OutOfMemory, Word};
use za_dfa::Closed;
use za_ids::EventId;

/// A word, two letters, and whether they may swap after it.
type Swap = (&'static [u8], u8, u8, bool);

static SWAPS: [Swap; 4] = [
    (&[], 0, 1, true),
    (&[2], 1, 0, true),
    (&[0], 0, 2, false),
    (&[1], 2, 2, true),
];

fn assert_swap(
    rt: &impl Abort,
    alloc: Global,
    alphabet: &Alphabet,
    case: &Swap,
) -> Result<(), OutOfMemory> {
    let (letters, a, b, swap) = *case;
    let w = word_of(alloc, letters)?;
    assert!(rt; alphabet.has_word(&w));
    assert!(rt; (a as usize) < alphabet.letters() && (b as usize) < alphabet.letters());
    assert_eq!(rt; may_swap(alphabet, &w, Letter(a), Letter(b))?, swap);
    Ok(())
}

#[test]
fn letters_that_may_swap(rt: HostRuntime) -> Result<(), Fail> {
    let alphabet = two_processes(rt.alloc())?;
    for case in &SWAPS {
        assert_swap(&rt, rt.alloc(), &alphabet, case)?;
    }
    Ok(())
}

/// Two events of the word `a b c a`, and whether the first can have had to do with the second.
type Lead = (usize, usize, bool);

static LEADS: [Lead; 3] = [(0, 2, true), (0, 1, false), (1, 3, true)];

fn assert_lead(
    rt: &impl Abort,
    alloc: Global,
    alphabet: &Alphabet,
    w: &Word,
    case: &Lead,
) -> Result<(), OutOfMemory> {
    let (i, at, leads) = *case;
    assert!(rt; alphabet.has_word(w));
    assert!(rt; i < w.len() && at < w.len());
    assert_eq!(rt; leads_to(alloc, alphabet, w, i, at)?, leads);
    Ok(())
}

#[test]
fn chains_of_events_of_a_b_c_a(rt: HostRuntime) -> Result<(), Fail> {
    let alphabet = two_processes(rt.alloc())?;
    let w = word_of(rt.alloc(), &[0, 1, 2, 0])?;
    for case in &LEADS {
        assert_lead(&rt, rt.alloc(), &alphabet, &w, case)?;
    }
    Ok(())
}

/// Two processes, and the latest event of the second that the first knows after `a b c a`.
type News = (usize, usize, Option<usize>);

static NEWS: [News; 3] = [(0, 1, Some(2)), (1, 0, Some(2)), (0, 0, Some(3))];

fn assert_news(
    rt: &impl Abort,
    alloc: Global,
    alphabet: &Alphabet,
    w: &Word,
    case: &News,
) -> Result<(), OutOfMemory> {
    let (p, q, event) = *case;
    assert!(rt; alphabet.has_word(w) && w.len() == 4);
    assert!(rt; p < alphabet.processes() && q < alphabet.processes());
    assert_eq!(rt; news(alloc, alphabet, w, p, q)?, event);
    Ok(())
}

#[test]
fn news_after_a_b_c_a(rt: HostRuntime) -> Result<(), Fail> {
    let alphabet = two_processes(rt.alloc())?;
    let w = word_of(rt.alloc(), &[0, 1, 2, 0])?;
    for case in &NEWS {
        assert_news(&rt, rt.alloc(), &alphabet, &w, case)?;
    }
    Ok(())
}

#[test]
fn numbers_of_events(rt: HostRuntime) {
    assert_eq!(rt; fresh(2, Letter(1), &[]), EventId(10));
    assert_eq!(rt;
        fresh(2, Letter(1), &[EventId(10), EventId(12)]),
        EventId(11)
    );
}

#[test]
fn numbers_after_a_first_event(rt: HostRuntime) -> Result<(), Fail> {
    let alphabet = two_processes(rt.alloc())?;
    assert!(rt; 2 < alphabet.letters());
    let rows = after_first(rt.alloc(), &alphabet, Letter(2))?;
    assert_eq!(rt; rows.primary(), [EventId(19); 2].as_slice());
    Ok(())
}

/// The number of a letter's event as the first of all, by the local state after it.
fn first_number(
    rt: &impl Abort,
    alloc: Global,
    closed: &Closed,
    a: u8,
) -> Result<Option<EventId>, OutOfMemory> {
    assert!(rt; (a as usize) < closed.dfa().alphabet().letters());
    let local = locals::after_first(alloc, closed, Letter(a))?;
    Ok(local.gossip().primary().first().copied())
}

#[test]
fn local_states_after_a_first_event(rt: HostRuntime) -> Result<(), Fail> {
    let closed = without_b(&rt, rt.alloc())?;
    for (a, number) in [(0, EventId(1)), (2, EventId(19))] {
        assert_eq!(rt; first_number(&rt, rt.alloc(), &closed, a)?, Some(number));
    }
    Ok(())
}
