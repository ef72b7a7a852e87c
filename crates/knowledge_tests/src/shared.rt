//! Shared local states: which records are live, cached transitions, and transitions that were made before.

ghost use Rattle.std.specs.Prelude.{◌≡◌, []};
ghost use Rattle.za_local.specs.Locals.{HasShape};
ghost use Rattle.za_shared.specs.Records.{AreOfAWord, IsTransition};

use crate::gossip::assert_ids;
use samples::{ONE_PROCESS, alphabet_of, closed_of, dfa_of, to_and_fro};
use std::alloc::Global;
use std::process::Abort;
use std::test::Fail;
use za_alpha::{Letter, OutOfMemory};
use za_dfa::Closed;
use za_local::{Bench, Local, opening, transit};
use za_shared::SharedLocals;

/// One process, its letter, and one state.
fn one_process(alloc: Global) -> Result<Closed, Fail> {
    let alphabet = alphabet_of(alloc, 1, &ONE_PROCESS)?;
    let dfa = dfa_of(alloc, alphabet, 0, &[true], &[0])?;
    closed_of(dfa)
}

/// A letter, how many records are live after it, and the state to which the word leads then.
type Fired = (u8, usize, u8);

fn assert_fired(rt: &impl Abort, shared: &mut SharedLocals, case: &Fired)
    requires free { shared.old.own ≡ [] }
    requires locals { AreOfAWord shared.old }
    ensures free { shared.new.own ≡ [] }
    ensures locals { AreOfAWord shared.new }
{
    let (a, live, state) = *case;
    let alphabet = shared.closed().dfa().alphabet();
    assert!(rt; (a as usize) < alphabet.letters());
    let participants = alphabet.loc(Letter(a));
    shared.fire(Letter(a), participants);
    assert_eq!(rt; (shared.live(), shared.verdict()), (live, state));
}

fn assert_all_fired(rt: &impl Abort, shared: &mut SharedLocals, cases: &[Fired])
    requires free { shared.old.own ≡ [] }
    requires locals { AreOfAWord shared.old }
{
    for case in cases {
        assert_fired(rt, shared, case);
    }
}

/// `a c a` with `b` after the first `a`: where all know the same there is one record.
static LIVE: [Fired; 4] = [(0, 2, 1), (1, 2, 1), (2, 1, 1), (0, 2, 0)];

#[test]
fn live_records_of_two_processes(rt: HostRuntime) -> Result<(), Fail> {
    let closed = to_and_fro(rt.alloc())?;
    let mut shared = SharedLocals::open(rt.alloc(), closed, 0)?;
    assert_eq!(rt; (shared.bound(), shared.live()), (3, 1));
    assert_all_fired(&rt, &mut shared, &LIVE);
    drop(shared);
    Ok(())
}

/// Fires the letter of one process again and again: the number of its latest event.
fn assert_numbers(rt: &impl Abort, shared: &mut SharedLocals, numbers: &[u32])
    requires free { shared.old.own ≡ [] }
    requires locals { AreOfAWord shared.old }
{
    for number in numbers {
        assert_fired(rt, shared, &(0, 2, 0));
        assert!(rt; 0 < shared.closed().dfa().alphabet().processes());
        assert_ids(rt, shared.local(0).gossip().primary(), &[*number]);
    }
}

#[test]
fn cache_of_one(rt: HostRuntime) -> Result<(), Fail> {
    let closed = one_process(rt.alloc())?;
    let mut shared = SharedLocals::open(rt.alloc(), closed, 1)?;
    assert_eq!(rt; (shared.bound(), shared.live()), (4, 1));
    assert_numbers(&rt, &mut shared, &[1, 2, 1, 2]);
    drop(shared);
    Ok(())
}

/// Has copies of a letter's participants' local states on the bench, and their transition made.
fn make(rt: &impl Abort, shared: &SharedLocals, a: Letter, bench: &mut Bench, made: &mut Local)
    requires locals { AreOfAWord shared.now }
    requires processes { bench.old.processes ≡ shared.now.dfa.alphabet.processes }
    requires states { bench.old.states ≡ shared.now.dfa.states }
    requires shape { HasShape shared.now.dfa.alphabet.processes shared.now.dfa.states made.old }
    ensures processes { bench.new.processes ≡ shared.now.dfa.alphabet.processes }
    ensures states { bench.new.states ≡ shared.now.dfa.states }
    ensures made { IsTransition shared.now.dfa a.0 bench.new.locals made.new }
{
    let alphabet = shared.closed().dfa().alphabet();
    assert!(rt; (a.0 as usize) < alphabet.letters());
    let participants = alphabet.loc(a);
    assert!(rt; participants.is_below(alphabet.processes()));
    shared.gather_into(participants, bench);
    transit(shared.closed(), a, bench, made);
}

/// Where all local states lead after a letter whose transition was made.
fn verdict_after(
    rt: &impl Abort,
    shared: &mut SharedLocals,
    a: Letter,
    bench: &Bench,
    made: &Local,
) -> u8
    requires free { shared.old.own ≡ [] }
    requires locals { AreOfAWord shared.old }
    requires processes { bench.now.processes ≡ shared.old.dfa.alphabet.processes }
    requires states { bench.now.states ≡ shared.old.dfa.states }
    requires made { IsTransition shared.old.dfa a.0 bench.now.locals made.now }
    ensures free { shared.new.own ≡ [] }
    ensures locals { AreOfAWord shared.new }
    ensures dfa { shared.new.dfa ≡ shared.old.dfa }
{
    let alphabet = shared.closed().dfa().alphabet();
    assert!(rt; (a.0 as usize) < alphabet.letters());
    let participants = alphabet.loc(a);
    shared.settle(a, participants, bench, made);
    shared.verdict()
}

/// Settles a letter twice by what was made before the first time.
fn settle_twice(
    rt: &impl Abort,
    alloc: Global,
    shared: &mut SharedLocals,
) -> Result<(), OutOfMemory>
    requires free { shared.old.own ≡ [] }
    requires locals { AreOfAWord shared.old }
{
    let mut bench = Bench::new(alloc, shared.closed())?;
    let mut made = opening(alloc, shared.closed())?;
    make(rt, shared, Letter(0), &mut bench, &mut made);
    let first = verdict_after(rt, shared, Letter(0), &bench, &made);
    let second = verdict_after(rt, shared, Letter(0), &bench, &made);
    assert_eq!(rt; (first, second), (1, 0));
    drop(made);
    drop(bench);
    Ok(())
}

/// The second time the bench is stale, and the transition is computed again.
#[test]
fn settled_again(rt: HostRuntime) -> Result<(), Fail> {
    let closed = to_and_fro(rt.alloc())?;
    let mut shared = SharedLocals::open(rt.alloc(), closed, 0)?;
    let tried = settle_twice(&rt, rt.alloc(), &mut shared);
    drop(shared);
    Ok(tried?)
}
