//! What a desk that waits is woken by.

use std::hint::spin_loop;
use std::sync::Wait;
use std::sync::atomic::AtomicU64;
use std::sync::atomic::Ordering::SeqCst;

/// How often a desk looks for news before it sleeps. News mostly comes within the time of a few
/// transitions, and to sleep and be woken takes longer than that.
const LOOKS: usize = 200;

/// It counts the news for one desk, and whether that sleeps.
#[derive(Drop)]
pub(crate) struct Bell {
    rung: AtomicU64,
    asleep: AtomicU64,
}

impl Bell {
    pub(crate) fn new() -> Bell {
        Bell {
            rung: AtomicU64::new(0),
            asleep: AtomicU64::new(0),
        }
    }

    /// How often it was rung.
    pub(crate) fn count(&self) -> u64 {
        self.rung.load(SeqCst)
    }

    /// Rings, and wakes the desk if it sleeps. Whoever goes to sleep after this finds the count changed
    /// and stays awake.
    pub(crate) fn ring(&self) {
        self.rung.fetch_add(1, SeqCst);
        if self.asleep.load(SeqCst) == 1 {
            self.rung.wake_all();
        }
    }

    /// Waits until it is rung once more than `heard` times. It may return early.
    pub(crate) fn wait<R: Wait>(&self, rt: &R, heard: u64) {
        for _ in 0..LOOKS {
            if self.rung.load(SeqCst) != heard {
                return;
            }
            spin_loop();
        }
        self.asleep.store(1, SeqCst);
        self.rung.park(rt, (heard & 0xffff_ffff) as u32);
        self.asleep.store(0, SeqCst);
    }
}
