//! Documents, each its lines down to the scripts, and lines of scripts for them.

/// Two processes with a letter each and one that they share. Words with an even number of `a` are accepted.
pub const TWO: &str = "zla 1\nprocesses 2\nletter a 0\nletter b 1\nletter c 0 1\n\
    states 2\nstart 0\naccept 0\nrow 0 a 1\nrow 0 b 0\nrow 0 c 0\nrow 1 a 0\nrow 1 b 1\nrow 1 c 1\n";

/// The same letters, in one state. `b` has no row, so no word with a `b` is accepted.
pub const WITHOUT_B: &str = "zla 1\nprocesses 2\nletter a 0\nletter b 1\nletter c 0 1\nstates 1\n\
    start 0\naccept 0\nrow 0 a 0\nrow 0 c 0\n";

/// Scripts for these two that are used up.
pub const TWO_SCRIPTS: &str = "script 0 a c a\nscript 1 b c\nend\n";

/// Scripts of which process 0 waits for a partner that has ended.
pub const STUCK_SCRIPTS: &str = "script 0 c a\nscript 1 b\nend\n";

/// A broken diamond at the start, whose two states accept the same words.
pub const MERGED: &str =
    "zla 1\nprocesses 2\nletter a 0\nletter b 1\nstates 6\nstart 0\naccept 3 4 5\n\
    row 0 a 1\nrow 0 b 2\nrow 1 a 1\nrow 1 b 3\nrow 2 a 4\nrow 2 b 2\n\
    row 3 a 3\nrow 3 b 3\nrow 4 a 5\nrow 4 b 4\nrow 5 a 5\nrow 5 b 5\n";

/// The last letter decides the state; no process has both letters.
pub const LAST: &str = "zla 1\nprocesses 2\nletter a 0\nletter b 1\nstates 2\nstart 0\naccept 0\n\
    row 0 a 1\nrow 0 b 0\nrow 1 a 1\nrow 1 b 0\n";

/// Words of `a b` again and again; no process has both letters.
pub const OPEN: &str = "zla 1\nprocesses 2\nletter a 0\nletter b 1\nstates 2\nstart 0\naccept 0\n\
    row 0 a 1\nrow 1 b 0\n";

/// The word `c a b c`; `a` and `b` share no process.
pub const OPEN_AFTER_C: &str = "zla 1\nprocesses 2\nletter a 0\nletter b 1\nletter c 0 1\n\
    states 5\nstart 0\naccept 4\nrow 0 c 1\nrow 1 a 2\nrow 2 b 3\nrow 3 c 4\n";

/// Four processes in a ring, and a letter for each two neighbours. Words of even length.
pub const RING: &str =
    "zla 1\nprocesses 4\nletter c 1 2\nletter d 1 3\nletter e 0 3\nletter f 0 2\n\
    states 2\nstart 0\naccept 0\nrow 0 c 1\nrow 0 d 1\nrow 0 e 1\nrow 0 f 1\n\
    row 1 c 0\nrow 1 d 0\nrow 1 e 0\nrow 1 f 0\n";

/// Two clients and a lock: nobody works without it.
pub const LOCK: &str =
    "zla 1\nprocesses 3\nletter lock0 0 2\nletter unlock0 0 2\nletter lock1 1 2\n\
    letter unlock1 1 2\nletter work0 0\nletter work1 1\nstates 3\nstart 0\naccept 0\n\
    row 0 lock0 1\nrow 1 work0 1\nrow 1 unlock0 0\nrow 0 lock1 2\nrow 2 work1 2\nrow 2 unlock1 0\n";

/// Scripts of clients that take turns.
pub const LOCK_SCRIPTS: &str = "script 0 lock0 work0 unlock0\nscript 1 lock1 work1 unlock1\n\
    script 2 lock1 unlock1 lock0 unlock0\nend\n";
