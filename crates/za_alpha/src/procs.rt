ghost use Rattle.std.specs.Prelude.{◌≡◌, ℕ, ◌<◌, ◌≤◌, ◌==◌, ◌||◌, ◌↔◌, [], length, false, IfSome, IsTrue, MatchOption};
ghost use Rattle.za_alpha.specs.Words.{has, meets};
ghost use Rattle.za_alpha.specs.Procs.{members, no_process, with_process, IsLeastOf, IsLeastFrom};

/// A set of processes below 16: bit `p` of the number says whether process `p` is in it.
#[derive(Clone, Copy, Debug, PartialEq, Eq)]
pub struct Procs(pub u16);

/// How many processes a set can tell apart.
const WIDTH: usize = 16;

impl Procs {
    /// The empty set.
    pub fn none() -> Procs
        ensures value { result ≡ no_process }
        ensures empty { members result ≡ [] }
    {
        Procs(0)
    }

    /// Whether process `p` is in the set. No process from 16 on is.
    pub fn has(self, p: usize) -> bool
        ensures { result ≡ has (members self) p }
    {
        p < WIDTH && (self.0 >> p) & 1 == 1
    }

    /// The set and process `p`.
    pub fn with(self, p: usize) -> Procs
        requires { p < 16 }
        ensures value { result ≡ with_process self p }
        ensures joined { (q : ℕ) → has (members result) q ≡ (q == p || has (members self) q) }
    {
        Procs(self.0 | (1 << p))
    }

    /// The processes that are in one of the sets.
    pub fn union(self, other: Procs) -> Procs
        ensures { (q : ℕ) → has (members result) q ≡ (has (members self) q || has (members other) q) }
    {
        Procs(self.0 | other.0)
    }

    /// Whether no process is in the set.
    pub fn is_empty(self) -> bool
        ensures { IsTrue result ↔ (members self ≡ []) }
    {
        self.0 == 0
    }

    /// Whether each process of the set is below `n`.
    pub fn is_below(self, n: usize) -> bool
        ensures { IsTrue result ↔ ((p : ℕ) → IsTrue (has (members self) p) → p < n) }
    {
        for p in n..WIDTH {
            if self.has(p) {
                return false;
            }
        }
        true
    }

    /// Whether a process is in both sets.
    pub fn meets(self, other: Procs) -> bool
        ensures { result ≡ meets (members self) (members other) }
    {
        self.0 & other.0 != 0
    }

    /// How many processes are in the set.
    pub fn count(self) -> usize
        ensures { result ≡ length (members self) }
    {
        let mut count = 0;
        for p in 0..WIDTH {
            if self.has(p) {
                count += 1;
            }
        }
        count
    }

    /// The least process of the set, and `None` exactly for the empty set.
    pub fn least(self) -> Option<usize>
        ensures { MatchOption result (members self ≡ []) (IsLeastOf (members self)) }
    {
        self.least_from(0)
    }

    /// The least process of the set from process `start` on, which is at most 16, and `None` exactly
    /// where the set has none from there on.
    pub fn least_from(self, start: usize) -> Option<usize>
        requires { start ≤ 16 }
        ensures least { MatchOption result ((p : ℕ) → start ≤ p → has (members self) p ≡ false)
            (IsLeastFrom (members self) start) }
        ensures small { IfSome result (λ p. p < 16) }
    {
        let rest = (self.0 as u32) >> start;
        if rest == 0 {
            return None;
        }
        Some(start + rest.trailing_zeros() as usize)
    }
}
