ghost use Rattle.std.specs.Prelude.{◌≡◌, ◌<◌, ◌≤◌, ◌↔◌, ℕ, List, [], Option, length, IfOk, OnOk, OnErr, IfSome};
ghost use Rattle.std.specs.Io.KnownBytes.{ReadConsumes};
ghost use Rattle.za_base.specs.Fault.{Rises};

use thiserror::Error;

/// A read or a write failed.
#[derive(Clone, Copy, Debug, PartialEq, Eq, Error)]
#[error("a read or a write failed")]
pub struct Failed;

/// Where bytes come from. A source may tell which bytes it has left, and it counts its faults.
pub trait Source {
    /// The bytes that are left, where the source tells them.
    ghost left: { Self → Option (List ℕ) };

    /// The count of faults. It never falls, and stops at the last value of 64 bits.
    ghost faults: { Self → ℕ };

    /// Moves the first bytes that are left to the front of `into`, which isn't empty, and says how
    /// many they are. It answers 0 exactly where none is left. The count of faults stays. After
    /// `Failed` nothing was taken and the count of faults rose, or stands at its last value.
    fn read(&mut self, into: &mut [u8]) -> Result<usize, Failed>
        requires { 0 < length into.old }
        ensures within { IfOk result (λ n. n ≤ length into.old) }
        ensures bytes { ReadConsumes (left self.old) (left self.new) result into.new }
        ensures end { IfOk result (λ n. IfSome (left self.old) (λ xs. (n ≡ 0) ↔ (xs ≡ []))) }
        ensures never_falls { faults self.old ≤ faults self.new }
        ensures fault { OnErr result (Rises (faults self.old) (faults self.new)) }
        ensures stays { OnOk result (faults self.new ≡ faults self.old) };
}
