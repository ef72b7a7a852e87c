ghost use Rattle.std.specs.Prelude.{◌≡◌, ◌<◌, ◌≤◌, ℕ, List, Option, length, IfOk, OnOk, OnErr};
ghost use Rattle.std.specs.Io.KnownBytes.{WriteAppends};
ghost use Rattle.za_base.specs.Fault.{Rises};

use crate::source::Failed;

/// Where bytes go. A sink may tell which bytes were written to it, and it counts its faults.
pub trait Sink {
    /// The bytes written so far, where the sink tells them.
    ghost written: { Self → Option (List ℕ) };

    /// The count of faults. It never falls, and stops at the last value of 64 bits.
    ghost faults: { Self → ℕ };

    /// Appends the first bytes of `piece`, which isn't empty, and says how many they are: one at
    /// least. The count of faults stays. After `Failed` nothing was appended and the count of faults
    /// rose, or stands at its last value.
    fn write(&mut self, piece: &[u8]) -> Result<usize, Failed>
        requires { 0 < length piece.now }
        ensures some { IfOk result (λ n. 1 ≤ n) }
        ensures within { IfOk result (λ n. n ≤ length piece.now) }
        ensures bytes { WriteAppends (written self.old) (written self.new) result piece.now }
        ensures never_falls { faults self.old ≤ faults self.new }
        ensures fault { OnErr result (Rises (faults self.old) (faults self.new)) }
        ensures stays { OnOk result (faults self.new ≡ faults self.old) };
}
