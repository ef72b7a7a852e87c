//! Labels of events, as the local states of their participants have them.

ghost use Rattle.std.specs.Prelude.{◌≡◌, ℕ, ◌<◌, List, [], ◌∷◌, ◌++◌, length, IsTrue};
ghost use Rattle.za_alpha.specs.Words.{has};
ghost use Rattle.za_alpha.specs.Alphabet.{loc_of};
ghost use Rattle.za_local.specs.Locals.{local_after, AreAllLocalsAfter};
ghost use Rattle.za_shared.specs.Records.{locals_of};
ghost use Rattle.za_table.specs.Tables.{label_at};

use za_alpha::Letter;
use za_dfa::Closed;
use za_ids::label_of;
use za_local::Local;
use za_shared::SharedLocals;

/// The label of the latest event, in which the process took part, from its local state after it: its
/// entry for itself is the number of that event.
fn own_label(closed: &Closed, local: &Local, p: usize) -> u16
    requires process { p < closed.now.alphabet.processes }
    requires event { (w : List ℕ) × (a : ℕ) × (a < length closed.now.alphabet.letters) ×
        IsTrue (has (loc_of closed.now.alphabet a) p) × (local.now ≡ local_after closed.now (w ++ a ∷ []) p) }
    ensures { (w : List ℕ) (a : ℕ) → IsTrue (has (loc_of closed.now.alphabet a) p) →
        local.now ≡ local_after closed.now (w ++ a ∷ []) p → result ≡ label_at closed.now (w ++ a ∷ []) (length w) }
{
    let n = closed.dfa().alphabet().processes();
    let entries = local.gossip().primary();
    label_of(n, entries[p]).unwrap_or(0)
}

/// The label of the latest event, of this letter, from the local states after it.
pub(crate) fn latest_label(shared: &SharedLocals, a: Letter) -> u16
    requires letter { a.0 < length shared.now.dfa.alphabet.letters }
    requires event { (w : List ℕ) × AreAllLocalsAfter shared.now.dfa (w ++ a.0 ∷ []) (locals_of shared.now) }
    ensures { (w : List ℕ) → AreAllLocalsAfter shared.now.dfa (w ++ a.0 ∷ []) (locals_of shared.now) →
        result ≡ label_at shared.now.dfa (w ++ a.0 ∷ []) (length w) }
{
    let closed = shared.closed();
    let participants = closed.dfa().alphabet().loc(a);
    let Some(p) = participants.least() else {
        unreachable!()
    };
    own_label(closed, shared.local(p), p)
}
