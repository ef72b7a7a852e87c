//! Numbers by which local states are told apart at a glance.

ghost use Rattle.std.specs.Prelude.{◌≡◌, length};
ghost use Rattle.za_shared.specs.Marks.{mark, with_mark};

use za_local::Local;

/// The mark of a local state. Equal ones have the same.
pub(crate) fn mark_of(local: &Local) -> u32
    ensures { result ≡ mark local.now }
{
    let ids = local.gossip().primary();
    let mut sum: u32 = 0;
    for i in 0..ids.len() {
        sum = sum.wrapping_add(ids[i].0);
    }
    sum
}

/// The mark of a key, where there is room for one.
pub(crate) fn set_mark(marks: &mut [u32], key: u32, mark: u32)
    ensures { marks.new ≡ with_mark marks.old key mark }
{
    let at = key as usize;
    if at < marks.len() {
        marks[at] = mark;
    }
}
