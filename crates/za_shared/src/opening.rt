//! Records before any event.

ghost use Rattle.std.specs.Prelude.{◌≡◌, ◌<◌, All, [], length, IfOk, vec_capacity};
ghost use Rattle.za_local.specs.Locals.{HasShape};
ghost use Rattle.za_shared.specs.Private.Inside.{lines_of_rows, cache_in};

use std::alloc::Global;
use za_alpha::OutOfMemory;
use za_cache::Rows;
use za_dfa::Closed;
use za_local::{Local, opening};

/// So many local states, and room for one more.
pub(crate) fn openings(
    alloc: Global,
    closed: &Closed,
    count: usize,
) -> Result<Vec<Local>, OutOfMemory>
    requires { count < usize.MAX }
    ensures count { IfOk result (λ v. length v.items ≡ count) }
    ensures room { IfOk result (λ v. count < vec_capacity v) }
    ensures shaped { IfOk result (λ v. All (HasShape closed.now.alphabet.processes closed.now.states) v.items) }
{
    let mut locals = Vec::with_capacity(alloc, count + 1)?;
    for i in 0..count {
        locals.push_reserved(opening(alloc, closed)?);
    }
    Ok(locals)
}

/// Rows for so many lines: none for 0.
pub(crate) fn rows_for(alloc: Global, cache: u8) -> Result<Option<Rows>, OutOfMemory>
    ensures cache { IfOk result (λ rows. cache_in rows ≡ cache) }
    ensures lines { IfOk result (λ rows. lines_of_rows rows ≡ []) }
{
    if cache == 0 {
        return Ok(None);
    }
    Ok(Some(Rows::new(alloc, cache as usize)?))
}
