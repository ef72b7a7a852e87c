//! A whole run on one thread.

ghost use Rattle.std.specs.Prelude.{◌≡◌, IfOk};
ghost use Rattle.za_script.specs.ScriptLists.{FitAlphabet};
ghost use Rattle.za_script.specs.Woven.{weave_of};
ghost use Rattle.za_table.specs.Ends.{IsEnded, HasAnswer};

use crate::ended::Ended;
use crate::table::Table;
use std::alloc::Global;
use za_alpha::OutOfMemory;
use za_dfa::Closed;
use za_script::Scripts;

/// Runs a table on one thread until it is over. The scripts fit the automaton's alphabet, and up to `cache`
/// transitions are kept. Its word is the weave of the scripts, and its answer is that of the automaton to
/// them. Want of memory is the one free answer.
pub fn solo(
    alloc: Global,
    closed: Closed,
    scripts: Scripts,
    cache: u8,
) -> Result<Ended, OutOfMemory>
    requires { FitAlphabet closed.alphabet scripts }
    ensures given { IfOk result (λ e. e.given ≡ record { dfa = closed; scripts = scripts }) }
    ensures over { IfOk result IsEnded }
    ensures answer { IfOk result HasAnswer }
    ensures word { IfOk result (λ e. e.state.journal ≡ weave_of closed.alphabet scripts) }
{
    let mut table = Table::open(alloc, closed, scripts, cache)?;
    table.finish();
    Ok(table.into_ended())
}
