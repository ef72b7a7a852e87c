//! What the tests of tables, halls and threads share: tables at the start, and what runs come to.

ghost use Rattle.std.specs.Prelude.{◌≡◌, IfOk};
ghost use Rattle.za_machine.specs.Machine.{initial};
ghost use Rattle.za_table.specs.Tables.{machine_of};

use samples::{has_letters, scripts_of};
use std::alloc::Global;
use std::process::Abort;
use std::test::Fail;
use za_alpha::Letter;
use za_dfa::Closed;
use za_script::Answer;
use za_table::{Ended, Table};

/// A table at the start, with so many lines of a cache.
pub(crate) fn table_of(
    alloc: Global,
    closed: Closed,
    letters: &[(usize, Letter)],
    cache: u8,
) -> Result<Table, Fail>
    ensures { IfOk result (λ t. t.state ≡ initial (machine_of t.given)) }
{
    let scripts = scripts_of(alloc, closed.dfa().alphabet(), letters)?;
    Ok(Table::open(alloc, closed, scripts, cache)?)
}

/// The run has accepted a word of these letters.
pub(crate) fn assert_accepted(rt: &impl Abort, ended: &Ended, letters: &[u8]) {
    assert_eq!(rt; ended.answer(), Answer::Accept);
    assert!(rt; has_letters(ended.word(), letters));
}
