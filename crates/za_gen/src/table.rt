//! The alphabet and the automaton of generated jobs.

ghost use Rattle.std.specs.Prelude.{◌≡◌, ◌<◌, IfOk, map};
ghost use Rattle.za_gen.specs.Generated.{accepting_at, generated_alphabet, generated_targets, letter_list, listed};
ghost use Rattle.za_gen.specs.Generated.{next_state, next_u, next_v};
ghost use Rattle.za_gen.specs.Private.Rows.{listed_by};

use std::alloc::{AllocError, Global};
use za_alpha::{AlphaFault, Alphabet, LetterRow, OutOfMemory};

/// How many processes there are.
const PROCESSES: usize = 4;

/// The row of a letter.
fn row(alloc: Global, name: &[u8], processes: &[u32]) -> Result<LetterRow, AllocError>
    ensures { IfOk result (λ row. listed_by row ≡ listed name.now processes.now) }
{
    Ok(LetterRow {
        name: Vec::from_slice(alloc, name)?,
        procs: Vec::from_slice(alloc, processes)?,
    })
}

/// The rows of the letters, with their processes in rising order: one of each process, and one of each
/// two neighbours in a ring.
fn rows(alloc: Global) -> Result<Vec<LetterRow>, AllocError>
    ensures { IfOk result (λ rows. map listed_by rows.items ≡ letter_list) }
{
    let mut rows = Vec::new(alloc);
    rows.push(row(alloc, b"a", &[0])?)?;
    rows.push(row(alloc, b"b", &[1])?)?;
    rows.push(row(alloc, b"c", &[2])?)?;
    rows.push(row(alloc, b"d", &[3])?)?;
    rows.push(row(alloc, b"e", &[0, 1])?)?;
    rows.push(row(alloc, b"f", &[1, 2])?)?;
    rows.push(row(alloc, b"g", &[2, 3])?)?;
    rows.push(row(alloc, b"h", &[0, 3])?)?;
    Ok(rows)
}

/// Want of memory, the one fault of rows that are right.
fn only_memory(_fault: AlphaFault) -> OutOfMemory
    requires { _fault ≡ AlphaFault.OutOfMemory }
{
    OutOfMemory
}

/// The alphabet of the letters.
pub(crate) fn alphabet(alloc: Global) -> Result<Alphabet, OutOfMemory>
    ensures { IfOk result (λ a. a ≡ generated_alphabet) }
{
    match Alphabet::new(alloc, PROCESSES, rows(alloc)?) {
        Ok(alphabet) => Ok(alphabet),
        Err(fault) => Err(only_memory(fault)),
    }
}

/// The half of the states to which a letter leads.
fn next_u(u: u8, a: u8) -> u8
    requires { u < 2 }
    ensures value { result ≡ next_u u a }
    ensures small { result < 2 }
{
    match a {
        2 | 3 => 1 - u,
        6 => 0,
        _ => u,
    }
}

/// The place in the half to which a letter leads.
fn next_v(v: u8, a: u8) -> u8
    requires { v < 4 }
    ensures value { result ≡ next_v v a }
    ensures small { result < 4 }
{
    match a {
        0 => (v + 1) % 4,
        1 => (v + 3) % 4,
        4 => 0,
        _ => v,
    }
}

/// Where a letter leads from a state.
pub(crate) fn next_state(q: u8, a: u8) -> u8
    requires { q < 8 }
    ensures value { result ≡ next_state q a }
    ensures small { result < 8 }
{
    4 * next_u(q / 4, a) + next_v(q % 4, a)
}

/// Where each letter leads from each state, by state and then by letter.
pub(crate) fn targets(alloc: Global) -> Result<Vec<u8>, OutOfMemory>
    ensures { IfOk result (λ targets. targets.items ≡ generated_targets) }
{
    let mut targets = Vec::new(alloc);
    for i in 0..64 {
        targets.push(next_state(i / 8, i % 8))?;
    }
    Ok(targets)
}

/// Which states accept: this one alone.
pub(crate) fn accepting(alloc: Global, reached: u8) -> Result<Vec<bool>, OutOfMemory>
    ensures { IfOk result (λ accepting. accepting.items ≡ accepting_at reached) }
{
    let mut accepting = Vec::new(alloc);
    for q in 0..8 {
        accepting.push(q == reached)?;
    }
    Ok(accepting)
}
