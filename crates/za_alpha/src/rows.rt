ghost use Rattle.std.specs.Prelude.{◌≡◌, ◌<◌, ◌↔◌, ◌∷◌, ◌++◌, [], IsTrue, All, OnOk, OnErr, length, map, nat_le};
ghost use Rattle.std.specs.List.{list_any};
ghost use Rattle.std.specs.Str.{bytes_eq};
ghost use Rattle.za_alpha.specs.Limits.{most_letters};
ghost use Rattle.za_alpha.specs.Words.{IsWord};
ghost use Rattle.za_alpha.specs.Letters.{numbers};
ghost use Rattle.za_alpha.specs.Rows.{letter_fault, alphabet_fault, set_of, letter_of_row};
ghost use Rattle.za_alpha.specs.Private.Index.{IsIndex};
ghost use Rattle.za_alpha.specs.Private.NextRow.{IsNextRow};

use crate::alphabet::LetterRow;
use crate::fault::{AlphaFault, OutOfMemory};
use crate::index::{Index, Named, key_of, place_of_name};
use crate::letters::Letters;
use crate::procs::Procs;
use crate::word::Letter;
use za_names::is_name;

impl Named for LetterRow {
    ghost letter = { letter_of_row };

    fn name(&self) -> &[u8] {
        self.name.as_slice()
    }
}

/// The most processes of an alphabet.
pub const MOST_PROCESSES: usize = 10;

/// The most letters of an alphabet.
pub const MOST_LETTERS: usize = 128;

/// Whether one of the rows has the name, by the index of their names.
fn is_named(rows: &[LetterRow], index: &Index, name: &[u8]) -> bool
    requires { IsIndex (map letter_of_row rows.now) index.now }
    ensures { result ≡ list_any (λ row. bytes_eq row.name.items name.now) rows.now }
{
    place_of_name(rows, index, name).is_some()
}

fn has_from(procs: &[u32], processes: usize) -> bool
    ensures { result ≡ list_any (λ p. nat_le processes p) procs.now }
{
    procs.iter().any(|p| processes <= *p as usize)
}

/// The first test of a row that fails, after the rows before it and by the index of their names.
#[tactic(auto, unfolding(crate::specs::Rows::letter_fault))]
fn fault_of_row(
    processes: usize,
    before: &[LetterRow],
    index: &Index,
    row: &LetterRow,
) -> Option<AlphaFault>
    requires { IsIndex (map letter_of_row before.now) index.now }
    ensures { result ≡ letter_fault processes before.now row.now }
{
    let at = before.len();
    if !is_name(row.name.as_slice()) {
        return Some(AlphaFault::BadName { at });
    }
    if is_named(before, index, row.name.as_slice()) {
        return Some(AlphaFault::RepeatedName { at });
    }
    if row.procs.is_empty() {
        return Some(AlphaFault::EmptyLoc { at });
    }
    if has_from(row.procs.as_slice(), processes) {
        return Some(AlphaFault::NoSuchProcess { at });
    }
    None
}

/// The first fault of a number of processes and rows.
pub(crate) fn fault_of(processes: usize, rows: &[LetterRow]) -> Option<AlphaFault>
    ensures { result ≡ alphabet_fault processes rows.now }
{
    if !(1 <= processes && processes <= MOST_PROCESSES) {
        return Some(AlphaFault::ProcessCount);
    }
    if !(1 <= rows.len() && rows.len() <= MOST_LETTERS) {
        return Some(AlphaFault::LetterCount);
    }
    let mut index = Index::new();
    for (at, row) in rows.iter().enumerate() {
        if let Some(fault) = fault_of_row(processes, &rows[..at], &index, row) {
            return Some(fault);
        }
        index.add(at, key_of(row.name.as_slice()));
    }
    None
}

fn set_of(processes: &[u32]) -> Procs
    requires { All (λ p. p < 16) processes.now }
    ensures { result ≡ set_of processes.now }
{
    let mut set = Procs::none();
    for process in processes {
        set = set.with(*process as usize);
    }
    set
}

/// Adds the letter that a row says.
pub(crate) fn add_row(letters: &mut Letters, row: LetterRow) -> Result<(), OutOfMemory>
    requires room { length letters.old.letters < most_letters }
    requires right { IsNextRow letters.old row }
    ensures ok { OnOk result (letters.new ≡ record letters.old {
      letters = letters.old.letters ++ letter_of_row row ∷ [];
    }) }
    ensures err { OnErr result (letters.new ≡ letters.old) }
{
    let loc = set_of(row.procs.as_slice());
    letters.add(row.name, loc)
}

fn letters_are_below(letters: &[Letter], bound: usize) -> bool
    ensures { IsTrue result ↔ All (λ (a : Letter). a.0 < bound) letters.now }
{
    letters.iter().all(|a| (a.0 as usize) < bound)
}

/// Whether each letter is below a bound.
pub(crate) fn are_below(letters: &[Letter], bound: usize) -> bool
    ensures { IsTrue result ↔ IsWord bound (numbers letters.now) }
{
    letters_are_below(letters, bound)
}
